//! Keys and signatures of HSS, by their commands. The public key is Bouncy Castle's top level behind the number of levels.

use crate::signatures::{Case, IDENT, SEED, answer, are_written};
use crate::support::is_answer;
use basil_cli::status::Status;
use std::alloc::Global;
use std::test::Fail;

/// The public key of w4h5 over w4h5.
const PUBLIC: &str =
    "0000000200000005000000036465666768696a6b6c6d6e6f70717273f503830a2b4a384d52564ac898b14d11c8372b5c842aa5915c277a9efd92d2d1";

/// The same with three levels.
const THREE_LEVELS: &str =
    "0000000300000005000000036465666768696a6b6c6d6e6f70717273f503830a2b4a384d52564ac898b14d11c8372b5c842aa5915c277a9efd92d2d1";

/// The same with the types of no set.
const NO_SET: &str =
    "0000000200000005000000026465666768696a6b6c6d6e6f70717273f503830a2b4a384d52564ac898b14d11c8372b5c842aa5915c277a9efd92d2d1";

const CASES: &[Case] = &[
    (
        "the public key of two levels, with an input that isn't read",
        &["hsskeys", "w4h5", "w4h5", SEED, IDENT],
        b"unread",
        Status::Done,
        PUBLIC,
    ),
    (
        "a public key hasn't 60 bytes",
        &["hssverify", "aa", "00000001"],
        b"",
        Status::Refused { reason: 1 },
        "refused 1",
    ),
    (
        "a public key of no level",
        &["hssverify", NO_LEVEL, "00000001"],
        b"",
        Status::Refused { reason: 2 },
        "refused 2",
    ),
    (
        "a signature of two levels under a key of three",
        &["hssverify", THREE_LEVELS, "00000001"],
        b"",
        Status::Refused { reason: 3 },
        "refused 3",
    ),
    (
        "the top level's key is of no set",
        &["hssverify", NO_SET, "00000001"],
        b"",
        Status::Refused { reason: 4 },
        "refused 4 0",
    ),
    (
        "nothing follows the number of levels",
        &["hssverify", PUBLIC, "00000001"],
        b"",
        Status::Refused { reason: 5 },
        "refused 5 0",
    ),
    (
        "no number above 1,023",
        &["hsssign", "w4h5", "w4h5", SEED, IDENT, "1024"],
        b"",
        Status::BadWords,
        "usage",
    ),
    (
        "no number",
        &["hsssign", "w4h5", "w4h5", SEED, IDENT],
        b"",
        Status::BadWords,
        "usage",
    ),
    (
        "the bottom level has no set",
        &["hsskeys", "w4h5", "w4h20", SEED, IDENT],
        b"",
        Status::BadWords,
        "usage",
    ),
    (
        "a level has no set",
        &["hsskeys", "w4h5", SEED, IDENT],
        b"",
        Status::BadWords,
        "usage",
    ),
    (
        "an identifier of a byte too few",
        &[
            "hsskeys",
            "w4h5",
            "w4h5",
            SEED,
            "6465666768696a6b6c6d6e6f707172",
        ],
        b"",
        Status::BadWords,
        "usage",
    ),
    (
        "no signature",
        &["hssverify", PUBLIC],
        b"",
        Status::BadWords,
        "usage",
    ),
    (
        "half a byte",
        &["hssverify", PUBLIC, "000"],
        b"",
        Status::BadWords,
        "usage",
    ),
];

/// A public key of no level.
const NO_LEVEL: &str =
    "000000000000000000000000000000000000000000000000000000000000000000000000000000000000000000000000000000000000000000000000";

#[test]
fn keys_are_made_and_signatures_refused(rt: HostRuntime) -> Result<(), Fail> {
    are_written(&rt, rt.alloc(), CASES)
}

/// The signature of a message with number 71, top leaf 2 and bottom leaf 7, and a newline.
fn signature(alloc: Global) -> Result<Vec<u8>, Fail> {
    let given = answer(
        alloc,
        &["hsssign", "w4h5", "w4h5", SEED, IDENT, "71"],
        b"another",
    )?;
    if given.status != Status::Done {
        return Err("not signed".into());
    }
    Ok(given.text)
}

/// What a row shows, the public key, how many of the signature's digits are kept, its last ones, how the call ends, and
/// what it writes.
type Changed = (
    &'static str,
    &'static str,
    usize,
    &'static str,
    Status,
    &'static [u8],
);

/// The signature has 9,512 digits; its last six are those of an independent program.
const CHANGED: &[Changed] = &[
    (
        "nothing is changed",
        PUBLIC,
        9506,
        "3bce1d",
        Status::Done,
        b"accepted\n",
    ),
    (
        "the last byte is another",
        PUBLIC,
        9506,
        "3bce10",
        Status::Refused { reason: 6 },
        b"refused 6 1 6\n",
    ),
    (
        "the key has three levels",
        THREE_LEVELS,
        9506,
        "3bce1d",
        Status::Refused { reason: 3 },
        b"refused 3\n",
    ),
    (
        "the signature is cut to 100 bytes",
        PUBLIC,
        200,
        "",
        Status::Refused { reason: 5 },
        b"refused 5 0\n",
    ),
];

/// Whether the signature that keeps so many digits and ends with these is answered so.
fn ends_so(alloc: Global, signed: &[u8], row: &Changed) -> Result<bool, Fail> {
    let (_shows, public, kept, last, status, text) = *row;
    let front = signed.get(..kept).ok_or("too short")?;
    let front = str::from_utf8(front).map_err(|_| "no text")?;
    let changed = format!(in alloc; "{front}{last}")?;
    let arguments = ["hssverify", public, changed.as_str()];
    let given = answer(alloc, &arguments, b"another")?;
    Ok(is_answer(&given, status, text))
}

#[test]
fn a_number_signs(rt: HostRuntime) -> Result<(), Fail> {
    let signed = signature(rt.alloc())?;
    assert!(rt; signed.len() == 9513);
    assert!(rt; signed.starts_with(b"0000000100000002"));
    for row in CHANGED {
        assert!(rt; ends_so(rt.alloc(), &signed, row)?, "{}", row.0);
    }
    Ok(())
}
