//! Batches, by their commands.

use crate::signatures::{Case, IDENT, SEED, answer, are_written};
use crate::support::is_answer;
use basil_cli::status::Status;
use hex::FromHex;
use line_fields::reason::Reason;
use sha2::{Digest, Sha256};
use std::alloc::Global;
use std::test::Fail;

/// The public key of w4h5.
const PUBLIC: &str =
    "00000005000000036465666768696a6b6c6d6e6f70717273f503830a2b4a384d52564ac898b14d11c8372b5c842aa5915c277a9efd92d2d1";

/// `message 0`, `message 1` and `message 2`, a line each.
const THREE: &[u8] = b"\
6d6573736167652030
6d6573736167652031
6d6573736167652032
";

/// The last of them, and behind it the three, the first two, or none.
const THIRD_OF_THREE: &[u8] = b"\
6d6573736167652032
6d6573736167652030
6d6573736167652031
6d6573736167652032
";

const THIRD_OF_TWO: &[u8] = b"\
6d6573736167652032
6d6573736167652030
6d6573736167652031
";

const THIRD_ALONE: &[u8] = b"6d6573736167652032\n";

const NO_LINE: Status = Status::BadInput {
    line: 1,
    reason: Reason::NoHeader,
};

const NO_HEX: Status = Status::BadInput {
    line: 2,
    reason: Reason::Misspelt,
};

const CASES: &[Case] = &[
    (
        "no message is signed",
        &["batch", "w4h5", SEED, IDENT, "7"],
        b"",
        NO_LINE,
        "line 1 reason 1",
    ),
    (
        "a line that isn't hex",
        &["batch", "w4h5", SEED, IDENT, "7"],
        b"6d\n6D\n",
        NO_HEX,
        "line 2 reason 2",
    ),
    (
        "there is no leaf 32",
        &["batch", "w4h5", SEED, IDENT, "32"],
        THREE,
        Status::BadWords,
        "usage",
    ),
    (
        "no leaf",
        &["batch", "w4h5", SEED, IDENT],
        THREE,
        Status::BadWords,
        "usage",
    ),
    (
        "no set",
        &["batch", "w4h20", SEED, IDENT, "7"],
        THREE,
        Status::BadWords,
        "usage",
    ),
    (
        "no message",
        &["unbatch", PUBLIC, "00"],
        b"",
        NO_LINE,
        "line 1 reason 1",
    ),
    (
        "a line that isn't hex comes before what is refused",
        &["unbatch", PUBLIC, "00"],
        b"6d\n\n",
        NO_HEX,
        "line 2 reason 2",
    ),
    (
        "a signature of one byte",
        &["unbatch", PUBLIC, "00"],
        b"6d\n",
        Status::Refused { reason: 1 },
        "refused 1",
    ),
    (
        "a depth above 8",
        &["unbatch", PUBLIC, "0900"],
        b"6d\n",
        Status::Refused { reason: 2 },
        "refused 2",
    ),
    (
        "a public key that is none",
        &["unbatch", "aa", "0000"],
        b"6d\n",
        Status::Refused { reason: 3 },
        "refused 3",
    ),
    (
        "no signature",
        &["unbatch", PUBLIC],
        THIRD_ALONE,
        Status::BadWords,
        "usage",
    ),
    (
        "a signature of no byte",
        &["unbatch", PUBLIC, ""],
        THIRD_ALONE,
        Status::BadWords,
        "usage",
    ),
];

#[test]
fn batches_and_signatures_are_refused(rt: HostRuntime) -> Result<(), Fail> {
    are_written(&rt, rt.alloc(), CASES)
}

/// The signatures of the three messages with leaf 7, a line each.
fn signatures(alloc: Global) -> Result<Vec<u8>, Fail> {
    let given = answer(alloc, &["batch", "w4h5", SEED, IDENT, "7"], THREE)?;
    if given.status != Status::Done {
        return Err("not signed".into());
    }
    Ok(given.text)
}

/// Each signature has 2,414 bytes; the digest of the text is that of an independent program.
#[test]
fn three_messages_are_signed(rt: HostRuntime) -> Result<(), Fail> {
    let text = signatures(rt.alloc())?;
    let wanted = "5556c12f4ecf27b9d4126382e3da5fdea30a7c5653070cb543dd95455fc1d13f";
    assert!(rt; text.len() == 3 * 4829);
    assert!(rt; Sha256::digest(&text) == <[u8; 32] as FromHex>::from_hex(wanted)?);
    Ok(())
}

/// What a row shows, how many digits of the third signature are kept, where others stand and which, the input, how the
/// call ends, and what it writes.
type Changed = (
    &'static str,
    usize,
    usize,
    &'static str,
    &'static [u8],
    Status,
    &'static [u8],
);

const CHANGED: &[Changed] = &[
    (
        "the message stands at place 2",
        4828,
        0,
        "0202",
        THIRD_OF_THREE,
        Status::Done,
        b"in 2\n",
    ),
    (
        "no batch was kept",
        4828,
        0,
        "0202",
        THIRD_ALONE,
        Status::Done,
        b"accepted\n",
    ),
    (
        "a batch of the first two",
        4828,
        0,
        "0202",
        THIRD_OF_TWO,
        Status::Refused { reason: 4 },
        b"refused 4\n",
    ),
    (
        "another message",
        4828,
        0,
        "0202",
        THREE,
        Status::Refused { reason: 3 },
        b"refused 3\n",
    ),
    (
        "there is no place 4",
        4828,
        2,
        "04",
        THIRD_OF_THREE,
        Status::Refused { reason: 2 },
        b"refused 2\n",
    ),
    (
        "it is cut to 65 bytes",
        130,
        0,
        "0202",
        THIRD_OF_THREE,
        Status::Refused { reason: 1 },
        b"refused 1\n",
    ),
    (
        "it is cut to 66 bytes",
        132,
        0,
        "0202",
        THIRD_OF_THREE,
        Status::Refused { reason: 3 },
        b"refused 3\n",
    ),
    (
        "its last byte is another",
        4828,
        4826,
        "c8",
        THIRD_OF_THREE,
        Status::Refused { reason: 3 },
        b"refused 3\n",
    ),
];

/// Whether the changed signature is answered so.
fn ends_so(alloc: Global, third: &[u8], row: &Changed) -> Result<bool, Fail> {
    let (_shows, kept, place, digits, input, status, text) = *row;
    let third = str::from_utf8(third).map_err(|_| "no text")?;
    let front = third.get(..place).ok_or("too short")?;
    let behind = place.checked_add(digits.len()).ok_or("too far")?;
    let rest = third.get(behind..kept).ok_or("too short")?;
    let changed = format!(in alloc; "{front}{digits}{rest}")?;
    let given = answer(alloc, &["unbatch", PUBLIC, changed.as_str()], input)?;
    Ok(is_answer(&given, status, text))
}

#[test]
fn a_message_is_found_in_its_batch(rt: HostRuntime) -> Result<(), Fail> {
    let text = signatures(rt.alloc())?;
    let third = text.get(9658..14486).ok_or("too short")?;
    for row in CHANGED {
        assert!(rt; ends_so(rt.alloc(), third, row)?, "{}", row.0);
    }
    Ok(())
}
