//! The text of batches: what is read of it, the signatures of a batch, and what is found of a message's signature.

use crate::batches::CLIENT;
use batch_sign::SealedBatch;
use batch_text::finding::{PlaceFinding, judge};
use batch_text::reading::{BatchTextFault, read_batch, read_kept};
use batch_text::writing::signature_lines;
use hex::FromHex;
use keyring::plain::{PlainPen, seed_of};
use keyring::signer::Signer;
use keyring_lms::LmsPen;
use line_fields::reason::Reason;
use lms_sign::{LmsKey, LmsSet, ident_of_seed};
use sha2::{Digest, Sha256};
use std::alloc::Global;
use std::test::Fail;

/// `message 0`, `message 1` and `message 2`, a line each.
const THREE: &[u8] = b"\
6d6573736167652030
6d6573736167652031
6d6573736167652032
";

/// The last of them, and behind it the three, the first two, or none.
const THIRD_OF_THREE: &[u8] = b"\
6d6573736167652032
6d6573736167652030
6d6573736167652031
6d6573736167652032
";

const THIRD_OF_TWO: &[u8] = b"\
6d6573736167652032
6d6573736167652030
6d6573736167652031
";

const THIRD_ALONE: &[u8] = b"6d6573736167652032\n";

fn bad_line(line: u64, reason: Reason) -> BatchTextFault {
    BatchTextFault::BadLine { line, reason }
}

/// A text, and how many messages it has, or the line that is refused and why.
const TEXTS: &[(&[u8], Result<usize, (u64, Reason)>)] = &[
    (b"", Err((1, Reason::NoHeader))), // no line
    (b"\n", Err((1, Reason::Misspelt))), // an empty line
    (b"6d", Ok(1)), // no newline behind the last
    (b"6d\n", Ok(1)),
    (b"6d\n6d\n", Ok(2)), // twice the same
    (b"6D\n", Err((1, Reason::Misspelt))), // a capital digit
    (b"6\n", Err((1, Reason::Misspelt))), // half a byte
    (b"6d \n", Err((1, Reason::Misspelt))),
    (b"6d\n\n6d\n", Err((2, Reason::Misspelt))),
    (b"6d\n6d\nzz\n6D\n", Err((3, Reason::Misspelt))), // the first of two
];

#[test]
fn texts_of_batches(rt: HostRuntime) -> Result<(), Fail> {
    for (text, wanted) in TEXTS {
        let got = read_batch(rt.alloc(), text).map(|batch| batch.messages().len());
        let wanted = wanted.map_err(|(line, reason)| bad_line(line, reason));
        assert!(rt; got == wanted);
    }
    Ok(())
}

/// A text of so many lines, each a byte in hex.
fn lines(alloc: Global, count: usize) -> Result<Vec<u8>, Fail> {
    let mut text = Vec::new(alloc);
    for _ in 0..count {
        text.extend_from_slice(b"6d\n")?;
    }
    Ok(text)
}

/// A text with a line of one byte, one of so many, and one that isn't hex.
fn long_second_line(alloc: Global, bytes: usize) -> Result<Vec<u8>, Fail> {
    let mut text = lines(alloc, 1)?;
    for _ in 0..bytes {
        text.extend_from_slice(b"6d")?;
    }
    text.extend_from_slice(b"\nzz\n")?;
    Ok(text)
}

/// The line that is too much for a text's batch, or nothing.
fn too_much(line: Option<u64>) -> Option<BatchTextFault> {
    line.map(|line| bad_line(line, Reason::OutOfSize))
}

/// 256 messages are taken, not one more.
#[test]
fn batches_at_the_limit(rt: HostRuntime) -> Result<(), Fail> {
    for (count, refused) in [(256, None), (257, Some(257)), (300, Some(257))] {
        let text = lines(rt.alloc(), count)?;
        assert!(rt; read_batch(rt.alloc(), &text).err() == too_much(refused));
    }
    Ok(())
}

/// The same behind a message.
#[test]
fn kept_batches_at_the_limit(rt: HostRuntime) -> Result<(), Fail> {
    for (count, refused) in [(257, None), (258, Some(258))] {
        let text = lines(rt.alloc(), count)?;
        assert!(rt; read_kept(rt.alloc(), &text).err() == too_much(refused));
    }
    Ok(())
}

/// A message of 8,192 bytes is taken, so that the third line is refused; not one of a byte more.
#[test]
fn messages_at_the_limit(rt: HostRuntime) -> Result<(), Fail> {
    for (bytes, wanted) in [
        (8192, bad_line(3, Reason::Misspelt)),
        (8193, bad_line(2, Reason::OutOfSize)),
    ] {
        let text = long_second_line(rt.alloc(), bytes)?;
        assert!(rt; read_batch(rt.alloc(), &text).err() == Some(wanted));
        assert!(rt; read_kept(rt.alloc(), &text).err() == Some(wanted));
    }
    Ok(())
}

/// The same where it is the first line.
#[test]
fn a_first_message_that_is_too_long(rt: HostRuntime) -> Result<(), Fail> {
    let text = long_second_line(rt.alloc(), 8193)?;
    let first = text.get(3..).ok_or("too short")?;
    assert!(rt; read_kept(rt.alloc(), first).err() == too_much(Some(1)));
    Ok(())
}

/// How many messages a kept batch has, where there is one.
fn kept_count(alloc: Global, text: &[u8]) -> Result<Option<usize>, Fail> {
    let kept = read_kept(alloc, text).map_err(|_| "not read")?;
    if kept.message.as_slice() != b"message 2".as_slice() {
        return Err("another message".into());
    }
    Ok(kept.batch.as_ref().map(|batch| batch.messages().len()))
}

#[test]
fn texts_with_a_kept_batch(rt: HostRuntime) -> Result<(), Fail> {
    for (text, wanted) in [
        (THIRD_OF_THREE, Some(3)),
        (THIRD_OF_TWO, Some(2)),
        (THIRD_ALONE, None),
    ] {
        assert!(rt; kept_count(rt.alloc(), text)? == wanted);
    }
    Ok(())
}

#[test]
fn texts_with_a_bad_line(rt: HostRuntime) -> Result<(), Fail> {
    let texts: [(&[u8], BatchTextFault); 3] = [
        (b"", bad_line(1, Reason::NoHeader)),
        (b"zz\n6d", bad_line(1, Reason::Misspelt)),
        (b"6d\nzz", bad_line(2, Reason::Misspelt)),
    ];
    for (text, wanted) in texts {
        assert!(rt; read_kept(rt.alloc(), text).err() == Some(wanted));
    }
    Ok(())
}

/// The three messages, sealed by a pen.
fn sealed<S: Signer>(alloc: Global, pen: &mut S) -> Result<SealedBatch, Fail> {
    let batch = read_batch(alloc, THREE).map_err(|_| "not read")?;
    Ok(batch.sign(pen).map_err(|_| "not signed")?)
}

/// By a Python program with hashlib's SHA-256: the length of the text, and its SHA-256.
#[test]
fn signatures_as_text(rt: HostRuntime) -> Result<(), Fail> {
    let mut pen = PlainPen::new(CLIENT);
    let text = signature_lines(rt.alloc(), &sealed(rt.alloc(), &mut pen)?)?;
    let wanted = "a1e0d210ba16c8b5f62c12cfffef3649008b644edac665864b3bd34c3f9e5011";
    assert!(rt; text.as_slice().len() == 591);
    assert!(rt; Sha256::digest(text.as_slice()) == <[u8; 32] as FromHex>::from_hex(wanted)?);
    Ok(())
}

/// The number of the refusal, 0 where the signature is accepted, and the place.
fn outcome(finding: PlaceFinding) -> Result<(u8, Option<u16>), Fail> {
    match finding {
        PlaceFinding::Accepted => Ok((0, None)),
        PlaceFinding::In(place) => Ok((0, Some(place))),
        PlaceFinding::Refused { reason } => Ok((reason, None)),
        PlaceFinding::Collision { .. } => Err("a collision".into()),
    }
}

/// The LMS key of client 1 in a replay.
fn key_of_client(alloc: Global) -> Result<LmsKey, Fail> {
    let seed = seed_of(CLIENT);
    Ok(LmsKey::make(alloc, &seed, &ident_of_seed(&seed), LmsSet::W4H5, 0)?)
}

/// What is found of a signature under that key.
fn found(alloc: Global, signature: &[u8], text: &[u8]) -> Result<(u8, Option<u16>), Fail> {
    let public = key_of_client(alloc)?.public();
    let kept = read_kept(alloc, text).map_err(|_| "not read")?;
    outcome(judge(alloc, &public, signature, &kept)?)
}

/// The third signature of the three messages, signed with w4h5.
fn third_signature(alloc: Global) -> Result<Vec<u8>, Fail> {
    let mut pen = LmsPen::new(CLIENT, key_of_client(alloc)?);
    let made = sealed(alloc, &mut pen)?;
    let third = made.signature(2).ok_or("no signature")?;
    Ok(Vec::from_slice(alloc, third)?)
}

#[test]
fn a_signature_is_found(rt: HostRuntime) -> Result<(), Fail> {
    let third = third_signature(rt.alloc())?;
    assert!(rt; third.len() == 2414);
    for (text, wanted) in [
        (THIRD_OF_THREE, (0, Some(2))),
        (THIRD_ALONE, (0, None)),
        (THIRD_OF_TWO, (4, None)), // another batch
    ] {
        assert!(rt; found(rt.alloc(), &third, text)? == wanted);
    }
    let short = third.get(..65).ok_or("too short")?;
    assert!(rt; found(rt.alloc(), short, THIRD_OF_THREE)? == (1, None));
    Ok(())
}

/// A place beyond the tree, a place that leads elsewhere, and a changed last byte.
#[test]
fn a_changed_signature_is_refused(rt: HostRuntime) -> Result<(), Fail> {
    let third = third_signature(rt.alloc())?;
    for (at, by, refused) in [(1, 6, 2), (1, 3, 3), (2413, 1, 3)] {
        let mut changed = Vec::from_slice(rt.alloc(), &third)?;
        let byte = changed.get_mut(at).ok_or("too short")?;
        *byte ^= by;
        assert!(rt; found(rt.alloc(), &changed, THIRD_OF_THREE)? == (refused, None));
    }
    Ok(())
}
