//! Nodes that don't get their seat: they answer why, and neither listen nor look at the clock.

use crate::frames::{FILE, SEED};
use crate::support::{Given, run_given};
use basil_cli::status::Status;
use std::alloc::Global;
use std::test::Fail;

/// The arguments, what stands in the file once, what stands in its place instead, and the number of the reason.
type Row = (
    &'static [&'static str],
    &'static str,
    &'static str,
    Option<u8>,
);

const NODE: &[&str] = &["node", "0", "0", SEED, "0", "2"];

/// A seed that isn't the replica's.
const OTHER: &str = "c1c1c1c1c1c1c1c1c1c1c1c1c1c1c1c1c1c1c1c1c1c1c1c1c1c1c1c1c1c1c1c1";

const ROWS: &[Row] = &[
    // The file as it is, and the first leaf 32, behind which none is left.
    (NODE, "\"f\"", "\"f\"", None),
    (&["node", "0", "0", SEED, "32", "1"], "\"f\"", "\"f\"", None),
    // There is no leaf 33 with height 5.
    (
        &["node", "0", "0", SEED, "33", "1"],
        "\"f\"",
        "\"f\"",
        Some(3),
    ),
    (
        &["node", "0", "0", SEED, "1024", "1"],
        "\"f\"",
        "\"f\"",
        Some(3),
    ),
    // With height 10 the seed gives another key.
    (
        &["node", "0", "0", SEED, "33", "1"],
        "w4h5",
        "w4h10",
        Some(6),
    ),
    // It isn't JSON; a member is missing.
    (NODE, "{", "[", Some(2)),
    (NODE, "\"delta\": 100, ", "", Some(2)),
    // A cluster has no 33 shards.
    (NODE, "\"shards\": 1", "\"shards\": 33", Some(1)),
    // With f = 1 there are six replicas in a shard, and here is one.
    (
        NODE,
        "\"f\": 0, \"shards\": 1, \"reads\": 1",
        "\"f\": 1, \"shards\": 1, \"reads\": 2",
        Some(3),
    ),
    // A public key isn't hex, and so whatever the seed is.
    (NODE, "0000000500000003a2", "000000050000000xa2", Some(8)),
    (
        &["node", "0", "0", OTHER, "0", "2"],
        "0000000500000003a2",
        "000000050000000xa2",
        Some(8),
    ),
    // No such replica is listed.
    (
        &["node", "1", "0", SEED, "0", "2"],
        "\"f\"",
        "\"f\"",
        Some(6),
    ),
    (
        &["node", "0", "1", SEED, "0", "2"],
        "\"f\"",
        "\"f\"",
        Some(6),
    ),
    (
        &["node", "255", "255", SEED, "1024", "2"],
        "\"f\"",
        "\"f\"",
        Some(6),
    ),
    // The seed doesn't give the listed key, whatever the leaf is.
    (
        &["node", "0", "0", OTHER, "0", "2"],
        "\"f\"",
        "\"f\"",
        Some(6),
    ),
    (
        &["node", "0", "0", OTHER, "33", "2"],
        "\"f\"",
        "\"f\"",
        Some(6),
    ),
    // The listed key has another type, identifier or root.
    (NODE, "0000000500000003a2", "0000000600000003a2", Some(6)),
    (NODE, "0000000500000003a2", "0000000500000004a2", Some(6)),
    (NODE, "0000000500000003a2", "0000000500000003a3", Some(6)),
    (NODE, "de022084", "de022085", Some(6)),
];

/// The reason of a refusal of line 1, if it is one and alone was written.
fn reason_of(alloc: Global, status: Status, text: &[u8]) -> Result<Option<u8>, Fail> {
    let Status::BadInput { line: 1, reason } = status else {
        return Ok(None);
    };
    let number = reason.number();
    let told = format!(in alloc; "line 1 reason {number}\n")?;
    Ok(if told.as_bytes() == text {
        Some(number)
    } else {
        None
    })
}

/// Whether a row is answered so, and nothing is written to the links.
fn is_answered(alloc: Global, row: &Row) -> Result<bool, Fail> {
    let (arguments, old, new, reason) = *row;
    let input = FILE.replacen(alloc, old, new, 1)?;
    let answer = run_given(alloc, arguments, input.as_bytes(), &Given::NOTHING)?;
    let told = reason_of(alloc, answer.status, &answer.text)?;
    Ok(told == reason && answer.sent.is_empty())
}

#[test]
fn nodes_without_a_seat_are_refused(rt: HostRuntime) -> Result<(), Fail> {
    for row in ROWS {
        let (arguments, _, new, _) = *row;
        assert!(rt; is_answered(rt.alloc(), row)?, "{arguments:?} {new}");
    }
    Ok(())
}

/// More than is read whole.
#[test]
fn a_long_file_is_refused(rt: HostRuntime) -> Result<(), Fail> {
    let alloc = rt.alloc();
    let input = vec![in alloc; b' '; 16_777_217]?;
    let answer = run_given(alloc, NODE, &input, &Given::NOTHING)?;
    assert!(rt; answer.status == Status::TooLong);
    assert!(rt; answer.text.as_slice() == b"too long 16777216\n".as_slice());
    Ok(())
}
