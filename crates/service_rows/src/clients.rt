//! Clients that carry a transaction through.

use crate::frames::{CLIENT_SEED, FILE, FIRST, VOTE, WRITEBACK};
use crate::support::{Answer, Given, Row, are_answered, run_given};
use basil_cli::status::Status;
use line_fields::reason::Reason;
use std::alloc::Global;
use std::test::Fail;

/// A seed that isn't the client's.
const OTHER: &str = "a1a1a1a1a1a1a1a1a1a1a1a1a1a1a1a1a1a1a1a1a1a1a1a1a1a1a1a1a1a1a1a1";

/// It writes `x1` to `a`, as client 1 from leaf 0 on.
const WRITE: &[&str] = &["client", "1", CLIENT_SEED, "0", "w:a:x1"];

/// It reads `a`.
const READ: &[&str] = &["client", "1", CLIENT_SEED, "0", "r:a"];

/// The replica votes to commit, and is silent from then on.
const VOTED_ONCE: Given = Given {
    connections: &[VOTE],
    ..Given::NOTHING
};

/// The file can't be read.
const UNREAD: Given = Given {
    failing_reads: &[1],
    ..Given::VOTED
};

/// The sink can't be written.
const UNWRITTEN: Given = Given {
    failing_writes: &[1],
    ..Given::VOTED
};

const REFUSED_CALL: Status = Status::BadInput {
    line: 1,
    reason: Reason::RefusedCall,
};

const OUT_OF_RANGE: Status = Status::BadInput {
    line: 1,
    reason: Reason::OutOfRange,
};

const WRONG_PARTY: Status = Status::BadInput {
    line: 1,
    reason: Reason::WrongParty,
};

const UNDECIDED: Status = Status::Undecided { replies: 0 };

const ROWS: &[Row] = &[
    // The transaction commits, and its certificate is told to the replica.
    (
        WRITE,
        Given::VOTED,
        Status::Done,
        "commit\n",
        &[FIRST, WRITEBACK],
    ),
    // That it isn't taken changes nothing.
    (
        WRITE,
        VOTED_ONCE,
        Status::Done,
        "commit\n",
        &[FIRST, WRITEBACK],
    ),
    // No replica is reached, with a write and with a read.
    (WRITE, Given::SILENT, UNDECIDED, "undecided 0\n", &[]),
    (READ, Given::SILENT, UNDECIDED, "undecided 0\n", &[]),
    // No leaf is left for the first stage.
    (
        &["client", "1", CLIENT_SEED, "32", "w:a:x1"],
        Given::VOTED,
        REFUSED_CALL,
        "line 1 reason 9\n",
        &[],
    ),
    // There is no leaf 33 with height 5.
    (
        &["client", "1", CLIENT_SEED, "33", "w:a:x1"],
        Given::VOTED,
        OUT_OF_RANGE,
        "line 1 reason 3\n",
        &[],
    ),
    // The seed isn't the client's, or no such client is listed.
    (
        &["client", "1", OTHER, "0", "w:a:x1"],
        Given::VOTED,
        WRONG_PARTY,
        "line 1 reason 6\n",
        &[],
    ),
    (
        &["client", "2", CLIENT_SEED, "0", "w:a:x1"],
        Given::VOTED,
        WRONG_PARTY,
        "line 1 reason 6\n",
        &[],
    ),
    // The file can't be read.
    (WRITE, UNREAD, Status::ReadFault, "read fault\n", &[]),
    // The outcome can't be written, behind what was asked.
    (
        WRITE,
        UNWRITTEN,
        Status::WriteFault,
        "",
        &[FIRST, WRITEBACK],
    ),
];

#[test]
fn clients_carry_a_transaction_through(rt: HostRuntime) -> Result<(), Fail> {
    are_answered(&rt, rt.alloc(), FILE, ROWS)
}

/// Each call of the links fails in its turn. A client opens, writes and reads for each of its few asks, so it makes
/// fewer calls than sixteen.
const FAILING: &[&[u64]] = &[
    &[1],
    &[2],
    &[3],
    &[4],
    &[5],
    &[6],
    &[7],
    &[8],
    &[9],
    &[10],
    &[11],
    &[12],
    &[13],
    &[14],
    &[15],
    &[16],
];

/// Whether a client tells that its transaction commits, or that it knows no outcome and holds no vote, as the only vote
/// would decide.
fn is_outcome(answer: &Answer) -> bool {
    match answer.status {
        Status::Done => answer.text.as_slice() == b"commit\n".as_slice(),
        Status::Undecided { replies: 0 } => answer.text.as_slice() == b"undecided 0\n".as_slice(),
        _ => false,
    }
}

/// Whether it does so where these calls of the links fail.
fn has_outcome(alloc: Global, failing_links: &'static [u64]) -> Result<bool, Fail> {
    let given = Given {
        failing_links,
        ..Given::VOTED
    };
    let answer = run_given(alloc, WRITE, FILE.as_bytes(), &given)?;
    Ok(is_outcome(&answer))
}

#[test]
fn each_call_of_the_links_may_fail(rt: HostRuntime) -> Result<(), Fail> {
    for &failing in FAILING {
        assert!(rt; has_outcome(rt.alloc(), failing)?, "{failing:?}");
    }
    Ok(())
}
