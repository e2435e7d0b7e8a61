//! Transactions that are formed and handed over, and taken up.

use crate::frames::{CLIENT_SEED, FILE, RECOVERY, SIGNED, TRANSACTION, WRITEBACK};
use crate::support::{Given, Row, are_answered, run_given};
use basil_cli::status::Status;
use line_fields::reason::Reason;
use std::alloc::Global;
use std::test::Fail;

/// It forms a transaction that writes `x1` to `a`.
const FORM: &[&str] = &["form", "1", CLIENT_SEED, "0", "w:a:x1"];

/// It takes up the transaction that it formed so.
const RECOVER: &[&str] = &["recover", "1", CLIENT_SEED, "0", TRANSACTION, SIGNED];

/// The same where its key has no leaf left.
const SPENT: &[&str] = &["recover", "1", CLIENT_SEED, "32", TRANSACTION, SIGNED];

/// A transaction that neither reads nor writes, which has no good form.
const EMPTY: &[&str] = &[
    "recover",
    "1",
    CLIENT_SEED,
    "0",
    "01000000000000000a010000",
    SIGNED,
];

const REFUSED_CALL: Status = Status::BadInput {
    line: 1,
    reason: Reason::RefusedCall,
};

const WRONG_PARTY: Status = Status::BadInput {
    line: 1,
    reason: Reason::WrongParty,
};

const UNDECIDED: Status = Status::Undecided { replies: 0 };

const ROWS: &[Row] = &[
    // What was handed over commits, and its certificate is told to the replica. No leaf is needed for that.
    (
        RECOVER,
        Given::VOTED,
        Status::Done,
        "commit\n",
        &[RECOVERY, WRITEBACK],
    ),
    (
        SPENT,
        Given::VOTED,
        Status::Done,
        "commit\n",
        &[RECOVERY, WRITEBACK],
    ),
    // No replica is reached.
    (RECOVER, Given::SILENT, UNDECIDED, "undecided 0\n", &[]),
    // A client takes up nothing that has no good form.
    (EMPTY, Given::VOTED, REFUSED_CALL, "line 1 reason 9\n", &[]),
    // Its seat is tested as every client's: there is no client 2.
    (
        &["recover", "2", CLIENT_SEED, "0", TRANSACTION, SIGNED],
        Given::VOTED,
        WRONG_PARTY,
        "line 1 reason 6\n",
        &[],
    ),
    // A read has no choice, and nothing is formed.
    (
        &["form", "1", CLIENT_SEED, "0", "r:a", "w:a:x1"],
        Given::SILENT,
        UNDECIDED,
        "undecided 0\n",
        &[],
    ),
    // No leaf is left to sign with.
    (
        &["form", "1", CLIENT_SEED, "32", "w:a:x1"],
        Given::VOTED,
        REFUSED_CALL,
        "line 1 reason 9\n",
        &[],
    ),
];

#[test]
fn clients_take_up_what_is_handed_over(rt: HostRuntime) -> Result<(), Fail> {
    are_answered(&rt, rt.alloc(), FILE, ROWS)
}

/// What `form` writes of that transaction.
fn handed_over(alloc: Global) -> Result<Vec<u8>, Fail> {
    let mut line = Vec::from_slice(alloc, TRANSACTION.as_bytes())?;
    line.push(b' ')?;
    line.extend_from_slice(SIGNED.as_bytes())?;
    line.push(b'\n')?;
    Ok(line)
}

#[test]
fn what_is_formed_is_told_to_nobody_else(rt: HostRuntime) -> Result<(), Fail> {
    let answer = run_given(rt.alloc(), FORM, FILE.as_bytes(), &Given::VOTED)?;
    let line = handed_over(rt.alloc())?;
    assert!(rt; answer.status == Status::Done);
    assert!(rt; answer.text.as_slice() == line.as_slice());
    assert!(rt; answer.sent.is_empty());
    Ok(())
}

/// How many bytes a signature has, and how the recovery of a transaction with it ends where no replica is reached.
const SIZES: &[(usize, Status)] = &[
    (0, Status::BadWords),
    (1, UNDECIDED),
    (8192, UNDECIDED),
    (8193, Status::BadWords),
];

/// How it ends with so many bytes.
fn ended_with(alloc: Global, size: usize) -> Result<Status, Fail> {
    let mut signature = String::new(alloc);
    for _ in 0..size {
        signature.push_str("5a")?;
    }
    let arguments = [
        "recover",
        "1",
        CLIENT_SEED,
        "0",
        TRANSACTION,
        signature.as_str(),
    ];
    Ok(run_given(alloc, &arguments, FILE.as_bytes(), &Given::SILENT)?.status)
}

#[test]
fn a_signature_has_its_sizes(rt: HostRuntime) -> Result<(), Fail> {
    for &(size, status) in SIZES {
        assert!(rt; ended_with(rt.alloc(), size)? == status, "{size}");
    }
    Ok(())
}
