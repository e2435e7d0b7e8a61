//! Inputs to `audit`: transactions with their reads and writes. Those of an independent program stand in
//! `examples/audits`.

mod reasons;
mod worked;

use crate::support::{is_answer, run_arguments};
use basil_cli::status::Status;
use basil_types::memory::NoMemory;
use std::alloc::Global;
use std::process::Abort;
use std::test::Fail;

/// What a row shows, an input, and the line that is written of it.
pub(crate) type Audited = (&'static str, &'static [u8], &'static str);

/// The exit status beside a line.
fn code_of(line: &str) -> u8 {
    if line.starts_with("stray ") {
        8
    } else if line.starts_with("line ") {
        3
    } else {
        0
    }
}

/// Whether an audit writes this line and nothing else, and ends so.
pub(crate) fn says(alloc: Global, input: &[u8], line: &str) -> Result<bool, NoMemory> {
    let given = run_arguments(alloc, &["audit"], input, &[], &[])?;
    let text = given.text.strip_suffix(b"\n");
    Ok(text == Some(line.as_bytes()) && given.status.code() == code_of(line))
}

/// Of each input its line is written.
pub(crate) fn are_audited(rt: &impl Abort, alloc: Global, rows: &[Audited]) -> Result<(), Fail> {
    for &(shows, input, line) in rows {
        assert!(rt; says(alloc, input, line)?, "{shows}");
    }
    Ok(())
}

const STRAY: &[u8] = b"tx t1 10 1\nwrite t1 a x1\ntx t2 20 2\nread t2 a -\n";

/// What a row shows, the reads and writes that fail, how the audit of that input ends, and what it writes.
type Fault = (
    &'static str,
    &'static [u64],
    &'static [u64],
    Status,
    &'static [u8],
);

const FAULTS: &[Fault] = &[
    (
        "nothing fails, and a read is stray",
        &[],
        &[],
        Status::Refused { reason: 0 },
        b"stray t2 a - t1\n",
    ),
    (
        "the first read fails",
        &[1],
        &[],
        Status::ReadFault,
        b"read fault\n",
    ),
    (
        "the read that finds the end fails",
        &[2],
        &[],
        Status::ReadFault,
        b"read fault\n",
    ),
    ("the answer isn't taken", &[], &[1], Status::WriteFault, b""),
    (
        "neither is the text of a fault",
        &[1],
        &[1],
        Status::WriteFault,
        b"",
    ),
];

#[test]
fn a_stray_and_faults_have_their_status(rt: HostRuntime) -> Result<(), Fail> {
    for &(shows, reads, writes, status, text) in FAULTS {
        let given = run_arguments(rt.alloc(), &["audit"], STRAY, reads, writes)?;
        assert!(rt; is_answer(&given, status, text), "{shows}");
    }
    Ok(())
}

#[test]
fn an_argument_behind_it_is_no_command(rt: HostRuntime) -> Result<(), Fail> {
    let given = run_arguments(rt.alloc(), &["audit", "x"], STRAY, &[], &[])?;
    assert!(rt; is_answer(&given, Status::BadWords, b"usage\n"));
    Ok(())
}
