//! One write of six replicas, where one call of what is outside fails, each call in its turn.

use crate::loopback::SIX_REPLICAS;
use crate::support::{Answer, is_answer, loopback, replay_in_pieces, run_arguments};
use basil_cli::status::Status;
use basil_types::memory::NoMemory;
use std::alloc::Global;
use std::test::Fail;

const REPORT: &[u8] = b"tx t1 commit\nkey a x1\nend 18\n";

/// How often a source that gives a byte at a time is read: for each of 116 bytes, and to find the end.
const READS: u64 = 117;

/// More writes than a report of 29 bytes can take.
const WRITES: u64 = 30;

/// Six first stages, six votes, and six writebacks are carried.
const CARRIES: u64 = 18;

/// Whether the replay ends so where this read fails.
fn ends_at_read(alloc: Global, read: u64, status: Status, text: &[u8]) -> Result<bool, NoMemory> {
    let given = replay_in_pieces(alloc, SIX_REPLICAS, 1, &[read])?;
    Ok(is_answer(&given, status, text))
}

/// No read is told of before all of the schedule was read.
#[test]
fn each_read_may_fail(rt: HostRuntime) -> Result<(), Fail> {
    for read in 1..=READS {
        assert!(rt;
            ends_at_read(rt.alloc(), read, Status::ReadFault, b"read fault\n")?,
            "{read}"
        );
    }
    assert!(rt; ends_at_read(rt.alloc(), READS + 1, Status::Done, REPORT)?);
    Ok(())
}

/// Whether a front of the report was taken, and all of it where no write failed.
fn is_front(given: &Answer) -> bool {
    match given.status {
        Status::WriteFault => REPORT.starts_with(&given.text),
        Status::Done => given.text.as_slice() == REPORT,
        _ => false,
    }
}

/// Whether a front of the report is taken where this write fails, if it is made.
fn gives_front(alloc: Global, write: u64) -> Result<bool, NoMemory> {
    let given = run_arguments(alloc, &["replay"], SIX_REPLICAS, &[], &[write])?;
    Ok(is_front(&given))
}

#[test]
fn each_write_may_fail(rt: HostRuntime) -> Result<(), Fail> {
    for write in 1..=WRITES {
        assert!(rt; gives_front(rt.alloc(), write)?, "{write}");
    }
    Ok(())
}

/// Whether the run ends with a link fault where this carry fails.
fn ends_at_carry(alloc: Global, carry: u64) -> Result<bool, NoMemory> {
    let given = loopback(alloc, SIX_REPLICAS, &[], &[carry], &[])?;
    Ok(is_answer(&given, Status::LinkFault, b"link fault\n"))
}

#[test]
fn each_carry_may_fail(rt: HostRuntime) -> Result<(), Fail> {
    for carry in 1..=CARRIES {
        assert!(rt; ends_at_carry(rt.alloc(), carry)?, "{carry}");
    }
    Ok(())
}
