//! Whole runs, told from the rules of the protocol: each schedule with its header, and all that the program answers to
//! it. Each is replayed, and run with every message carried as it was sent: both answers are the same.

mod fallback;
mod lms_keys;
mod one_replica;
mod six_replicas;
mod two_of_one_version;
mod two_shards;

use crate::support::{is_answer, loopback, replay};
use basil_cli::status::Status;
use basil_types::memory::NoMemory;
use std::alloc::Global;
use std::process::Abort;
use std::test::Fail;

/// What a row shows, a schedule, how its run ends, and what it writes.
pub(crate) type Whole = (&'static str, &'static [u8], Status, &'static [u8]);

/// Whether the replay of a schedule ends as it is told.
pub(crate) fn is_replayed(alloc: Global, row: &Whole) -> Result<bool, NoMemory> {
    let (_shows, schedule, status, text) = *row;
    let given = replay(alloc, schedule)?;
    Ok(is_answer(&given, status, text))
}

/// Whether it ends so too where each message comes as it was sent.
pub(crate) fn is_carried(alloc: Global, row: &Whole) -> Result<bool, NoMemory> {
    let (_shows, schedule, status, text) = *row;
    let given = loopback(alloc, schedule, &[], &[], &[])?;
    Ok(is_answer(&given, status, text))
}

/// So it is of each replay.
pub(crate) fn are_replayed(rt: &impl Abort, alloc: Global, rows: &[Whole]) -> Result<(), Fail> {
    for row in rows {
        assert!(rt; is_replayed(alloc, row)?, "{}", row.0);
    }
    Ok(())
}

/// So it is of each that is carried.
pub(crate) fn are_carried(rt: &impl Abort, alloc: Global, rows: &[Whole]) -> Result<(), Fail> {
    for row in rows {
        assert!(rt; is_carried(alloc, row)?, "{}", row.0);
    }
    Ok(())
}
