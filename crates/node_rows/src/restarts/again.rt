//! A replica over a disk in memory that stops within a step, and starts again where it is.

use crate::restarts::frames::{CLIENT_1, CLIENT_2, FIRST_A, ID_A, READ, joined};
use crate::restarts::seats::{Kept, Seat, hand, taken};
use basil_types::bytes::Bytes;
use journal_disk::memory::MemDisk;
use node_journal::StepFault;
use node_journal::StepFault::DiskFault;
use std::alloc::Global;
use std::test::Fail;

/// Within which write from now on the disk stops, and which byte it leaves there; how the next step is answered, which
/// makes two writes. Behind the start: how many records there are, whether the replica knows the transaction of the
/// step, and how many stops the disk had.
type Row = (u64, u8, Result<(), StepFault>, u64, bool, usize);

const ROWS: &[Row] = &[
    (1, 0x00, Err(DiskFault), 0, false, 1),
    (1, 0x01, Err(DiskFault), 0, false, 1),
    (2, 0x00, Err(DiskFault), 0, false, 1),
    (2, 0x4d, Err(DiskFault), 0, false, 1),
    (2, 0x01, Err(DiskFault), 1, true, 1),
    // A stop that isn't reached is dropped.
    (3, 0x01, Ok(()), 1, true, 0),
];

/// Has the disk of a replica stop, and says whether it can.
fn await_stop(alloc: Global, kept: &mut Kept, write: u64, byte: u8) -> bool {
    if write == 0 {
        return false;
    }
    match Bytes::copy_of(alloc, &[byte]) {
        Ok(bytes) => {
            kept.stop_in(write, bytes);
            true
        }
        Err(_) => false,
    }
}

/// Whether a replica stops and starts again as a row says, and goes on.
fn goes_so(
    alloc: Global,
    seat: &Seat,
    kept: &mut Kept,
    first: &[u8],
    read: &[u8],
    row: &Row,
) -> bool {
    let &(write, byte, answer, records, knows, stops) = row;
    if !await_stop(alloc, kept, write, byte) {
        return false;
    }
    let was = hand(alloc, kept, 50, CLIENT_1, first);
    if seat.start_again(kept).is_err() {
        return false;
    }
    let found = kept.records() == records
        && kept.replica().table().entry_with(&ID_A).is_some() == knows
        && kept.disk().stops().len() == stops;
    let goes_on = hand(alloc, kept, 52, CLIENT_2, read);
    was == answer && found && goes_on.is_ok()
}

/// Whether a row is so.
fn is_row(alloc: Global, seat: &Seat, first: &[u8], read: &[u8], row: &Row) -> bool {
    match taken(seat.create(alloc, MemDisk::new(alloc))) {
        Some(kept) => {
            let mut kept = kept;
            let told = goes_so(alloc, seat, &mut kept, first, read, row);
            drop(kept);
            told
        }
        None => false,
    }
}

#[test]
fn a_replica_starts_again_where_it_is(rt: HostRuntime) -> Result<(), Fail> {
    let alloc = rt.alloc();
    let first = joined(alloc, &[FIRST_A])?;
    let read = joined(alloc, &[READ])?;
    let seat = Seat::new(0, 0)?;
    let mut place = 0usize;
    for row in ROWS {
        assert!(rt; is_row(alloc, &seat, &first, &read, row), "row {place}");
        place = place.saturating_add(1);
    }
    Ok(())
}
