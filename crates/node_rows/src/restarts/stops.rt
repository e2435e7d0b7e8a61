//! A disk that stops in a step, or of which a call fails, and what the replica knows when it starts again.

use crate::restarts::frames::{CLIENT_1, CLIENT_2, FIRST_A, ID_A, READ, joined};
use crate::restarts::seats::{Kept, Seat, disk_of, hand, taken};
use basil_types::bytes::Bytes;
use journal_disk::memory::MemDisk;
use node_journal::StepFault;
use node_journal::StepFault::{Closed, DiskFault};
use std::alloc::Global;
use std::test::Fail;

/// What happens in a step, which writes the record, syncs, opens its gate, and syncs.
#[derive(Clone, Copy)]
enum Happens {
    Nothing,
    /// The disk stops within this write of the step, and leaves this byte all over.
    StopsIn(u64, u8),
    /// This call of the disk fails, counted from its first one.
    Fails(u64),
}

use Happens::{Fails, Nothing, StopsIn};

/// Whether something is sent, or why not.
type Answer = Result<(), StepFault>;

/// How many records there are before a step, what happens in it, how it is answered and how the next one; how many
/// records there are when the replica starts again, and whether it knows the transaction of the step.
type Row = (u64, Happens, Answer, Answer, u64, bool);

const ROWS: &[Row] = &[
    (0, Nothing, Ok(()), Ok(()), 2, true),
    (1, Nothing, Ok(()), Ok(()), 3, true),
    (0, StopsIn(1, 0x00), Err(DiskFault), Err(Closed), 0, false),
    (0, StopsIn(1, 0x01), Err(DiskFault), Err(Closed), 0, false),
    (0, StopsIn(1, 0x4d), Err(DiskFault), Err(Closed), 0, false),
    (0, StopsIn(2, 0x00), Err(DiskFault), Err(Closed), 0, false),
    (0, StopsIn(2, 0x01), Err(DiskFault), Err(Closed), 1, true),
    (0, StopsIn(2, 0x4d), Err(DiskFault), Err(Closed), 0, false),
    (1, StopsIn(1, 0x01), Err(DiskFault), Err(Closed), 1, false),
    (1, StopsIn(2, 0x00), Err(DiskFault), Err(Closed), 1, false),
    (1, StopsIn(2, 0x01), Err(DiskFault), Err(Closed), 2, true),
    // Calls 1 to 3 begin the journal, 4 and 5 open it, and the step makes four.
    (0, Fails(6), Err(DiskFault), Err(Closed), 0, false),
    (0, Fails(7), Err(DiskFault), Err(Closed), 0, false),
    (0, Fails(8), Err(DiskFault), Err(Closed), 0, false),
    // With a record there are four more, and three to read it.
    (1, Fails(13), Err(DiskFault), Err(Closed), 1, false),
    (1, Fails(14), Err(DiskFault), Err(Closed), 1, false),
    (1, Fails(15), Err(DiskFault), Err(Closed), 1, false),
    // Where the last of them fails, the record is there or not; on this disk it is.
    (0, Fails(9), Err(DiskFault), Err(Closed), 1, true),
    (1, Fails(16), Err(DiskFault), Err(Closed), 2, true),
];

/// The frames of a row: the transaction's first stage, and a read that is handed over before it and behind.
#[derive(Clone, Copy)]
struct Frames<'a> {
    first: &'a [u8],
    read: &'a [u8],
}

/// A disk of which the call fails, if one is to.
fn disk_for(alloc: Global, happens: Happens) -> Option<MemDisk> {
    let listed = match happens {
        Fails(call) => Vec::from_slice(alloc, &[call]),
        _ => Ok(Vec::new(alloc)),
    };
    match listed {
        Ok(calls) => Some(MemDisk::failing(alloc, calls)),
        Err(_) => None,
    }
}

/// Has the disk stop, if it is to, and says whether it can.
fn await_stop(alloc: Global, disk: &mut MemDisk, happens: Happens) -> bool {
    let StopsIn(write, byte) = happens else {
        return true;
    };
    if write == 0 {
        return false;
    }
    match Bytes::copy_of(alloc, &[byte]) {
        Ok(bytes) => {
            disk.stop_in(write, bytes);
            true
        }
        Err(_) => false,
    }
}

/// Takes so many reads, and says whether all are taken.
fn takes_reads(alloc: Global, kept: &mut Kept, count: u64, read: &[u8]) -> bool {
    for _ in 0..count {
        if hand(alloc, kept, 50, CLIENT_2, read).is_err() {
            return false;
        }
    }
    true
}

/// The disk of a row before its step.
fn begun(
    alloc: Global,
    seat: &Seat,
    before: u64,
    happens: Happens,
    read: &[u8],
) -> Option<MemDisk> {
    let mut kept = taken(seat.create(alloc, disk_for(alloc, happens)?))?;
    let begins = takes_reads(alloc, &mut kept, before, read);
    let mut disk = disk_of(kept);
    if begins && await_stop(alloc, &mut disk, happens) {
        Some(disk)
    } else {
        None
    }
}

/// How the first stage is answered, and the read behind it; and the disk.
fn stepped(
    alloc: Global,
    seat: &Seat,
    disk: MemDisk,
    frames: Frames<'_>,
) -> Option<(Answer, Answer, MemDisk)> {
    let mut kept = taken(seat.open(alloc, disk))?;
    let first = hand(alloc, &mut kept, 50, CLIENT_1, frames.first);
    let next = hand(alloc, &mut kept, 51, CLIENT_2, frames.read);
    Some((first, next, disk_of(kept)))
}

/// The disk as the stop left it, if there was one.
fn started(disk: MemDisk, happens: Happens) -> MemDisk {
    match happens {
        StopsIn(..) => disk.revive(),
        _ => disk,
    }
}

/// How many records a replica finds, and whether it knows the transaction.
fn known(alloc: Global, seat: &Seat, disk: MemDisk) -> Option<(u64, bool)> {
    let kept = taken(seat.open(alloc, disk))?;
    let entry = kept.replica().table().entry_with(&ID_A);
    Some((kept.records(), entry.is_some()))
}

/// Whether a row is so.
fn is_row(alloc: Global, seat: &Seat, frames: Frames<'_>, row: &Row) -> Option<bool> {
    let &(before, happens, first, next, records, knows) = row;
    let disk = begun(alloc, seat, before, happens, frames.read)?;
    let (was_first, was_next, disk) = stepped(alloc, seat, disk, frames)?;
    let found = known(alloc, seat, started(disk, happens));
    Some(was_first == first && was_next == next && found == Some((records, knows)))
}

#[test]
fn what_was_sent_is_known_again(rt: HostRuntime) -> Result<(), Fail> {
    let alloc = rt.alloc();
    let first = joined(alloc, &[FIRST_A])?;
    let read = joined(alloc, &[READ])?;
    let frames = Frames {
        first: &first,
        read: &read,
    };
    let seat = Seat::new(0, 0)?;
    let mut place = 0usize;
    for row in ROWS {
        assert!(rt;
            is_row(alloc, &seat, frames, row) == Some(true),
            "row {place}"
        );
        place = place.saturating_add(1);
    }
    Ok(())
}
