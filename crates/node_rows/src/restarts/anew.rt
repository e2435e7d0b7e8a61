//! A replica that starts again before each frame, and one that never stops.

use crate::restarts::frames::{
    ABORT_B, ABORT_D, CLIENT_1, CLIENT_2, CLIENT_3, DECIDE, ELECT_0, ELECT_1, ELECT_2, ELECT_3,
    ELECT_4, FIRST_A, FIRST_B, FIRST_D, FIRST_E, READ, REPLICA_0, REPLICA_1, REPLICA_2, REPLICA_3,
    REPLICA_4, REPLY_COMMITTED, REPLY_PREPARED, VOTE_A, VOTE_E, WRITEBACK_A, joined,
};
use crate::restarts::seats::{Kept, Plain, Seat, disk_of, taken};
use basil_types::outbox::Outbox;
use basil_types::party::Party;
use journal_disk::memory::MemDisk;
use node_steps::pending::outbox;
use std::alloc::{AllocError, Global};
use std::test::Fail;

/// A moment, who sends a frame then, the frame, and what is sent: each receiver and frame, in hex.
type Row = (u64, Party, &'static str, &'static [&'static str]);

// The only replica of a cluster with f = 0.
const ALONE: &[Row] = &[
    (50, CLIENT_1, FIRST_A, &["010001", VOTE_A]),
    (51, CLIENT_2, READ, &["010002", REPLY_PREPARED]),
    // The read is noted.
    (52, CLIENT_2, FIRST_B, &["010002", ABORT_B]),
    // The time of D is more than 1000 ahead, that of E isn't; and their votes stay.
    (53, CLIENT_3, FIRST_D, &["010003", ABORT_D]),
    (54, CLIENT_3, FIRST_E, &["010003", VOTE_E]),
    (60, CLIENT_1, FIRST_D, &["010001", ABORT_D]),
    (61, CLIENT_1, FIRST_E, &["010001", VOTE_E]),
    (62, CLIENT_1, WRITEBACK_A, &[]),
    (63, CLIENT_2, READ, &["010002", REPLY_COMMITTED]),
    (64, CLIENT_3, FIRST_B, &["010003", ABORT_B]),
    (65, CLIENT_2, FIRST_A, &["010002", WRITEBACK_A]),
];

const DECIDES: &[&str] = &[
    "000000", DECIDE, "000001", DECIDE, "000002", DECIDE, "000003", DECIDE, "000004", DECIDE,
    "000005", DECIDE,
];

// Replica 2 of six, which leads view 1: with the fifth word it proposes.
const LEADING: &[Row] = &[
    (50, REPLICA_0, ELECT_0, &[]),
    (51, REPLICA_1, ELECT_1, &[]),
    (52, REPLICA_2, ELECT_2, &[]),
    (53, REPLICA_3, ELECT_3, &[]),
    (54, REPLICA_4, ELECT_4, DECIDES),
];

/// A row's frame, in bytes.
#[derive(Drop)]
struct Frame {
    moment: u64,
    from: Party,
    bytes: Vec<u8>,
}

fn frames_of(alloc: Global, rows: &[Row]) -> Result<Vec<Frame>, Fail> {
    let mut frames = Vec::new(alloc);
    for &(moment, from, text, _) in rows {
        let bytes = joined(alloc, &[text])?;
        frames.push(Frame {
            moment,
            from,
            bytes,
        })?;
    }
    Ok(frames)
}

/// What is sent by all rows, in bytes.
fn wanted_of(alloc: Global, rows: &[Row]) -> Result<Vec<u8>, Fail> {
    let mut all = Vec::new(alloc);
    for &(_, _, _, sent) in rows {
        let bytes = joined(alloc, sent)?;
        all.extend_from_slice(&bytes)?;
    }
    Ok(all)
}

/// Three bytes that name a party.
fn spelled(party: Party) -> [u8; 3] {
    match party {
        Party::Replica { shard, index } => [0, shard, index],
        Party::Client { number } => [1, 0, number],
    }
}

/// Puts down each receiver and frame.
pub(crate) fn put_sent(sent: &mut Vec<u8>, out: &Outbox) -> Result<(), AllocError> {
    for envelope in out.messages.as_slice() {
        sent.extend_from_slice(&spelled(envelope.to))?;
        sent.extend_from_slice(envelope.frame.as_slice())?;
    }
    Ok(())
}

/// Hands a frame over, and puts down what is sent.
fn step_alone(
    replica: &mut Plain,
    mut out: Outbox,
    frame: &Frame,
    sent: &mut Vec<u8>,
) -> Result<(), Fail> {
    let taken = replica.step(frame.moment, frame.from, &frame.bytes, &mut out);
    let put = put_sent(sent, &out);
    drop(out);
    taken?;
    put?;
    Ok(())
}

fn step_all(
    alloc: Global,
    replica: &mut Plain,
    frames: &[Frame],
    sent: &mut Vec<u8>,
) -> Result<(), Fail> {
    for frame in frames {
        step_alone(replica, outbox(alloc), frame, sent)?;
    }
    Ok(())
}

/// Puts down what a replica sends that never stops.
fn send_alone(
    alloc: Global,
    seat: &Seat,
    frames: &[Frame],
    sent: &mut Vec<u8>,
) -> Result<(), Fail> {
    let mut replica = seat.alone(alloc)?;
    step_all(alloc, &mut replica, frames, sent)
}

/// The same of one that writes down, and whether the frame is taken.
fn step_kept(alloc: Global, kept: &mut Kept, frame: &Frame, sent: &mut Vec<u8>) -> bool {
    let mut out = outbox(alloc);
    let taken = kept.step(frame.moment, frame.from, &frame.bytes, &mut out);
    taken.is_ok() && put_sent(sent, &out).is_ok()
}

/// The disk behind a frame, for which the replica starts again with so many records.
fn step_anew(
    alloc: Global,
    seat: &Seat,
    disk: MemDisk,
    records: u64,
    frame: &Frame,
    sent: &mut Vec<u8>,
) -> Option<MemDisk> {
    let mut kept = taken(seat.open(alloc, disk.revive()))?;
    let goes_on = kept.records() == records && step_kept(alloc, &mut kept, frame, sent);
    let disk = disk_of(kept);
    if goes_on { Some(disk) } else { None }
}

/// Puts down what a replica sends that starts again before each frame.
fn send_anew(alloc: Global, seat: &Seat, frames: &[Frame], sent: &mut Vec<u8>) -> Option<u64> {
    let kept = taken(seat.create(alloc, MemDisk::new(alloc)))?;
    let mut disk = disk_of(kept);
    let mut records = 0u64;
    for frame in frames {
        disk = step_anew(alloc, seat, disk, records, frame, sent)?;
        records = records.saturating_add(1);
    }
    Some(records)
}

/// Whether a replica sends what the rows say, and the same when it starts again before each frame.
fn is_sent(
    alloc: Global,
    seat: &Seat,
    frames: &[Frame],
    wanted: &[u8],
) -> Result<(bool, bool), Fail> {
    let mut alone = Vec::new(alloc);
    let mut anew = Vec::new(alloc);
    send_alone(alloc, seat, frames, &mut alone)?;
    let records = send_anew(alloc, seat, frames, &mut anew);
    let all = records == Some(frames.len() as u64);
    Ok((alone.as_slice() == wanted, all && anew.as_slice() == wanted))
}

fn are_sent(alloc: Global, seat: &Seat, rows: &[Row]) -> Result<(bool, bool), Fail> {
    let frames = frames_of(alloc, rows)?;
    let wanted = wanted_of(alloc, rows)?;
    is_sent(alloc, seat, &frames, &wanted)
}

#[test]
fn the_only_replica_starts_again(rt: HostRuntime) -> Result<(), Fail> {
    assert!(rt; are_sent(rt.alloc(), &Seat::new(0, 0)?, ALONE)? == (true, true));
    Ok(())
}

#[test]
fn a_leader_starts_again(rt: HostRuntime) -> Result<(), Fail> {
    assert!(rt; are_sent(rt.alloc(), &Seat::new(1, 2)?, LEADING)? == (true, true));
    Ok(())
}
