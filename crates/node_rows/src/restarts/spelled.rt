//! What a replica writes to its disk.

use crate::restarts::frames::{CLIENT_1, FIRST_A, VOTE_A, joined};
use crate::restarts::seats::{Kept, Seat, taken};
use basil_types::outbox::Outbox;
use basil_types::party::Party;
use journal_disk::memory::MemDisk;
use node_steps::pending::outbox;
use std::alloc::Global;
use std::test::Fail;

/// A journal of one record, in hex.
pub(crate) const ONE_RECORD: &[&str] = &[
    "01", // the gate, open
    "00000040", // the length
    "0000000000000032", // the moment 50
    "010001", // client 1
    FIRST_A,
    "00", // the gate behind it, closed
];

/// Whether one message is sent, to this party and with these bytes.
fn is_sent(out: &Outbox, to: Party, frame: &[u8]) -> bool {
    match out.messages.as_slice() {
        [envelope] => envelope.to == to && envelope.frame.as_slice() == frame,
        _ => false,
    }
}

/// Whether the frame, which client 1 sends at the moment 50, is answered by this vote.
fn votes(alloc: Global, kept: &mut Kept, frame: &[u8], vote: &[u8]) -> bool {
    let mut out = outbox(alloc);
    kept.step(50, CLIENT_1, frame, &mut out).is_ok() && is_sent(&out, CLIENT_1, vote)
}

/// Whether a replica answers its first frame by this vote, and has this journal then.
fn writes(alloc: Global, seat: &Seat, frame: &[u8], vote: &[u8], journal: &[u8]) -> Option<bool> {
    let mut kept = taken(seat.create(alloc, MemDisk::new(alloc)))?;
    let voted = votes(alloc, &mut kept, frame, vote);
    Some(voted && kept.records() == 1 && kept.disk().bytes() == journal)
}

#[test]
fn a_first_stage_is_written_down(rt: HostRuntime) -> Result<(), Fail> {
    let alloc = rt.alloc();
    let frame = joined(alloc, &[FIRST_A])?;
    let vote = joined(alloc, &[VOTE_A])?;
    let journal = joined(alloc, ONE_RECORD)?;
    let seat = Seat::new(0, 0)?;
    assert!(rt; writes(alloc, &seat, &frame, &vote, &journal) == Some(true));
    Ok(())
}
