//! An outbox that is lent to every step of a replica that writes down.

use crate::restarts::anew::put_sent;
use crate::restarts::frames::{CLIENT_1, CLIENT_2, FIRST_A, READ, REPLY_PREPARED, VOTE_A, joined};
use crate::restarts::seats::{Kept, Seat, taken};
use basil_types::outbox::Outbox;
use basil_types::party::Party;
use journal_disk::memory::MemDisk;
use node_journal::StepFault::{self, Closed, DiskFault, Refused};
use node_steps::pending::outbox;
use replica_core::Refusal;
use std::alloc::Global;
use std::process::Abort;
use std::test::Fail;

/// Who sends a frame at the moment 50, the frame, and how the step is answered; what the outbox then holds: each
/// receiver and frame, in hex, and how many words.
type Row = (
    Party,
    &'static str,
    Result<(), StepFault>,
    &'static [&'static str],
    usize,
);

const VOTED: &[&str] = &["010001", VOTE_A];

const REPLIED: &[&str] = &["010001", VOTE_A, "010002", REPLY_PREPARED];

const ROWS: &[Row] = &[
    (CLIENT_1, FIRST_A, Ok(()), VOTED, 1),
    (CLIENT_1, VOTE_A, Err(Refused(Refusal::NotMine)), VOTED, 1),
    // What is sent comes behind what it held.
    (CLIENT_2, READ, Ok(()), REPLIED, 2),
    (CLIENT_2, READ, Err(DiskFault), REPLIED, 2),
    (CLIENT_2, READ, Err(Closed), REPLIED, 2),
];

// Calls 1 to 3 begin the journal, and each frame that isn't refused makes four: the second sync of the third.
const FAILS: u64 = 15;

/// A disk of which that call fails.
fn failing(alloc: Global) -> Option<MemDisk> {
    match Vec::from_slice(alloc, &[FAILS]) {
        Ok(calls) => Some(MemDisk::failing(alloc, calls)),
        Err(_) => None,
    }
}

/// Whether a step is answered as a row says, and leaves that in the outbox.
fn leaves(alloc: Global, kept: &mut Kept, out: &mut Outbox, row: &Row) -> Result<bool, Fail> {
    let &(from, text, answer, held, words) = row;
    let frame = joined(alloc, &[text])?;
    let wanted = joined(alloc, held)?;
    let mut sent = Vec::new(alloc);
    let was = kept.step(50, from, &frame, out);
    put_sent(&mut sent, out)?;
    Ok(was == answer && sent == wanted && out.signed.as_slice().len() == words)
}

/// Takes the rows in order, with one outbox for all.
fn leave_all(rt: &impl Abort, alloc: Global, kept: &mut Kept) -> Result<(), Fail> {
    let mut out = outbox(alloc);
    let mut place = 0usize;
    for row in ROWS {
        assert!(rt; leaves(alloc, kept, &mut out, row)?, "row {place}");
        place = place.saturating_add(1);
    }
    Ok(())
}

/// A replica whose disk fails at the third frame that it doesn't refuse.
fn begun(alloc: Global, seat: &Seat) -> Option<Box<Kept>> {
    taken(seat.create(alloc, failing(alloc)?))
}

#[test]
fn a_lent_outbox_keeps_what_it_held(rt: HostRuntime) -> Result<(), Fail> {
    let alloc = rt.alloc();
    match begun(alloc, &Seat::new(0, 0)?) {
        Some(mut kept) => leave_all(&rt, alloc, &mut kept),
        None => Err(Fail::new("no journal")),
    }
}
