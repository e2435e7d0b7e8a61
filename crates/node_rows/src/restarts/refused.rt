//! Frames that are refused, disks on which no journal begins, and journals that aren't opened.

use crate::restarts::frames::{CLIENT_1, FIRST_A, VOTE_A, joined};
use crate::restarts::seats::{Kept, Opened, Seat, disk_of, disk_with, hand, taken};
use crate::restarts::spelled::ONE_RECORD;
use journal_disk::memory::MemDisk;
use node_journal::JournalFault::{self, BadJournal};
use node_journal::{Refused, StepFault};
use replica_core::Refusal;
use std::alloc::Global;
use std::process::Abort;
use std::test::Fail;

// Frames that client 1 sends at the moment 50, and why the replica refuses them.
const REFUSED: &[(&str, Refusal)] = &[
    (VOTE_A, Refusal::NotMine),
    // The first stage of the transaction, with the last byte of its signature changed.
    (
        "0301000000000000000a0100010161000278310020b7ce6222f675a2b67a124d4894840b2e26b2b6bee0809dd2c429ea5e33f23d6c",
        Refusal::BadSignature(0),
    ),
    // A read at time 1051.
    ("010161000000000000041b02", Refusal::FromFuture(50)),
];

/// Whether a frame is refused for this, and the journal stays as it is.
fn is_refused(
    alloc: Global,
    kept: &mut Kept,
    frame: &[u8],
    refusal: Refusal,
    journal: &[u8],
) -> bool {
    hand(alloc, kept, 50, CLIENT_1, frame) == Err(StepFault::Refused(refusal))
        && kept.records() == 1
        && kept.disk().bytes() == journal
}

/// Hands a frame over that is taken, and then those that aren't.
fn refuse_all(
    rt: &impl Abort,
    alloc: Global,
    kept: &mut Kept,
    first: &[u8],
    journal: &[u8],
) -> Result<(), Fail> {
    hand(alloc, kept, 50, CLIENT_1, first)?;
    for &(text, refusal) in REFUSED {
        let frame = joined(alloc, &[text])?;
        assert!(rt; is_refused(alloc, kept, &frame, refusal, journal), "{text}");
    }
    Ok(())
}

/// The same of a replica whose journal begins.
fn refuse_behind(
    rt: &impl Abort,
    alloc: Global,
    seat: &Seat,
    first: &[u8],
    journal: &[u8],
) -> Result<(), Fail> {
    match taken(seat.create(alloc, MemDisk::new(alloc))) {
        Some(mut kept) => refuse_all(rt, alloc, &mut kept, first, journal),
        None => Err(Fail::new("no journal")),
    }
}

#[test]
fn a_refused_frame_is_not_written(rt: HostRuntime) -> Result<(), Fail> {
    let alloc = rt.alloc();
    let first = joined(alloc, &[FIRST_A])?;
    let journal = joined(alloc, ONE_RECORD)?;
    refuse_behind(&rt, alloc, &Seat::new(0, 0)?, &first, &journal)
}

/// How many records there are, or the fault; and the disk.
fn found(answer: Opened) -> (Result<u64, JournalFault>, MemDisk) {
    match answer {
        Ok(kept) => (Ok(kept.records()), disk_of(kept)),
        Err(Refused { disk, fault }) => (Err(fault), disk),
    }
}

// Bytes of a disk, how many records a journal has that begins there, or the fault, and the bytes then.
const BEGUN: &[(&str, Result<u64, JournalFault>, &str)] = &[
    ("", Ok(0), "00"),
    ("00", Err(BadJournal(0)), "00"),
    ("4d00", Err(BadJournal(0)), "4d00"),
];

/// Whether a journal that begins on a disk with these bytes has so many records, or this fault, and leaves those.
fn begins(
    alloc: Global,
    seat: &Seat,
    bytes: &[u8],
    answer: Result<u64, JournalFault>,
    then: &[u8],
) -> Option<bool> {
    let (was, disk) = found(seat.create(alloc, disk_with(alloc, bytes)?));
    Some(was == answer && disk.bytes() == then)
}

#[test]
fn a_journal_begins_where_no_byte_is(rt: HostRuntime) -> Result<(), Fail> {
    let alloc = rt.alloc();
    let seat = Seat::new(0, 0)?;
    for &(text, answer, then) in BEGUN {
        let bytes = joined(alloc, &[text])?;
        let then = joined(alloc, &[then])?;
        assert!(rt;
            begins(alloc, &seat, &bytes, answer, &then) == Some(true),
            "{text}"
        );
    }
    Ok(())
}

// An open gate and what stands behind it up to a frame: the length, the moment 50 and the party. The length is that of
// a record of the first stage, of the vote, or of one without a frame.
const CLIENT: &str = "01000000400000000000000032010001";

const REPLICA: &str = "01000000400000000000000032000000";

const NOBODY: &str = "01000000400000000000000032020001";

const NO_CLIENT: &str = "01000000400000000000000032010101";

const TO_VOTE: &str = "01000000520000000000000032000000";

const NO_FRAME: &str = "010000000b0000000000000032010001";

// Bytes of a disk, and how many records the journal has that is opened there, or the fault.
const OPENED: &[(&[&str], Result<u64, JournalFault>)] = &[
    // No gate.
    (&[], Err(BadJournal(0))),
    // A closed gate, whatever stands behind it.
    (&["00"], Ok(0)),
    (&["4d"], Ok(0)),
    (&["00", CLIENT, FIRST_A, "00"], Ok(0)),
    (&[CLIENT, FIRST_A, "00"], Ok(1)),
    (&[CLIENT, FIRST_A, "02", CLIENT], Ok(1)),
    (&[CLIENT, FIRST_A, CLIENT, FIRST_A, "00"], Ok(2)),
    // The length is cut, the record is, or the gate behind it is wanting.
    (&["01000000"], Err(BadJournal(0))),
    (&[CLIENT, "03"], Err(BadJournal(0))),
    (&[CLIENT, FIRST_A], Err(BadJournal(69))),
    (&[CLIENT, FIRST_A, CLIENT], Err(BadJournal(69))),
    (&[NO_FRAME, "00"], Err(BadJournal(0))),
    // The party is a replica, or nobody: the first byte is 2, or a client's second byte is 1.
    (&[REPLICA, FIRST_A, "00"], Ok(1)),
    (&[NOBODY, FIRST_A, "00"], Err(BadJournal(0))),
    (&[NO_CLIENT, FIRST_A, "00"], Err(BadJournal(0))),
    (&[CLIENT, FIRST_A, NOBODY, FIRST_A], Err(BadJournal(69))),
    // The replica refuses the frame.
    (&[TO_VOTE, VOTE_A, "00"], Err(BadJournal(0))),
    (&[CLIENT, FIRST_A, TO_VOTE, VOTE_A], Err(BadJournal(69))),
];

/// Whether the journal of a disk with these bytes has so many records, or this fault, and stays as it is.
fn opens(
    alloc: Global,
    seat: &Seat,
    bytes: &[u8],
    answer: Result<u64, JournalFault>,
) -> Option<bool> {
    let (was, disk) = found(seat.open(alloc, disk_with(alloc, bytes)?));
    Some(was == answer && disk.bytes() == bytes)
}

#[test]
fn a_journal_is_opened_or_refused(rt: HostRuntime) -> Result<(), Fail> {
    let alloc = rt.alloc();
    let seat = Seat::new(0, 0)?;
    let mut place = 0usize;
    for &(texts, answer) in OPENED {
        let bytes = joined(alloc, texts)?;
        assert!(rt;
            opens(alloc, &seat, &bytes, answer) == Some(true),
            "row {place}"
        );
        place = place.saturating_add(1);
    }
    Ok(())
}
