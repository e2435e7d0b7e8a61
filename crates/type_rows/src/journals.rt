//! Journals on disks that stop, or of which a call fails.

ghost use Rattle.std.specs.Prelude.{◌≤◌, IfSome, length};
ghost use Rattle.journal_records.specs.Found.{FitsBuffer};

use basil_types::bytes::Bytes;
use basil_types::source::Failed;
use journal_disk::disk::Disk;
use journal_disk::memory::MemDisk;
use journal_records::Found::{Broken, Closed, Record};
use journal_records::{
    Found, GREATEST_ENTRY, LEAST_ENTRY, SpelledRecord, append, create, gate_behind, is_full, next,
    open,
};
use std::alloc::Global;
use std::test::Fail;

/// What happens while a record is appended.
#[derive(Clone, Copy)]
enum Happens {
    Nothing,
    /// The disk stops within this of its writes, which then holds the bytes, repeated from the front.
    StopsIn(u64, &'static [u8]),
    /// This call of the disk fails.
    Fails(u64),
}

use Happens::{Fails, Nothing, StopsIn};

/// The records of a journal, in order.
const RECORDS: &[&[u8]] = &[
    b"alder and ash",
    b"beech, birch, box",
    b"cedar, cherry, chestnut",
];

/// What is appended at last: the shortest, so that bytes of a torn record stand behind its closed gate.
const LAST: &[u8] = b"dogwood, elm";

// How many records a journal has, what happens while one more is appended, and how many it has then.
const ROWS: &[(usize, Happens, usize)] = &[
    (1, Nothing, 2),
    (2, Nothing, 3),
    // The first write is of the record and the closed gate behind it.
    (1, StopsIn(1, b"\x00"), 1),
    (1, StopsIn(1, b"\x01"), 1),
    (1, StopsIn(1, b"\x4d"), 1),
    (1, StopsIn(1, b"\x00\x01"), 1),
    (1, StopsIn(1, b"\x01\x01"), 1),
    (2, StopsIn(1, b"\x00"), 2),
    (2, StopsIn(1, b"\x01"), 2),
    // The second opens its gate, where the first byte is 01.
    (1, StopsIn(2, b"\x00"), 1),
    (1, StopsIn(2, b"\x01"), 2),
    (1, StopsIn(2, b"\x4d"), 1),
    (1, StopsIn(2, b"\x00\x01"), 1),
    (1, StopsIn(2, b"\x01\x01"), 2),
    (2, StopsIn(2, b"\x00"), 2),
    (2, StopsIn(2, b"\x01"), 3),
    // Calls 1 and 2 create the journal, and each record takes four: it is written, kept, opened, and kept open.
    (1, Fails(7), 1),
    (1, Fails(8), 1),
    (1, Fails(9), 1),
    (2, Fails(11), 2),
    (2, Fails(12), 2),
    (2, Fails(13), 2),
    // Where the last of them fails, the record is there or not; on this disk it is.
    (1, Fails(10), 2),
    (2, Fails(14), 3),
];

/// Appends the record behind the gate at this place, in two pieces.
fn append_pieces(alloc: Global, disk: &mut MemDisk, end: u64, entry: &[u8]) -> Result<u64, Failed> {
    if is_full(end) || entry.len() < LEAST_ENTRY || GREATEST_ENTRY < entry.len() {
        return Err(Failed);
    }
    let (front, rest) = entry.split_at(LEAST_ENTRY);
    let record = SpelledRecord::new(alloc, front, rest).map_err(|_| Failed)?;
    append(disk, end, &record)
}

/// Begins a journal of the first so many records, and says where its last gate stands.
fn begin(alloc: Global, disk: &mut MemDisk, count: usize) -> Result<u64, Failed> {
    create(disk)?;
    let mut end = 0;
    for &entry in RECORDS.iter().take(count) {
        end = append_pieces(alloc, disk, end, entry)?;
    }
    Ok(end)
}

/// Has the disk stop, if it is to.
fn await_stop(alloc: Global, disk: &mut MemDisk, happens: Happens) -> Result<(), Failed> {
    let StopsIn(write, bytes) = happens else {
        return Ok(());
    };
    if write == 0 || bytes.is_empty() {
        return Err(Failed);
    }
    let bytes = Bytes::copy_of(alloc, bytes).map_err(|_| Failed)?;
    disk.stop_in(write, bytes);
    Ok(())
}

/// Begins a journal, has this happen while one more record is appended, and says whether the append went through.
fn append_one(
    alloc: Global,
    disk: &mut MemDisk,
    count: usize,
    happens: Happens,
) -> Result<bool, Failed> {
    let end = begin(alloc, disk, count)?;
    await_stop(alloc, disk, happens)?;
    match RECORDS.get(count) {
        Some(entry) => Ok(append_pieces(alloc, disk, end, entry).is_ok()),
        None => Err(Failed),
    }
}

/// What stands at the gate at this place.
fn look(disk: &mut MemDisk, at: u64, buffer: &mut [u8]) -> Option<Found>
    ensures { IfSome result (λ found. FitsBuffer found buffer.new) }
{
    if is_full(at) || buffer.len() < GREATEST_ENTRY {
        return None;
    }
    next(disk, at, buffer).ok()
}

/// The place of the gate behind the record at this place, if it is this one.
fn gate_after(disk: &mut MemDisk, at: u64, entry: &[u8], buffer: &mut [u8]) -> Option<u64> {
    match look(disk, at, buffer) {
        Some(Record(count)) if !is_full(at) && &buffer[..count] == entry => {
            Some(gate_behind(at, count))
        }
        _ => None,
    }
}

/// The place of the gate behind the first so many records, if these are what is found.
fn gate_after_all(disk: &mut MemDisk, count: usize, buffer: &mut [u8]) -> Option<u64> {
    let mut at = 0;
    for &entry in RECORDS.iter().take(count) {
        at = gate_after(disk, at, entry, buffer)?;
    }
    Some(at)
}

/// Whether the journal has the first so many records and no other, and goes on with one more.
fn goes_on(alloc: Global, disk: &mut MemDisk, count: usize, buffer: &mut [u8]) -> Option<bool> {
    open(disk).ok()?;
    let end = gate_after_all(disk, count, buffer)?;
    let ends = look(disk, end, buffer)? == Closed;
    append_pieces(alloc, disk, end, LAST).ok()?;
    let again = gate_after_all(disk, count, buffer)?;
    let last = gate_after(disk, again, LAST, buffer)?;
    Some(ends && look(disk, last, buffer)? == Closed)
}

/// The calls that are to fail.
fn failing_of(alloc: Global, happens: Happens) -> Result<Vec<u64>, Failed> {
    let listed = match happens {
        Fails(call) => Vec::from_slice(alloc, &[call]),
        _ => Ok(Vec::new(alloc)),
    };
    listed.map_err(|_| Failed)
}

/// Whether a journal has so many records after this has happened to it, and goes on. The append must go through where
/// nothing happens, and fail elsewhere.
fn is_row(
    alloc: Global,
    (before, happens, then): (usize, Happens, usize),
    buffer: &mut [u8],
) -> bool {
    let Ok(failing) = failing_of(alloc, happens) else {
        return false;
    };
    let mut disk = MemDisk::failing(alloc, failing);
    let went = append_one(alloc, &mut disk, before, happens);
    let mut disk = disk.revive();
    let goes = goes_on(alloc, &mut disk, then, buffer);
    went == Ok(matches!(happens, Nothing)) && goes == Some(true)
}

#[test]
fn no_stop_loses_a_record(rt: HostRuntime) -> Result<(), Fail> {
    let mut buffer = vec![in rt.alloc(); 0u8; GREATEST_ENTRY]?;
    let mut place = 0usize;
    for &row in ROWS {
        assert!(rt; is_row(rt.alloc(), row, &mut buffer), "row {place}");
        place = place.saturating_add(1);
    }
    Ok(())
}

// A journal of one record.
const ONE_RECORD: &[u8] = &[
    0x01, // the gate, open
    0x00, 0x00, 0x00, 0x0d, // the length
    0x61, 0x6c, 0x64, 0x65, 0x72, 0x20, 0x61, 0x6e, 0x64, 0x20, 0x61, 0x73, 0x68, // the record
    0x00, // the gate behind it, closed
];

#[test]
fn a_record_is_spelled(rt: HostRuntime) -> Result<(), Fail> {
    let record = SpelledRecord::new(rt.alloc(), b"alder", b" and ash")?;
    assert!(rt; record.bytes() == &ONE_RECORD[1..]);
    Ok(())
}

#[test]
fn a_journal_of_one_record(rt: HostRuntime) {
    let mut disk = MemDisk::new(rt.alloc());
    assert!(rt; begin(rt.alloc(), &mut disk, 1) == Ok(18));
    assert!(rt; disk.bytes() == ONE_RECORD);
}

// A journal that stopped in the first write of its second record, with 01 all over, and went on with the last.
const GONE_ON: &[u8] = &[
    0x01, // the gate, open
    0x00, 0x00, 0x00, 0x0d, // the length
    0x61, 0x6c, 0x64, 0x65, 0x72, 0x20, 0x61, 0x6e, 0x64, 0x20, 0x61, 0x73, 0x68, // the record
    0x01, // the gate behind it, open
    0x00, 0x00, 0x00, 0x0c, // the length
    0x64, 0x6f, 0x67, 0x77, 0x6f, 0x6f, 0x64, 0x2c, 0x20, 0x65, 0x6c, 0x6d, // the record
    0x00, // the gate behind it, closed
    0x01, 0x01, 0x01, 0x01, 0x01, // of the torn record
];

#[test]
fn torn_bytes_stay_behind_the_gate(rt: HostRuntime) -> Result<(), Fail> {
    let mut buffer = vec![in rt.alloc(); 0u8; GREATEST_ENTRY]?;
    let mut disk = MemDisk::new(rt.alloc());
    let went = append_one(rt.alloc(), &mut disk, 1, StopsIn(1, b"\x01"));
    let mut disk = disk.revive();
    let goes = goes_on(rt.alloc(), &mut disk, 1, &mut buffer);
    assert!(rt; went == Ok(false) && goes == Some(true));
    assert!(rt; disk.bytes() == GONE_ON);
    Ok(())
}

// Bytes, how many they are with zeros behind them, and what stands at their gate.
const GATES: &[(&[u8], u64, Found)] = &[
    (b"", 0, Broken),
    (b"\x00", 1, Closed),
    (b"\x02", 1, Closed),
    (b"\x4d", 1, Closed),
    (b"\x01", 1, Broken),
    // The length is cut.
    (b"\x01", 4, Broken),
    // 11 bytes, and 12.
    (b"\x01\x00\x00\x00\x0b", 18, Broken),
    (b"\x01\x00\x00\x00\x0c", 16, Broken),
    (b"\x01\x00\x00\x00\x0c", 17, Record(12)),
    // 1,048,587 bytes, and 1,048,588.
    (b"\x01\x00\x10\x00\x0b", 1_048_591, Broken),
    (b"\x01\x00\x10\x00\x0b", 1_048_592, Record(1_048_587)),
    (b"\x01\x00\x10\x00\x0c", 1_048_593, Broken),
];

/// Writes the bytes, and zeros behind them up to so many.
fn write_padded(disk: &mut MemDisk, bytes: &[u8], count: u64) -> Result<(), Failed> {
    disk.write_at(0, bytes)?;
    if (bytes.len() as u64) < count {
        disk.write_at(count - 1, &[0x00])?;
    }
    Ok(())
}

/// What stands at the gate of a disk that holds the bytes, and zeros behind them up to so many.
fn found_in(alloc: Global, bytes: &[u8], count: u64, buffer: &mut [u8]) -> Option<Found> {
    let mut disk = MemDisk::new(alloc);
    let written = write_padded(&mut disk, bytes, count);
    let found = look(&mut disk, 0, buffer);
    written.ok().and(found)
}

#[test]
fn gates_are_closed_open_or_broken(rt: HostRuntime) -> Result<(), Fail> {
    let mut buffer = vec![in rt.alloc(); 0u8; GREATEST_ENTRY]?;
    for &(bytes, count, found) in GATES {
        assert!(rt;
            found_in(rt.alloc(), bytes, count, &mut buffer) == Some(found),
            "{count} bytes"
        );
    }
    Ok(())
}
