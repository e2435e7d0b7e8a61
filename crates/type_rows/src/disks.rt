//! A disk in memory: what calls make of it before, in and after a stop.

use basil_types::bytes::Bytes;
use journal_disk::disk::Disk;
use journal_disk::memory::{MemDisk, reads_may_be_left};
use std::alloc::Global;
use std::test::Fail;

/// A call of a disk; a read is of eight bytes, and names those that it gives.
#[derive(Clone, Copy)]
enum Call {
    Write(u64, &'static [u8]),
    Read(u64, &'static [u8]),
    Sync,
    StopIn(u64, &'static [u8]),
    Revive,
}

/// Whether a read of eight bytes gives these.
fn reads(disk: &mut MemDisk, at: u64, wanted: &[u8]) -> bool {
    let mut buf = [0; 8];
    match disk.read_at(at, &mut buf) {
        Ok(count) => &buf[..count] == wanted,
        Err(_) => false,
    }
}

/// Has the disk stop, where the write and the bytes can be asked for.
fn stop_in(alloc: Global, disk: &mut MemDisk, write: u64, bytes: &[u8]) -> bool {
    if write == 0 || bytes.is_empty() {
        return false;
    }
    match Bytes::copy_of(alloc, bytes) {
        Ok(bytes) => {
            disk.stop_in(write, bytes);
            true
        }
        Err(_) => false,
    }
}

/// The disk after the call, and whether that did what it asks.
fn ask(alloc: Global, mut disk: MemDisk, asked: Call) -> (MemDisk, bool) {
    let done = match asked {
        Call::Write(at, bytes) => disk.write_at(at, bytes).is_ok(),
        Call::Read(at, wanted) => reads(&mut disk, at, wanted),
        Call::Sync => disk.sync().is_ok(),
        Call::StopIn(write, bytes) => stop_in(alloc, &mut disk, write, bytes),
        Call::Revive => {
            return (disk.revive(), true);
        }
    };
    (disk, done)
}

// Of a disk whose calls 3, 6, 9 and 18 are listed: each call, whether it is done, and what reads then give.
const CALLS: &[(Call, bool, &[u8])] = &[
    (Call::Write(0, b"alder"), true, b"alder"),
    (Call::Read(0, b"alder"), true, b"alder"),
    // Call 3.
    (Call::Write(1, b"x"), false, b"alder"),
    // Two bytes beyond the end.
    (Call::Write(7, b"oak"), true, b"alder\0\0oak"),
    (Call::Read(3, b"er\0\0oak"), true, b"alder\0\0oak"),
    // Call 6.
    (Call::Read(0, b"alder\0\0o"), false, b"alder\0\0oak"),
    // At the end, and beyond it.
    (Call::Read(10, b""), true, b"alder\0\0oak"),
    (Call::Read(12, b""), true, b"alder\0\0oak"),
    // Call 9.
    (Call::Sync, false, b"alder\0\0oak"),
    (Call::Sync, true, b"alder\0\0oak"),
    // The second stop replaces the first.
    (Call::StopIn(9, b"never"), true, b"alder\0\0oak"),
    (Call::StopIn(1, b"ab"), true, b"alder\0\0oak"),
    (Call::Write(2, b"elm!!"), false, b"alababaoak"),
    // All calls fail after the stop.
    (Call::Read(0, b"alababao"), false, b"alababaoak"),
    (Call::Write(0, b"x"), false, b"alababaoak"),
    (Call::Sync, false, b"alababaoak"),
    (Call::Revive, true, b"alababaoak"),
    (Call::Read(0, b"alababao"), true, b"alababaoak"),
    // A stop in the second write; neither the sync between is one, nor does call 18 count, which is listed.
    (Call::StopIn(2, b"-"), true, b"alababaoak"),
    (Call::Write(0, b"AL"), true, b"ALababaoak"),
    (Call::Sync, true, b"ALababaoak"),
    (Call::Write(9, b"x"), false, b"ALababaoak"),
    (Call::Write(9, b"kk"), false, b"ALababaoa--"),
    (Call::Sync, false, b"ALababaoa--"),
    (Call::Revive, true, b"ALababaoa--"),
    // A stop that isn't reached before the disk is revived.
    (Call::StopIn(2, b"z"), true, b"ALababaoa--"),
    (Call::Write(0, b"a"), true, b"aLababaoa--"),
    (Call::Revive, true, b"aLababaoa--"),
    (Call::Write(1, b"l"), true, b"alababaoa--"),
    // More than memory can hold.
    (Call::Write(u64::MAX, b"x"), false, b"alababaoa--"),
    (Call::Write(u64::MAX - 1, b"x"), false, b"alababaoa--"),
    (Call::Sync, true, b"alababaoa--"),
];

// The stops among them.
const STOPS: &[(u64, &[u8])] = &[(1, b"ab"), (2, b"-")];

#[test]
fn a_disk_stops_and_is_revived(rt: HostRuntime) -> Result<(), Fail> {
    let failing = Vec::from_slice(rt.alloc(), &[3, 6, 9, 18])?;
    let mut disk = MemDisk::failing(rt.alloc(), failing);
    for &(asked, done, contents) in CALLS {
        let (now, was_done) = ask(rt.alloc(), disk, asked);
        disk = now;
        assert!(rt; was_done == done);
        assert!(rt; disk.bytes() == contents);
    }
    reads_may_be_left(&disk);
    assert!(rt; !disk.awaits());
    assert!(rt; disk.stops().len() == STOPS.len());
    for (stop, &(write, bytes)) in disk.stops().iter().zip(STOPS) {
        assert!(rt; stop.write == write);
        assert!(rt; stop.bytes.as_slice() == bytes);
    }
    Ok(())
}

#[test]
fn a_disk_begins_empty(rt: HostRuntime) {
    let mut disk = MemDisk::new(rt.alloc());
    assert!(rt; reads(&mut disk, 0, b""));
    assert!(rt; disk.bytes().is_empty());
    assert!(rt; disk.stops().is_empty());
}
