//! The bytes of a disk in memory, and what it did to them.

ghost use Rattle.std.specs.Prelude.{◌≡◌, ◌+◌, ◌-◌, ◌≤◌, OnOk, OnErr, length, min, slice_range, take};
ghost use Rattle.journal_disk.specs.Disk.{MayLeave, keeps};
ghost use Rattle.journal_disk.specs.Contents.{begins, blank, padded, put_over, writes};

use basil_types::bytes::Bytes;
use basil_types::memory::NoMemory;
use std::alloc::Global;
use std::marker::Model;

/// What a disk did to its bytes.
#[derive(Drop)]
pub(crate) enum Done {
    Write { at: u64, bytes: Bytes },
    Sync,
}

/// The bytes of a disk in memory, with each write and sync that made them.
#[derive(Drop)]
pub(crate) struct Held {
    bytes: Vec<u8>,
    // In order.
    done: Vec<Done>,
    // How many of them it had done when it was revived last.
    revived: Option<usize>,
}

impl Model for Held {
    ghost use Rattle.std.specs.Prelude.{◌≡◌};
    ghost use Rattle.journal_disk.specs.Disk.{DiskState};
    ghost use Rattle.journal_disk.specs.Held.{IsWithin, disk_of};

    ghost Value = { DiskState };

    ghost view = { λ h. disk_of h.revived h.done.items };

    ghost invariant = { λ h.
        (h.bytes.items ≡ (disk_of h.revived h.done.items).contents) × IsWithin h.revived h.done.items };
}

impl Held {
    /// Nothing written yet.
    pub(crate) fn new(alloc: Global) -> Held
        ensures { result ≡ blank }
    {
        Held {
            bytes: Vec::new(alloc),
            done: Vec::new(alloc),
            revived: None,
        }
    }

    /// What reads give now, which a stop now may leave.
    pub(crate) fn bytes(&self) -> &[u8]
        ensures now { result.now ≡ self.now.contents }
        ensures left { MayLeave self.now.past result.now }
    {
        self.bytes.as_slice()
    }

    /// Writes the bytes at the place, or finds memory wanting and changes nothing.
    pub(crate) fn write(&mut self, at: u64, bytes: Bytes) -> Result<(), NoMemory>
        ensures written { OnOk result (self.new ≡ writes at bytes self.old) }
        ensures as_before { OnErr result (self.new ≡ self.old) }
    {
        self.done.reserve(1)?;
        write_over(&mut self.bytes, at, bytes.as_slice())?;
        self.done.push_reserved(Done::Write { at, bytes });
        Ok(())
    }

    /// Keeps what reads give, or finds memory wanting and changes nothing.
    pub(crate) fn keep(&mut self) -> Result<(), NoMemory>
        ensures kept { OnOk result (self.new ≡ keeps self.old) }
        ensures as_before { OnErr result (self.new ≡ self.old) }
    {
        self.done.reserve(1)?;
        self.done.push_reserved(Done::Sync);
        Ok(())
    }

    /// Begins anew with what reads give.
    pub(crate) fn revive(&mut self)
        ensures exact { self.new ≡ begins self.old.contents }
        ensures left { MayLeave self.old.past self.new.contents }
    {
        self.revived = Some(self.done.len());
    }
}

/// Copies the bytes from a place on to the front of the buffer, up to its end or theirs, and says how many.
pub(crate) fn copy_from(bytes: &[u8], at: u64, buf: &mut [u8]) -> usize
    ensures bound { result ≤ length buf.new }
    ensures all { result ≡ min (length buf.new) (length bytes.now - at) }
    ensures bytes { take result buf.new ≡ slice_range bytes.now at (at + result) }
{
    let start = bytes.len().min(at as usize);
    let rest = &bytes[start..];
    let count = buf.len().min(rest.len());
    buf[..count].copy_from_slice(&rest[..count]);
    count
}

/// Writes a piece at a place, with zeros in a gap before it, or finds memory wanting and changes nothing.
fn write_over(bytes: &mut Vec<u8>, at: u64, piece: &[u8]) -> Result<(), NoMemory>
    ensures written { OnOk result
        (bytes.new.items ≡ put_over at piece.now (padded (at + length piece.now) bytes.old.items)) }
    ensures as_before { OnErr result (bytes.new.items ≡ bytes.old.items) }
{
    let start = at as usize;
    let Some(end) = start.checked_add(piece.len()) else {
        return Err(NoMemory);
    };
    if bytes.len() < end {
        bytes.resize(end, 0)?;
    }
    bytes[start..end].copy_from_slice(piece);
    Ok(())
}
