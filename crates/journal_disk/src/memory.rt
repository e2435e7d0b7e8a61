//! A disk in memory that stops.

mod awaited;
mod held;

ghost use Rattle.std.specs.Prelude.{◌≡◌, ◌<◌, ◌⊎◌, [], true, false, Some, length, option_map};
ghost use Rattle.std.specs.Prelude.{IfOk, OnOk, OnErr, is_err, is_some};
ghost use Rattle.std.specs.Io.{ReadsAtMost};
ghost use Rattle.basil_types.specs.Causes.{HasCause};
ghost use Rattle.journal_disk.specs.Disk.{BothTold, MayLeave, MayStay, OnTold, Reads, Tears, Writes, keeps};
ghost use Rattle.journal_disk.specs.Foreseen.{MayHappen, Passes, is_next};
ghost use Rattle.journal_disk.specs.Memory as disks;
ghost use Rattle.journal_disk.specs.Memory.{MayStop, Stops, called, fresh, puts, revived, stops_in, synced};
ghost use Rattle.journal_disk.specs.Memory.{write_fails};

use crate::disk::{Disk, Stop};
use awaited::Awaited;
use basil_types::bytes::Bytes;
use basil_types::calls::Calls;
use basil_types::memory::NoMemory;
use basil_types::source::Failed;
use held::{Held, copy_from};
use std::alloc::Global;
use std::marker::Model;

/// A disk in memory. Its reads, writes and syncs are counted together, from 1, and those that are listed fail and
/// change nothing; so do all calls after a stop. Any other call but a read may find memory wanting, and then it fails
/// and changes nothing. The write in which it stops fails, too, and leaves the bytes of the stop in the range.
#[derive(Drop)]
pub struct MemDisk {
    alloc: Global,
    held: Held,
    calls: Calls,
    awaited: Option<Awaited>,
    stops: Vec<Stop>,
    is_stopped: bool,
}

impl Model for MemDisk {
    ghost use Rattle.journal_disk.specs.Memory.{MemDiskState};

    ghost Value = { MemDiskState };

    ghost view = { λ d. record {
      disk = d.held;
      calls = d.calls;
      stops = record { awaits = d.awaited; happened = d.stops.items; is_stopped = d.is_stopped };
    } };
}

impl MemDisk {
    /// A disk without a byte, of which no call is listed. Takes no memory.
    pub fn new(alloc: Global) -> MemDisk
        ensures { result ≡ fresh [] }
    {
        MemDisk::failing(alloc, Vec::new(alloc))
    }

    /// A disk without a byte, before its first call; the calls of these numbers, from 1, will fail. Takes no memory.
    pub fn failing(alloc: Global, calls: Vec<u64>) -> MemDisk
        ensures { result ≡ fresh calls.items }
    {
        MemDisk {
            alloc,
            held: Held::new(alloc),
            calls: Calls::new(calls),
            awaited: None,
            stops: Vec::new(alloc),
            is_stopped: false,
        }
    }

    /// Stops within a write from now on, counted from 1: the written range then holds the bytes, repeated from the
    /// front, and that call and all later ones fail. A write counts unless it is listed, comes after a stop or finds
    /// memory wanting. A stop that still awaits is given up for this one.
    pub fn stop_in(&mut self, write: u64, bytes: Bytes)
        requires write { 0 < write }
        requires bytes { 0 < length bytes }
        ensures { self.new ≡ stops_in write bytes self.old }
    {
        self.awaited = Some(Awaited::new(Stop { write, bytes }));
    }

    /// The disk as the stop left it, or as it reads if it didn't stop, and kept so: this is the one thing that it then
    /// tells of its past. A stop that still awaits is given up. The list and the counts of calls and the stops stay.
    pub fn revive(mut self) -> MemDisk
        ensures exact { result ≡ revived self }
        ensures left { MayLeave self.disk.past result.disk.contents }
    {
        self.held.revive();
        self.awaited = None;
        self.is_stopped = false;
        self
    }

    /// The stops that happened, in order, as `stop_in` was given them.
    pub fn stops(&self) -> &[Stop]
        ensures { result.now ≡ self.now.stops.happened }
    {
        self.stops.as_slice()
    }

    /// Whether a stop awaits.
    pub fn awaits(&self) -> bool
        ensures { result ≡ is_some self.now.stops.awaits }
    {
        self.awaited.is_some()
    }

    /// What reads give now, which a stop now may leave.
    pub fn bytes(&self) -> &[u8]
        ensures now { result.now ≡ self.now.disk.contents }
        ensures left { MayLeave self.now.disk.past result.now }
    {
        self.held.bytes()
    }

    /// Whether the next call fails whatever it asks.
    fn is_refused(&self) -> bool
        ensures { result ≡ disks.is_refused self.now }
    {
        self.is_stopped || self.calls.fails_next()
    }

    /// Whether the next write that isn't refused is that of the stop.
    fn stops_next(&self) -> bool
        ensures { result ≡ is_next self.now.stops.awaits }
    {
        match &self.awaited {
            Some(awaited) => awaited.is_last(),
            None => false,
        }
    }

    /// Stops within a write of so many bytes at the place, or finds memory wanting and changes nothing.
    fn stop(&mut self, at: u64, count: usize) -> Result<(), NoMemory>
        requires { is_next self.old.stops.awaits ≡ true }
        ensures stopped { OnOk result (Stops at count self.old self.new) }
        ensures as_before { OnErr result (self.new ≡ self.old) }
    {
        let Some(awaited) = &self.awaited else {
            unreachable!();
        };
        let left = awaited.leaves(self.alloc, count)?;
        self.stops.reserve(1)?;
        self.held.write(at, left)?;
        if let Some(awaited) = self.awaited.take() {
            self.stops.push_reserved(awaited.into_stop());
        }
        self.is_stopped = true;
        Ok(())
    }

    /// Writes the bytes at the place, or finds memory wanting and changes nothing.
    fn put(&mut self, at: u64, bytes: &[u8]) -> Result<(), NoMemory>
        requires { is_next self.old.stops.awaits ≡ false }
        ensures written { OnOk result (self.new ≡ puts at bytes.now self.old) }
        ensures as_before { OnErr result (self.new ≡ self.old) }
    {
        let bytes = Bytes::copy_of(self.alloc, bytes)?;
        self.held.write(at, bytes)?;
        if let Some(awaited) = &mut self.awaited {
            awaited.pass();
        }
        Ok(())
    }

    /// Writes the bytes at the place, or stops, if it may; counts no call.
    fn write(&mut self, at: u64, bytes: &[u8]) -> Result<(), Failed>
        ensures listed { write_fails self.old ≡ true → is_err result ≡ true }
        ensures refused { disks.is_refused self.old ≡ true → self.new ≡ self.old }
        ensures done { OnOk result (self.new ≡ puts at bytes.now self.old) }
        ensures failed { OnErr result (MayStop at (length bytes.now) self.old self.new) }
        ensures calls { self.new.calls ≡ self.old.calls }
    {
        if self.is_refused() {
            return Err(Failed);
        }
        if self.stops_next() {
            // Where memory is wanting it doesn't stop yet, and the write fails all the same.
            let _ = self.stop(at, bytes.len());
            return Err(Failed);
        }
        self.put(at, bytes).map_err(|_| Failed)
    }
}

impl Disk for MemDisk {
    ghost use Rattle.std.specs.Prelude.{Some};

    ghost told = { λ d. Some d.disk };

    ghost stops = { λ d. d.stops };

    ghost faults = { λ d. d.calls.faults };

    fn read_at(&mut self, at: u64, buf: &mut [u8]) -> Result<usize, Failed>
        ensures bound { ReadsAtMost result buf.new }
        ensures bytes { IfOk result (λ count. OnTold (Reads at count buf.new) (Some self.old.disk)) }
        ensures may_stay { OnTold MayStay (Some self.old.disk) }
        ensures as_before { Some self.new.disk ≡ Some self.old.disk }
        ensures stops { self.new.stops ≡ self.old.stops }
        ensures after_stop { self.old.stops.is_stopped ≡ true → is_err result ≡ true }
        ensures cause { HasCause self.old.calls.faults self.new.calls.faults result }
        ensures listed { is_err result ≡ disks.is_refused self.old }
        ensures called { self.new ≡ called (is_err result) self.old }
    {
        reads_may_be_left(self);
        let fails = self.is_refused();
        self.calls.count(fails);
        if fails {
            return Err(Failed);
        }
        Ok(copy_from(self.held.bytes(), at, buf))
    }

    fn write_at(&mut self, at: u64, bytes: &[u8]) -> Result<(), Failed>
        ensures written { OnOk result (BothTold (Writes at bytes.now) (Some self.old.disk) (Some self.new.disk)) }
        ensures torn { OnErr result (
            (Some self.new.disk ≡ Some self.old.disk)
            ⊎ BothTold (Tears at (length bytes.now)) (Some self.old.disk) (Some self.new.disk)
            ) }
        ensures passed { OnOk result (Passes self.old.stops self.new.stops) }
        ensures stopped { OnErr result (MayHappen at (length bytes.now) self.old.stops self.new.stops
            (Some self.old.disk) (Some self.new.disk)) }
        ensures after_stop { self.old.stops.is_stopped ≡ true → is_err result ≡ true }
        ensures cause { HasCause self.old.calls.faults self.new.calls.faults result }
        ensures listed { write_fails self.old ≡ true → is_err result ≡ true }
        ensures refused { disks.is_refused self.old ≡ true → self.new ≡ called true self.old }
        ensures done { OnOk result (self.new ≡ called false (puts at bytes.now self.old)) }
        ensures failed { OnErr result (MayStop at (length bytes.now) (called true self.old) self.new) }
    {
        let written = self.write(at, bytes);
        self.calls.count(written.is_err());
        written
    }

    fn sync(&mut self) -> Result<(), Failed>
        ensures kept { OnOk result (Some self.new.disk ≡ option_map keeps (Some self.old.disk)) }
        ensures as_before { OnErr result (Some self.new.disk ≡ Some self.old.disk) }
        ensures stops { self.new.stops ≡ self.old.stops }
        ensures after_stop { self.old.stops.is_stopped ≡ true → is_err result ≡ true }
        ensures cause { HasCause self.old.calls.faults self.new.calls.faults result }
        ensures listed { disks.is_refused self.old ≡ true → is_err result ≡ true }
        ensures done { OnOk result (self.new ≡ called false (synced self.old)) }
        ensures failed { OnErr result (self.new ≡ called true self.old) }
    {
        let fails = self.is_refused() || self.held.keep().is_err();
        self.calls.count(fails);
        if fails {
            return Err(Failed);
        }
        Ok(())
    }
}

/// A stop now may leave what reads of the disk give.
pub fn reads_may_be_left(disk: &MemDisk)
    ensures { MayStay disk.now.disk }
{
    let _bytes = disk.bytes();
}
