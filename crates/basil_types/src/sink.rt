//! Where bytes go to.

ghost use Rattle.std.specs.Prelude.{◌≡◌, ◌+◌, ◌-◌, ◌^◌, List, ℕ, Option, OnOk, OnErr, IfOk, Some, None, [], is_err};
ghost use Rattle.std.specs.Prelude.{length, min};
ghost use Rattle.basil_types.specs.Causes.{HasCause, TookPrefix, TookAll, no_faults};
ghost use Rattle.basil_types.specs.Memory.{uncalled, write_fails, counted};

use crate::calls::Calls;
use crate::memory::NoMemory;
use crate::source::Failed;
use std::alloc::Global;
use std::marker::Model;

/// Where bytes go to. Its meaning is the bytes taken, where it tells them, and a count of faults that never falls,
/// rises where a call fails, and only there.
pub trait Sink {
    // The bytes taken, where they are told.
    ghost taken: { Self → Option (List ℕ) };
    // How many calls have failed.
    ghost faults: { Self → ℕ };

    /// Takes the bytes. After a failure it took some of them, from their front.
    fn write(&mut self, bytes: &[u8]) -> Result<(), Failed>
        ensures all { OnOk result (TookAll (taken self.old) (taken self.new) bytes.now) }
        ensures prefix { TookPrefix (taken self.old) (taken self.new) bytes.now }
        ensures cause { HasCause (faults self.old) (faults self.new) result };
}

/// Bytes in memory, at most `room` of them; a write whose number is listed, counted from 1, fails, and one that would
/// pass the room, and then it takes nothing.
#[derive(Drop)]
pub struct MemSink {
    bytes: Vec<u8>,
    room: usize,
    calls: Calls,
}

impl Model for MemSink {
    ghost use Rattle.std.specs.Prelude.{◌≤◌, vec_capacity};
    ghost use Rattle.basil_types.specs.Memory.{SinkState};

    ghost Value = { SinkState };

    ghost view = { λ s. record { taken = s.bytes.items; room = s.room; calls = s.calls } };

    ghost invariant = { λ s. s.room ≤ vec_capacity s.bytes };
}

impl MemSink {
    /// Takes memory for `room` bytes; its writes take none.
    pub fn new(alloc: Global, room: usize, failing: Vec<u64>) -> Result<MemSink, NoMemory>
        ensures { IfOk result (λ s. s ≡ record { taken = []; room = room; calls = uncalled failing.items }) }
    {
        let bytes = Vec::with_capacity(alloc, room)?;
        Ok(MemSink {
            bytes,
            room,
            calls: Calls::new(failing),
        })
    }

    /// The bytes taken, lent.
    pub fn bytes(&self) -> &[u8]
        ensures { result.now ≡ self.now.taken }
    {
        self.bytes.as_slice()
    }
}

impl Sink for MemSink {
    ghost use Rattle.std.specs.Prelude.{Some};

    ghost taken = { λ s. Some s.taken };

    ghost faults = { λ s. s.calls.faults };

    #[tactic(auto, using(crate::proofs::Taking::took_all))]
    fn write(&mut self, bytes: &[u8]) -> Result<(), Failed>
        ensures all { OnOk result (TookAll (Some self.old.taken) (Some self.new.taken) bytes.now) }
        ensures prefix { TookPrefix (Some self.old.taken) (Some self.new.taken) bytes.now }
        ensures cause { HasCause self.old.calls.faults self.new.calls.faults result }
        ensures exact { is_err result ≡ write_fails self.old bytes.now }
        ensures nothing { OnErr result (self.new.taken ≡ self.old.taken) }
        ensures counted { self.new.calls ≡ counted (is_err result) self.old.calls }
        ensures fixed { self.new.room ≡ self.old.room }
    {
        let left = self.room.saturating_sub(self.bytes.len());
        let fails = self.calls.fails_next() || left < bytes.len();
        self.calls.count(fails);
        if fails {
            return Err(Failed);
        }
        match self.bytes.extend_from_slice(bytes) {
            Ok(()) => Ok(()),
            Err(_) => unreachable!(),
        }
    }
}

/// Takes bytes without end, and only counts them, up to 2^64 - 1; it never fails.
#[derive(Drop)]
pub struct SureSink {
    count: u64,
}

impl Model for SureSink {
    ghost use Rattle.std.specs.Prelude.{ℕ};

    ghost Value = { ℕ };

    ghost view = { λ s. s.count };
}

impl SureSink {
    /// No byte taken yet.
    pub fn new() -> SureSink
        ensures { result ≡ 0 }
    {
        SureSink { count: 0 }
    }
}

impl Sink for SureSink {
    ghost use Rattle.std.specs.Prelude.{None};

    ghost taken = { λ _. None };

    ghost faults = { λ _. no_faults };

    fn write(&mut self, bytes: &[u8]) -> Result<(), Failed>
        ensures all { OnOk result (TookAll None None bytes.now) }
        ensures prefix { TookPrefix None None bytes.now }
        ensures cause { HasCause no_faults no_faults result }
        ensures counted { self.new ≡ min (self.old + length bytes.now) (2 ^ 64 - 1) }
    {
        self.count = self.count.saturating_add(bytes.len() as u64);
        Ok(())
    }
}
