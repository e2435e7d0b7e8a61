//! Where bytes come from.

ghost use Rattle.std.specs.Prelude.{◌≡◌, ◌+◌, ◌-◌, ◌<◌, ◌≤◌, List, ℕ, Option, Some, is_err, IfOk};
ghost use Rattle.std.specs.Prelude.{length, take, drop, min};
ghost use Rattle.std.specs.Io.{ReadsAtMost};
ghost use Rattle.std.specs.Io.KnownBytes.{ReadConsumes};
ghost use Rattle.basil_types.specs.Causes.{HasCause, no_faults};
ghost use Rattle.basil_types.specs.Memory.{uncalled, fails_next, counted};

use crate::calls::Calls;
use std::marker::Model;

/// The outside did not do what was asked.
#[derive(Clone, Copy, Debug, PartialEq, Eq)]
pub struct Failed;

/// Where bytes come from. Its meaning is the bytes left, where it tells them, and a count of faults that never falls,
/// rises where a call fails, and only there.
pub trait Source {
    // The bytes left, where they are told.
    ghost left: { Self → Option (List ℕ) };
    // How many calls have failed.
    ghost faults: { Self → ℕ };

    /// Puts some of the bytes left at the front of the buffer, and says how many; 0 for a buffer that isn't empty is
    /// the end.
    fn read(&mut self, buf: &mut [u8]) -> Result<usize, Failed>
        ensures bound { ReadsAtMost result buf.new }
        ensures bytes { ReadConsumes (left self.old) (left self.new) result buf.new }
        ensures cause { HasCause (faults self.old) (faults self.new) result };
}

/// Bytes in memory, given in pieces; the reads whose numbers are listed fail, counted from 1.
#[derive(Drop)]
pub struct MemSource {
    bytes: Vec<u8>,
    at: usize,
    piece: usize,
    calls: Calls,
}

impl Model for MemSource {
    ghost use Rattle.std.specs.Prelude.{drop, ◌≤◌, ◌<◌, length};
    ghost use Rattle.basil_types.specs.Memory.{SourceState};

    ghost Value = { SourceState };

    ghost view = { λ s. record { left = drop s.at s.bytes.items; piece = s.piece; calls = s.calls } };

    ghost invariant = { λ s. (s.at ≤ length s.bytes.items) × (0 < s.piece) };
}

impl MemSource {
    /// Gives at most `piece` bytes per read, which is at least 1.
    pub fn new(bytes: Vec<u8>, piece: usize, failing: Vec<u64>) -> MemSource
        requires { 0 < piece }
        ensures { result ≡ record { left = bytes.items; piece = piece; calls = uncalled failing.items } }
    {
        MemSource {
            bytes,
            at: 0,
            piece,
            calls: Calls::new(failing),
        }
    }
}

impl Source for MemSource {
    ghost use Rattle.std.specs.Prelude.{Some};

    ghost left = { λ s. Some s.left };

    ghost faults = { λ s. s.calls.faults };

    fn read(&mut self, buf: &mut [u8]) -> Result<usize, Failed>
        ensures bound { ReadsAtMost result buf.new }
        ensures bytes { ReadConsumes (Some self.old.left) (Some self.new.left) result buf.new }
        ensures cause { HasCause self.old.calls.faults self.new.calls.faults result }
        ensures count { IfOk result (λ n. n ≡ min (min (length buf.new) self.old.piece) (length self.old.left)) }
        ensures listed { is_err result ≡ fails_next self.old.calls }
        ensures counted { self.new.calls ≡ counted (is_err result) self.old.calls }
        ensures fixed { self.new.piece ≡ self.old.piece }
    {
        let fails = self.calls.fails_next();
        self.calls.count(fails);
        if fails {
            return Err(Failed);
        }
        let count = give(&self.bytes, self.at, self.piece, buf);
        self.at += count;
        Ok(count)
    }
}

/// Copies the bytes from a place on, at most a piece of them, and says how many.
fn give(bytes: &[u8], at: usize, piece: usize, buf: &mut [u8]) -> usize
    requires within { at ≤ length bytes.now }
    requires some { 0 < piece }
    ensures within { at + result ≤ length bytes.now }
    ensures bound { result ≤ length buf.new }
    ensures count { result ≡ min (min (length buf.new) piece) (length bytes.now - at) }
    ensures piece { take result buf.new ≡ take result (drop at bytes.now) }
    ensures end { result ≡ 0 → 0 < length buf.new → at ≡ length bytes.now }
{
    let rest = &bytes[at..];
    let count = buf.len().min(piece).min(rest.len());
    buf[..count].copy_from_slice(&rest[..count]);
    count
}

/// Bytes in memory, given in pieces; it never fails.
#[derive(Drop)]
pub struct SureSource {
    bytes: Vec<u8>,
    at: usize,
    piece: usize,
}

impl Model for SureSource {
    ghost use Rattle.std.specs.Prelude.{List, ℕ, drop, ◌≤◌, ◌<◌, length};

    ghost Value = { List ℕ };

    ghost view = { λ s. drop s.at s.bytes.items };

    ghost invariant = { λ s. (s.at ≤ length s.bytes.items) × (0 < s.piece) };
}

impl SureSource {
    /// Gives at most `piece` bytes per read, which is at least 1.
    pub fn new(bytes: Vec<u8>, piece: usize) -> SureSource
        requires { 0 < piece }
        ensures { result ≡ bytes.items }
    {
        SureSource {
            bytes,
            at: 0,
            piece,
        }
    }
}

impl Source for SureSource {
    ghost use Rattle.std.specs.Prelude.{Some};

    ghost left = { λ s. Some s };

    ghost faults = { λ _. no_faults };

    fn read(&mut self, buf: &mut [u8]) -> Result<usize, Failed> {
        let count = give(&self.bytes, self.at, self.piece, buf);
        self.at += count;
        Ok(count)
    }
}
