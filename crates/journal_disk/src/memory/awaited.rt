//! The stop that a disk in memory awaits.

ghost use Rattle.std.specs.Prelude.{◌≡◌, ◌-◌, ◌<◌, ◌==◌, false, IfOk, length};
ghost use Rattle.journal_disk.specs.Contents.{repeated};

use crate::disk::Stop;
use basil_types::bytes::Bytes;
use basil_types::memory::NoMemory;
use std::alloc::Global;
use std::marker::Model;

/// A stop, and in which write from now on it happens.
#[derive(Drop)]
pub(crate) struct Awaited {
    stop: Stop,
    left: u64,
}

impl Model for Awaited {
    ghost use Rattle.std.specs.Prelude.{◌<◌, length};
    ghost use Rattle.journal_disk.specs.Foreseen.{Foreseen};

    ghost Value = { Foreseen };

    ghost view = { λ a. record { stop = a.stop; left = a.left } };

    ghost invariant = { λ a. (0 < a.left) × (0 < length a.stop.bytes) };
}

impl Awaited {
    /// The stop that is given happens within the write that it names, from now on.
    pub(crate) fn new(stop: Stop) -> Awaited
        requires write { 0 < stop.write }
        requires bytes { 0 < length stop.bytes }
        ensures { result ≡ record { stop = stop; left = stop.write } }
    {
        let left = stop.write;
        Awaited { stop, left }
    }

    /// Whether it happens within the next write.
    pub(crate) fn is_last(&self) -> bool
        ensures { result ≡ (self.now.left == 1) }
    {
        self.left == 1
    }

    /// Counts a write before the one in which it happens.
    pub(crate) fn pass(&mut self)
        requires { (self.old.left == 1) ≡ false }
        ensures { self.new ≡ record self.old { left = self.old.left - 1 } }
    {
        self.left -= 1;
    }

    /// So many bytes, as it leaves them, or want of memory.
    pub(crate) fn leaves(&self, alloc: Global, count: usize) -> Result<Bytes, NoMemory>
        ensures { IfOk result (λ left. left ≡ repeated count self.now.stop.bytes) }
    {
        repeat(alloc, self.stop.bytes.as_slice(), count)
    }

    /// The stop as it was given.
    pub(crate) fn into_stop(self) -> Stop
        ensures { result ≡ self.stop }
    {
        self.stop
    }
}

/// So many bytes: the given ones, repeated from the front; or want of memory.
fn repeat(alloc: Global, bytes: &[u8], count: usize) -> Result<Bytes, NoMemory>
    requires { 0 < length bytes.now }
    ensures { IfOk result (λ all. all ≡ repeated count bytes.now) }
{
    let mut all = Vec::with_capacity(alloc, count)?;
    for place in 0..count {
        all.push_reserved(bytes[place % bytes.len()]);
    }
    Ok(Bytes::from_vec(all))
}
