//! Connections in memory.

ghost use Rattle.std.specs.Prelude.{◌≡◌, ◌≤◌, ◌<◌, Some, length, take, OnOk, OnErr};
ghost use Rattle.std.specs.Io.KnownBytes.{Consumes, IsAtEnd};
ghost use Rattle.std.specs.Vec.Iter.{into_iter_items};
ghost use Rattle.basil_types.specs.Links.{fresh, carries, opens, listens, accepts, reads, writes, closes, unread};
ghost use Rattle.basil_types.specs.Links.{altered, carried_as, first_of, behind_first, contents};

use crate::bytes::Bytes;
use crate::memory::NoMemory;
use crate::source::{Source, SureSource};
use std::alloc::Global;
use std::marker::Model;
use std::vec::IntoIter;

/// Connections in memory, taken one after another, with what is written to them, and lists of what was asked of them
/// and carried.
#[derive(Drop)]
pub(crate) struct Connections {
    alloc: Global,
    coming: IntoIter<Vec<u8>>,
    current: Option<SureSource>,
    written: Vec<u8>,
    addresses: Vec<Bytes>,
    carried: Vec<Bytes>,
    written_before: Vec<u64>,
}

impl Model for Connections {
    ghost use Rattle.std.specs.Vec.Iter.{into_iter_items};
    ghost use Rattle.basil_types.specs.Links.{LinkState, contents};

    ghost Value = { LinkState };

    ghost view = { λ c. record {
      coming = contents (into_iter_items c.coming);
      rest = c.current;
      written = c.written.items;
      addresses = c.addresses.items;
      carried = c.carried.items;
      written_before = c.written_before.items;
    } };
}

impl Connections {
    pub(crate) fn new(alloc: Global, connections: Vec<Vec<u8>>) -> Connections
        ensures { result ≡ fresh (contents connections.items) }
    {
        Connections {
            alloc,
            coming: connections.into_iter(),
            current: None,
            written: Vec::new(alloc),
            addresses: Vec::new(alloc),
            carried: Vec::new(alloc),
            written_before: Vec::new(alloc),
        }
    }

    pub(crate) fn written(&self) -> &[u8]
        ensures { result.now ≡ self.now.written }
    {
        self.written.as_slice()
    }

    /// Gives the frame back, with a bit changed where the carry is listed.
    pub(crate) fn carry(
        &mut self,
        changed: &[u64],
        frame: &[u8],
        given: &mut Vec<u8>,
    ) -> Result<(), NoMemory>
        ensures frame { OnOk result (given.new.items ≡ carried_as changed.now self.old frame.now) }
        ensures carried { OnOk result (self.new ≡ carries given.new.items self.old) }
        ensures as_before { OnErr result (self.new ≡ self.old) }
        ensures given_as_before { OnErr result (given.new.items ≡ given.old.items) }
    {
        let mut out = Vec::from_slice(self.alloc, frame)?;
        let number = (self.carried.len() as u64).saturating_add(1);
        if changed.contains(&number) {
            alter(&mut out);
        }
        let kept = Bytes::copy_of(self.alloc, &out)?;
        self.carried.reserve(1)?;
        self.carried.push_reserved(kept);
        *given = out;
        Ok(())
    }

    pub(crate) fn open(&mut self, address: &str) -> Result<(), NoMemory>
        ensures opened { OnOk result (self.new ≡ opens address.now self.old) }
        ensures as_before { OnErr result (self.new ≡ self.old) }
    {
        let asked = Bytes::copy_of(self.alloc, address.as_bytes())?;
        self.addresses.reserve(1)?;
        self.written_before.reserve(1)?;
        self.addresses.push_reserved(asked);
        self.written_before.push_reserved(self.written.len() as u64);
        self.current = Some(next_of(self.alloc, &mut self.coming));
        Ok(())
    }

    pub(crate) fn listen(&mut self, address: &str) -> Result<(), NoMemory>
        ensures listened { OnOk result (self.new ≡ listens address.now self.old) }
        ensures as_before { OnErr result (self.new ≡ self.old) }
    {
        let asked = Bytes::copy_of(self.alloc, address.as_bytes())?;
        self.addresses.reserve(1)?;
        self.addresses.push_reserved(asked);
        Ok(())
    }

    pub(crate) fn accept(&mut self) -> Result<(), NoMemory>
        ensures accepted { OnOk result (self.new ≡ accepts self.old) }
        ensures as_before { OnErr result (self.new ≡ self.old) }
    {
        self.written_before.reserve(1)?;
        self.written_before.push_reserved(self.written.len() as u64);
        self.current = Some(next_of(self.alloc, &mut self.coming));
        Ok(())
    }

    pub(crate) fn read(&mut self, buf: &mut [u8]) -> usize
        ensures bound { result ≤ length buf.new }
        ensures bytes { Consumes (unread (Some self.old)) (unread (Some self.new)) (take result buf.new) }
        ensures end { result ≡ 0 → 0 < length buf.new → IsAtEnd (unread (Some self.new)) }
        ensures read { self.new ≡ reads result self.old }
    {
        match &mut self.current {
            Some(source) => match source.read(buf) {
                Ok(count) => count,
                Err(_) => unreachable!(),
            },
            None => 0,
        }
    }

    pub(crate) fn write(&mut self, bytes: &[u8]) -> Result<(), NoMemory>
        ensures all { OnOk result (self.new ≡ writes bytes.now self.old) }
        ensures as_before { OnErr result (self.new ≡ self.old) }
    {
        self.written.extend_from_slice(bytes)?;
        Ok(())
    }

    pub(crate) fn close(&mut self)
        ensures { self.new ≡ closes self.old }
    {
        self.current = None;
    }
}

/// The next connection, or an empty one after the last.
fn next_of(alloc: Global, coming: &mut IntoIter<Vec<u8>>) -> SureSource
    ensures first { result ≡ first_of (contents (into_iter_items coming.old)) }
    ensures behind { contents (into_iter_items coming.new) ≡ behind_first (contents (into_iter_items coming.old)) }
{
    match coming.next() {
        Some(bytes) => SureSource::new(bytes, usize::MAX),
        None => SureSource::new(Vec::new(alloc), usize::MAX),
    }
}

/// Changes the lowest bit of the last byte, if there is one.
fn alter(frame: &mut [u8])
    ensures { frame.new ≡ altered frame.old }
{
    let count = frame.len();
    if count > 0 {
        frame[count - 1] ^= 1;
    }
}
