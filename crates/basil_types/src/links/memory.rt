//! Links in memory.

ghost use Rattle.std.specs.Prelude.{◌≡◌, Some, length, option_map, OnOk, OnErr, IfErr};
ghost use Rattle.std.specs.Io.{ReadsAtMost};
ghost use Rattle.std.specs.Io.KnownBytes.{ReadConsumes};
ghost use Rattle.std.specs.Result.{IsErrOf};
ghost use Rattle.basil_types.specs.Causes.{HasLinkCause, has_failed, no_faults};
ghost use Rattle.basil_types.specs.Links.{Changes, WrotePrefix, unread, contents, fresh, carried_as};
ghost use Rattle.basil_types.specs.Links.{carries, opens, listens, accepts, reads, writes, closes};
ghost use Rattle.basil_types.specs.Memory.{uncalled, fails_next, counted};

use super::connections::Connections;
use crate::calls::Calls;
use crate::links::{LinkFail, Links};
use std::alloc::Global;
use std::marker::Model;

/// Links in memory: each `open` or `accept` takes the next of the given connections, whose bytes its reads give, and
/// after the last one an empty connection; the calls that can fail are counted from 1, and those that are listed fail;
/// `carry` gives the frame back, and the carries that are listed flip the lowest bit of its last byte. The carries that
/// gave a frame are counted, from 1.
#[derive(Drop)]
pub struct MemLinks {
    connections: Connections,
    changed: Vec<u64>,
    calls: Calls,
}

impl Model for MemLinks {
    ghost use Rattle.basil_types.specs.Memory.{MemLinksState};

    ghost Value = { MemLinksState };

    ghost view = { λ l. record { links = l.connections; changed = l.changed.items; calls = l.calls } };
}

impl MemLinks {
    /// Links that take these connections in order, before their first call: `changed` lists carries and `failing`
    /// calls, both from 1. Takes no memory.
    pub fn new(
        alloc: Global,
        connections: Vec<Vec<u8>>,
        changed: Vec<u64>,
        failing: Vec<u64>,
    ) -> MemLinks
        ensures links { result.links ≡ fresh (contents connections.items) }
        ensures changed { result.changed ≡ changed.items }
        ensures calls { result.calls ≡ uncalled failing.items }
    {
        MemLinks {
            connections: Connections::new(alloc, connections),
            changed,
            calls: Calls::new(failing),
        }
    }

    /// The bytes of all writes, in order.
    pub fn written(&self) -> &[u8]
        ensures { result.now ≡ self.now.links.written }
    {
        self.connections.written()
    }

    /// Counts a call, which fails where it is listed.
    fn count_call(&mut self) -> Result<(), LinkFail>
        ensures links { self.new.links ≡ self.old.links }
        ensures changed { self.new.changed ≡ self.old.changed }
        ensures listed { has_failed result ≡ fails_next self.old.calls }
        ensures counted { self.new.calls ≡ counted (has_failed result) self.old.calls }
        ensures cause { HasLinkCause self.old.calls.faults self.new.calls.faults result }
        ensures fault { IfErr result (λ e. e ≡ LinkFail.Failed) }
    {
        let fails = self.calls.fails_next();
        self.calls.count(fails);
        if fails {
            return Err(LinkFail::Failed);
        }
        Ok(())
    }
}

impl Links for MemLinks {
    ghost use Rattle.std.specs.Prelude.{Some};

    ghost told = { λ l. Some l.links };

    ghost faults = { λ l. l.calls.faults };

    fn carry(&mut self, frame: &[u8], given: &mut Vec<u8>) -> Result<(), LinkFail>
        ensures carried { Changes (λ _. carries given.new.items) (Some self.old.links) (Some self.new.links) result }
        ensures as_before { IsErrOf result LinkFail.NoMemory → given.new.items ≡ given.old.items }
        ensures cause { HasLinkCause self.old.calls.faults self.new.calls.faults result }
        ensures listed { has_failed result ≡ fails_next self.old.calls }
        ensures counted { self.new.calls ≡ counted (has_failed result) self.old.calls }
        ensures fixed { self.new.changed ≡ self.old.changed }
        ensures frame { OnOk result (given.new.items ≡ carried_as self.old.changed self.old.links frame.now) }
    {
        self.count_call()?;
        self.connections.carry(&self.changed, frame, given)?;
        Ok(())
    }

    fn open(&mut self, address: &str) -> Result<(), LinkFail>
        ensures opened { Changes (λ _. opens address.now) (Some self.old.links) (Some self.new.links) result }
        ensures cause { HasLinkCause self.old.calls.faults self.new.calls.faults result }
        ensures listed { has_failed result ≡ fails_next self.old.calls }
        ensures counted { self.new.calls ≡ counted (has_failed result) self.old.calls }
        ensures fixed { self.new.changed ≡ self.old.changed }
    {
        self.count_call()?;
        self.connections.open(address)?;
        Ok(())
    }

    fn listen(&mut self, address: &str) -> Result<(), LinkFail>
        ensures listened { Changes (λ _. listens address.now) (Some self.old.links) (Some self.new.links) result }
        ensures cause { HasLinkCause self.old.calls.faults self.new.calls.faults result }
        ensures listed { has_failed result ≡ fails_next self.old.calls }
        ensures counted { self.new.calls ≡ counted (has_failed result) self.old.calls }
        ensures fixed { self.new.changed ≡ self.old.changed }
    {
        self.count_call()?;
        self.connections.listen(address)?;
        Ok(())
    }

    fn accept(&mut self) -> Result<(), LinkFail>
        ensures accepted { Changes (λ _. accepts) (Some self.old.links) (Some self.new.links) result }
        ensures cause { HasLinkCause self.old.calls.faults self.new.calls.faults result }
        ensures listed { has_failed result ≡ fails_next self.old.calls }
        ensures counted { self.new.calls ≡ counted (has_failed result) self.old.calls }
        ensures fixed { self.new.changed ≡ self.old.changed }
    {
        self.count_call()?;
        self.connections.accept()?;
        Ok(())
    }

    fn read(&mut self, buf: &mut [u8]) -> Result<usize, LinkFail>
        ensures bound { ReadsAtMost result buf.new }
        ensures bytes { ReadConsumes (unread (Some self.old.links)) (unread (Some self.new.links)) result buf.new }
        ensures read { Changes reads (Some self.old.links) (Some self.new.links) result }
        ensures cause { HasLinkCause self.old.calls.faults self.new.calls.faults result }
        ensures listed { has_failed result ≡ fails_next self.old.calls }
        ensures counted { self.new.calls ≡ counted (has_failed result) self.old.calls }
        ensures fixed { self.new.changed ≡ self.old.changed }
    {
        self.count_call()?;
        Ok(self.connections.read(buf))
    }

    fn write(&mut self, bytes: &[u8]) -> Result<(), LinkFail>
        ensures all { OnOk result (Some self.new.links ≡ option_map (writes bytes.now) (Some self.old.links)) }
        ensures prefix { WrotePrefix (Some self.old.links) (Some self.new.links) bytes.now }
        ensures as_before { IsErrOf result LinkFail.NoMemory → Some self.new.links ≡ Some self.old.links }
        ensures cause { HasLinkCause self.old.calls.faults self.new.calls.faults result }
        ensures listed { has_failed result ≡ fails_next self.old.calls }
        ensures counted { self.new.calls ≡ counted (has_failed result) self.old.calls }
        ensures fixed { self.new.changed ≡ self.old.changed }
        ensures nothing { OnErr result (self.new.links ≡ self.old.links) }
    {
        self.count_call()?;
        self.connections.write(bytes)?;
        Ok(())
    }

    fn close(&mut self)
        ensures closed { Some self.new.links ≡ option_map closes (Some self.old.links) }
        ensures kept { self.new.calls.faults ≡ self.old.calls.faults }
        ensures rest { self.new ≡ record self.old { links = closes self.old.links } }
    {
        self.connections.close();
    }
}

/// Links in memory that never fail.
#[derive(Drop)]
pub struct SureLinks {
    connections: Connections,
    changed: Vec<u64>,
}

impl Model for SureLinks {
    ghost use Rattle.basil_types.specs.Memory.{SureLinksState};

    ghost Value = { SureLinksState };

    ghost view = { λ l. record { links = l.connections; changed = l.changed.items } };
}

impl SureLinks {
    /// Links that take these connections in order; `changed` lists carries, from 1. Takes no memory.
    pub fn new(alloc: Global, connections: Vec<Vec<u8>>, changed: Vec<u64>) -> SureLinks
        ensures links { result.links ≡ fresh (contents connections.items) }
        ensures changed { result.changed ≡ changed.items }
    {
        SureLinks {
            connections: Connections::new(alloc, connections),
            changed,
        }
    }
}

impl Links for SureLinks {
    ghost use Rattle.std.specs.Prelude.{Some};

    ghost told = { λ l. Some l.links };

    ghost faults = { λ _. no_faults };

    fn carry(&mut self, frame: &[u8], given: &mut Vec<u8>) -> Result<(), LinkFail>
        ensures carried { Changes (λ _. carries given.new.items) (Some self.old.links) (Some self.new.links) result }
        ensures as_before { IsErrOf result LinkFail.NoMemory → given.new.items ≡ given.old.items }
        ensures cause { HasLinkCause no_faults no_faults result }
        ensures fixed { self.new.changed ≡ self.old.changed }
        ensures frame { OnOk result (given.new.items ≡ carried_as self.old.changed self.old.links frame.now) }
    {
        self.connections.carry(&self.changed, frame, given)?;
        Ok(())
    }

    fn open(&mut self, address: &str) -> Result<(), LinkFail>
        ensures opened { Changes (λ _. opens address.now) (Some self.old.links) (Some self.new.links) result }
        ensures cause { HasLinkCause no_faults no_faults result }
        ensures fixed { self.new.changed ≡ self.old.changed }
    {
        self.connections.open(address)?;
        Ok(())
    }

    fn listen(&mut self, address: &str) -> Result<(), LinkFail>
        ensures listened { Changes (λ _. listens address.now) (Some self.old.links) (Some self.new.links) result }
        ensures cause { HasLinkCause no_faults no_faults result }
        ensures fixed { self.new.changed ≡ self.old.changed }
    {
        self.connections.listen(address)?;
        Ok(())
    }

    fn accept(&mut self) -> Result<(), LinkFail>
        ensures accepted { Changes (λ _. accepts) (Some self.old.links) (Some self.new.links) result }
        ensures cause { HasLinkCause no_faults no_faults result }
        ensures fixed { self.new.changed ≡ self.old.changed }
    {
        self.connections.accept()?;
        Ok(())
    }

    fn read(&mut self, buf: &mut [u8]) -> Result<usize, LinkFail>
        ensures bound { ReadsAtMost result buf.new }
        ensures bytes { ReadConsumes (unread (Some self.old.links)) (unread (Some self.new.links)) result buf.new }
        ensures read { Changes reads (Some self.old.links) (Some self.new.links) result }
        ensures cause { HasLinkCause no_faults no_faults result }
        ensures fixed { self.new.changed ≡ self.old.changed }
    {
        Ok(self.connections.read(buf))
    }

    fn write(&mut self, bytes: &[u8]) -> Result<(), LinkFail>
        ensures all { OnOk result (Some self.new.links ≡ option_map (writes bytes.now) (Some self.old.links)) }
        ensures prefix { WrotePrefix (Some self.old.links) (Some self.new.links) bytes.now }
        ensures as_before { IsErrOf result LinkFail.NoMemory → Some self.new.links ≡ Some self.old.links }
        ensures cause { HasLinkCause no_faults no_faults result }
        ensures fixed { self.new.changed ≡ self.old.changed }
    {
        self.connections.write(bytes)?;
        Ok(())
    }

    fn close(&mut self)
        ensures closed { Some self.new.links ≡ option_map closes (Some self.old.links) }
        ensures kept { no_faults ≡ no_faults }
        ensures fixed { self.new.changed ≡ self.old.changed }
    {
        self.connections.close();
    }
}
