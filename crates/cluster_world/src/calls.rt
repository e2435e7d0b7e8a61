//! Clients begin transactions, and read and write in them.

ghost use Rattle.std.specs.Prelude.{◌≡◌, ◌<◌, ◌&&◌, suc, true, None, Some, Ok, IfOk, OnOk, length, nat_le, option_map};
ghost use Rattle.std.specs.Prelude.{slice_get, vec_capacity, vec_len};
ghost use Rattle.basil_types.specs.Limits.{most_clients};
ghost use Rattle.basil_types.specs.declared.party.Party.TheVariants as parties;
ghost use Rattle.client_core.specs.Calls.{call_begin, call_write};
ghost use Rattle.client_core.specs.Clients.{ClientValue};
ghost use Rattle.cluster_run.specs.Events as events;
ghost use Rattle.cluster_run.specs.States.{BegunValue, Setup, State, is_faulty};
ghost use Rattle.frame_views.specs.Fitting.{IsClient};
ghost use Rattle.run_begun.specs.Adding as adding;
ghost use Rattle.cluster_world.specs.Beginning as beginning;
ghost use Rattle.cluster_world.specs.Beginning.{written_value};
ghost use Rattle.cluster_world.specs.Calling.{AddsTo, CallsAt};
ghost use Rattle.cluster_world.specs.Comes.{Comes};
ghost use Rattle.cluster_world.specs.Sending.{IsWithin};
ghost use Rattle.cluster_world.specs.Shows.{Shows};

use crate::asking::of_call;
use crate::engine::Engine;
use crate::fault::StepFault;
use crate::written::Written;
use basil_types::limits::MOST_CLIENTS;
use basil_types::memory::NoMemory;
use basil_types::party::Party;
use basil_types::version::Version;
use client_core::{Ask, CallFault};
use keyring::signer::Signer;
use keyring::verifier::Verifier;
use run_begun::laws::{claims_are_added, writes_are_added};
use run_begun::{Begun, Formed};
use txn_meta::form::version_of;

/// Whether a client has this number.
fn is_client(number: u8) -> bool
    ensures exact { result ≡ (nat_le 1 number && nat_le number most_clients) }
    ensures client { result ≡ true → IsClient number }
{
    1 <= number && number <= MOST_CLIENTS
}

/// A begun transaction.
fn begun_at(begun: &[Begun], tx: u32) -> Option<&Begun>
    ensures { option_map (λ b. b.now) result ≡ slice_get begun.now tx }
{
    begun.get(tx as usize)
}

/// What the client of a begun transaction formed.
pub(crate) fn formed_in(begun: &[Begun], tx: u32) -> Option<&Formed>
    ensures { option_map (λ f. f.now) result ≡ beginning.formed_in begun.now tx }
{
    match begun_at(begun, tx) {
        Some(begun) => begun.formed(),
        None => None,
    }
}

/// The client of a begun transaction, and the slot in which it holds it.
pub(crate) fn own_slot(begun: &[Begun], tx: u32) -> Option<(u8, u32)>
    ensures { result ≡ beginning.own_slot begun.now tx }
{
    let begun = begun_at(begun, tx)?;
    let slot = begun.slot()?;
    Some((begun.client(), slot))
}

/// The version of what the client of a begun transaction formed.
fn version_in(begun: &[Begun], tx: u32) -> Option<Version>
    ensures { result ≡ beginning.version_in begun.now tx }
{
    let formed = formed_in(begun, tx)?;
    Some(version_of(formed.transaction().view()))
}

/// The version that a claim names: that of a formed transaction, or genesis.
fn version_claimed(begun: &[Begun], writer: Option<u32>) -> Option<Version>
    ensures { result ≡ beginning.version_claimed begun.now writer }
{
    match writer {
        Some(writer) => version_in(begun, writer),
        None => Some(Version::genesis()),
    }
}

impl<V: Verifier, S: Signer> Engine<V, S> {
    /// A law: the pool keeps its limits.
    fn pool_keeps_limits(&self)
        ensures { IsWithin self.now.pool }
    {
        let _room = self.pool.room();
    }

    // ---- begin

    /// A client begins a transaction of this time.
    pub(crate) fn begin(&mut self, client: u8, time: u64) -> Result<(), StepFault>
        ensures { (s : Setup) (st : State) → Shows s self.old st →
            Comes s st (events.happens s (events.Begin client time) st) self.new result }
    {
        if self.sight.is_faulty(Party::Client { number: client }) {
            return self.begin_faulty(client, time);
        }
        match self.place_of_client(client) {
            Some(place) => self.begin_own(client, place, time),
            None => Ok(()),
        }
    }

    /// A faulty client begins a transaction.
    fn begin_faulty(&mut self, client: u8, time: u64) -> Result<(), StepFault>
        ensures { (s : Setup) (st : State) → Shows s self.old st → is_faulty s (parties.Client client) ≡ true →
            Comes s st (Ok (events.with_begun (events.begun_by client time None) st)) self.new result }
    {
        if !is_client(client) {
            return Ok(());
        }
        self.make_room()?;
        let begun = Begun::of_faulty(self.alloc, client, time);
        self.add_begun(begun);
        Ok(())
    }

    /// A correct client begins a transaction.
    fn begin_own(&mut self, client: u8, place: usize, time: u64) -> Result<(), StepFault>
        requires { place < length self.old.clients.items }
        ensures { (s : Setup) (st : State) (c : ClientValue) → Shows s self.old st → suc place ≡ client →
            slice_get st.clients place ≡ Some c →
            Comes s st (events.begins_in s client time (Some c) st) self.new result }
    {
        self.make_room()?;
        self.pool_keeps_limits();
        match self.begin_at(place, time) {
            Ok(slot) => {
                let begun = Begun::of_slot(self.alloc, client, time, slot);
                self.add_begun(begun);
                Ok(())
            }
            Err(fault) => Err(of_call(fault)),
        }
    }

    /// The client at this place begins a transaction, and answers its slot.
    fn begin_at(&mut self, place: usize, time: u64) -> Result<u32, CallFault>
        requires { place < length self.old.clients.items }
        ensures called { (s : Setup) (st : State) (c : ClientValue) → Shows s self.old st →
            slice_get st.clients place ≡ Some c → CallsAt s st place (call_begin c time) self.new result }
        ensures slot { (s : Setup) (st : State) (c : ClientValue) → Shows s self.old st →
            slice_get st.clients place ≡ Some c → IfOk result (λ slot. slot ≡ length c.slots) }
        ensures begun { self.new.begun ≡ self.old.begun }
    {
        self.clients[place].begin(time)
    }

    /// Makes room for one more begun transaction, or finds memory wanting.
    fn make_room(&mut self) -> Result<(), NoMemory>
        ensures room { OnOk result (vec_len self.new.begun < vec_capacity self.new.begun) }
        ensures shows { (s : Setup) (st : State) → Shows s self.old st → Shows s self.new st }
        ensures clients { self.new.clients ≡ self.old.clients }
        ensures pool { self.new.pool ≡ self.old.pool }
    {
        self.begun.reserve(1)?;
        Ok(())
    }

    /// One more transaction is begun, for which there is room. Takes no memory.
    fn add_begun(&mut self, begun: Begun)
        requires { vec_len self.old.begun < vec_capacity self.old.begun }
        ensures { (s : Setup) (st : State) → Shows s self.old st → Shows s self.new (events.with_begun begun st) }
    {
        self.begun.push_reserved(begun);
    }

    // ---- read and write

    /// A correct client reads a key in its transaction.
    pub(crate) fn read(&mut self, tx: u32, key: &[u8]) -> Result<(), StepFault>
        ensures { (s : Setup) (st : State) → Shows s self.old st →
            Comes s st (events.happens s (events.Read tx key.now) st) self.new result }
    {
        match own_slot(&self.begun, tx) {
            Some((client, slot)) => self.call(client, Ask::Read { slot, key }),
            None => Ok(()),
        }
    }

    /// A client writes or deletes a key in its transaction.
    pub(crate) fn write(&mut self, tx: u32, written: Written<'_>) -> Result<(), StepFault>
        ensures { (s : Setup) (st : State) → Shows s self.old st →
            Comes s st (events.happens s (events.Write tx (written_value written.entry)) st) self.new result }
    {
        match own_slot(&self.begun, tx) {
            Some((client, slot)) => self.write_own(client, slot, written),
            None => self.write_faulty(tx, written),
        }
    }

    /// A correct client writes or deletes a key.
    fn write_own(&mut self, client: u8, slot: u32, written: Written<'_>) -> Result<(), StepFault>
        ensures { (s : Setup) (st : State) → Shows s self.old st → Comes s st
            (events.by_client s client (λ c. call_write c slot (written_value written.entry)) st) self.new result }
    {
        let Some(place) = self.place_of_client(client) else {
            return Ok(());
        };
        self.pool_keeps_limits();
        match self.write_at(place, slot, written) {
            Ok(()) => Ok(()),
            Err(fault) => Err(of_call(fault)),
        }
    }

    /// The client at this place writes or deletes a key.
    fn write_at(&mut self, place: usize, slot: u32, written: Written<'_>) -> Result<(), CallFault>
        requires { place < length self.old.clients.items }
        ensures { (s : Setup) (st : State) (c : ClientValue) → Shows s self.old st →
            slice_get st.clients place ≡ Some c →
            CallsAt s st place (call_write c slot (written_value written.entry)) self.new result }
    {
        match written {
            Written::Value { key, value } => self.clients[place].write(slot, key, value),
            Written::Deleted { key } => self.clients[place].delete(slot, key),
        }
    }

    /// A faulty client writes or deletes a key, in a transaction that no client holds.
    fn write_faulty(&mut self, tx: u32, written: Written<'_>) -> Result<(), StepFault>
        ensures { (s : Setup) (st : State) → Shows s self.old st →
            beginning.own_slot self.old.begun.items tx ≡ None →
            Comes s st (events.happens s (events.Write tx (written_value written.entry)) st) self.new result }
    {
        if self.begun.len() <= tx as usize {
            return Ok(());
        }
        writes_are_added();
        match self.put_write(tx as usize, written) {
            Ok(()) => Ok(()),
            Err(fault) => Err(of_call(fault)),
        }
    }

    /// A write is added to a begun transaction.
    fn put_write(&mut self, tx: usize, written: Written<'_>) -> Result<(), CallFault>
        requires { tx < length self.old.begun.items }
        ensures { (s : Setup) (st : State) (b : BegunValue) → Shows s self.old st → slice_get st.begun tx ≡ Some b →
            AddsTo s st tx (adding.written (written_value written.entry) b) self.new result }
    {
        match written {
            Written::Value { key, value } => {
                self.begun[tx].put_write(self.alloc, key, value, false)
            }
            Written::Deleted { key } => self.begun[tx].put_write(self.alloc, key, &[], true),
        }
    }

    // ---- claim

    /// A faulty client claims to have read a key, at the version of a formed transaction or at genesis.
    pub(crate) fn claim(
        &mut self,
        tx: u32,
        key: &[u8],
        writer: Option<u32>,
    ) -> Result<(), StepFault>
        ensures { (s : Setup) (st : State) → Shows s self.old st →
            Comes s st (events.happens s (events.Claim tx key.now writer) st) self.new result }
    {
        match version_claimed(&self.begun, writer) {
            Some(version) => self.claim_at(tx, key, &version),
            None => Ok(()),
        }
    }

    /// A faulty client claims to have read a key at this version.
    fn claim_at(&mut self, tx: u32, key: &[u8], version: &Version) -> Result<(), StepFault>
        ensures { (s : Setup) (st : State) → Shows s self.old st →
            Comes s st (events.at_tx tx (events.claims_at tx key.now (Some version.now)) st) self.new result }
    {
        if self.begun.len() <= tx as usize {
            return Ok(());
        }
        claims_are_added();
        match self.put_claim(tx as usize, key, version) {
            Ok(()) => Ok(()),
            Err(fault) => Err(of_call(fault)),
        }
    }

    /// A claim is added to a begun transaction.
    fn put_claim(&mut self, tx: usize, key: &[u8], version: &Version) -> Result<(), CallFault>
        requires { tx < length self.old.begun.items }
        ensures { (s : Setup) (st : State) (b : BegunValue) → Shows s self.old st → slice_get st.begun tx ≡ Some b →
            AddsTo s st tx (adding.claimed key.now version.now b) self.new result }
    {
        self.begun[tx].put_claim(self.alloc, key, version)
    }
}
