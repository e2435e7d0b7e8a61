//! A client's calls about transactions that are formed or recovered.

ghost use Rattle.std.specs.Prelude.{◌≡◌, ◌<◌, Some, OnErr, IfOk, IfSome, length, option_map, slice_get};
ghost use Rattle.client_core.specs.Shown.{ShowsClient};
ghost use Rattle.client_core.specs.Calls.{call_invoke, call_recover, call_settle, recovered_at};
ghost use Rattle.client_core.specs.Clients.{ClientValue, SlotValue};
ghost use Rattle.client_core.specs.Done.{Calls, KeepsSlots, SameOutbox, Sends};
ghost use Rattle.client_core.specs.Seats.{self_at};
ghost use Rattle.client_core.specs.Slots.{held_in, outcome_in, slot_of_id};
ghost use Rattle.client_recover.specs.Owned.{shown_outcome};
ghost use Rattle.frame_values.specs.Owned.{certificate_value};
ghost use Rattle.frame_views.specs.Fitting.{FitsCertificate, IsSignature, widest};

use crate::client::Client;
use crate::invoking::plan_invoke;
use crate::recovering::plan_recover;
use crate::settling::plan_settle;
use basil_types::outbox::Outbox;
use basil_types::party::Decision;
use basil_types::transaction::Transaction;
use client_steps::fault::CallFault;
use frame_values::owned::Certificate;
use keyring::signer::Signer;
use keyring::verifier::Verifier;

impl<V: Verifier, S: Signer> Client<V, S> {
    /// Starts the second stage of a formed transaction, where the votes that count allow it: its message goes to every
    /// replica of the log shard. Where it is decided, or its second stage has started, nothing happens.
    pub fn settle(&mut self, slot: u32, out: &mut Outbox) -> Result<(), CallFault>
        requires { slot < length self.old.held.slots.items }
        ensures answer { (v : ClientValue) → ShowsClient self.old v → Calls result
            (call_settle (self_at self.old.seat (V.accepted self.old.keys) (S.fixed self.old.pen)) v slot)
            (λ d. ShowsClient self.new d.client
            × Sends out.old out.new d) }
        ensures as_before { (v : ClientValue) → ShowsClient self.old v → OnErr result (ShowsClient self.new v) }
        ensures same_outbox { OnErr result (SameOutbox out.old out.new) }
        ensures keys { self.new.keys ≡ self.old.keys }
        ensures seat { self.new.seat ≡ self.old.seat }
        ensures fixed { S.fixed self.new.pen ≡ S.fixed self.old.pen }
        ensures slots { KeepsSlots self.old.held self.new.held }
    {
        match plan_settle(&mut self.held, &self.seat, slot as usize) {
            Ok(plan) => match self.finish(plan, out) {
                Ok(()) => Ok(()),
                Err(_) => Err(CallFault::NoMemory),
            },
            Err(fault) => Err(fault),
        }
    }

    /// Invokes the fallback for a formed transaction: each replica's latest log reply goes to every replica of the log
    /// shard. Where it is decided nothing happens.
    pub fn invoke(&mut self, slot: u32, out: &mut Outbox) -> Result<(), CallFault>
        requires { slot < length self.old.held.slots.items }
        ensures answer { (v : ClientValue) → ShowsClient self.old v → Calls result
            (call_invoke (self_at self.old.seat (V.accepted self.old.keys) (S.fixed self.old.pen)) v slot)
            (λ d. ShowsClient self.new d.client
            × Sends out.old out.new d) }
        ensures as_before { (v : ClientValue) → ShowsClient self.old v → OnErr result (ShowsClient self.new v) }
        ensures same_outbox { OnErr result (SameOutbox out.old out.new) }
        ensures keys { self.new.keys ≡ self.old.keys }
        ensures seat { self.new.seat ≡ self.old.seat }
        ensures fixed { S.fixed self.new.pen ≡ S.fixed self.old.pen }
        ensures slots { KeepsSlots self.old.held self.new.held }
    {
        match plan_invoke(&mut self.held, &self.seat, slot as usize) {
            Ok(plan) => match self.finish(plan, out) {
                Ok(()) => Ok(()),
                Err(_) => Err(CallFault::NoMemory),
            },
            Err(fault) => Err(fault),
        }
    }

    /// Recovers a transaction with its client's signature, 1 to 8,192 bytes: every replica of every involved shard is
    /// asked what it knows. Answers its slot, which is the one that it has if it is held.
    pub fn recover(
        &mut self,
        t: &Transaction,
        signature: &[u8],
        out: &mut Outbox,
    ) -> Result<u32, CallFault>
        requires { IsSignature signature.now }
        ensures answer { (v : ClientValue) → ShowsClient self.old v → Calls result
            (call_recover (self_at self.old.seat (V.accepted self.old.keys) (S.fixed self.old.pen)) v
            t.now signature.now)
            (λ d. ShowsClient self.new d.client
            × Sends out.old out.new d) }
        ensures slot { (v : ClientValue) → ShowsClient self.old v →
            IfOk result (λ slot. slot ≡ recovered_at v t.now) }
        ensures as_before { (v : ClientValue) → ShowsClient self.old v → OnErr result (ShowsClient self.new v) }
        ensures same_outbox { OnErr result (SameOutbox out.old out.new) }
        ensures keys { self.new.keys ≡ self.old.keys }
        ensures seat { self.new.seat ≡ self.old.seat }
        ensures fixed { S.fixed self.new.pen ≡ S.fixed self.old.pen }
        ensures held { IfOk result (λ slot. slot < length self.new.held.slots.items) }
        ensures slots { KeepsSlots self.old.held self.new.held }
    {
        match plan_recover(&mut self.held, &self.seat, t, signature) {
            Ok(plan) => match plan.slot {
                Some(slot) => match self.finish(plan, out) {
                    Ok(()) => Ok(slot),
                    Err(_) => Err(CallFault::NoMemory),
                },
                None => Err(CallFault::NoMemory),
            },
            Err(fault) => Err(fault),
        }
    }

    /// The slot of the held formed transaction with this id. None where none is held.
    pub fn slot_of(&self, id: &[u8; 32]) -> Option<u32>
        ensures { (v : ClientValue) → ShowsClient self.now v →
            result ≡ slot_of_id v id.now }
    {
        match self.held.slot_of_id(id) {
            Some(slot) => Some(slot as u32),
            None => None,
        }
    }

    /// How many votes and log replies count for the transaction in a slot.
    pub fn held(&self, slot: u32) -> u32
        requires { slot < length self.now.held.slots.items }
        ensures { (v : ClientValue) (s : SlotValue) →
            ShowsClient self.now v →
            slice_get v.slots slot ≡ Some s → result ≡ held_in s }
    {
        self.held.slots[slot as usize].held()
    }

    /// The decision on the transaction in a slot, with the certificate that proves it. None before there is one.
    pub fn outcome(&self, slot: u32) -> Option<(Decision, &Certificate)>
        requires { slot < length self.now.held.slots.items }
        ensures value { (v : ClientValue) (s : SlotValue) →
            ShowsClient self.now v →
            slice_get v.slots slot ≡ Some s →
            option_map shown_outcome result ≡ outcome_in self.now.seat.cluster s }
        // The certificate has a spelling.
        ensures fits { IfSome result (λ o. FitsCertificate widest (certificate_value o.1.now)) }
    {
        self.held.slots[slot as usize].outcome()
    }
}
