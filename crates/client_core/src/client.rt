//! A client: its calls, and its answers to frames.

ghost use Rattle.std.specs.Prelude.{◌≡◌, ◌≤◌, ◌<◌, [], true, false, Some, OnErr};
ghost use Rattle.std.specs.Prelude.{OnOk, IfOk, IfSome, option_map, length, slice_get};
ghost use Rattle.basil_types.specs.Limits.{most_clients};
ghost use Rattle.basil_types.specs.declared.party.Party.TheVariants as parties;
ghost use Rattle.certificates.specs.Deciding.{HasGoodForm};
ghost use Rattle.client_core.specs.Answers.{on_frame};
ghost use Rattle.client_core.specs.Calls.{call_begin, call_prepare, call_read, call_write};
ghost use Rattle.client_core.specs.Clients.{ClientDone, ClientValue, SlotValue, empty_client};
ghost use Rattle.client_core.specs.Done.{Calls, CanCommit, IsShown, KeepsSlots, SameOutbox, Sends, Shows};
ghost use Rattle.client_core.specs.Forming.{shown_signed};
ghost use Rattle.client_core.specs.Keeping.{told_state};
ghost use Rattle.client_core.specs.Receiving.{AnswersFrame};
ghost use Rattle.client_core.specs.Seats.{self_at};
ghost use Rattle.client_core.specs.Slots as slots;
ghost use Rattle.client_core.specs.Works.{WillDo};
ghost use Rattle.frame_views.specs.Fitting.{IsSignature};
ghost use Rattle.node_steps.specs.Pens.{pen_value};

use crate::held::Held;
use crate::preparing::plan_prepare;
use crate::reading::plan_read;
use crate::receiving::plan_frame;
use crate::seat::Seat;
use crate::state::ReadState;
use crate::work::ClientPlan;
use basil_types::cluster::Cluster;
use basil_types::memory::NoMemory;
use basil_types::outbox::Outbox;
use basil_types::transaction::Transaction;
use certificates::FrameFault;
use client_steps::fault::CallFault;
use keyring::signer::Signer;
use keyring::verifier::Verifier;
use node_steps::appending::append;
use node_steps::pending::make_room;
use std::alloc::Global;

/// A client with the keyring by which it tests signatures and the pen by which it signs. Some value is always shown:
/// what it holds, with the replies and the frames that it took.
#[derive(Drop)]
pub struct Client<V: Verifier, S: Signer> {
    pub(crate) seat: Seat,
    pub(crate) keys: V,
    pub(crate) pen: S,
    pub(crate) held: Held,
    ghost same: { held.cluster ≡ seat.cluster },
    ghost shown: { ∥ IsShown held (pen_value (S.spent pen) (S.left_of pen)) ∥₁ },
}

impl<V: Verifier, S: Signer> Client<V, S> {
    ghost use Rattle.client_core.specs.Shown.{ShowsClient};

    /// A client of this number, 1 to 16, before its first call.
    pub fn new(alloc: Global, cluster: Cluster, number: u8, keys: V, signer: S) -> Client<V, S>
        requires number { (1 ≤ number) × (number ≤ most_clients) }
        requires party { (S.fixed signer).party ≡ parties.Client number }
        ensures shown { let pen = pen_value (S.spent signer) (S.left_of signer) in
            Shows result.held pen (empty_client pen) }
        ensures cluster { result.seat.cluster ≡ cluster }
        ensures number { result.seat.number ≡ number }
        ensures keys { result.keys ≡ keys }
        ensures signer { result.pen ≡ signer }
    {
        Client {
            seat: Seat {
                cluster,
                number,
                alloc,
            },
            keys,
            pen: signer,
            held: Held::new(alloc, cluster),
        }
    }

    /// Begins a transaction of this time, above all times before, and answers its slot.
    pub fn begin(&mut self, time: u64) -> Result<u32, CallFault>
        ensures answer { (v : ClientValue) → ShowsClient self.old v →
            Calls result (call_begin v time)
            (λ d. ShowsClient self.new d.client) }
        ensures slot { (v : ClientValue) → ShowsClient self.old v → IfOk result (λ slot. slot ≡ length v.slots) }
        ensures as_before { (v : ClientValue) → ShowsClient self.old v → OnErr result (ShowsClient self.new v) }
        ensures keys { self.new.keys ≡ self.old.keys }
        ensures pen { self.new.pen ≡ self.old.pen }
        ensures seat { self.new.seat ≡ self.old.seat }
        ensures held { IfOk result (λ slot. slot < length self.new.held.slots.items) }
        ensures slots { KeepsSlots self.old.held self.new.held }
    {
        match self.held.begin(self.seat.alloc, time) {
            Ok(slot) => Ok(slot),
            Err(fault) => Err(fault),
        }
    }

    /// Does what was planned, with what it sends appended to an outbox; or memory is wanting, and the plan is let go.
    pub(crate) fn finish(&mut self, plan: ClientPlan, out: &mut Outbox) -> Result<(), NoMemory>
        requires { CanCommit (S.fixed self.old.pen) (pen_value (S.spent self.old.pen) (S.left_of self.old.pen))
            self.old.held plan }
        ensures done { (v : ClientValue) (d : ClientDone) →
            ShowsClient self.old v →
            WillDo (S.fixed self.old.pen) self.old.held v plan d → OnOk result (
            ShowsClient self.new d.client
            × Sends out.old out.new d) }
        ensures as_before { OnErr result (self.new.held ≡ self.old.held) }
        ensures same_pen { OnErr result (self.new.pen ≡ self.old.pen) }
        ensures same_outbox { OnErr result (SameOutbox out.old out.new) }
        ensures keys { self.new.keys ≡ self.old.keys }
        ensures seat { self.new.seat ≡ self.old.seat }
        ensures fixed { S.fixed self.new.pen ≡ S.fixed self.old.pen }
        ensures slots { KeepsSlots self.old.held self.new.held }
    {
        make_room(out, plan.messages as usize, plan.work.words())?;
        let more = self.commit(plan);
        append(out, more);
        Ok(())
    }

    /// Reads a key of an open transaction: every replica of the key's shard is asked, unless the key was written or
    /// asked for.
    pub fn read(&mut self, slot: u32, key: &[u8], out: &mut Outbox) -> Result<(), CallFault>
        requires { slot < length self.old.held.slots.items }
        ensures answer { (v : ClientValue) → ShowsClient self.old v → Calls result
            (call_read (self_at self.old.seat (V.accepted self.old.keys) (S.fixed self.old.pen)) v slot key.now)
            (λ d. ShowsClient self.new d.client
            × Sends out.old out.new d) }
        ensures as_before { (v : ClientValue) → ShowsClient self.old v → OnErr result (ShowsClient self.new v) }
        ensures same_outbox { OnErr result (SameOutbox out.old out.new) }
        ensures keys { self.new.keys ≡ self.old.keys }
        ensures seat { self.new.seat ≡ self.old.seat }
        ensures fixed { S.fixed self.new.pen ≡ S.fixed self.old.pen }
        ensures slots { KeepsSlots self.old.held self.new.held }
    {
        match plan_read(&mut self.held, &self.seat, slot as usize, key) {
            Ok(plan) => match self.finish(plan, out) {
                Ok(()) => Ok(()),
                Err(_) => Err(CallFault::NoMemory),
            },
            Err(fault) => Err(fault),
        }
    }

    /// Forms and signs an open transaction, and sends it to every replica of every involved shard.
    pub fn prepare(&mut self, slot: u32, out: &mut Outbox) -> Result<(), CallFault>
        requires { slot < length self.old.held.slots.items }
        ensures answer { (v : ClientValue) → ShowsClient self.old v → Calls result
            (call_prepare (self_at self.old.seat (V.accepted self.old.keys) (S.fixed self.old.pen)) v slot)
            (λ d. ShowsClient self.new d.client
            × Sends out.old out.new d) }
        ensures as_before { (v : ClientValue) → ShowsClient self.old v → OnErr result (ShowsClient self.new v) }
        ensures same_outbox { OnErr result (SameOutbox out.old out.new) }
        ensures keys { self.new.keys ≡ self.old.keys }
        ensures seat { self.new.seat ≡ self.old.seat }
        ensures fixed { S.fixed self.new.pen ≡ S.fixed self.old.pen }
        ensures slots { KeepsSlots self.old.held self.new.held }
    {
        match plan_prepare(&self.held, &self.seat, &self.pen, slot as usize) {
            Ok(plan) => match self.finish(plan, out) {
                Ok(()) => Ok(()),
                Err(_) => Err(CallFault::NoMemory),
            },
            Err(fault) => Err(fault),
        }
    }

    /// Answers a frame, or refuses it.
    pub fn on_frame(&mut self, frame: &[u8], out: &mut Outbox) -> Result<(), FrameFault>
        ensures answer { (v : ClientValue) → ShowsClient self.old v → AnswersFrame result
            (on_frame (self_at self.old.seat (V.accepted self.old.keys) (S.fixed self.old.pen)) v frame.now)
            (λ d. ShowsClient self.new d.client
            × Sends out.old out.new d) }
        ensures as_before { (v : ClientValue) → ShowsClient self.old v → OnErr result (ShowsClient self.new v) }
        ensures same_outbox { OnErr result (SameOutbox out.old out.new) }
        ensures keys { self.new.keys ≡ self.old.keys }
        ensures seat { self.new.seat ≡ self.old.seat }
        ensures fixed { S.fixed self.new.pen ≡ S.fixed self.old.pen }
        ensures slots { KeepsSlots self.old.held self.new.held }
    {
        match plan_frame(&mut self.held, &self.seat, &self.keys, frame) {
            Ok(plan) => match self.finish(plan, out) {
                Ok(()) => Ok(()),
                Err(_) => Err(FrameFault::NoMemory),
            },
            Err(fault) => Err(fault),
        }
    }

    /// Gives a key of an open transaction a value.
    pub fn write(&mut self, slot: u32, key: &[u8], value: &[u8]) -> Result<(), CallFault>
        requires { slot < length self.old.held.slots.items }
        ensures answer { (v : ClientValue) → ShowsClient self.old v → Calls result
            (call_write v slot (record { key = key.now; value = value.now; deletes = false }))
            (λ d. ShowsClient self.new d.client) }
        ensures as_before { (v : ClientValue) → ShowsClient self.old v → OnErr result (ShowsClient self.new v) }
        ensures keys { self.new.keys ≡ self.old.keys }
        ensures pen { self.new.pen ≡ self.old.pen }
        ensures seat { self.new.seat ≡ self.old.seat }
        ensures slots { KeepsSlots self.old.held self.new.held }
    {
        match self
            .held
            .write(self.seat.alloc, slot as usize, key, value, false)
        {
            Ok(()) => Ok(()),
            Err(fault) => Err(fault),
        }
    }

    /// Deletes a key in an open transaction.
    pub fn delete(&mut self, slot: u32, key: &[u8]) -> Result<(), CallFault>
        requires { slot < length self.old.held.slots.items }
        ensures answer { (v : ClientValue) → ShowsClient self.old v → Calls result
            (call_write v slot (record { key = key.now; value = []; deletes = true }))
            (λ d. ShowsClient self.new d.client) }
        ensures as_before { (v : ClientValue) → ShowsClient self.old v → OnErr result (ShowsClient self.new v) }
        ensures keys { self.new.keys ≡ self.old.keys }
        ensures pen { self.new.pen ≡ self.old.pen }
        ensures seat { self.new.seat ≡ self.old.seat }
        ensures slots { KeepsSlots self.old.held self.new.held }
    {
        match self
            .held
            .write(self.seat.alloc, slot as usize, key, &[], true)
        {
            Ok(()) => Ok(()),
            Err(fault) => Err(fault),
        }
    }

    /// How many transactions it holds, each in a slot of its own, from slot 0 on.
    pub fn slots(&self) -> u32
        ensures held { result ≡ length self.now.held.slots.items }
        ensures shown { (v : ClientValue) → ShowsClient self.now v → result ≡ length v.slots }
    {
        self.held.count()
    }

    /// What a key gives to a transaction.
    pub fn value(&self, slot: u32, key: &[u8]) -> ReadState<'_>
        requires { slot < length self.now.held.slots.items }
        ensures { (v : ClientValue) (s : SlotValue) →
            ShowsClient self.now v →
            slice_get v.slots slot ≡ Some s → told_state result ≡ slots.value self.now.seat.cluster s key.now }
    {
        self.held.slots[slot as usize].value(&self.seat.cluster, key)
    }

    /// The transaction in a slot, with its client's signature. None exactly before it is formed.
    pub fn formed(&self, slot: u32) -> Option<(&Transaction, &[u8])>
        requires { slot < length self.now.held.slots.items }
        ensures parts { (v : ClientValue) (s : SlotValue) →
            ShowsClient self.now v →
            slice_get v.slots slot ≡ Some s → option_map shown_signed result ≡ slots.formed_in s }
        ensures fits { IfSome result (λ x. IsSignature x.1.now) }
        ensures form { IfSome result (λ x. HasGoodForm x.0.now) }
    {
        self.held.slots[slot as usize].formed_parts()
    }
}
