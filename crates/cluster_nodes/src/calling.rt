//! A client of a run.

ghost use Rattle.std.specs.Prelude.{◌≡◌, ◌≤◌, ◌<◌, ℕ, [], true, false, IfOk, IfSome};
ghost use Rattle.std.specs.Prelude.{Ok, length, option_map, option_and_then, slice_get};
ghost use Rattle.basil_types.specs.Limits.{most_clients};
ghost use Rattle.basil_types.specs.declared.party.Party.TheVariants as parties;
ghost use Rattle.certificates.specs.Deciding.{HasGoodForm};
ghost use Rattle.client_core.specs.Asks.{CanBeAsked, answer_to};
ghost use Rattle.client_core.specs.Calls.{call_begin, call_write};
ghost use Rattle.client_core.specs.Clients.{ClientValue, empty_client, quiet};
ghost use Rattle.client_core.specs.Forming.{shown_signed};
ghost use Rattle.client_core.specs.Keeping.{told_state};
ghost use Rattle.client_core.specs.Slots as slots;
ghost use Rattle.cluster_run.specs.Parts.{client_self};
ghost use Rattle.cluster_run.specs.States.{Setup};
ghost use Rattle.cluster_run.specs.Telling.{value_in_slot};
ghost use Rattle.node_steps.specs.Pens.{pen_value};
ghost use Rattle.frame_views.specs.Fitting.{IsSignature};
ghost use Rattle.cluster_nodes.specs.Asking as asking;
ghost use Rattle.cluster_nodes.specs.Asking.{Answers, Called, HasSignature, IsOfKind};
ghost use Rattle.cluster_nodes.specs.Handling.{IsWithin};
ghost use Rattle.cluster_nodes.specs.Standings.{HoldsAs, IsOf};

use crate::handled::{Handled, refused_ask};
use crate::sizes::client_plans_tell;
use basil_types::cluster::Cluster;
use basil_types::memory::NoMemory;
use basil_types::transaction::Transaction;
use client_core::{Ask, AskFault, CallFault, Client, ReadState};
use keyring::signer::Signer;
use keyring::verifier::Verifier;
use message_pool::Room;
use node_steps::pending::outbox;
use std::alloc::Global;

/// A client of a run.
#[derive(Drop)]
pub struct StandingClient<V: Verifier, S: Signer> {
    pub(crate) client: Client<V, S>,
    alloc: Global,
}

/// The slot that is named.
fn slot_named(ask: Ask<'_>) -> Option<u32>
    ensures { result ≡ asking.slot_named ask.entry }
{
    match ask {
        Ask::Read { slot, .. } => Some(slot),
        Ask::Prepare { slot } => Some(slot),
        Ask::Settle { slot } => Some(slot),
        Ask::Recover { .. } => None,
        Ask::Invoke { slot } => Some(slot),
        Ask::Frame { .. } => None,
    }
}

impl<V: Verifier, S: Signer> StandingClient<V, S> {
    /// A client of this number of a cluster, before its first call. Takes no memory.
    pub fn new(
        alloc: Global,
        cluster: Cluster,
        number: u8,
        keys: V,
        signer: S,
    ) -> StandingClient<V, S>
        requires number { (1 ≤ number) × (number ≤ most_clients) }
        requires party { (S.fixed signer).party ≡ parties.Client number }
        ensures { (s : Setup) → cluster ≡ s.cluster →
            IsOf s.kit (parties.Client number) (V.accepted keys) (S.fixed signer)
            (pen_value (S.spent signer) (S.left_of signer)) →
            HoldsAs s number result (empty_client (s.kit.pen (parties.Client number))) }
    {
        StandingClient {
            client: Client::new(alloc, cluster, number, keys, signer),
            alloc,
        }
    }

    /// Whether a slot that is named isn't held.
    fn lacks(&self, ask: Ask<'_>) -> bool
        ensures held { result ≡ false → HasSignature ask.entry → CanBeAsked self.now.client.held ask.entry }
        ensures lacking { (s : Setup) (number : ℕ) (c : ClientValue) → HoldsAs s number self.now c → result ≡ true →
            answer_to (client_self s number) c ask.entry ≡ Ok (quiet c) }
    {
        match slot_named(ask) {
            Some(slot) => self.client.slots() <= slot,
            None => false,
        }
    }

    /// Begins a transaction of this time, and answers its slot.
    pub fn begin(&mut self, time: u64) -> Result<u32, CallFault>
        ensures answer { (s : Setup) (number : ℕ) (c : ClientValue) → HoldsAs s number self.old c →
            Called s number c (call_begin c time) result self.new }
        ensures slot { (s : Setup) (number : ℕ) (c : ClientValue) → HoldsAs s number self.old c →
            IfOk result (λ slot. slot ≡ length c.slots) }
    {
        self.client.begin(time)
    }

    /// Gives a key of an open transaction a value. Of a slot that isn't held nothing happens.
    pub fn write(&mut self, slot: u32, key: &[u8], value: &[u8]) -> Result<(), CallFault>
        ensures { (s : Setup) (number : ℕ) (c : ClientValue) → HoldsAs s number self.old c →
            Called s number c (call_write c slot (record { key = key.now; value = value.now; deletes = false }))
            result self.new }
    {
        if self.client.slots() <= slot {
            return Ok(());
        }
        self.client.write(slot, key, value)
    }

    /// Deletes a key in an open transaction. Of a slot that isn't held nothing happens.
    pub fn delete(&mut self, slot: u32, key: &[u8]) -> Result<(), CallFault>
        ensures { (s : Setup) (number : ℕ) (c : ClientValue) → HoldsAs s number self.old c →
            Called s number c (call_write c slot (record { key = key.now; value = []; deletes = true }))
            result self.new }
    {
        if self.client.slots() <= slot {
            return Ok(());
        }
        self.client.delete(slot, key)
    }

    /// The slot of the held formed transaction with this id. None where none is held.
    pub fn slot_of(&self, id: &[u8; 32]) -> Option<u32>
        ensures { (s : Setup) (number : ℕ) (c : ClientValue) → HoldsAs s number self.now c →
            result ≡ slots.slot_of_id c id.now }
    {
        self.client.slot_of(id)
    }

    /// The transaction in a slot, with its client's signature. None before it is formed, and where the slot isn't held.
    pub fn formed(&self, slot: u32) -> Option<(&Transaction, &[u8])>
        ensures fits { IfSome result (λ x. IsSignature x.1.now) }
        ensures form { IfSome result (λ x. HasGoodForm x.0.now) }
        ensures parts { (s : Setup) (number : ℕ) (c : ClientValue) → HoldsAs s number self.now c →
            option_map shown_signed result ≡ option_and_then slots.formed_in (slice_get c.slots slot) }
    {
        if self.client.slots() <= slot {
            return None;
        }
        self.client.formed(slot)
    }

    /// What a key gives to the transaction in a slot: nothing was read, where the slot isn't held.
    pub fn value(&self, slot: u32, key: &[u8]) -> ReadState<'_>
        ensures { (s : Setup) (number : ℕ) (c : ClientValue) → HoldsAs s number self.now c →
            told_state result ≡ value_in_slot s key.now slot c }
    {
        if self.client.slots() <= slot {
            return ReadState::NotRead;
        }
        self.client.value(slot, key)
    }

    /// Asks the client for a call that may send, or hands it a frame. It answers as the rules say, where what it sends
    /// has room; else, and where it refuses or memory is wanting, it holds what it held. Of a slot that isn't held
    /// nothing happens.
    pub fn take(&mut self, room: Room, ask: Ask<'_>) -> Result<Handled<AskFault>, NoMemory>
        requires { HasSignature ask }
        ensures kind { IfOk result (IsOfKind ask.entry) }
        ensures within { IfOk result (IsWithin room) }
        ensures answer { (s : Setup) (number : ℕ) (c : ClientValue) → HoldsAs s number self.old c →
            Answers s number c room (answer_to (client_self s number) c ask.entry) result self.new }
    {
        if self.lacks(ask) {
            return Ok(Handled::Sent(outbox(self.alloc)));
        }
        self.take_held(room, ask)
    }

    /// Asks the client, where the slot is held.
    fn take_held(&mut self, room: Room, ask: Ask<'_>) -> Result<Handled<AskFault>, NoMemory>
        requires { CanBeAsked self.old.client.held ask }
        ensures kind { IfOk result (IsOfKind ask.entry) }
        ensures within { IfOk result (IsWithin room) }
        ensures answer { (s : Setup) (number : ℕ) (c : ClientValue) → HoldsAs s number self.old c →
            Answers s number c room (answer_to (client_self s number) c ask.entry) result self.new }
    {
        client_plans_tell();
        match self.client.plan(ask) {
            Ok(plan) => {
                if room.has(plan.messages(), plan.bytes()) {
                    Ok(Handled::Sent(self.client.commit(plan)))
                } else {
                    self.client.give_up(plan);
                    Ok(Handled::Full)
                }
            }
            Err(fault) => refused_ask(fault),
        }
    }
}
