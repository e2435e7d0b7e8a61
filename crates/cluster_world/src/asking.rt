//! Clients are asked for calls.

ghost use Rattle.std.specs.Prelude.{◌≡◌, ◌<◌, ℕ, suc, true, None, Some, IfOk, IfSome, Result, length, slice_get};
ghost use Rattle.client_core.specs.Asks.{answer_to, by_call, is_call, is_call_fault};
ghost use Rattle.client_core.specs.Clients.{ClientDone, ClientValue};
ghost use Rattle.client_core.specs.declared.ask.AskFault.TheVariants as asks;
ghost use Rattle.client_steps.specs.declared.fault.CallFault.{CallFault};
ghost use Rattle.cluster_nodes.specs.Asking.{HasSignature, IsOfKind};
ghost use Rattle.cluster_run.specs.Events as events;
ghost use Rattle.cluster_run.specs.Parts.{client_self};
ghost use Rattle.cluster_run.specs.States.{Setup, State, client_at};
ghost use Rattle.cluster_world.specs.Asking.{Asked, Does, HasEntry, IsAnswer};
ghost use Rattle.cluster_world.specs.Calls.{step_fault_of};
ghost use Rattle.cluster_world.specs.Comes.{Comes};
ghost use Rattle.cluster_world.specs.Shows.{Shows, Stands};
ghost use Rattle.sight_laws.specs.Seen.{PoolIsSeen};

use crate::engine::Engine;
use crate::fault::StepFault;
use basil_types::memory::NoMemory;
use basil_types::party::Party;
use client_core::{Ask, AskFault, CallFault};
use cluster_nodes::handled::Handled;
use cluster_run::fault::WorldFault;
use keyring::signer::Signer;
use keyring::verifier::Verifier;

/// A refused call, or want of memory.
pub(crate) fn of_call(fault: CallFault) -> StepFault
    ensures { result ≡ step_fault_of fault }
{
    match fault {
        CallFault::NoMemory => StepFault::NoMemory,
        fault => StepFault::World(WorldFault::Call(fault)),
    }
}

/// The fault of a call.
fn call_fault(fault: AskFault) -> CallFault
    requires { is_call_fault fault ≡ true }
    ensures { fault ≡ asks.Call result }
{
    match fault {
        AskFault::Call(fault) => fault,
        AskFault::Frame(_) => unreachable!(),
    }
}

impl<V: Verifier, S: Signer> Engine<V, S> {
    /// The place of a client of the cluster.
    pub(crate) fn place_of_client(&self, number: u8) -> Option<usize>
        ensures there { IfSome result (λ place. (place < length self.now.clients.items) × (suc place ≡ number)) }
        ensures nobody { (s : Setup) (st : State) → Stands s self.now st → result ≡ None →
            client_at st number ≡ None }
        ensures somebody { (s : Setup) (st : State) → Stands s self.now st →
            IfSome result (λ place. client_at st number ≡ slice_get st.clients place) }
    {
        let place = usize::from(number).checked_sub(1)?;
        if place < self.clients.len() {
            Some(place)
        } else {
            None
        }
    }

    /// A client is asked for a call that may send, or handed a frame; what it sends doesn't enter the pool yet.
    pub(crate) fn ask(&mut self, place: usize, ask: Ask<'_>) -> Result<Handled<AskFault>, NoMemory>
        requires place { place < length self.old.clients.items }
        requires signature { HasSignature ask }
        ensures kind { IfOk result (IsOfKind ask.entry) }
        ensures within { IfOk result (HasEntry self.old.pool) }
        ensures asked { (s : Setup) (st : State) (c : ClientValue) → Stands s self.old st →
            slice_get st.clients place ≡ Some c →
            Asked s st place self.old.pool (answer_to (client_self s (suc place)) c ask.entry) self.new result }
        ensures pool { self.new.pool ≡ self.old.pool }
        ensures sight { self.new.sight ≡ self.old.sight }
    {
        self.clients[place].take(self.pool.room(), ask)
    }

    /// What a call of a client came to: what it sends enters the pool.
    pub(crate) fn answered(
        &mut self,
        number: u8,
        handled: Handled<AskFault>,
    ) -> Result<(), StepFault>
        requires { IsAnswer self.old.pool handled }
        ensures { (s : Setup) (st : State) (place : ℕ) (answer : Result ClientDone CallFault) → suc place ≡ number →
            self.old.pool.posts ≡ st.pool → PoolIsSeen s st →
            Does s st place self.old.pool (by_call answer) self.old handled →
            Comes s st (events.called s number answer st) self.new result }
    {
        match handled {
            Handled::Refused(fault) => Err(StepFault::World(WorldFault::Call(call_fault(fault)))),
            Handled::Full => Err(self.full()),
            Handled::Sent(out) => {
                self.send(Party::Client { number }, out)?;
                Ok(())
            }
        }
    }

    /// A client of the cluster is asked for a call, and what it sends enters the pool.
    pub(crate) fn call(&mut self, number: u8, ask: Ask<'_>) -> Result<(), StepFault>
        requires signature { HasSignature ask }
        requires call { is_call ask ≡ true }
        ensures { (s : Setup) (st : State) (call : ClientValue → Result ClientDone CallFault) → Shows s self.old st →
            ((c : ClientValue) → answer_to (client_self s number) c ask.entry ≡ by_call (call c)) →
            Comes s st (events.by_client s number call st) self.new result }
    {
        let Some(place) = self.place_of_client(number) else {
            return Ok(());
        };
        let handled = self.ask(place, ask)?;
        self.answered(number, handled)
    }
}
