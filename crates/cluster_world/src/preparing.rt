//! Transactions are prepared, settled, recovered and invoked.

ghost use Rattle.std.specs.Prelude.{◌≡◌, ◌<◌, List, Some, IfOk, IfSome, OnOk, length, option_map, slice_get};
ghost use Rattle.basil_types.specs.declared.party.Party.TheVariants as parties;
ghost use Rattle.basil_types.specs.Words.{SignedWords};
ghost use Rattle.client_core.specs.Clients.{ClientValue};
ghost use Rattle.cluster_run.specs.Events as events;
ghost use Rattle.cluster_run.specs.Parts.{send};
ghost use Rattle.cluster_run.specs.States.{BegunValue, Setup, State};
ghost use Rattle.node_steps.specs.Holding.{Holds};
ghost use Rattle.node_steps.specs.Envelopes.{EnvelopeValue};
ghost use Rattle.cluster_world.specs.Asking.{IsAnswer, Recovers};
ghost use Rattle.cluster_world.specs.Beginning as beginning;
ghost use Rattle.cluster_world.specs.Beginning.{formed_by};
ghost use Rattle.cluster_world.specs.Calling.{IsHeld};
ghost use Rattle.cluster_world.specs.Comes.{Comes};
ghost use Rattle.cluster_world.specs.Sending.{HasRoomFor};
ghost use Rattle.cluster_world.specs.Shows.{Shows, Stands};

use crate::asking::of_call;
use crate::calls::formed_in;
use crate::engine::Engine;
use crate::fault::StepFault;
use basil_types::memory::NoMemory;
use basil_types::outbox::Outbox;
use basil_types::party::Party;
use client_core::{Ask, AskFault, CallFault};
use cluster_nodes::calling::StandingClient;
use cluster_nodes::handled::Handled;
use keyring::signer::Signer;
use keyring::verifier::Verifier;
use run_begun::{Begun, Formed};

/// The id of what the client of a begun transaction formed.
fn id_in(begun: &[Begun], tx: u32) -> Option<[u8; 32]>
    ensures { result ≡ beginning.id_in begun.now tx }
{
    let formed = formed_in(begun, tx)?;
    Some(formed.transaction().id())
}

/// The client at this place.
fn client_at<V: Verifier, S: Signer>(
    clients: &[StandingClient<V, S>],
    place: usize,
) -> Option<&StandingClient<V, S>>
    ensures { option_map (λ node. node.now) result ≡ slice_get clients.now place }
{
    clients.get(place)
}

impl<V: Verifier, S: Signer> Engine<V, S> {
    // ---- prepare

    /// A correct client prepares the transaction that it holds in a slot.
    pub(crate) fn prepare_own(&mut self, tx: u32, client: u8, slot: u32) -> Result<(), StepFault>
        ensures { (s : Setup) (st : State) (b : BegunValue) → Shows s self.old st → slice_get st.begun tx ≡ Some b →
            b.client ≡ client → Comes s st (events.prepares_own s tx b slot st) self.new result }
    {
        let Some(place) = self.place_of_client(client) else {
            return Ok(());
        };
        let handled = self.ask(place, Ask::Prepare { slot })?;
        match handled {
            Handled::Refused(fault) => self.answered(client, Handled::Refused(fault)),
            Handled::Full => Err(self.full()),
            Handled::Sent(out) => self.send_formed(tx, client, place, slot, out),
        }
    }

    /// What a client formed in a slot is kept, and what it sends enters the pool.
    fn send_formed(
        &mut self,
        tx: u32,
        client: u8,
        place: usize,
        slot: u32,
        out: Outbox,
    ) -> Result<(), StepFault>
        requires { HasRoomFor self.old.pool out.messages.items }
        ensures { (s : Setup) (before st : State) (b : BegunValue) (c : ClientValue) (said : List SignedWords)
            (mail : List EnvelopeValue) → Shows s self.old st → slice_get st.begun tx ≡ Some b →
            slice_get st.clients place ≡ Some c → Holds out mail said →
            Comes s before (send s (parties.Client client) said mail
            (events.set_begun tx (record b { formed = formed_by c slot }) st)) self.new result }
    {
        self.keep_formed(tx, place, slot)?;
        self.send(Party::Client { number: client }, out)?;
        Ok(())
    }

    /// Keeps what a client formed in a slot, or finds memory wanting.
    fn keep_formed(&mut self, tx: u32, place: usize, slot: u32) -> Result<(), NoMemory>
        ensures kept { (s : Setup) (st : State) (b : BegunValue) (c : ClientValue) → Stands s self.old st →
            slice_get st.begun tx ≡ Some b → slice_get st.clients place ≡ Some c →
            OnOk result (Stands s self.new (events.set_begun tx (record b { formed = formed_by c slot }) st)) }
        ensures pool { self.new.pool ≡ self.old.pool }
    {
        let formed = self.copy_formed(place, slot)?;
        self.set_formed(tx as usize, formed);
        Ok(())
    }

    /// A copy of what a client formed in a slot, or want of memory.
    fn copy_formed(&self, place: usize, slot: u32) -> Result<Option<Formed>, NoMemory>
        ensures { (s : Setup) (st : State) (c : ClientValue) → Stands s self.now st →
            slice_get st.clients place ≡ Some c → IfOk result (λ formed. formed ≡ formed_by c slot) }
    {
        let Some(node) = client_at(&self.clients, place) else {
            return Ok(None);
        };
        match node.formed(slot) {
            Some((transaction, signature)) => {
                let copy = Formed::copy_of(self.alloc, transaction, signature)?;
                Ok(Some(copy))
            }
            None => Ok(None),
        }
    }

    /// Sets what the client of a begun transaction formed. Of one that isn't begun nothing happens.
    fn set_formed(&mut self, tx: usize, formed: Option<Formed>)
        ensures kept { (s : Setup) (st : State) (b : BegunValue) → Stands s self.old st →
            slice_get st.begun tx ≡ Some b →
            Stands s self.new (events.set_begun tx (record b { formed = formed }) st) }
        ensures pool { self.new.pool ≡ self.old.pool }
    {
        if tx < self.begun.len() {
            self.begun[tx].set_formed(formed);
        }
    }

    // ---- settle and invoke

    /// The slot in which a client holds a formed transaction. None where none is formed, and of nobody.
    /// NotPrepared where the client doesn't hold it.
    fn slot_held(&self, tx: u32, client: u8) -> Result<Option<u32>, StepFault>
        ensures { (s : Setup) (st : State) → Shows s self.now st → IsHeld s st tx client result }
    {
        let Some(id) = id_in(&self.begun, tx) else {
            return Ok(None);
        };
        let Some(place) = self.place_of_client(client) else {
            return Ok(None);
        };
        match self.clients[place].slot_of(&id) {
            Some(slot) => Ok(Some(slot)),
            None => Err(of_call(CallFault::NotPrepared)),
        }
    }

    /// A client settles a formed transaction that it holds.
    pub(crate) fn settle(&mut self, tx: u32, client: u8) -> Result<(), StepFault>
        ensures { (s : Setup) (st : State) → Shows s self.old st →
            Comes s st (events.happens s (events.Settle tx client) st) self.new result }
    {
        match self.slot_held(tx, client) {
            Ok(Some(slot)) => self.call(client, Ask::Settle { slot }),
            Ok(None) => Ok(()),
            Err(fault) => Err(fault),
        }
    }

    /// A client invokes the fallback of a formed transaction that it holds.
    pub(crate) fn invoke(&mut self, tx: u32, client: u8) -> Result<(), StepFault>
        ensures { (s : Setup) (st : State) → Shows s self.old st →
            Comes s st (events.happens s (events.Invoke tx client) st) self.new result }
    {
        match self.slot_held(tx, client) {
            Ok(Some(slot)) => self.call(client, Ask::Invoke { slot }),
            Ok(None) => Ok(()),
            Err(fault) => Err(fault),
        }
    }

    // ---- recover

    /// A client recovers a formed transaction.
    pub(crate) fn recover(&mut self, tx: u32, client: u8) -> Result<(), StepFault>
        ensures { (s : Setup) (st : State) → Shows s self.old st →
            Comes s st (events.happens s (events.Recover tx client) st) self.new result }
    {
        let Some(place) = self.place_of_client(client) else {
            return Ok(());
        };
        match self.ask_recovery(tx, place)? {
            Some(handled) => self.answered(client, handled),
            None => Ok(()),
        }
    }

    /// A client is asked to recover a formed transaction, if there is one.
    fn ask_recovery(&mut self, tx: u32, place: usize) -> Result<Option<Handled<AskFault>>, NoMemory>
        requires { place < length self.old.clients.items }
        ensures within { IfOk result (λ handled. IfSome handled (IsAnswer self.old.pool)) }
        ensures asked { (s : Setup) (st : State) (c : ClientValue) → Stands s self.old st →
            slice_get st.clients place ≡ Some c →
            Recovers s st tx place c self.old.pool self.new result }
        ensures pool { self.new.pool ≡ self.old.pool }
    {
        let Some(formed) = formed_in(&self.begun, tx) else {
            return Ok(None);
        };
        let ask = Ask::Recover {
            t: formed.transaction(),
            signature: formed.signature(),
        };
        let handled = self.clients[place].take(self.pool.room(), ask)?;
        Ok(Some(handled))
    }
}
