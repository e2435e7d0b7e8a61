//! Faulty parties sign and send.

ghost use Rattle.std.specs.Prelude.{◌≡◌, ◌<◌, false, None, Some, IfErr, IfOk, IfSome, length, option_map, slice_get};
ghost use Rattle.basil_types.specs.declared.party.Party.TheVariants as parties;
ghost use Rattle.cluster_run.specs.Events as events;
ghost use Rattle.cluster_run.specs.States.{BegunValue, Setup, State};
ghost use Rattle.faulty_parties.specs.Lies.{CanBeSaid, Says};
ghost use Rattle.faulty_parties.specs.Pens.{left_in, size_in};
ghost use Rattle.faulty_parties.specs.Unsaid.{Unsaid, unsaid_first};
ghost use Rattle.txn_meta.specs.Form.{is_empty};
ghost use Rattle.cluster_world.specs.Beginning as beginning;
ghost use Rattle.cluster_world.specs.Comes.{Comes};
ghost use Rattle.cluster_world.specs.Lying.{CanLie, CanSay, CantForm, HasSignature, IsFormed, built_of, says};
ghost use Rattle.cluster_world.specs.Shows.{Shows, Stands};

use crate::engine::Engine;
use crate::fault::StepFault;
use basil_types::bytes::Bytes;
use basil_types::outbox::Envelope;
use basil_types::party::{Decision, Party};
use basil_types::transaction::Transaction;
use cluster_run::fault::WorldFault;
use faulty_parties::firsts::first_stage;
use faulty_parties::lie::Lie;
use faulty_parties::pens::Said;
use faulty_parties::place::Place;
use faulty_parties::proposals::{Proposed, proposal};
use faulty_parties::replies::{Logged, log_reply};
use faulty_parties::seconds::second;
use faulty_parties::votes::vote;
use faulty_parties::words::word;
use keyring::signer::Signer;
use keyring::verifier::Verifier;
use run_begun::laws::forming_is_refused;
use run_begun::{Begun, Formed};
use std::alloc::Global;

/// The replica at a place.
fn replica_at(place: Place) -> Party
    ensures { result ≡ parties.Replica place.shard place.index }
{
    Party::Replica {
        shard: place.shard,
        index: place.index,
    }
}

/// The transaction of a faulty client's reads and writes, or why it can't be formed.
fn form(alloc: Global, begun: &Begun) -> Result<Transaction, StepFault>
    requires { begun.now.slot ≡ None }
    ensures formed { IfOk result (IsFormed begun.now) }
    ensures refused { IfErr result (CantForm begun.now) }
{
    match begun.forming_fault() {
        Some(fault) => Err(StepFault::World(WorldFault::Call(fault))),
        None => {
            let transaction = begun.build(alloc)?;
            Ok(transaction)
        }
    }
}

impl<V: Verifier, S: Signer> Engine<V, S> {
    // ---- signing

    /// What the client of a transaction formed.
    fn said_by(&self, tx: u32) -> Option<&Formed>
        ensures { option_map (λ f. f.now) result ≡ beginning.formed_in self.now.begun.items tx }
    {
        self.begun.get(tx as usize)?.formed()
    }

    /// The bytes of the signatures of a faulty party that has one left. Exhausted where it has none, or isn't faulty.
    fn signature_size(&self, party: Party) -> Result<usize, StepFault>
        ensures own { IfOk result (HasSignature S.Signer self.now.pens party) }
        ensures as_run { (s : Setup) (st : State) → Stands s self.now st → CanLie s st party result }
    {
        if self.sight.is_faulty(party) && self.pens.has_left(party) {
            Ok(self.pens.size_of(party))
        } else {
            Err(StepFault::World(WorldFault::Exhausted { party }))
        }
    }

    /// A faulty party signs what it says, which enters the pool. PoolFull where there is no room for it: no signature
    /// is spent.
    fn say(&mut self, party: Party, lie: Lie) -> Result<(), StepFault>
        requires left { 0 < left_in S.Signer self.old.pens party }
        requires ready { CanBeSaid (size_in S.Signer self.old.pens party) lie }
        ensures { (s : Setup) (st : State) (u : Unsaid) → Shows s self.old st → u.party ≡ party → Says u lie →
            CanSay s st party (size_in S.Signer self.old.pens party) → Comes s st (says s u st) self.new result }
    {
        if !self.pool.room().has(lie.messages(), lie.bytes()) {
            return Err(self.full());
        }
        let out = self.pens.sign(party, lie);
        self.enter_all(party, out.messages)?;
        Ok(())
    }

    // ---- events

    /// A faulty replica's vote on a formed transaction goes to a client.
    pub(crate) fn vote(
        &mut self,
        place: Place,
        tx: u32,
        decision: Decision,
        client: u8,
    ) -> Result<(), StepFault>
        ensures { (s : Setup) (st : State) → Shows s self.old st → Comes s st
            (events.happens s (events.Vote place.shard place.index tx decision client) st) self.new result }
    {
        let Some(formed) = self.said_by(tx) else {
            return Ok(());
        };
        let party = replica_at(place);
        let size = self.signature_size(party)?;
        let lie = vote(
            self.alloc,
            place,
            formed.transaction().view(),
            decision,
            client,
            size,
        )?;
        self.say(party, lie)
    }
    /// A faulty replica's log reply on a formed transaction goes to a client.
    pub(crate) fn log_reply(
        &mut self,
        place: Place,
        tx: u32,
        logged: Logged,
        client: u8,
    ) -> Result<(), StepFault>
        ensures { (s : Setup) (st : State) → Shows s self.old st → Comes s st
            (events.happens s (events.Logged place.shard place.index tx logged.decision logged.decided logged.current
            client) st)
            self.new result }
    {
        let Some(formed) = self.said_by(tx) else {
            return Ok(());
        };
        let party = replica_at(place);
        let size = self.signature_size(party)?;
        let lie = log_reply(
            self.alloc,
            place,
            formed.transaction().view(),
            logged,
            client,
            size,
        )?;
        self.say(party, lie)
    }

    /// A faulty replica's election word for a view of a formed transaction goes to the leader of the view.
    pub(crate) fn word(
        &mut self,
        place: Place,
        tx: u32,
        decision: Decision,
        view: u64,
    ) -> Result<(), StepFault>
        ensures { (s : Setup) (st : State) → Shows s self.old st → Comes s st
            (events.happens s (events.Elect place.shard place.index tx decision view) st) self.new result }
    {
        let Some(formed) = self.said_by(tx) else {
            return Ok(());
        };
        let party = replica_at(place);
        let size = self.signature_size(party)?;
        let t = formed.transaction().view();
        let lie = word(
            self.alloc,
            self.sight.cluster(),
            place,
            t,
            decision,
            view,
            size,
        )?;
        self.say(party, lie)
    }

    /// A faulty replica's proposal in a view of a formed transaction goes to a replica of its shard.
    pub(crate) fn proposal(
        &mut self,
        place: Place,
        tx: u32,
        said: Proposed,
        to: u8,
    ) -> Result<(), StepFault>
        ensures { (s : Setup) (st : State) → Shows s self.old st → Comes s st
            (events.happens s (events.Decide place.shard place.index tx said.decision said.view to) st) self.new
            result }
    {
        let Some(formed) = self.said_by(tx) else {
            return Ok(());
        };
        let party = replica_at(place);
        let size = self.signature_size(party)?;
        let t = formed.transaction().view();
        let (keys, cluster) = (self.sight.keys(), self.sight.cluster());
        let lie = proposal(
            self.alloc, keys, cluster, &self.pool, place, t, said, to, size,
        )?;
        self.say(party, lie)
    }

    /// A faulty client's second stage of a formed transaction goes to a replica of the log shard.
    pub(crate) fn second(
        &mut self,
        tx: u32,
        decision: Decision,
        replica: u8,
    ) -> Result<(), StepFault>
        ensures { (s : Setup) (st : State) → Shows s self.old st →
            Comes s st (events.happens s (events.Second tx decision replica) st) self.new result }
    {
        let Some(formed) = self.said_by(tx) else {
            return Ok(());
        };
        let t = formed.transaction().view();
        let number = t.client();
        let signature = formed.signature();
        let (keys, cluster) = (self.sight.keys(), self.sight.cluster());
        let message = second(
            self.alloc, keys, cluster, &self.pool, t, signature, decision, replica,
        )?;
        self.enter(Party::Client { number }, message)
    }

    /// A frame enters the pool.
    pub(crate) fn raw(&mut self, from: Party, to: Party, frame: &[u8]) -> Result<(), StepFault>
        ensures { (s : Setup) (st : State) → Shows s self.old st →
            Comes s st (events.happens s (events.Raw from to frame.now) st) self.new result }
    {
        let frame = Bytes::copy_of(self.alloc, frame)?;
        self.enter(from, Envelope { to, frame })
    }
    // ---- first stages

    /// The transaction that was begun with this number.
    fn begun_at(&self, tx: u32) -> Option<&Begun>
        ensures there { option_map (λ b. b.now) result ≡ slice_get self.now.begun.items tx }
        ensures within { IfSome result (λ _. tx < length self.now.begun.items) }
    {
        self.begun.get(tx as usize)
    }

    /// Keeps what a faulty client formed.
    fn keep_said(&mut self, tx: usize, formed: Formed)
        requires { tx < length self.old.begun.items }
        ensures kept { (s : Setup) (st : State) (b : BegunValue) → Stands s self.old st → slice_get st.begun tx ≡ Some b
            →
            Stands s self.new (events.set_begun tx (record b { formed = Some formed }) st) }
        ensures pool { self.new.pool ≡ self.old.pool }
    {
        self.begun[tx].set_formed(Some(formed));
    }

    /// A faulty client signs and sends the first stage of its transaction, and keeps it with the signature. PoolFull
    /// where there is no room for it: no signature is spent.
    fn say_first(
        &mut self,
        tx: usize,
        party: Party,
        t: Transaction,
        lie: Lie,
    ) -> Result<(), StepFault>
        requires begun { tx < length self.old.begun.items }
        requires some { is_empty t ≡ false }
        requires left { 0 < left_in S.Signer self.old.pens party }
        requires ready { CanBeSaid (size_in S.Signer self.old.pens party) lie }
        ensures { (s : Setup) (st : State) (b : BegunValue) → Shows s self.old st → slice_get st.begun tx ≡ Some b →
            party ≡ parties.Client b.client → t ≡ built_of b → Says (unsaid_first s.cluster (built_of b)) lie →
            CanSay s st party (size_in S.Signer self.old.pens party) →
            Comes s st (events.prepares_lie s tx b st) self.new result }
    {
        if !self.pool.room().has(lie.messages(), lie.bytes()) {
            return Err(self.full());
        }
        let Said { out, signature } = self.pens.say(party, lie);
        self.keep_said(tx, Formed::new(t, Bytes::from_vec(signature)));
        self.enter_all(party, out.messages)?;
        Ok(())
    }

    /// A faulty client forms its transaction, signs it, and sends it to every replica of every involved shard. Of a
    /// transaction that isn't begun nothing happens.
    pub(crate) fn prepare_faulty(&mut self, tx: u32) -> Result<(), StepFault>
        ensures own { (s : Setup) (st : State) (b : BegunValue) → Shows s self.old st → slice_get st.begun tx ≡ Some b →
            b.slot ≡ None → Comes s st (events.happens s (events.Prepare tx) st) self.new result }
        ensures unbegun { (s : Setup) (st : State) → Shows s self.old st → slice_get st.begun tx ≡ None →
            Comes s st (events.happens s (events.Prepare tx) st) self.new result }
    {
        forming_is_refused();
        let Some(begun) = self.begun_at(tx) else {
            return Ok(());
        };
        if begun.slot().is_some() {
            return Ok(());
        }
        let t = form(self.alloc, begun)?;
        let party = Party::Client {
            number: begun.client(),
        };
        let size = self.signature_size(party)?;
        let lie = first_stage(self.alloc, self.sight.cluster(), t.view(), size)?;
        self.say_first(tx as usize, party, t, lie)
    }
}
