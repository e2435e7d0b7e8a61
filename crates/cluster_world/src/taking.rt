//! Nodes are handed frames.

ghost use Rattle.std.specs.Prelude.{◌≡◌, ◌<◌, ℕ, None, Some, IfOk, IfSome, find, length, position, slice_get};
ghost use Rattle.cluster_nodes.specs.Standings.{at_place};
ghost use Rattle.cluster_run.specs.Events as events;
ghost use Rattle.cluster_run.specs.Parts as parts;
ghost use Rattle.cluster_run.specs.States as states;
ghost use Rattle.cluster_run.specs.States.{Setup, State, standing};
ghost use Rattle.cluster_world.specs.Shows.{Shows, Stands};
ghost use Rattle.cluster_world.specs.Taking.{IsTaken, Takes, took_of};

use crate::engine::Engine;
use crate::fault::StepFault;
use basil_types::outbox::Outbox;
use basil_types::party::Party;
use client_core::Ask;
use cluster_nodes::handled::Handled;
use keyring::signer::Signer;
use keyring::verifier::Verifier;

/// What the receiver of a frame did.
#[derive(Drop)]
pub enum Took {
    /// Nothing: it is faulty, or isn't one of the cluster.
    Nothing,
    /// It refused the frame.
    Refused,
    /// This party signed and sends this.
    Sent(Party, Outbox),
}

impl<V: Verifier, S: Signer> Engine<V, S> {
    /// The place of a replica of the cluster.
    pub(crate) fn place_of_replica(&self, shard: u8, index: u8) -> Option<usize>
        ensures { result ≡ position (λ r. at_place shard index r) self.now.replicas.items }
    {
        self.replicas.iter().position(|r| r.is_at(shard, index))
    }

    /// Sets the clock of a replica of the cluster.
    pub(crate) fn set_clock(&mut self, shard: u8, index: u8, moment: u64)
        ensures { (s : Setup) (st : State) → Shows s self.old st →
            Shows s self.new (events.ticks moment (standing st shard index) st) }
    {
        if let Some(place) = self.place_of_replica(shard, index) {
            self.replicas[place].set_clock(moment);
        }
    }

    /// What a node did with a frame. What it would send may have no room.
    fn took<E: Drop>(&self, party: Party, handled: Handled<E>) -> Result<Took, StepFault>
        ensures { result ≡ took_of self.now.pool party handled }
    {
        match handled {
            Handled::Refused(_) => Ok(Took::Refused),
            Handled::Full => Err(self.full()),
            Handled::Sent(out) => Ok(Took::Sent(party, out)),
        }
    }

    /// A replica of the cluster takes a frame.
    fn replica_takes(
        &mut self,
        shard: u8,
        index: u8,
        from: Party,
        frame: &[u8],
    ) -> Result<Took, StepFault>
        ensures within { IfOk result (IsTaken self.old.pool) }
        ensures taken { (s : Setup) (st : State) → Stands s self.old st → Takes s st self.old.pool
            (λ number now. parts.replica_handles s number from frame.now (standing st shard index) now)
            self.new result }
        ensures pool { self.new.pool ≡ self.old.pool }
        ensures sight { self.new.sight ≡ self.old.sight }
    {
        let Some(place) = self.place_of_replica(shard, index) else {
            return Ok(Took::Nothing);
        };
        let handled = self.replicas[place].take(self.pool.room(), from, frame)?;
        self.took(Party::Replica { shard, index }, handled)
    }

    /// A client of the cluster takes a frame.
    fn client_takes(&mut self, number: u8, frame: &[u8]) -> Result<Took, StepFault>
        ensures within { IfOk result (IsTaken self.old.pool) }
        ensures taken { (s : Setup) (st : State) → Stands s self.old st → Takes s st self.old.pool
            (λ count now. parts.client_handles s count number frame.now (states.client_at st number) now)
            self.new result }
        ensures pool { self.new.pool ≡ self.old.pool }
        ensures sight { self.new.sight ≡ self.old.sight }
    {
        let Some(place) = self.place_of_client(number) else {
            return Ok(Took::Nothing);
        };
        let handled = self.ask(place, Ask::Frame { frame })?;
        self.took(Party::Client { number }, handled)
    }

    /// The receiver of a frame takes it. Of one that is faulty, or isn't of the cluster, nothing happens.
    pub(crate) fn take(&mut self, from: Party, to: Party, frame: &[u8]) -> Result<Took, StepFault>
        ensures within { IfOk result (IsTaken self.old.pool) }
        ensures taken { (s : Setup) (st : State) → Stands s self.old st → Takes s st self.old.pool
            (λ number now. parts.handle s number from to frame.now now) self.new result }
        ensures pool { self.new.pool ≡ self.old.pool }
        ensures sight { self.new.sight ≡ self.old.sight }
    {
        if self.sight.is_faulty(to) {
            return Ok(Took::Nothing);
        }
        match to {
            Party::Replica { shard, index } => self.replica_takes(shard, index, from, frame),
            Party::Client { number } => self.client_takes(number, frame),
        }
    }
}
