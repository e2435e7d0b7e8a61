//! A replica of a run.

ghost use Rattle.std.specs.Prelude.{◌≡◌, ◌<◌, IfOk};
ghost use Rattle.basil_types.specs.declared.party.Party.TheVariants as parties;
ghost use Rattle.cluster_run.specs.Parts.{replica_self};
ghost use Rattle.cluster_run.specs.States as states;
ghost use Rattle.cluster_run.specs.States.{Setup, Standing, first_standing};
ghost use Rattle.replica_core.specs.Answers.{answer};
ghost use Rattle.node_steps.specs.Pens.{pen_value};
ghost use Rattle.quorum_laws.specs.Numbers.{replicas};

use crate::handled::{Handled, refused};
use crate::sizes::plans_tell;
use basil_types::cluster::Cluster;
use basil_types::memory::NoMemory;
use basil_types::party::Party;
use keyring::signer::Signer;
use keyring::verifier::Verifier;
use message_pool::Room;
use replica_core::{Refusal, Replica};
use replica_laws::steps::places_never_repeat;
use std::alloc::Global;

/// A replica's place: the index of a shard of a cluster.
#[derive(Clone, Copy)]
pub struct Place {
    pub cluster: Cluster,
    pub shard: u8,
    pub index: u8,
}

/// A replica with the moment of its clock.
#[derive(Drop)]
pub struct StandingReplica<V: Verifier, S: Signer> {
    pub(crate) replica: Replica<V, S>,
    pub(crate) moment: u64,
    shard: u8,
    index: u8,
    ghost home: { replica.seat.home.shard ≡ shard },
    ghost own: { replica.seat.index ≡ index },
}

impl<V: Verifier, S: Signer> StandingReplica<V, S> {
    ghost use Rattle.cluster_nodes.specs.Handling.{IsWithin, Takes};
    ghost use Rattle.cluster_nodes.specs.Standings.{IsOf, StandsAs, at_place};

    /// A replica at its place of a cluster, with its clock at this moment, before its first frame. Takes no memory.
    pub fn new(alloc: Global, seat: Place, moment: u64, keys: V, signer: S) -> StandingReplica<V, S>
        requires shard { seat.shard < seat.cluster.shards }
        requires index { seat.index < replicas seat.cluster.f }
        requires party { (S.fixed signer).party ≡ parties.Replica seat.shard seat.index }
        ensures { (s : Setup) → seat.cluster ≡ s.cluster → moment ≡ s.clock →
            IsOf s.kit (parties.Replica seat.shard seat.index) (V.accepted keys) (S.fixed signer)
            (pen_value (S.spent signer) (S.left_of signer)) →
            StandsAs s result (first_standing s seat.shard seat.index) }
    {
        let Place {
            cluster,
            shard,
            index,
        } = seat;
        StandingReplica {
            replica: Replica::new(alloc, cluster, shard, index, keys, signer),
            moment,
            shard,
            index,
        }
    }

    /// Whether it is the replica of this index of this shard.
    pub fn is_at(&self, shard: u8, index: u8) -> bool
        ensures place { result ≡ at_place shard index self.now }
        ensures stands { (s : Setup) (x : Standing) → StandsAs s self.now x → result ≡ states.is_at shard index x }
    {
        self.shard == shard && self.index == index
    }

    /// What its clock shows.
    pub fn moment(&self) -> u64
        ensures { (s : Setup) (x : Standing) → StandsAs s self.now x → result ≡ x.moment }
    {
        self.moment
    }

    /// Sets the clock.
    pub fn set_clock(&mut self, moment: u64)
        ensures { (s : Setup) (x : Standing) → StandsAs s self.old x →
            StandsAs s self.new (record x { moment = moment }) }
    {
        self.moment = moment;
    }

    /// Hands the replica a frame that this party sent. It answers as the rules say, where what it sends has room; else,
    /// and where it refuses or memory is wanting, it stands as before.
    pub fn take(
        &mut self,
        room: Room,
        from: Party,
        frame: &[u8],
    ) -> Result<Handled<Refusal>, NoMemory>
        ensures within { IfOk result (IsWithin room) }
        ensures answer { (s : Setup) (x : Standing) → StandsAs s self.old x →
            Takes s x room (answer (replica_self s x.shard x.index) x.moment from x.book frame.now) result self.new }
    {
        plans_tell();
        places_never_repeat();
        match self.replica.plan(self.moment, from, frame) {
            Ok(plan) => {
                if room.has(plan.messages(), plan.bytes()) {
                    Ok(Handled::Sent(self.replica.commit(plan)))
                } else {
                    self.replica.give_up(plan);
                    Ok(Handled::Full)
                }
            }
            Err(refusal) => refused(refusal),
        }
    }
}
