//! The faulty parties of a run.

ghost use Rattle.std.specs.Prelude.{◌≡◌, ◌≤◌, [], ◌∷◌, ◌++◌};
ghost use Rattle.premise_watch.specs.Parties as parties;
ghost use Rattle.premise_watch.specs.Parties.{AreCounted, can_join, joined};
ghost use Rattle.premise_watch.specs.Rooms.{CanCome, IsNumbered};

use crate::parties::is_among;
use basil_types::cluster::Cluster;
use basil_types::party::Party;
use std::marker::Model;

/// Room for every client and for six replicas of every shard that a byte can number: a cluster's `f` is at most 6.
const ROOM: usize = 1792;

/// The parties that may do anything, in the order in which they were added. Takes no memory.
#[derive(Drop)]
pub struct Faulty {
    parties: [Party; ROOM],
    len: usize,
}

impl Model for Faulty {
    ghost use Rattle.std.specs.Prelude.{List, take};
    ghost use Rattle.basil_types.specs.declared.party.Party.{Party};
    ghost use Rattle.premise_watch.specs.Rooms.{HasRoom};

    ghost Value = { List Party };

    ghost view = { λ f. take f.len f.parties };

    ghost invariant = { λ f. HasRoom f.parties f.len };
}

impl Faulty {
    /// Nobody.
    pub fn new() -> Faulty
        ensures { result ≡ [] }
    {
        Faulty {
            parties: [Party::Client { number: 0 }; ROOM],
            len: 0,
        }
    }

    /// Whether a party is one of them.
    pub fn has(&self, party: Party) -> bool
        ensures { result ≡ parties.is_among self.now party }
    {
        is_among(&self.parties[..self.len], party)
    }

    /// Adds a party. False exactly for one that is there, or would be the (f + 1)th replica of its shard; then nothing
    /// changes.
    pub fn add(&mut self, party: Party, cluster: &Cluster) -> bool
        ensures answer { result ≡ can_join cluster.now.f self.old party }
        ensures parties { self.new ≡ joined cluster.now.f self.old party }
        // At most f replicas of each shard stay so.
        ensures few { AreCounted cluster.now.f self.old → AreCounted cluster.now.f self.new }
    {
        if self.has(party) || self.is_too_many(party, cluster) {
            return false;
        }
        self.push(party);
        true
    }

    /// Adds a party that is none of them, and not the seventh replica of its shard.
    fn push(&mut self, party: Party)
        requires { CanCome self.old party }
        ensures { self.new ≡ self.old ++ party ∷ [] }
    {
        self.parties[self.len] = party;
        self.len += 1;
    }

    /// Whether with this party there would be more than f replicas of its shard.
    fn is_too_many(&self, party: Party, cluster: &Cluster) -> bool
        ensures answer { result ≡ parties.is_too_many cluster.now.f self.now party }
        // Bytes number the party, and a cluster's f is at most 6.
        ensures numbered { IsNumbered party }
        ensures few { cluster.now.f ≤ 6 }
    {
        let _ = cluster.n();
        match party {
            Party::Replica { shard, .. } => usize::from(cluster.f) <= self.count_of_shard(shard),
            Party::Client { number: _ } => false,
        }
    }

    /// How many are replicas of a shard.
    fn count_of_shard(&self, shard: u8) -> usize
        ensures { result ≡ parties.count_of_shard shard self.now }
    {
        self.parties[..self.len]
            .iter()
            .filter(|known| is_of_shard(shard, **known))
            .count()
    }
}

/// Whether a party is a replica of a shard.
fn is_of_shard(shard: u8, party: Party) -> bool
    ensures { result ≡ parties.is_of_shard shard party }
{
    match party {
        Party::Replica { shard: own, .. } => own == shard,
        Party::Client { .. } => false,
    }
}
