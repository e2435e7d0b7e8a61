//! Tallies of the votes of one shard.

ghost use Rattle.std.specs.Prelude.{◌≡◌};
ghost use Rattle.vote_tally.specs.Votes.{AreFirst};
ghost use Rattle.vote_tally.specs.Classes.{holds, class_of};
ghost use Rattle.vote_tally.specs.Tallies.{added, is_first};

use crate::classes::Class;
use crate::votes::{Counts, FirstVote};
use basil_types::cluster::Cluster;
use basil_types::party::Decision;
use std::marker::Model;

/// The replicas of a shard where f is 6, the greatest that a cluster takes.
const MOST_REPLICAS: usize = 31;

/// The first votes of a shard's replicas, in order. Contracts see the cluster and the list of these votes; beside them
/// it keeps who has voted and the counts. It takes no memory.
#[derive(Drop)]
pub struct Tally {
    cluster: Cluster,
    votes: [FirstVote; MOST_REPLICAS],
    len: usize,
    voted: [bool; MOST_REPLICAS],
    counts: Counts,
}

impl Model for Tally {
    ghost use Rattle.std.specs.Prelude.{take};
    ghost use Rattle.vote_tally.specs.Tallies.{TallyValue};
    ghost use Rattle.vote_tally.specs.Kept.{IsKept};

    ghost Value = { TallyValue };

    ghost view = { λ t. record { cluster = t.cluster; votes = take t.len t.votes } };

    ghost invariant = { λ t. IsKept t.cluster t.votes t.len t.voted t.counts };
}

impl Tally {
    ghost use Rattle.std.specs.Prelude.{[]};

    /// A tally of no vote, for a shard of this cluster.
    pub fn new(cluster: &Cluster) -> Tally
        ensures { result ≡ record { cluster = cluster.now; votes = [] } }
    {
        let _ = cluster.n();
        let none = FirstVote {
            replica: 0,
            vote: Decision::Commit,
            proof: false,
        };
        Tally {
            cluster: *cluster,
            votes: [none; MOST_REPLICAS],
            len: 0,
            voted: [false; MOST_REPLICAS],
            counts: Counts::none(),
        }
    }

    /// Counts the first vote of a replica of the shard. True exactly for such a vote; a later one, and one of a number
    /// that is no replica of the cluster, changes nothing. A proof is what shows that the transaction conflicts with a
    /// committed one; only that of an abort counts.
    pub fn add(&mut self, replica: u8, vote: Decision, proof: bool) -> bool
        ensures first { result ≡ is_first self.old replica }
        ensures counted { self.new ≡ added self.old (record { replica = replica; vote = vote; proof = proof }) }
        ensures same_cluster { self.new.cluster ≡ self.old.cluster }
    {
        if replica >= self.cluster.n() {
            return false;
        }
        let place = usize::from(replica);
        if self.voted[place] {
            return false;
        }
        let first = FirstVote {
            replica,
            vote,
            proof,
        };
        let counts = self.counts.with(first);
        self.votes[self.len] = first;
        self.len += 1;
        self.voted[place] = true;
        self.counts = counts;
        true
    }

    /// The first votes of the replicas, in the order in which they came.
    pub fn votes(&self) -> &[FirstVote]
        ensures votes { result.now ≡ self.now.votes }
        ensures first { AreFirst self.now.cluster self.now.votes }
    {
        &self.votes[..self.len]
    }

    /// The first class that holds of the votes.
    pub fn class(&self) -> Class
        ensures value { result ≡ class_of self.now.cluster self.now.votes }
        ensures first { AreFirst self.now.cluster self.now.votes }
    {
        if self.holds(Class::FastCommit) {
            return Class::FastCommit;
        }
        if self.holds(Class::FastAbort) {
            return Class::FastAbort;
        }
        if self.holds(Class::ConflictAbort) {
            return Class::ConflictAbort;
        }
        if self.holds(Class::Both) {
            return Class::Both;
        }
        if self.holds(Class::CommitTally) {
            return Class::CommitTally;
        }
        if self.holds(Class::AbortTally) {
            return Class::AbortTally;
        }
        Class::Open
    }

    /// Whether a class holds of the votes, whatever other does.
    fn holds(&self, class: Class) -> bool
        ensures value { result ≡ holds self.now.cluster self.now.votes class }
        ensures first { AreFirst self.now.cluster self.now.votes }
    {
        let cluster = &self.cluster;
        let counts = &self.counts;
        match class {
            Class::FastCommit => cluster.fast_commit() <= counts.commits,
            Class::FastAbort => cluster.fast_abort() <= counts.aborts,
            Class::ConflictAbort => counts.proven,
            Class::Both => {
                cluster.commit_tally() <= counts.commits && cluster.abort_tally() <= counts.aborts
            }
            Class::CommitTally => cluster.commit_tally() <= counts.commits,
            Class::AbortTally => cluster.abort_tally() <= counts.aborts,
            Class::Open => true,
        }
    }
}
