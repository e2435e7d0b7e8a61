//! The votes that count: the first of each replica.

ghost use Rattle.std.specs.Prelude.{◌≡◌, false, find, ◌&&◌, ◌==◌};
ghost use Rattle.std.specs.Option.{option_copied};
ghost use Rattle.client_recover.specs.Counts as counts;
ghost use Rattle.client_recover.specs.Counts.{seats};
ghost use Rattle.client_recover.specs.Kept as kept;
ghost use Rattle.client_recover.specs.Kept.{is_so};

use crate::counts::{count_of, lower, lower_small, raise, raise_small, small_of};
use basil_types::bytes::Bytes;
use basil_types::cluster::Cluster;
use basil_types::memory::NoMemory;
use basil_types::party::{Decision, same_decision};
use std::alloc::Global;
use std::marker::Model;

/// The first vote of a replica of a shard.
#[derive(Drop)]
pub struct CountedVote {
    pub shard: u8,
    pub replica: u8,
    pub decision: Decision,
    pub signature: Bytes,
}

/// How many places a shard has among those of the replicas: no shard has so many of them.
const SEATS: usize = 32;

/// The place of a replica of a shard among the counts.
fn place_of(shard: u8, replica: u8) -> usize
    ensures { result ≡ counts.place_of shard replica }
{
    usize::from(shard) * SEATS + usize::from(replica)
}

/// The first of these votes that is of this replica of this shard, for this decision.
pub(crate) fn vote_by(
    votes: &[CountedVote],
    shard: u8,
    decision: Decision,
    replica: u8,
) -> Option<&CountedVote>
    ensures { option_copied result ≡
        find (λ (v : CountedVote). is_so shard decision v && (v.replica == replica)) votes.now }
{
    votes.iter().find(|vote| {
        vote.shard == shard && same_decision(vote.decision, decision) && vote.replica == replica
    })
}

/// The votes that count, and how many of them are of each shard for either decision, and of each replica.
#[derive(Drop)]
pub struct Votes {
    list: Vec<CountedVote>,
    commits: [u32; 8],
    aborts: [u32; 8],
    voters: [u8; 256],
}

impl Model for Votes {
    ghost use Rattle.std.specs.Prelude.{List};
    ghost use Rattle.client_recover.specs.Counts.{CountsOf, VotersOf};
    ghost use Rattle.basil_types.specs.declared.party.Decision.TheVariants.{Commit, Abort};
    ghost use Rattle.client_recover.specs.declared.votes.CountedVote.{CountedVote};

    ghost Value = { List CountedVote };

    ghost view = { λ v. v.list.items };

    ghost invariant = { λ v. CountsOf Commit v.list.items v.commits × CountsOf Abort v.list.items v.aborts
        × VotersOf v.list.items v.voters };
}

impl Votes {
    ghost use Rattle.std.specs.Prelude.{◌+◌, ◌-◌, ◌<◌, ◌^◌, [], ◌∷◌, ◌++◌, OnOk, OnErr, length, filter, take};
    ghost use Rattle.std.specs.List.{list_all};
    ghost use Rattle.client_recover.specs.declared.votes.CountedVote.{CountedVote};
    ghost use Rattle.client_recover.specs.Kept.{votes_so};

    /// No vote. Takes no memory.
    pub(crate) fn new(alloc: Global) -> Votes
        ensures { result ≡ [] }
    {
        Votes {
            list: Vec::new(alloc),
            commits: [0; 8],
            aborts: [0; 8],
            voters: [0; 256],
        }
    }

    /// The votes.
    pub(crate) fn as_slice(&self) -> &[CountedVote]
        ensures { result.now ≡ self.now }
    {
        self.list.as_slice()
    }

    /// How many there are.
    pub(crate) fn len(&self) -> usize
        ensures { result ≡ length self.now }
    {
        self.list.len()
    }

    /// Whether a vote of a replica of a shard is among them.
    pub(crate) fn has_voted(&self, shard: u8, replica: u8) -> bool
        requires { replica < seats }
        ensures { result ≡ kept.has_voted shard replica self.now }
    {
        small_of(&self.voters, place_of(shard, replica)) != 0
    }

    /// Counts a vote, the last of them and the first of its replica.
    pub(crate) fn push(&mut self, vote: CountedVote) -> Result<(), NoMemory>
        requires place { vote.shard < 8 }
        requires replica { vote.replica < seats }
        requires first { kept.has_voted vote.shard vote.replica self.old ≡ false }
        requires few { length self.old + 1 < 2 ^ 32 }
        ensures pushed { OnOk result (self.new ≡ self.old ++ vote ∷ []) }
        ensures as_before { OnErr result (self.new ≡ self.old) }
    {
        let shard = usize::from(vote.shard);
        let place = place_of(vote.shard, vote.replica);
        let decision = vote.decision;
        self.list.push(vote)?;
        raise_small(&mut self.voters, place);
        match decision {
            Decision::Commit => raise(&mut self.commits, shard),
            Decision::Abort => raise(&mut self.aborts, shard),
        }
        Ok(())
    }

    /// Takes the last vote back. Takes no memory.
    pub(crate) fn pop(&mut self)
        ensures { self.new ≡ take (length self.old - 1) self.old }
    {
        match self.list.pop() {
            Some(vote) => {
                let shard = usize::from(vote.shard);
                lower_small(&mut self.voters, place_of(vote.shard, vote.replica));
                match vote.decision {
                    Decision::Commit => lower(&mut self.commits, shard),
                    Decision::Abort => lower(&mut self.aborts, shard),
                }
            }
            None => {}
        }
    }

    /// How many are votes of this shard for this decision.
    fn count_so(&self, decision: Decision, shard: u8) -> u32
        ensures { result ≡ length (votes_so self.now decision shard) }
    {
        match decision {
            Decision::Commit => count_of(&self.commits, usize::from(shard)),
            Decision::Abort => count_of(&self.aborts, usize::from(shard)),
        }
    }

    /// Whether at least so many are votes of this shard for this decision.
    fn are_enough(&self, decision: Decision, needed: u8, shard: u8) -> bool
        ensures { result ≡ kept.are_enough self.now decision needed shard }
    {
        u32::from(needed) <= self.count_so(decision, shard)
    }

    /// How many are votes of this shard.
    fn count_in(&self, shard: u8) -> u64
        ensures { result ≡ length (filter (λ (v : CountedVote). v.shard == shard) self.now) }
    {
        let commits = self.count_so(Decision::Commit, shard);
        let aborts = self.count_so(Decision::Abort, shard);
        u64::from(commits) + u64::from(aborts)
    }

    /// Whether at least as many as a shard has replicas are votes of this shard.
    fn has_all(&self, cluster: &Cluster, shard: u8) -> bool
        ensures { result ≡ kept.has_all cluster.now self.now shard }
    {
        u64::from(cluster.n()) <= self.count_in(shard)
    }

    /// Whether each of these shards has so many votes for this decision.
    pub(crate) fn each_enough(&self, shards: &[u8], decision: Decision, needed: u8) -> bool
        ensures { result ≡ kept.each_enough shards.now self.now decision needed }
    {
        shards
            .iter()
            .all(|shard| self.are_enough(decision, needed, *shard))
    }

    /// The first of these shards that has so many votes for this decision.
    pub(crate) fn lowest_enough(&self, shards: &[u8], decision: Decision, needed: u8) -> Option<u8>
        ensures { result ≡ kept.lowest_enough shards.now self.now decision needed }
    {
        shards
            .iter()
            .copied()
            .find(|shard| self.are_enough(decision, needed, *shard))
    }

    /// Whether each of these shards has as many votes as replicas.
    pub(crate) fn each_has_all(&self, cluster: &Cluster, shards: &[u8]) -> bool
        ensures { result ≡ list_all (kept.has_all cluster.now self.now) shards.now }
    {
        shards.iter().all(|shard| self.has_all(cluster, *shard))
    }
}
