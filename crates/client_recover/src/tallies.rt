//! Tallies, made of the votes that count.

ghost use Rattle.std.specs.Prelude.{◌≡◌, IfOk, map};
ghost use Rattle.frame_values.specs.Owned.{vote_value, tally_value};
ghost use Rattle.client_recover.specs.Kept as kept;
ghost use Rattle.client_recover.specs.Kept.{part_of};

use crate::votes::{CountedVote, vote_by};
use basil_types::bytes::Bytes;
use basil_types::cluster::Cluster;
use basil_types::list::List;
use basil_types::memory::NoMemory;
use basil_types::party::Decision;
use frame_values::owned::{ShardVotes, VotePart};
use std::alloc::Global;

/// A vote as a tally carries it.
fn part_of(alloc: Global, vote: &CountedVote) -> Result<VotePart, NoMemory>
    ensures { IfOk result (λ part. vote_value part ≡ kept.part_of vote.now) }
{
    Ok(VotePart {
        replica: vote.replica,
        signature: Bytes::copy_of(alloc, vote.signature.as_slice())?,
    })
}

/// The votes of a shard for a decision: those of the lowest replicas, as many as are needed.
pub(crate) fn tally(
    alloc: Global,
    cluster: &Cluster,
    votes: &[CountedVote],
    decision: Decision,
    needed: u8,
    shard: u8,
) -> Result<ShardVotes, NoMemory>
    ensures { IfOk result (λ t. tally_value t ≡ kept.tally cluster.now votes.now decision needed shard) }
{
    let mut parts = Vec::new(alloc);
    for replica in 0..cluster.n() {
        if parts.len() < usize::from(needed) {
            match vote_by(votes, shard, decision, replica) {
                Some(vote) => parts.push(part_of(alloc, vote)?)?,
                None => {}
            }
        }
    }
    Ok(ShardVotes {
        shard,
        votes: List::from_vec(parts),
    })
}

/// The tallies of these shards, in their order.
pub(crate) fn tallies(
    alloc: Global,
    cluster: &Cluster,
    shards: &[u8],
    votes: &[CountedVote],
    decision: Decision,
    needed: u8,
) -> Result<List<ShardVotes>, NoMemory>
    ensures { IfOk result (λ ts.
        map tally_value ts.items ≡ kept.tallies cluster.now shards.now votes.now decision needed) }
{
    let mut list = Vec::new(alloc);
    for shard in shards {
        list.push(tally(alloc, cluster, votes, decision, needed, *shard)?)?;
    }
    Ok(List::from_vec(list))
}
