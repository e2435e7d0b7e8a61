//! What a second stage logs, by the votes that count.

ghost use Rattle.std.specs.Prelude.{◌≡◌, IfOk, option_map};
ghost use Rattle.client_recover.specs.Kept as kept;
ghost use Rattle.client_recover.specs.Kept.{logged_by};
ghost use Rattle.client_recover.specs.Owned.{logged_value};

use crate::tallies::{tallies, tally};
use crate::votes::Votes;
use basil_types::cluster::Cluster;
use basil_types::list::List;
use basil_types::memory::NoMemory;
use basil_types::party::Decision;
use frame_values::owned::ShardVotes;
use std::alloc::Global;

/// A decision to be logged, with the tallies that allow it.
#[derive(Drop)]
pub struct ToLog {
    pub decision: Decision,
    pub tallies: List<ShardVotes>,
}

/// The decision that the votes of these shards let be logged: commit where each has a commit tally, else abort where
/// some has an abort tally.
pub(crate) fn decision_by(cluster: &Cluster, shards: &[u8], votes: &Votes) -> Option<Decision>
    ensures { result ≡ option_map (λ l. l.decision) (logged_by cluster.now shards.now votes.now) }
{
    if votes.each_enough(shards, Decision::Commit, cluster.commit_tally()) {
        return Some(Decision::Commit);
    }
    match votes.lowest_enough(shards, Decision::Abort, cluster.abort_tally()) {
        Some(_) => Some(Decision::Abort),
        None => None,
    }
}

/// Commit with the tally of each of these shards, where each has one.
fn commit_logged(
    alloc: Global,
    cluster: &Cluster,
    shards: &[u8],
    votes: &Votes,
) -> Result<Option<ToLog>, NoMemory>
    ensures { IfOk result (λ o. option_map logged_value o ≡ kept.commit_logged cluster.now shards.now votes.now) }
{
    let needed = cluster.commit_tally();
    if !votes.each_enough(shards, Decision::Commit, needed) {
        return Ok(None);
    }
    Ok(Some(ToLog {
        decision: Decision::Commit,
        tallies: tallies(
            alloc,
            cluster,
            shards,
            votes.as_slice(),
            Decision::Commit,
            needed,
        )?,
    }))
}

/// Abort with the tally of this shard, where there is one.
fn abort_logged(
    alloc: Global,
    cluster: &Cluster,
    votes: &Votes,
    lowest: Option<u8>,
) -> Result<Option<ToLog>, NoMemory>
    ensures { IfOk result (λ o. option_map logged_value o ≡ kept.abort_logged cluster.now votes.now lowest) }
{
    match lowest {
        Some(shard) => {
            let needed = cluster.abort_tally();
            let mut list = Vec::new(alloc);
            list.push(tally(
                alloc,
                cluster,
                votes.as_slice(),
                Decision::Abort,
                needed,
                shard,
            )?)?;
            Ok(Some(ToLog {
                decision: Decision::Abort,
                tallies: List::from_vec(list),
            }))
        }
        None => Ok(None),
    }
}

/// The decision that the votes of these shards let be logged, with its tallies.
pub(crate) fn logged(
    alloc: Global,
    cluster: &Cluster,
    shards: &[u8],
    votes: &Votes,
) -> Result<Option<ToLog>, NoMemory>
    ensures { IfOk result (λ o. option_map logged_value o ≡ logged_by cluster.now shards.now votes.now) }
{
    match commit_logged(alloc, cluster, shards, votes)? {
        Some(logged) => Ok(Some(logged)),
        None => {
            let lowest = votes.lowest_enough(shards, Decision::Abort, cluster.abort_tally());
            abort_logged(alloc, cluster, votes, lowest)
        }
    }
}
