//! How many votes and log replies stand there.

ghost use Rattle.std.specs.Prelude.{◌≡◌, option_map};
ghost use Rattle.basil_types.specs.Refusals.{Refuses};
ghost use Rattle.frame_views.specs.Items.{tallies_of};
ghost use Rattle.certificates.specs.Refusals.{few, few_listed, too_few, shortages};
ghost use Rattle.certificates.specs.Pairs.{pair_of};

use crate::pair::Pair;
use crate::refusal::CertRefusal;
use basil_types::cluster::Cluster;
use frame_views::certificates::CertBody;
use frame_views::items::TalliesView;

/// Refuses a count below the one that is needed.
pub(crate) fn enough(count: usize, needed: u8) -> Result<(), CertRefusal>
    ensures { Refuses result (few count needed) }
{
    if count < needed as usize {
        return Err(CertRefusal::Few {
            count: count as u32,
            needed: u32::from(needed),
        });
    }
    Ok(())
}

/// Refuses tallies of which some shard has too few votes, by the first one listed.
pub(crate) fn enough_each(tallies: &TalliesView<'_>, needed: u8) -> Result<(), CertRefusal>
    ensures { Refuses result (few_listed needed (tallies_of tallies.now)) }
{
    for tally in tallies.iter() {
        enough(tally.votes.len(), needed)?;
    }
    Ok(())
}

/// Refuses a certificate with too few votes or log replies.
pub(crate) fn enough_of(cluster: &Cluster, pair: &Pair<'_>) -> Result<(), CertRefusal>
    ensures { Refuses result (too_few cluster.now (pair_of pair.now)) }
{
    match pair.body {
        CertBody::FastCommit { tallies } => enough_each(&tallies, cluster.fast_commit()),
        CertBody::Logged { logs, .. } => enough(logs.len(), cluster.log_quorum()),
        CertBody::FastAbort { votes, .. } => enough(votes.len(), cluster.fast_abort()),
        CertBody::ConflictAbort { .. } => Ok(()),
    }
}

/// The same of a pair and of the one inside of it.
pub(crate) fn enough_of_all(
    cluster: &Cluster,
    outer: &Pair<'_>,
    inner: &Option<Pair<'_>>,
) -> Result<(), CertRefusal>
    ensures { Refuses result (shortages cluster.now (pair_of outer.now) (option_map pair_of inner.now)) }
{
    enough_of(cluster, outer)?;
    match inner {
        Some(pair) => enough_of(cluster, pair),
        None => Ok(()),
    }
}
