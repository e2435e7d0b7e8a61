//! Which shards votes may be of.

ghost use Rattle.std.specs.Prelude.{◌≡◌, ◌<◌, ℕ, [], find, option_map, IfSome};
ghost use Rattle.basil_types.specs.Refusals.{Refuses};
ghost use Rattle.basil_types.specs.Shown.{transaction_of};
ghost use Rattle.frame_views.specs.Items.{tallies_of, tallies_left};
ghost use Rattle.txn_meta.specs.Places.{marks_of, is_marked};
ghost use Rattle.certificates.specs.Deciding.{HasGoodForm};
ghost use Rattle.certificates.specs.Marks as sets;
ghost use Rattle.certificates.specs.Refusals as refusals;
ghost use Rattle.certificates.specs.Refusals.{all_shards, stray, stray_listed, stray_logged, stray_alone};
ghost use Rattle.certificates.specs.Refusals.{not_involved, strays};
ghost use Rattle.certificates.specs.Pairs.{pair_of};
ghost use Rattle.certificates.specs.Tallies.{lists};

use crate::pair::Pair;
use crate::refusal::CertRefusal;
use basil_types::cluster::Cluster;
use basil_types::transaction::TransactionView;
use frame_views::certificates::CertBody;
use frame_views::items::{TalliesIter, TalliesView};
use txn_meta::places::log_shard;
use txn_meta::shards::involved;

/// Which of the eight shards that a cluster may have are listed.
fn listed_marks(tallies: &TalliesView<'_>) -> [bool; 8]
    ensures { (s : ℕ) → s < 8 → is_marked result s ≡ lists (tallies_of tallies.now) s }
{
    let mut marks = [false; 8];
    for tally in tallies.iter() {
        let place = tally.shard as usize;
        if place < 8 {
            marks[place] = true;
        }
    }
    marks
}

/// Which of the eight shards are involved.
fn involved_marks(cluster: &Cluster, t: TransactionView<'_>) -> [bool; 8]
    ensures { result ≡ marks_of cluster.now (transaction_of t.entry) }
{
    let shards = involved(t, cluster);
    [
        shards.has(0),
        shards.has(1),
        shards.has(2),
        shards.has(3),
        shards.has(4),
        shards.has(5),
        shards.has(6),
        shards.has(7),
    ]
}

/// Whether a shard is in the one set and not in the other.
fn is_apart(shard: u8, marks: &[bool; 8], others: &[bool; 8]) -> bool
    requires { shard < 8 }
    ensures { result ≡ sets.is_apart marks.now others.now shard }
{
    marks[shard as usize] && !others[shard as usize]
}

/// The least shard that is in the one set and not in the other.
fn least_apart(marks: &[bool; 8], others: &[bool; 8]) -> Option<u8>
    ensures { result ≡ find (sets.is_apart marks.now others.now) all_shards }
{
    for shard in 0..8u8 {
        if is_apart(shard, marks, others) {
            return Some(shard);
        }
    }
    None
}

/// Refuses tallies whose shards aren't exactly the involved ones.
pub(crate) fn all_involved(
    cluster: &Cluster,
    t: TransactionView<'_>,
    tallies: &TalliesView<'_>,
) -> Result<(), CertRefusal>
    ensures { Refuses result (stray_listed cluster.now (transaction_of t.entry) (tallies_of tallies.now)) }
{
    let listed = listed_marks(tallies);
    let involved = involved_marks(cluster, t);
    match least_apart(&listed, &involved) {
        Some(shard) => Err(CertRefusal::NotInvolved(shard)),
        None => match least_apart(&involved, &listed) {
            Some(shard) => Err(CertRefusal::NotInvolved(shard)),
            None => Ok(()),
        },
    }
}

/// Refuses a shard that isn't involved.
pub(crate) fn one_involved(
    cluster: &Cluster,
    t: TransactionView<'_>,
    shard: u8,
) -> Result<(), CertRefusal>
    ensures { Refuses result (stray cluster.now (transaction_of t.entry) shard) }
{
    let _ = cluster.n();
    if involved(t, cluster).has(shard) {
        Ok(())
    } else {
        Err(CertRefusal::NotInvolved(shard))
    }
}

/// Refuses another shard than the log shard.
fn is_log_shard(cluster: &Cluster, t: TransactionView<'_>, shard: u8) -> Result<(), CertRefusal>
    requires { HasGoodForm (transaction_of t) }
    ensures { Refuses result (stray_logged cluster.now (transaction_of t.entry) shard) }
{
    if shard == log_shard(t, cluster) {
        Ok(())
    } else {
        Err(CertRefusal::NotInvolved(shard))
    }
}

/// Refuses a certificate of shards that don't decide its transaction.
pub(crate) fn from_its_shards(cluster: &Cluster, pair: &Pair<'_>) -> Result<(), CertRefusal>
    requires { HasGoodForm (transaction_of pair.now.transaction) }
    ensures { Refuses result (not_involved cluster.now (pair_of pair.now)) }
{
    match pair.body {
        CertBody::FastCommit { tallies } => all_involved(cluster, pair.transaction, &tallies),
        CertBody::Logged { shard, .. } => is_log_shard(cluster, pair.transaction, shard),
        CertBody::FastAbort { shard, .. } | CertBody::ConflictAbort { shard, .. } => {
            one_involved(cluster, pair.transaction, shard)
        }
    }
}

/// The same of a pair and of the one inside of it.
pub(crate) fn all_from_their_shards(
    cluster: &Cluster,
    outer: &Pair<'_>,
    inner: &Option<Pair<'_>>,
) -> Result<(), CertRefusal>
    requires outer { HasGoodForm (transaction_of outer.now.transaction) }
    requires inner { IfSome inner.now (λ p. HasGoodForm (transaction_of p.transaction)) }
    ensures { Refuses result (strays cluster.now (pair_of outer.now) (option_map pair_of inner.now)) }
{
    from_its_shards(cluster, outer)?;
    match inner {
        Some(pair) => from_its_shards(cluster, pair),
        None => Ok(()),
    }
}

/// The shard of the last tally that is left, or else this one.
fn last_shard(shard: u8, tallies: TalliesIter<'_>) -> u8
    ensures { result ≡ refusals.last_shard shard (tallies_left tallies.entry) }
{
    let mut last = shard;
    for tally in tallies {
        last = tally.shard;
    }
    last
}

/// Refuses tallies that aren't of one involved shard alone.
pub(crate) fn one_alone(
    cluster: &Cluster,
    t: TransactionView<'_>,
    tallies: &TalliesView<'_>,
) -> Result<(), CertRefusal>
    requires { HasGoodForm (transaction_of t) }
    ensures { Refuses result (stray_alone cluster.now (transaction_of t.entry) (tallies_of tallies.now)) }
{
    let mut items = tallies.iter();
    match items.next() {
        Some(only) => match items.next() {
            Some(second) => Err(CertRefusal::NotInvolved(last_shard(second.shard, items))),
            None => one_involved(cluster, t, only.shard),
        },
        None => least_involved(cluster, t),
    }
}

/// Refuses a missing shard, by the least involved one.
fn least_involved(cluster: &Cluster, t: TransactionView<'_>) -> Result<(), CertRefusal>
    requires { HasGoodForm (transaction_of t) }
    ensures { Refuses result (stray_alone cluster.now (transaction_of t.entry) []) }
{
    let _ = cluster.n();
    match involved(t, cluster).nth(0) {
        Some(shard) => Err(CertRefusal::NotInvolved(shard)),
        None => unreachable!(),
    }
}
