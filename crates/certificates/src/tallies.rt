//! Tallies that let a decision be logged.

ghost use Rattle.std.specs.Prelude.{◌≡◌, ◌↔◌, IsOk, IfErr, Some};
ghost use Rattle.basil_types.specs.Refusals.{Refuses};
ghost use Rattle.basil_types.specs.Shown.{transaction_of};
ghost use Rattle.basil_types.specs.Transaction as transactions;
ghost use Rattle.frame_views.specs.Fitting.{FitsTallies, bounds_of};
ghost use Rattle.frame_views.specs.Items.{tallies_of};
ghost use Rattle.frame_views.specs.Signed.{tallies_signed};
ghost use Rattle.frame_views.specs.Walks.{signed_left};
ghost use Rattle.certificates.specs.Deciding.{HasGoodForm};
ghost use Rattle.certificates.specs.Refusals.{stray_tallies, tally_needs, tallies_refusal};
ghost use Rattle.certificates.specs.Tallies.{Tallied};

use crate::counts::enough_each;
use crate::refusal::CertRefusal;
use crate::shards::{all_involved, one_alone};
use crate::signatures::all_accepted;
use basil_types::cluster::Cluster;
use basil_types::party::Decision;
use basil_types::transaction::TransactionView;
use frame_views::frames::{MessageView, St2View};
use frame_views::items::TalliesView;
use frame_views::signed::{Signatures, signatures};
use keyring::verifier::Verifier;

/// Refuses tallies of shards that don't decide the transaction.
fn from_its_shards(
    cluster: &Cluster,
    t: TransactionView<'_>,
    decision: Decision,
    tallies: &TalliesView<'_>,
) -> Result<(), CertRefusal>
    requires { HasGoodForm (transaction_of t) }
    ensures { Refuses result (stray_tallies cluster.now (transaction_of t.entry) decision (tallies_of tallies.now)) }
{
    match decision {
        Decision::Commit => all_involved(cluster, t, tallies),
        Decision::Abort => one_alone(cluster, t, tallies),
    }
}

/// How many votes of a shard let this decision be logged.
fn needed(cluster: &Cluster, decision: Decision) -> u8
    ensures { result ≡ tally_needs cluster.now.f decision }
{
    match decision {
        Decision::Commit => cluster.commit_tally(),
        Decision::Abort => cluster.abort_tally(),
    }
}

/// The signatures of tallies: those of the frame that carries them, but for its client's.
fn signatures_of<'a>(
    t: TransactionView<'a>,
    decision: Decision,
    tallies: &TalliesView<'a>,
) -> Signatures<'a>
    ensures { signed_left result ≡
        tallies_signed (transactions.id (transaction_of t.entry)) decision (tallies_of tallies.now) }
{
    let message = MessageView::St2(St2View {
        transaction: t,
        signature: &[],
        decision,
        tallies: *tallies,
    });
    let mut signed = signatures(&message);
    let _client = signed.next();
    signed
}

/// The first refusal of tallies.
fn refuse_tallies<V: Verifier>(
    keys: &V,
    cluster: &Cluster,
    t: TransactionView<'_>,
    decision: Decision,
    tallies: &TalliesView<'_>,
) -> Result<(), CertRefusal>
    requires form { HasGoodForm (transaction_of t) }
    requires fits { FitsTallies (bounds_of cluster.now) (tallies_of tallies.now) }
    ensures { Refuses result
        (tallies_refusal (V.accepted keys.now) cluster.now (transaction_of t.entry) decision (tallies_of tallies.now)) }
{
    from_its_shards(cluster, t, decision, tallies)?;
    enough_each(tallies, needed(cluster, decision))?;
    all_accepted(keys, signatures_of(t, decision, tallies))
}

/// Whether tallies let this decision of a transaction be logged, or the first refusal. Takes no memory.
///
/// It is for a transaction with a good form, and for tallies that fit the cluster, as each that a frame of the cluster
/// carries.
pub fn check_tallies<V: Verifier>(
    keys: &V,
    cluster: &Cluster,
    t: TransactionView<'_>,
    decision: Decision,
    tallies: &TalliesView<'_>,
) -> Result<(), CertRefusal>
    requires form { HasGoodForm (transaction_of t) }
    requires fits { FitsTallies (bounds_of cluster.now) (tallies_of tallies.now) }
    // Every listed signature is accepted, and enough replicas of the right shards stand there.
    ensures accepted { IsOk result ↔
        Tallied (V.accepted keys.now) cluster.now (transaction_of t.entry) decision (tallies_of tallies.now) }
    // The first refusal, and none exactly at Ok.
    ensures exact { Refuses result
        (tallies_refusal (V.accepted keys.now) cluster.now (transaction_of t.entry) decision (tallies_of tallies.now)) }
{
    let _ = cluster.n();
    refuse_tallies(keys, cluster, t, decision, tallies)
}
