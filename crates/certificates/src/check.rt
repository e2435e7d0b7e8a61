//! Certificates that decide a transaction.

ghost use Rattle.std.specs.Prelude.{◌≡◌, ◌↔◌, ◌<◌, ◌^◌, length, IsOk, IfErr, Some};
ghost use Rattle.basil_types.specs.Refusals.{Refuses};
ghost use Rattle.basil_types.specs.Shown.{transaction_of};
ghost use Rattle.basil_types.specs.declared.party.Decision.TheVariants as decisions;
ghost use Rattle.frame_views.specs.Fitting.{FitsCertificate, bounds_of};
ghost use Rattle.frame_views.specs.Shown.{HoldsCommit, certificate_of};
ghost use Rattle.frame_views.specs.Signed.{certificate_signed};
ghost use Rattle.frame_views.specs.Walks.{signed_left};
ghost use Rattle.certificates.specs.Deciding.{HasGoodForm, Commits, Aborts, Proves};
ghost use Rattle.certificates.specs.Refusals.{refusal, refusal_of};
ghost use Rattle.certificates.specs.Pairs.{pair_of};

use crate::conflicts::conflicts;
use crate::counts::enough_of_all;
use crate::decisions::all_decide;
use crate::ids::own_ids;
use crate::pair::{Pair, inner};
use crate::refusal::CertRefusal;
use crate::shards::all_from_their_shards;
use crate::signatures::all_accepted;
use basil_types::cluster::Cluster;
use basil_types::party::Decision;
use basil_types::transaction::TransactionView;
use frame_views::certificates::CertificateView;
use frame_views::frames::{MessageView, WritebackView};
use frame_views::signed::{Signatures, signatures};
use keyring::verifier::Verifier;

/// The first refusal of a pair with these signatures.
fn refuse<V: Verifier>(
    keys: &V,
    cluster: &Cluster,
    decision: Decision,
    outer: &Pair<'_>,
    signed: Signatures<'_>,
) -> Result<(), CertRefusal>
    requires form { HasGoodForm (transaction_of outer.now.transaction) }
    requires commits { HoldsCommit outer.now.body }
    requires signed { signed_left signed ≡ certificate_signed (pair_of outer.now).certificate }
    requires bounded { length (signed_left signed) < 2 ^ 64 }
    ensures { Refuses result (refusal_of (V.accepted keys.now) cluster.now decision (pair_of outer.now)) }
{
    let inner = inner(outer);
    own_ids(outer, &inner)?;
    all_decide(decision, outer, &inner)?;
    all_from_their_shards(cluster, outer, &inner)?;
    enough_of_all(cluster, outer, &inner)?;
    conflicts(outer)?;
    all_accepted(keys, signed)
}

/// The first refusal of a certificate for this decision.
fn refuse_certificate<V: Verifier>(
    keys: &V,
    cluster: &Cluster,
    decision: Decision,
    t: TransactionView<'_>,
    c: &CertificateView<'_>,
) -> Result<(), CertRefusal>
    requires form { HasGoodForm (transaction_of t) }
    requires fits { FitsCertificate (bounds_of cluster.now) (certificate_of c.now) }
    ensures { Refuses result
        (refusal (V.accepted keys.now) cluster.now (transaction_of t.entry) decision (certificate_of c.now)) }
{
    let outer = Pair::of(t, c);
    let message = MessageView::Writeback(WritebackView {
        transaction: t,
        certificate: *c,
    });
    refuse(keys, cluster, decision, &outer, signatures(&message))
}

/// Whether a certificate proves to anybody that this transaction is committed, or the first refusal. Takes no memory.
///
/// It is for a transaction with a good form, and for a certificate that fits the cluster, as each that a frame of the
/// cluster carries. Of one refusal's number, a fault of the certificate comes before one of the pair inside of it.
pub fn check_commit<V: Verifier>(
    keys: &V,
    cluster: &Cluster,
    t: TransactionView<'_>,
    c: &CertificateView<'_>,
) -> Result<(), CertRefusal>
    requires form { HasGoodForm (transaction_of t) }
    requires fits { FitsCertificate (bounds_of cluster.now) (certificate_of c.now) }
    // Every listed signature is accepted, and enough replicas of the right shards stand there.
    ensures accepted { IsOk result ↔
        Commits (V.accepted keys.now) cluster.now (transaction_of t.entry) (certificate_of c.now) }
    // The first refusal, and none exactly at Ok.
    ensures exact { Refuses result
        (refusal (V.accepted keys.now) cluster.now (transaction_of t.entry) decisions.Commit (certificate_of c.now)) }
{
    let _ = cluster.n();
    refuse_certificate(keys, cluster, Decision::Commit, t, c)
}

/// Whether a certificate proves to anybody that this transaction is aborted, or the first refusal. Takes no memory.
///
/// It is for a transaction with a good form, and for a certificate that fits the cluster, as each that a frame of the
/// cluster carries. Of one refusal's number, a fault of the certificate comes before one of the pair inside of it, and
/// the transaction of that pair is refused as NoConflict where it has no good form, before the pair's own faults.
pub fn check_abort<V: Verifier>(
    keys: &V,
    cluster: &Cluster,
    t: TransactionView<'_>,
    c: &CertificateView<'_>,
) -> Result<(), CertRefusal>
    requires form { HasGoodForm (transaction_of t) }
    requires fits { FitsCertificate (bounds_of cluster.now) (certificate_of c.now) }
    // Every listed signature is accepted, and enough replicas of the right shard stand there, or a transaction that
    // conflicts is committed.
    ensures accepted { IsOk result ↔
        Aborts (V.accepted keys.now) cluster.now (transaction_of t.entry) (certificate_of c.now) }
    // The first refusal, and none exactly at Ok.
    ensures exact { Refuses result
        (refusal (V.accepted keys.now) cluster.now (transaction_of t.entry) decisions.Abort (certificate_of c.now)) }
{
    let _ = cluster.n();
    refuse_certificate(keys, cluster, Decision::Abort, t, c)
}
