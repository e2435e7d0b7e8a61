//! The proof of a vote to abort.

ghost use Rattle.std.specs.Prelude.{◌≡◌, ◌↔◌, ◌<◌, ◌^◌, length, IsOk};
ghost use Rattle.basil_types.specs.Refusals.{Refuses};
ghost use Rattle.basil_types.specs.Shown.{transaction_of};
ghost use Rattle.frame_views.specs.Fitting.{FitsCertificate, bounds_of};
ghost use Rattle.frame_views.specs.Shown.{committed_of};
ghost use Rattle.frame_views.specs.Signed.{certificate_signed};
ghost use Rattle.frame_views.specs.Walks.{signed_left};
ghost use Rattle.certificates.specs.Deciding.{HasGoodForm, ProvesConflict};
ghost use Rattle.certificates.specs.Refusals.{proof_refusal, rival_refusal, no_rival_signed};
ghost use Rattle.certificates.specs.Pairs.{pair_of};

use crate::conflicts::ill_formed;
use crate::counts::enough_of;
use crate::decisions::decides;
use crate::ids::own_id;
use crate::pair::Pair;
use crate::refusal::CertRefusal;
use crate::shards::from_its_shards;
use crate::signatures::all_accepted;
use basil_types::cluster::Cluster;
use basil_types::party::Decision;
use basil_types::transaction::TransactionView;
use frame_views::frames::{CommittedView, MessageView, WritebackView};
use frame_views::signed::{Signatures, signatures};
use keyring::verifier::Verifier;
use txn_meta::conflicts::conflict;

/// Refuses a rival that doesn't conflict, and then by the first of these signatures that isn't accepted.
fn conflicts_and_signed<V: Verifier>(
    keys: &V,
    t: TransactionView<'_>,
    rival: &Pair<'_>,
    signed: Signatures<'_>,
) -> Result<(), CertRefusal>
    requires { length (signed_left signed) < 2 ^ 64 }
    ensures { Refuses result
        (no_rival_signed (V.accepted keys.now) (transaction_of t.entry) (pair_of rival.now)
        (signed_left signed.entry)) }
{
    if conflict(t, rival.transaction) {
        all_accepted(keys, signed)
    } else {
        Err(CertRefusal::NoConflict)
    }
}

/// The first refusal of a rival and its certificate, with these signatures.
fn refuse_rival<V: Verifier>(
    keys: &V,
    cluster: &Cluster,
    t: TransactionView<'_>,
    rival: &Pair<'_>,
    signed: Signatures<'_>,
) -> Result<(), CertRefusal>
    requires form { HasGoodForm (transaction_of rival.now.transaction) }
    requires signed { signed_left signed ≡ certificate_signed (pair_of rival.now).certificate }
    requires bounded { length (signed_left signed) < 2 ^ 64 }
    ensures { Refuses result
        (rival_refusal (V.accepted keys.now) cluster.now (transaction_of t.entry) (pair_of rival.now)) }
{
    own_id(rival)?;
    decides(Decision::Commit, rival)?;
    from_its_shards(cluster, rival)?;
    enough_of(cluster, rival)?;
    conflicts_and_signed(keys, t, rival, signed)
}

/// The first refusal of a proof.
fn refuse_proof<V: Verifier>(
    keys: &V,
    cluster: &Cluster,
    t: TransactionView<'_>,
    proof: &CommittedView<'_>,
) -> Result<(), CertRefusal>
    requires { FitsCertificate (bounds_of cluster.now) (committed_of proof.now).certificate }
    ensures { Refuses result
        (proof_refusal (V.accepted keys.now) cluster.now (transaction_of t.entry) (committed_of proof.now)) }
{
    ill_formed(proof.transaction)?;
    let rival = Pair::of(proof.transaction, &proof.certificate);
    let message = MessageView::Writeback(WritebackView {
        transaction: proof.transaction,
        certificate: proof.certificate,
    });
    refuse_rival(keys, cluster, t, &rival, signatures(&message))
}

/// Whether the proof of a vote to abort a transaction shows that one which conflicts is committed, or the first
/// refusal. Takes no memory.
///
/// It is for a certificate that fits the cluster, as each that a frame of the cluster carries. A proof whose
/// transaction has no good form is refused as NoConflict before all else, and one whose transaction doesn't conflict
/// as NoConflict too, before its signatures (Basil, stage 1).
pub fn check_proof<V: Verifier>(
    keys: &V,
    cluster: &Cluster,
    t: TransactionView<'_>,
    proof: &CommittedView<'_>,
) -> Result<(), CertRefusal>
    requires { FitsCertificate (bounds_of cluster.now) (committed_of proof.now).certificate }
    // The proof's transaction conflicts and is committed.
    ensures accepted { IsOk result ↔
        ProvesConflict (V.accepted keys.now) cluster.now (transaction_of t.entry) (committed_of proof.now) }
    // The first refusal, and none exactly at Ok.
    ensures exact { Refuses result
        (proof_refusal (V.accepted keys.now) cluster.now (transaction_of t.entry) (committed_of proof.now)) }
{
    let _ = cluster.n();
    refuse_proof(keys, cluster, t, proof)
}
