//! Whether a pair of a transaction and a certificate proves a decision.

ghost use Rattle.std.specs.Prelude.{◌≡◌};
ghost use Rattle.frame_views.specs.CarriedWalks.{pair_of};
ghost use Rattle.frame_views.specs.Fitting.{FitsCertificate, bounds_of};
ghost use Rattle.frame_views.specs.Shown.{certificate_of};
ghost use Rattle.cluster_run.specs.Parts as parts;
ghost use Rattle.cluster_run.specs.States.{Setup};
ghost use Rattle.run_sight.specs.Keeping.{AreOf};

use basil_types::cluster::Cluster;
use basil_types::party::Decision;
use certificates::{check_abort, check_commit, decision_of};
use frame_views::carried::PairItem;
use keyring::verifier::Verifier;
use txn_meta::form::check_form;

/// Whether the transaction has a good form, and the certificate proves the decision that it names. Takes no memory.
pub(crate) fn is_proven<V: Verifier>(keys: &V, cluster: &Cluster, pair: &PairItem<'_>) -> bool
    requires { FitsCertificate (bounds_of cluster.now) (certificate_of pair.now.certificate) }
    ensures { (s : Setup) → AreOf (V.accepted keys.now) cluster.now s → result ≡ parts.is_proven s (pair_of pair.now) }
{
    if check_form(pair.transaction).is_err() {
        return false;
    }
    match decision_of(&pair.certificate.body()) {
        Decision::Commit => {
            check_commit(keys, cluster, pair.transaction, &pair.certificate).is_ok()
        }
        Decision::Abort => check_abort(keys, cluster, pair.transaction, &pair.certificate).is_ok(),
    }
}
