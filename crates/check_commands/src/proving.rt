//! Whether a certificate proves its decision, with no more keys than that needs.

ghost use Rattle.std.specs.Prelude.{◌≡◌, IfOk, None};
ghost use Rattle.basil_types.specs.Refusals.{Refuses};
ghost use Rattle.basil_types.specs.Shown.{transaction_of};
ghost use Rattle.frame_views.specs.Fitting.{FitsCertificate, bounds_of};
ghost use Rattle.frame_views.specs.Shown.{certificate_of};
ghost use Rattle.keyring_lms.specs.Replay.{replay_accepts};
ghost use Rattle.txn_meta.specs.Form.{form_fault};
ghost use Rattle.check_commands.specs.Checking.{proved_by};
ghost use Rattle.client_text.specs.Reports.{decision_line};
ghost use Rattle.command_ends.specs.Outcome.{Written};
ghost use Rattle.command_ends.specs.Endings.{outcome_is};
ghost use Rattle.check_commands.specs.Signers.{signers, own_refusal};

use basil_types::bytes::Bytes;
use basil_types::cluster::Cluster;
use basil_types::memory::NoMemory;
use basil_types::party::{Decision, Party};
use basil_types::transaction::TransactionView;
use certificates::{CertRefusal, check_abort, check_commit, decision_of};
use command_ends::ending::Ending;
use frame_views::certificates::CertificateView;
use frame_views::frames::{MessageView, WritebackView};
use frame_views::signed::signatures;
use keyring::verifier::Verifier;
use keyring_lms::LmsKeys;
use lms_sign::LmsSet;
use std::alloc::Global;

/// The keyring that accepts every signature: what it refuses is refused for something else, and so by each keyring.
#[derive(Clone, Copy)]
struct AnyKeys;

impl Verifier for AnyKeys {
    ghost use Rattle.check_commands.specs.Signers.{all_accepted};

    ghost accepted = { λ _. all_accepted };

    fn accepts(&self, _party: Party, _words: &[u8], _signature: &[u8]) -> bool {
        true
    }
}

/// `commit` or `abort`
fn proved_text(alloc: Global, decision: Decision) -> Result<Ending, NoMemory>
    ensures { IfOk result (λ e. outcome_is e ≡ Written (decision_line decision)) }
{
    match decision {
        Decision::Commit => Ok(Ending::Written(Bytes::copy_of(alloc, b"commit\n")?)),
        Decision::Abort => Ok(Ending::Written(Bytes::copy_of(alloc, b"abort\n")?)),
    }
}

/// The first refusal of a certificate for the decision that it is for, by these keys.
fn refuse<V: Verifier>(
    keys: &V,
    cluster: &Cluster,
    t: TransactionView<'_>,
    c: &CertificateView<'_>,
) -> Result<(), CertRefusal>
    requires form { form_fault (transaction_of t) ≡ None }
    requires fits { FitsCertificate (bounds_of cluster.now) (certificate_of c.now) }
    ensures { Refuses result
        (own_refusal (V.accepted keys.now) cluster.now (transaction_of t.entry) (certificate_of c.now)) }
{
    match decision_of(&c.body()) {
        Decision::Commit => check_commit(keys, cluster, t, c),
        Decision::Abort => check_abort(keys, cluster, t, c),
    }
}

/// Whether a certificate proves the decision that it is for, by these keys.
#[tactic(auto, unfolding(crate::specs::Checking::proved_by))]
pub(crate) fn judge_by<V: Verifier>(
    alloc: Global,
    keys: &V,
    cluster: &Cluster,
    t: TransactionView<'_>,
    c: &CertificateView<'_>,
) -> Result<Ending, NoMemory>
    requires form { form_fault (transaction_of t) ≡ None }
    requires fits { FitsCertificate (bounds_of cluster.now) (certificate_of c.now) }
    ensures { IfOk result (λ e.
        outcome_is e ≡ proved_by (V.accepted keys.now) cluster.now (transaction_of t.entry) (certificate_of c.now)) }
{
    match refuse(keys, cluster, t, c) {
        Ok(()) => proved_text(alloc, decision_of(&c.body())),
        Err(refusal) => Ok(Ending::Refused {
            reason: refusal.number(),
        }),
    }
}

/// The parties of a certificate's signatures, one for each.
fn signers_of(
    alloc: Global,
    t: TransactionView<'_>,
    c: &CertificateView<'_>,
) -> Result<Vec<Party>, NoMemory>
    ensures { IfOk result (λ parties. parties.items ≡ signers (certificate_of c.now)) }
{
    let message = MessageView::Writeback(WritebackView {
        transaction: t,
        certificate: *c,
    });
    let mut parties = Vec::new(alloc);
    for item in signatures(&message) {
        parties.push(item.party)?;
    }
    Ok(parties)
}

/// The same by the keys of a replay: those of the certificate's signers are made.
fn judge_by_signers(
    alloc: Global,
    set: LmsSet,
    cluster: &Cluster,
    t: TransactionView<'_>,
    c: &CertificateView<'_>,
) -> Result<Ending, NoMemory>
    requires form { form_fault (transaction_of t) ≡ None }
    requires fits { FitsCertificate (bounds_of cluster.now) (certificate_of c.now) }
    ensures { IfOk result (λ e. outcome_is e
        ≡ proved_by (replay_accepts cluster.now set) cluster.now (transaction_of t.entry) (certificate_of c.now)) }
{
    let parties = signers_of(alloc, t, c)?;
    let keys = LmsKeys::replay_of(alloc, cluster, set, &parties)?;
    judge_by(alloc, &keys, cluster, t, c)
}

/// The same, and no key is made where the certificate is refused whatever the keys accept.
pub(crate) fn judge_by_replay(
    alloc: Global,
    set: LmsSet,
    cluster: &Cluster,
    t: TransactionView<'_>,
    c: &CertificateView<'_>,
) -> Result<Ending, NoMemory>
    requires form { form_fault (transaction_of t) ≡ None }
    requires fits { FitsCertificate (bounds_of cluster.now) (certificate_of c.now) }
    ensures { IfOk result (λ e. outcome_is e
        ≡ proved_by (replay_accepts cluster.now set) cluster.now (transaction_of t.entry) (certificate_of c.now)) }
{
    match refuse(&AnyKeys, cluster, t, c) {
        Ok(()) => judge_by_signers(alloc, set, cluster, t, c),
        Err(refusal) => Ok(Ending::Refused {
            reason: refusal.number(),
        }),
    }
}
