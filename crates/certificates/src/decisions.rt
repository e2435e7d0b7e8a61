//! Which decision a certificate is for.

ghost use Rattle.std.specs.Prelude.{◌≡◌, option_map};
ghost use Rattle.basil_types.specs.Refusals.{Refuses};
ghost use Rattle.frame_views.specs.Shown.{body_of};
ghost use Rattle.certificates.specs.Refusals as refusals;
ghost use Rattle.certificates.specs.Refusals.{mixed, mixed_pairs};
ghost use Rattle.certificates.specs.Pairs.{pair_of};

use crate::pair::Pair;
use crate::refusal::CertRefusal;
use basil_types::party::{Decision, same_decision};
use frame_views::certificates::CertBody;

/// The decision that a certificate with this body is for. Takes no memory.
pub fn decision_of(body: &CertBody<'_>) -> Decision
    ensures { result ≡ refusals.decision_of (body_of body.now) }
{
    match body {
        CertBody::FastCommit { .. } => Decision::Commit,
        CertBody::Logged { decision, .. } => *decision,
        CertBody::FastAbort { .. } | CertBody::ConflictAbort { .. } => Decision::Abort,
    }
}

/// Refuses a certificate for the other decision.
pub(crate) fn decides(decision: Decision, pair: &Pair<'_>) -> Result<(), CertRefusal>
    ensures { Refuses result (mixed decision (pair_of pair.now)) }
{
    if same_decision(decision_of(&pair.body), decision) {
        Ok(())
    } else {
        Err(CertRefusal::Mixed)
    }
}

/// The same of a pair, and of the one inside of it, which must commit.
pub(crate) fn all_decide(
    decision: Decision,
    outer: &Pair<'_>,
    inner: &Option<Pair<'_>>,
) -> Result<(), CertRefusal>
    ensures { Refuses result (mixed_pairs decision (pair_of outer.now) (option_map pair_of inner.now)) }
{
    decides(decision, outer)?;
    match inner {
        Some(pair) => decides(Decision::Commit, pair),
        None => Ok(()),
    }
}
