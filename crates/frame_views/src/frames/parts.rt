//! Reading parts of messages that may be missing.

ghost use Rattle.std.specs.Prelude.{◌≡◌, option_map};
ghost use Rattle.basil_types.specs.Parsed.{transaction_at};
ghost use Rattle.basil_types.specs.Shown.{transaction_of};
ghost use Rattle.basil_types.specs.Steps.{Gives};
ghost use Rattle.frame_views.specs.Fitting.{Within, widest};
ghost use Rattle.frame_views.specs.Grammar.{committed_at, maybe_committed_at, maybe_prepared_at};
ghost use Rattle.frame_views.specs.Shown.{committed_of};

use super::views::CommittedView;
use crate::bounds::Bounds;
use crate::certificates::parse::commit;
use crate::fields::allowed_flag;
use basil_types::reading::Fault;
use basil_types::transaction::{TransactionView, first};

/// A transaction and a certificate of kind 1 or 2.
#[tactic(auto, unfolding(crate::specs::Grammar::committed_at))]
fn committed<'a>(bounds: Bounds, bytes: &'a [u8]) -> Result<(CommittedView<'a>, &'a [u8]), Fault>
    requires { Within bounds widest }
    ensures { Gives (λ x. (committed_of x.0, x.1.now)) result (committed_at bounds bytes.now) }
{
    let (transaction, rest) = first(bytes)?;
    let (certificate, rest) = commit(bounds, rest)?;
    Ok((
        CommittedView {
            transaction,
            certificate,
        },
        rest,
    ))
}

/// A committed transaction behind a flag, which is 1 only where this is allowed.
#[tactic(auto, unfolding(crate::specs::Grammar::maybe_committed_at))]
pub(super) fn maybe_committed<'a>(
    bounds: Bounds,
    allowed: bool,
    bytes: &'a [u8],
) -> Result<(Option<CommittedView<'a>>, &'a [u8]), Fault>
    requires { Within bounds widest }
    ensures { Gives (λ x. (option_map committed_of x.0, x.1.now)) result (maybe_committed_at bounds allowed bytes.now) }
{
    let (given, rest) = allowed_flag(allowed, bytes)?;
    if given {
        let (part, rest) = committed(bounds, rest)?;
        Ok((Some(part), rest))
    } else {
        Ok((None, rest))
    }
}

/// A transaction behind a flag.
#[tactic(auto, unfolding(crate::specs::Grammar::maybe_prepared_at))]
pub(super) fn maybe_prepared(bytes: &[u8]) -> Result<(Option<TransactionView<'_>>, &[u8]), Fault>
    ensures { Gives (λ x. (option_map transaction_of x.0, x.1.now)) result (maybe_prepared_at bytes.now) }
{
    let (given, rest) = allowed_flag(true, bytes)?;
    if given {
        let (part, rest) = first(rest)?;
        Ok((Some(part), rest))
    } else {
        Ok((None, rest))
    }
}
