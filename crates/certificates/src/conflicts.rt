//! Whether a conflict abort names a transaction that conflicts.

ghost use Rattle.std.specs.Prelude.{◌≡◌, ◌&&◌, OnOk};
ghost use Rattle.basil_types.specs.Refusals.{Refuses};
ghost use Rattle.basil_types.specs.Shown.{transaction_of};
ghost use Rattle.txn_meta.specs.Conflicts;
ghost use Rattle.txn_meta.specs.Form as forms;
ghost use Rattle.certificates.specs.Deciding.{HasGoodForm};
ghost use Rattle.certificates.specs.Refusals as refusals;
ghost use Rattle.certificates.specs.Refusals.{no_conflict};
ghost use Rattle.certificates.specs.Pairs.{pair_of};

use crate::pair::Pair;
use crate::refusal::CertRefusal;
use basil_types::transaction::TransactionView;
use frame_views::certificates::CertBody;
use txn_meta::conflicts::conflict;
use txn_meta::form::{check_form, has_good_form};

/// Whether a transaction has a good form and conflicts with another.
fn is_rival(t: TransactionView<'_>, other: TransactionView<'_>) -> bool
    ensures { result ≡ (forms.has_good_form (transaction_of other.entry)
        && Conflicts.conflict (transaction_of t.entry) (transaction_of other.entry)) }
{
    has_good_form(other) && conflict(t, other)
}

/// Refuses a conflict abort whose other transaction has no good form or doesn't conflict.
pub(crate) fn conflicts(pair: &Pair<'_>) -> Result<(), CertRefusal>
    ensures { Refuses result (no_conflict (pair_of pair.now)) }
{
    match pair.body {
        CertBody::ConflictAbort { other, .. } => {
            if is_rival(pair.transaction, other) {
                Ok(())
            } else {
                Err(CertRefusal::NoConflict)
            }
        }
        CertBody::FastCommit { .. } | CertBody::Logged { .. } | CertBody::FastAbort { .. } => {
            Ok(())
        }
    }
}

/// Refuses a transaction without a good form, since it conflicts with none.
pub(crate) fn ill_formed(t: TransactionView<'_>) -> Result<(), CertRefusal>
    ensures exact { Refuses result (refusals.ill_formed (transaction_of t.entry)) }
    ensures form { OnOk result (HasGoodForm (transaction_of t.entry)) }
{
    match check_form(t) {
        Ok(()) => Ok(()),
        Err(_) => Err(CertRefusal::NoConflict),
    }
}
