//! Which transaction a certificate is about.

ghost use Rattle.std.specs.Prelude.{◌≡◌, option_map};
ghost use Rattle.basil_types.specs.Refusals.{Refuses};
ghost use Rattle.certificates.specs.Refusals.{wrong_id, wrong_ids};
ghost use Rattle.certificates.specs.Pairs.{pair_of};

use crate::pair::Pair;
use crate::refusal::CertRefusal;

/// Refuses a certificate of another id than the transaction's.
pub(crate) fn own_id(pair: &Pair<'_>) -> Result<(), CertRefusal>
    ensures { Refuses result (wrong_id (pair_of pair.now)) }
{
    let id = pair.transaction.id();
    if pair.id.as_slice() == id.as_slice() {
        Ok(())
    } else {
        Err(CertRefusal::WrongId)
    }
}

/// The same of a pair and of the one inside of it.
pub(crate) fn own_ids(outer: &Pair<'_>, inner: &Option<Pair<'_>>) -> Result<(), CertRefusal>
    ensures { Refuses result (wrong_ids (pair_of outer.now) (option_map pair_of inner.now)) }
{
    own_id(outer)?;
    match inner {
        Some(pair) => own_id(pair),
        None => Ok(()),
    }
}
