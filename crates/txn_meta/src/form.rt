//! The form of a transaction (Basil, system model).

ghost use Rattle.std.specs.Prelude.{◌≡◌, OnOk, IfErr, None, Some};
ghost use Rattle.basil_types.specs.Shown.{transaction_of};
ghost use Rattle.basil_types.specs.Transaction as transactions;
ghost use Rattle.basil_types.specs.Version.{below};
ghost use Rattle.txn_meta.specs.Form as forms;
ghost use Rattle.txn_meta.specs.Form.{form_fault, first_not_below};

use basil_types::transaction::TransactionView;
use basil_types::version::Version;

/// Why a transaction has no good form.
#[derive(Clone, Copy, Debug, PartialEq, Eq)]
pub enum FormFault {
    /// It has no read and no write.
    Empty,
    /// Its time is 0.
    ZeroTime,
    /// The first read, from 0, of a version that isn't below the transaction's own.
    ReadNotBelow(usize),
}

/// Whether a transaction has a good form, or the first fault of it. Takes no memory.
pub fn check_form(t: TransactionView<'_>) -> Result<(), FormFault>
    ensures good { OnOk result (form_fault (transaction_of t.entry) ≡ None) }
    ensures refused { IfErr result (λ fault. form_fault (transaction_of t.entry) ≡ Some fault) }
{
    if t.read_at(0).is_none() && t.write_at(0).is_none() {
        return Err(FormFault::Empty);
    }
    if t.time() == 0 {
        return Err(FormFault::ZeroTime);
    }
    match read_not_below(t, &version_of(t)) {
        Some(place) => Err(FormFault::ReadNotBelow(place)),
        None => Ok(()),
    }
}

/// Whether a transaction has a good form. Takes no memory.
pub fn has_good_form(t: TransactionView<'_>) -> bool
    ensures { result ≡ forms.has_good_form (transaction_of t.entry) }
{
    check_form(t).is_ok()
}

/// The version of a transaction: its time, its client and its id. Takes no memory.
pub fn version_of(t: TransactionView<'_>) -> Version
    ensures { result ≡ transactions.version_of (transaction_of t.entry) }
{
    Version {
        time: t.time(),
        client: t.client(),
        id: t.id(),
    }
}

/// The first read of a version that isn't below this one.
fn read_not_below(t: TransactionView<'_>, version: &Version) -> Option<usize>
    ensures { result ≡ first_not_below version.now (transaction_of t.entry).reads }
{
    let mut place = 0usize;
    for item in t.reads() {
        if !item.version.is_below(version) {
            return Some(place);
        }
        place += 1;
    }
    None
}
