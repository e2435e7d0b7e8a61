//! The latest writers of keys below a version.

ghost use Rattle.std.specs.Prelude.{◌≡◌, [], List, IfOk, option_copied};
ghost use Rattle.basil_types.specs.Replayed as replayed;
ghost use Rattle.basil_types.specs.Transaction.{TransactionValue};
ghost use Rattle.mv_store.specs.Store.{Stands};
ghost use Rattle.serial_audit.specs.Parts.{all_told, lent};
ghost use Rattle.serial_audit.specs.Strays as strays;
ghost use Rattle.serial_audit.specs.Writers.{IsRising};

use crate::ordered::by_version;
use basil_types::memory::NoMemory;
use basil_types::transaction::Transaction;
use basil_types::version::Version;
use mv_store::store::Store;
use std::alloc::Global;

/// A store of the listed transactions.
pub(crate) fn writers_of(alloc: Global, list: &[Transaction]) -> Result<Store, NoMemory>
    ensures { IfOk result (λ store. Stands store (all_told (replayed.by_version list.now)) []) }
{
    let ordered = by_version(alloc, list, None)?;
    enter_all(alloc, &ordered)
}

/// A store of transactions whose versions ascend.
fn enter_all(alloc: Global, ordered: &[&Transaction]) -> Result<Store, NoMemory>
    requires { IsRising (lent ordered.now) }
    ensures { IfOk result (λ store. Stands store (all_told (lent ordered.now)) []) }
{
    let mut store = Store::new(alloc);
    for t in ordered {
        let view = t.view();
        store.make_room(view)?;
        store.set(view, 0, true);
    }
    Ok(store)
}

/// The version that a read of the key should have, where its reader has this version.
pub(crate) fn expected(writers: &Store, reader: &Version, key: &[u8]) -> Version
    ensures { (ts : List TransactionValue) → Stands writers.now (all_told (replayed.by_version ts)) [] →
        result ≡ strays.expected ts reader.now key.now }
{
    match writers.latest_committed(key, reader) {
        Some((version, _)) => version,
        None => Version::genesis(),
    }
}
