//! Transactions in the order of their versions.

ghost use Rattle.std.specs.Prelude.{◌≡◌, [], IfOk};
ghost use Rattle.basil_types.specs.Replayed as replayed;
ghost use Rattle.basil_types.specs.Replayed.{put_versions};

use basil_types::memory::NoMemory;
use basil_types::transaction::Transaction;
use basil_types::version::Version;
use std::alloc::Global;
use std::collections::BTreeMap;
use txn_meta::form::version_of;

/// Copies of these transactions, by version.
fn versions(alloc: Global, list: &[Transaction]) -> Result<BTreeMap<Version, Transaction>, NoMemory>
    ensures { IfOk result (λ m. m.entries ≡ put_versions [] list.now) }
{
    let mut versions = BTreeMap::new(alloc);
    for t in list {
        let copy = t.try_copy(alloc)?;
        versions.insert(version_of(t.view()), copy)?;
    }
    Ok(versions)
}

/// Copies of these transactions, ascending by version, each version once.
pub(crate) fn by_version(alloc: Global, list: &[Transaction]) -> Result<Vec<Transaction>, NoMemory>
    ensures { IfOk result (λ ts. ts.items ≡ replayed.by_version list.now) }
{
    let versions = versions(alloc, list)?;
    let ordered = versions.into_values().collect(alloc)?;
    Ok(ordered)
}
