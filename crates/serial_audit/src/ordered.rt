//! Transactions in the order of their versions.

ghost use Rattle.std.specs.Prelude.{◌≡◌, [], ◌∷◌, IfOk, OnOk, option_copied, map};
ghost use Rattle.basil_types.specs.Replayed as replayed;
ghost use Rattle.basil_types.specs.Replayed.{put_versions};
ghost use Rattle.basil_types.specs.Transaction as transactions;
ghost use Rattle.serial_audit.specs.Parts as parts;
ghost use Rattle.serial_audit.specs.Parts.{those_under, lent, lent_by_version};

use basil_types::memory::NoMemory;
use basil_types::transaction::Transaction;
use basil_types::version::Version;
use std::alloc::Global;
use std::collections::BTreeMap;
use txn_meta::form;

/// The version of an owned transaction.
pub(crate) fn version_of(t: &Transaction) -> Version
    ensures { result ≡ transactions.version_of t.now }
{
    form::version_of(t.view())
}

fn is_under(bound: Option<&Version>, version: &Version) -> bool
    ensures { result ≡ parts.is_under (option_copied bound.entry) version.now }
{
    match bound {
        Some(bound) => version.is_below(bound),
        None => true,
    }
}

/// Puts a transaction by its version, if it is below a bound.
fn put_under<'a>(
    versions: &mut BTreeMap<Version, &'a Transaction>,
    t: &'a Transaction,
    bound: Option<&Version>,
) -> Result<(), NoMemory>
    ensures { OnOk result (lent_by_version versions.new.entries
        ≡ put_versions (lent_by_version versions.old.entries) (those_under (option_copied bound.entry) (t.now ∷ []))) }
{
    let version = version_of(t);
    if is_under(bound, &version) {
        versions.insert(version, t)?;
    }
    Ok(())
}

fn versions_under<'a>(
    alloc: Global,
    list: &'a [Transaction],
    bound: Option<&Version>,
) -> Result<BTreeMap<Version, &'a Transaction>, NoMemory>
    ensures { IfOk result
        (λ m. lent_by_version m.entries ≡ put_versions [] (those_under (option_copied bound.entry) list.now)) }
{
    let mut versions = BTreeMap::new(alloc);
    for t in list {
        put_under(&mut versions, t, bound)?;
    }
    Ok(versions)
}

fn values_of<'a>(
    alloc: Global,
    versions: BTreeMap<Version, &'a Transaction>,
) -> Result<Vec<&'a Transaction>, NoMemory>
    ensures { IfOk result (λ ts. ts.items ≡ map (λ e. e.1) versions.entry.entries) }
{
    let values = versions.into_values().collect(alloc)?;
    Ok(values)
}

/// The listed transactions below a bound, or all of them, ascending by version, each version once.
pub(crate) fn by_version<'a>(
    alloc: Global,
    list: &'a [Transaction],
    bound: Option<&Version>,
) -> Result<Vec<&'a Transaction>, NoMemory>
    ensures { IfOk result
        (λ ts. lent ts.items ≡ replayed.by_version (those_under (option_copied bound.entry) list.now)) }
{
    let versions = versions_under(alloc, list, bound)?;
    let ordered = values_of(alloc, versions)?;
    Ok(ordered)
}
