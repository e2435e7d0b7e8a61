//! The map that listed transactions leave.

ghost use Rattle.std.specs.Prelude.{◌≡◌, ◌++◌, [], IfOk, OnOk, option_copied};
ghost use Rattle.std.specs.Ordering.{nat_cmp};
ghost use Rattle.std.specs.Cmp.Lexicographic.{slice_cmp};
ghost use Rattle.std.specs.BTreeMap.{insert_entry};
ghost use Rattle.basil_types.specs.Replayed.{latest_of, put_writes, replay};
ghost use Rattle.basil_types.specs.Shown.{transaction_of, write_of};
ghost use Rattle.basil_types.specs.Transaction as transactions;
ghost use Rattle.serial_audit.specs.Maps as maps;
ghost use Rattle.serial_audit.specs.Maps.{pair, pairs_of};
ghost use Rattle.serial_audit.specs.Parts.{lent};

use crate::ordered::by_version;
use basil_types::bytes::Bytes;
use basil_types::memory::NoMemory;
use basil_types::replayed::Latest;
use basil_types::transaction::parts::WriteItem;
use basil_types::transaction::{Transaction, TransactionView};
use basil_types::version::Version;
use std::alloc::Global;
use std::collections::BTreeMap;
use txn_meta::form::version_of;

/// The latest write of a key: its writer's version, and the value, which is empty where it deletes the key.
#[derive(Drop)]
pub struct Pair {
    pub key: Bytes,
    pub writer: Version,
    pub value: Bytes,
    pub deleted: bool,
}

/// The map that these transactions leave when they are replayed in the order of their versions, or those of them whose
/// versions are below a bound: a pair for each key that one of them writes or deletes, ascending by key.
pub fn replay_map(
    alloc: Global,
    list: &[Transaction],
    below: Option<&Version>,
) -> Result<Vec<Pair>, NoMemory>
    ensures { IfOk result (λ pairs. pairs.items ≡ pairs_of (maps.map_below (option_copied below.entry) list.now)) }
{
    let ordered = by_version(alloc, list, below)?;
    let map = replay_all(alloc, &ordered)?;
    pairs_in(alloc, map)
}

fn replay_all(alloc: Global, ordered: &[&Transaction]) -> Result<BTreeMap<Bytes, Latest>, NoMemory>
    ensures { IfOk result (λ map. map.entries ≡ replay [] (lent ordered.now)) }
{
    let mut map = BTreeMap::new(alloc);
    for t in ordered {
        put_all_writes(alloc, &mut map, t)?;
    }
    Ok(map)
}

fn put_all_writes(
    alloc: Global,
    map: &mut BTreeMap<Bytes, Latest>,
    t: &Transaction,
) -> Result<(), NoMemory>
    ensures { OnOk result (map.new.entries ≡ put_writes (transactions.version_of t.now) map.old.entries t.now.writes) }
{
    let view = t.view();
    put_view(alloc, map, version_of(view), view)
}

/// The writes of a transaction, as those of a version.
fn put_view(
    alloc: Global,
    map: &mut BTreeMap<Bytes, Latest>,
    version: Version,
    view: TransactionView<'_>,
) -> Result<(), NoMemory>
    ensures { OnOk result (map.new.entries ≡ put_writes version map.old.entries (transaction_of view.entry).writes) }
{
    for item in view.writes() {
        put_write(alloc, map, version, &item)?;
    }
    Ok(())
}

/// A write gives its key a version, and a value unless it deletes.
fn put_write(
    alloc: Global,
    map: &mut BTreeMap<Bytes, Latest>,
    version: Version,
    item: &WriteItem<'_>,
) -> Result<(), NoMemory>
    ensures { OnOk result (map.new.entries ≡ insert_entry (slice_cmp nat_cmp) map.old.entries (write_of item.now).key
        (latest_of version (write_of item.now))) }
{
    let key = Bytes::copy_of(alloc, item.key)?;
    let value = if item.deletes {
        None
    } else {
        Some(Bytes::copy_of(alloc, item.value)?)
    };
    map.insert(key, Latest { version, value })?;
    Ok(())
}

fn pair_of(alloc: Global, key: Bytes, latest: Latest) -> Pair
    ensures { result ≡ pair key latest.version latest.value }
{
    let Latest { version, value } = latest;
    match value {
        Some(value) => Pair {
            key,
            writer: version,
            value,
            deleted: false,
        },
        None => Pair {
            key,
            writer: version,
            value: Bytes::from_vec(Vec::new(alloc)),
            deleted: true,
        },
    }
}

fn pairs_in(alloc: Global, map: BTreeMap<Bytes, Latest>) -> Result<Vec<Pair>, NoMemory>
    ensures { IfOk result (λ pairs. pairs.items ≡ pairs_of map.entries) }
{
    let mut pairs = Vec::new(alloc);
    let mut rest = map;
    'keys: while let Some((key, latest)) = rest.pop_first() {
        pairs.push(pair_of(alloc, key, latest))?;
    }
    Ok(pairs)
}
