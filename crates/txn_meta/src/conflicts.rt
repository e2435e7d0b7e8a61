//! Which transactions conflict (Basil, multiversion timestamp ordering check).

ghost use Rattle.std.specs.Prelude.{◌≡◌, ◌&&◌};
ghost use Rattle.basil_types.specs.Version.{is_between};
ghost use Rattle.basil_types.specs.Shown.{transaction_of, read_of};
ghost use Rattle.basil_types.specs.Transaction as transactions;
ghost use Rattle.basil_types.specs.Transaction.{version_of};
ghost use Rattle.basil_types.specs.declared.transaction.lists.WritesIter.{WritesIter};
ghost use Rattle.txn_meta.specs.Conflicts as conflicts;
ghost use Rattle.txn_meta.specs.Merging.{ahead, from_key, begins_at};
ghost use Rattle.txn_meta.specs.Conflicts.{ConflictIsSymmetric, NoConflictWithItself};
ghost use Rattle.txn_meta.specs.Conflicts.{ShardConflicts, ConflictsAreOfShards};

use crate::form::version_of;
use crate::shards::shard_of;
use basil_types::cluster::Cluster;
use basil_types::transaction::parts::{ReadItem, WriteItem};
use basil_types::transaction::{TransactionView, WritesIter};
use basil_types::version::Version;

/// Whether two transactions conflict: they differ, and some read of the one is crossed by a write or a deletion of the
/// other, at a version above the one that was read and below the reader's own. Takes no memory.
pub fn conflict(t: TransactionView<'_>, u: TransactionView<'_>) -> bool
    ensures { result ≡ conflicts.conflict (transaction_of t.entry) (transaction_of u.entry) }
{
    if t.bytes() == u.bytes() {
        return false;
    }
    let first = version_of(t);
    let second = version_of(u);
    is_crossed(t, &first, u, &second) || is_crossed(u, &second, t, &first)
}

/// Whether two transactions conflict on the keys of one shard. Takes no memory.
pub fn conflict_in(
    t: TransactionView<'_>,
    u: TransactionView<'_>,
    cluster: &Cluster,
    shard: u8,
) -> bool
    ensures { result ≡ conflicts.conflict_in cluster.now shard (transaction_of t.entry) (transaction_of u.entry) }
{
    let first = version_of(t);
    let second = version_of(u);
    is_crossed_in(cluster, shard, t, &first, u, &second)
        || is_crossed_in(cluster, shard, u, &second, t, &first)
}

/// Whether the transaction wrote or deleted this key. Takes no memory.
pub fn writes_key(t: TransactionView<'_>, key: &[u8]) -> bool
    ensures { result ≡ transactions.writes_key (transaction_of t.entry) key.now }
{
    for item in t.writes() {
        if item.key == key {
            return true;
        }
    }
    false
}

/// Whether some read of the reader is crossed by the writer, at these versions of theirs: one walk along both lists,
/// whose keys ascend.
fn is_crossed(
    reader: TransactionView<'_>,
    own: &Version,
    writer: TransactionView<'_>,
    written: &Version,
) -> bool
    requires own { own.now ≡ version_of (transaction_of reader) }
    requires written { written.now ≡ version_of (transaction_of writer) }
    ensures { result ≡ conflicts.is_crossed (transaction_of reader.entry) (transaction_of writer.entry) }
{
    let mut writes = writer.writes();
    let mut next = writes.next();
    for item in reader.reads() {
        next = passed(item.key, next, &mut writes);
        if meets(next, item, own, written) {
            return true;
        }
    }
    false
}

/// Passes over the writes of lower keys, and gives the next one.
fn passed<'a>(
    key: &[u8],
    next: Option<WriteItem<'a>>,
    writes: &mut WritesIter<'a>,
) -> Option<WriteItem<'a>>
    ensures { ahead result writes.new ≡ from_key key.now (ahead next.entry writes.old) }
{
    let mut found = next;
    while let Some(write) = found {
        if !write.key.cmp(key).is_lt() {
            return found;
        }
        found = writes.next();
    }
    None
}

/// Whether the next write is of the key that was read, and stands between the version that was read and the reader's
/// own.
fn meets(next: Option<WriteItem<'_>>, item: ReadItem<'_>, own: &Version, written: &Version) -> bool
    ensures { (writes : WritesIter) → result ≡ (begins_at (read_of item.entry).key (ahead next.entry writes)
        && is_between (read_of item.entry).version written.now own.now) }
{
    match next {
        Some(write) => write.key == item.key && written.is_between(&item.version, own),
        None => false,
    }
}

/// The same of the reads of keys of one shard.
fn is_crossed_in(
    cluster: &Cluster,
    shard: u8,
    reader: TransactionView<'_>,
    own: &Version,
    writer: TransactionView<'_>,
    written: &Version,
) -> bool
    requires own { own.now ≡ version_of (transaction_of reader) }
    requires written { written.now ≡ version_of (transaction_of writer) }
    ensures { result ≡ conflicts.is_crossed_in cluster.now shard
        (transaction_of reader.entry) (transaction_of writer.entry) }
{
    for item in reader.reads() {
        if shard_of(item.key, cluster) == shard && crosses(item, own, writer, written) {
            return true;
        }
    }
    false
}

/// Whether this read of a transaction at one version is crossed by the writer at the other.
fn crosses(
    item: ReadItem<'_>,
    own: &Version,
    writer: TransactionView<'_>,
    written: &Version,
) -> bool
    ensures { result ≡ (transactions.writes_key (transaction_of writer.entry) (read_of item.entry).key
        && is_between (read_of item.entry).version written.now own.now) }
{
    if written.is_between(&item.version, own) {
        writes_key(writer, item.key)
    } else {
        false
    }
}

/// Conflict is symmetric.
pub fn conflict_is_symmetric()
    ensures { ConflictIsSymmetric }
{}

/// No transaction conflicts with itself.
pub fn no_conflict_with_itself()
    ensures { NoConflictWithItself }
{}

/// Conflict on the keys of one shard is symmetric, never of a transaction with itself, and only on an involved shard.
pub fn shard_conflicts()
    ensures { ShardConflicts }
{}

/// Two transactions conflict exactly where they do on the keys of some shard.
pub fn conflicts_are_of_shards()
    ensures { ConflictsAreOfShards }
{}
