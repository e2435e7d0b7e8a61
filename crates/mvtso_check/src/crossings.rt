//! Which entered transactions conflict with a transaction on keys of the shard.

ghost use Rattle.std.specs.Prelude.{◌≡◌, List};
ghost use Rattle.std.specs.List.{list_any};
ghost use Rattle.basil_types.specs.Shown.{transaction_of, read_of, write_of};
ghost use Rattle.basil_types.specs.Transaction.{version_of};
ghost use Rattle.mv_store.specs.Held as held_values;
ghost use Rattle.mv_store.specs.Held.{Held, NotedRead};
ghost use Rattle.mv_store.specs.Store.{Stands};
ghost use Rattle.mvtso_check.specs.Crossings as crossings;
ghost use Rattle.txn_meta.specs.Conflicts.{conflict_in, is_crossed_in, crosses_in};
ghost use Rattle.mvtso_check.specs.Verdict as rules;

use basil_types::transaction::TransactionView;
use basil_types::transaction::parts::{ReadItem, WriteItem};
use basil_types::version::Version;
use mv_store::hits::Hits;
use mv_store::store::Store;
use txn_meta::form::version_of;
use txn_meta::shards::shard_of;
use txn_table::released::Home;

/// The entered transactions that conflict with this one on a key of the shard.
pub(crate) fn conflicting(store: &Store, home: &Home, t: TransactionView<'_>) -> Hits
    ensures { (held : List Held) (noted : List NotedRead) → Stands store.now held noted → result
        ≡ held_values.hits (λ h. conflict_in home.now.cluster home.now.shard (transaction_of t.entry) h.transaction)
        held }
{
    let version = version_of(t);
    between_reads(store, home, t, &version).join(across_writes(store, home, t, &version))
}

/// Those that write a key of the shard between the version that the transaction read and its own.
fn between_reads(store: &Store, home: &Home, t: TransactionView<'_>, version: &Version) -> Hits
    requires { version.now ≡ version_of (transaction_of t) }
    ensures { (held : List Held) (noted : List NotedRead) → Stands store.now held noted → result
        ≡ held_values.hits (λ h. is_crossed_in home.now.cluster home.now.shard (transaction_of t.entry) h.transaction)
        held }
{
    let _ = t.bytes();
    let mut found = Hits::none();
    for place in 0..32usize {
        let Some(item) = t.read_at(place) else {
            return found;
        };
        let hits = between_read(store, home, t, version, item);
        found = found.join(hits);
    }
    found
}

/// Those that write the read's key, if it is of the shard, between the version that was read and the transaction's own.
fn between_read(
    store: &Store,
    home: &Home,
    t: TransactionView<'_>,
    version: &Version,
    item: ReadItem<'_>,
) -> Hits
    requires { version.now ≡ version_of (transaction_of t) }
    ensures { (held : List Held) (noted : List NotedRead) → Stands store.now held noted → result
        ≡ held_values.hits (λ h. crosses_in home.now.cluster home.now.shard h.transaction (transaction_of t.entry)
        (read_of item.entry)) held }
{
    if is_own(home, item.key) {
        store.writer_between(item.key, &item.version, version)
    } else {
        Hits::none()
    }
}

/// Those above that read, below the transaction, a key of the shard that it writes.
fn across_writes(store: &Store, home: &Home, t: TransactionView<'_>, version: &Version) -> Hits
    requires { version.now ≡ version_of (transaction_of t) }
    ensures { (held : List Held) (noted : List NotedRead) → Stands store.now held noted → result
        ≡ held_values.hits (λ h. crossings.writes_under home.now (transaction_of t.entry) h.transaction) held }
{
    let _ = t.bytes();
    let mut found = Hits::none();
    for place in 0..32usize {
        let Some(item) = t.write_at(place) else {
            return found;
        };
        let hits = across_write(store, home, t, version, item);
        found = found.join(hits);
    }
    found
}

/// Those above that read the written key, if it is of the shard, below the transaction.
fn across_write(
    store: &Store,
    home: &Home,
    t: TransactionView<'_>,
    version: &Version,
    item: WriteItem<'_>,
) -> Hits
    requires { version.now ≡ version_of (transaction_of t) }
    ensures { (held : List Held) (noted : List NotedRead) → Stands store.now held noted → result
        ≡ held_values.hits (λ h. crossings.is_write_under home.now (transaction_of t.entry) h.transaction
        (write_of item.entry)) held }
{
    if is_own(home, item.key) {
        store.reader_across(item.key, version)
    } else {
        Hits::none()
    }
}

/// Whether a read of a key of the shard that the transaction writes is noted above it.
pub(crate) fn is_read_later(store: &Store, home: &Home, t: TransactionView<'_>) -> bool
    ensures { (held : List Held) (noted : List NotedRead) → Stands store.now held noted → result
        ≡ list_any (rules.is_noted_above home.now noted (transaction_of t.entry)) (transaction_of t.entry).writes }
{
    let _ = t.bytes();
    for place in 0..32usize {
        let Some(item) = t.write_at(place) else {
            return false;
        };
        if is_noted_above(store, home, t, item) {
            return true;
        }
    }
    false
}

/// Whether a read of the written key, if it is of the shard, is noted above the transaction.
fn is_noted_above(store: &Store, home: &Home, t: TransactionView<'_>, item: WriteItem<'_>) -> bool
    ensures { (held : List Held) (noted : List NotedRead) → Stands store.now held noted
        → result ≡ rules.is_noted_above home.now noted (transaction_of t.entry) (write_of item.entry) }
{
    is_own(home, item.key) && store.read_above(item.key, t.time(), t.client())
}

/// Whether a key is of the replica's own shard.
fn is_own(home: &Home, key: &[u8]) -> bool
    ensures { result ≡ rules.is_own home.now key.now }
{
    shard_of(key, &home.cluster) == home.shard
}
