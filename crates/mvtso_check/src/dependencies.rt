//! What the dependencies of a transaction on keys of the shard have come to.

ghost use Rattle.std.specs.Prelude.{◌≡◌, ◌==◌, ◌&&◌, option_map};
ghost use Rattle.std.specs.List.{list_any};
ghost use Rattle.basil_types.specs.Shown.{transaction_of, read_of};
ghost use Rattle.txn_table.specs.Entries.{decision_of};
ghost use Rattle.txn_table.specs.Shown.{entry_of};
ghost use Rattle.txn_table.specs.Released as released;
ghost use Rattle.mvtso_check.specs.Book as book;

use basil_types::party::Decision;
use basil_types::transaction::TransactionView;
use basil_types::transaction::parts::ReadItem;
use txn_meta::conflicts::writes_key;
use txn_meta::form::version_of;
use txn_meta::shards::shard_of;
use txn_table::entry::Entry;
use txn_table::released::{Home, is_dependency};
use txn_table::table::Table;

/// Whether some dependency on a key of the shard isn't known, is aborted, or is a transaction that doesn't write the
/// key at the version that was read.
pub(crate) fn has_broken(table: &Table, home: &Home, t: TransactionView<'_>) -> bool
    ensures { result ≡ list_any (λ r. released.is_dependency home.now r
        && book.is_broken table.now.entries r) (transaction_of t.entry).reads }
{
    let _ = t.bytes();
    for place in 0..32usize {
        let Some(item) = t.read_at(place) else {
            return false;
        };
        if is_broken_dependency(table, home, item) {
            return true;
        }
    }
    false
}

/// Whether some dependency on a key of the shard has no outcome.
pub(crate) fn has_open(table: &Table, home: &Home, t: TransactionView<'_>) -> bool
    ensures { result ≡ list_any (λ r. released.is_dependency home.now r
        && book.is_open table.now.entries r) (transaction_of t.entry).reads }
{
    let _ = t.bytes();
    for place in 0..32usize {
        let Some(item) = t.read_at(place) else {
            return false;
        };
        if is_open_dependency(table, home, item) {
            return true;
        }
    }
    false
}

fn is_broken_dependency(table: &Table, home: &Home, item: ReadItem<'_>) -> bool
    ensures { result ≡ (released.is_dependency home.now (read_of item.entry)
        && book.is_broken table.now.entries (read_of item.entry)) }
{
    is_dependency(&item, home) && is_broken(table, item)
}

fn is_open_dependency(table: &Table, home: &Home, item: ReadItem<'_>) -> bool
    ensures { result ≡ (released.is_dependency home.now (read_of item.entry)
        && book.is_open table.now.entries (read_of item.entry)) }
{
    is_dependency(&item, home) && is_open(table, item)
}

/// The entry of the transaction whose version was read, if it is known.
fn entry_read<'t>(table: &'t Table, item: ReadItem<'_>) -> Option<&'t Entry>
    ensures { option_map (λ e. entry_of e.now) result ≡ book.entry_read table.now.entries (read_of item.entry) }
{
    table.entry_with(&item.version.id)
}

fn is_broken(table: &Table, item: ReadItem<'_>) -> bool
    ensures { result ≡ book.is_broken table.now.entries (read_of item.entry) }
{
    match entry_read(table, item) {
        Some(entry) => is_broken_by(item, entry),
        None => true,
    }
}

fn is_open(table: &Table, item: ReadItem<'_>) -> bool
    ensures { result ≡ book.is_open table.now.entries (read_of item.entry) }
{
    match entry_read(table, item) {
        Some(entry) => entry.outcome().is_none(),
        None => true,
    }
}

/// Whether a known transaction is aborted, or doesn't write the key at the version that was read.
fn is_broken_by(item: ReadItem<'_>, entry: &Entry) -> bool
    ensures { result ≡ book.is_broken_by (read_of item.entry) (entry_of entry.now) }
{
    is_aborted(entry)
        || !writes_key(entry.view(), item.key)
        || !version_of(entry.view()).is_same(&item.version)
}

fn is_aborted(entry: &Entry) -> bool
    ensures { result ≡ released.is_aborted (decision_of (entry_of entry.now)) }
{
    match entry.outcome() {
        Some((Decision::Abort, _)) => true,
        Some((Decision::Commit, _)) | None => false,
    }
}
