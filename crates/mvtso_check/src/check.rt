//! The verdict (Basil, multiversion timestamp ordering check).

ghost use Rattle.std.specs.Prelude.{◌≡◌, ◌+◌, ◌||◌, List, nat_lt};
ghost use Rattle.basil_types.specs.Shown.{transaction_of};
ghost use Rattle.mv_store.specs.Held.{Held, NotedRead};
ghost use Rattle.mv_store.specs.Store.{Stands};
ghost use Rattle.mvtso_check.specs.Book.{held_in};
ghost use Rattle.mvtso_check.specs.Verdict as rules;

use crate::crossings::{conflicting, is_read_later};
use crate::dependencies::{has_broken, has_open};
use crate::verdict::Verdict;
use basil_types::cluster::Cluster;
use basil_types::transaction::TransactionView;
use mv_store::store::Store;
use txn_table::released::Home;
use txn_table::table::Table;

/// What the replica of this shard votes at a moment on a transaction that it has no vote on. The store stands for the
/// prepared and committed transactions of the table, and for the noted reads. Only keys of the shard count.
///
/// It aborts where the transaction's time is more than the cluster's delta above the moment; where a dependency isn't
/// known, is aborted or doesn't write the key at the version that was read; where a prepared or committed transaction
/// wrote a key between the version that was read and the transaction, or read, above the transaction, a key that this
/// one writes, at a version below it; or where a read of a key that it writes is noted above it. Otherwise it waits
/// while a dependency has no outcome, and else commits. Takes no memory.
pub fn check(
    store: &Store,
    table: &Table,
    cluster: &Cluster,
    shard: u8,
    now: u64,
    t: TransactionView<'_>,
) -> Verdict
    ensures { (noted : List NotedRead) → Stands store.now (held_in table.now.entries) noted
        → result ≡ rules.verdict (record { cluster = cluster.now; shard = shard }) now
        (record { entries = table.now.entries; noted = noted }) (transaction_of t.entry) }
{
    let home = Home {
        cluster: *cluster,
        shard,
    };
    let conflicts = conflicting(store, &home, t);
    if must_abort(store, table, &home, now, t, conflicts.any) {
        aborted_by(conflicts.committed)
    } else if has_open(table, &home, t) {
        Verdict::Wait
    } else {
        Verdict::Commit
    }
}

/// Whether a rule aborts the transaction, where it is known whether a prepared or committed one conflicts with it.
fn must_abort(
    store: &Store,
    table: &Table,
    home: &Home,
    now: u64,
    t: TransactionView<'_>,
    crossed: bool,
) -> bool
    ensures { (held : List Held) (noted : List NotedRead) → Stands store.now held noted → result
        ≡ rules.must_abort_where home.now now (record { entries = table.now.entries; noted = noted })
        (transaction_of t.entry) crossed }
{
    is_late(t.time(), now, home.cluster.delta)
        || has_broken(table, home, t)
        || crossed
        || is_read_later(store, home, t)
}

/// The abort with this proof.
fn aborted_by(proof: Option<u32>) -> Verdict
    ensures { result ≡ rules.aborted_by proof }
{
    match proof {
        Some(place) => Verdict::AbortBy { place },
        None => Verdict::Abort,
    }
}

/// Whether a time is more than `delta` above a moment.
fn is_late(time: u64, now: u64, delta: u64) -> bool
    ensures { result ≡ nat_lt (now + delta) time }
{
    match now.checked_add(delta) {
        Some(limit) => limit < time,
        None => false,
    }
}
