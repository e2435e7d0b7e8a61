//! The shards of keys and of transactions.

ghost use Rattle.std.specs.Prelude.{◌≡◌, ℕ, ◌<◌, ◌≤◌, ◌==◌, ◌||◌, length, slice_get};
ghost use Rattle.basil_types.specs.Shown.{transaction_of};
ghost use Rattle.txn_meta.specs.Places.{involves, reads_of, writes_of, marks_of, is_marked, members};

use basil_types::cluster::Cluster;
use basil_types::transaction::TransactionView;
use std::marker::Model;

/// The shard of a key: the sum of its bytes modulo the number of shards. Takes no memory.
pub fn shard_of(key: &[u8], cluster: &Cluster) -> u8
    ensures value { result ≡ Rattle.txn_meta.specs.Places.shard_of cluster.now key.now }
    ensures in_range { result < cluster.now.shards }
{
    let shards = u16::from(cluster.shards);
    let mut sum = 0u16;
    for byte in key {
        sum = (sum + u16::from(*byte)) % shards;
    }
    sum as u8
}

/// A set of shards, each below 8.
#[derive(Clone, Copy)]
pub struct Shards {
    marks: [bool; 8],
}

impl Model for Shards {
    ghost use Rattle.std.specs.Prelude.{List, Bool};

    ghost Value = { List Bool };

    ghost view = { λ s. s.marks };

    ghost inverse = { λ marks. record { marks = marks } };
}

/// The shards of a transaction's keys. Takes no memory.
pub fn involved(t: TransactionView<'_>, cluster: &Cluster) -> Shards
    ensures { result ≡ marks_of cluster.now (transaction_of t.entry) }
{
    let _ = cluster.n();
    let mut marks = [false; 8];
    mark_reads(&mut marks, t, cluster);
    mark_writes(&mut marks, t, cluster);
    Shards { marks }
}

/// Marks the shards of the keys that the transaction read.
fn mark_reads(marks: &mut [bool; 8], t: TransactionView<'_>, cluster: &Cluster)
    ensures { (shard : ℕ) → is_marked marks.new shard
        ≡ (reads_of cluster.now (transaction_of t.entry) shard || is_marked marks.old shard) }
{
    let _ = cluster.n();
    for item in t.reads() {
        mark(marks, shard_of(item.key, cluster));
    }
}

/// Marks the shards of the keys that the transaction wrote or deleted.
fn mark_writes(marks: &mut [bool; 8], t: TransactionView<'_>, cluster: &Cluster)
    ensures { (shard : ℕ) → is_marked marks.new shard
        ≡ (writes_of cluster.now (transaction_of t.entry) shard || is_marked marks.old shard) }
{
    let _ = cluster.n();
    for item in t.writes() {
        mark(marks, shard_of(item.key, cluster));
    }
}

/// Marks a shard.
fn mark(marks: &mut [bool; 8], marked: u8)
    requires { marked < 8 }
    ensures { (shard : ℕ) → is_marked marks.new shard ≡ (marked == shard || is_marked marks.old shard) }
{
    marks[marked as usize] = true;
}

impl Shards {
    /// Whether this shard is in the set.
    pub fn has(&self, shard: u8) -> bool
        ensures { result ≡ is_marked self.now shard }
    {
        match self.marks.get(shard as usize) {
            Some(mark) => *mark,
            None => false,
        }
    }

    /// The shard at a place of the set, ascending, from 0. None exactly past its end.
    pub fn nth(&self, place: u8) -> Option<u8>
        ensures { result ≡ slice_get (members self.now) place }
    {
        let mut before = 0u8;
        for (shard, mark) in self.marks.iter().enumerate() {
            if *mark {
                if before == place {
                    return Some(shard as u8);
                }
                before += 1;
            }
        }
        None
    }

    /// How many shards are in the set, at most 8.
    pub(crate) fn count(&self) -> u8
        ensures value { result ≡ length (members self.now) }
        ensures few { result ≤ 8 }
    {
        let mut count = 0u8;
        for mark in self.marks {
            if mark {
                count += 1;
            }
        }
        count
    }
}

/// Whether a read or written key of the transaction is of this shard. Takes no memory.
pub fn is_involved(t: TransactionView<'_>, cluster: &Cluster, shard: u8) -> bool
    ensures { result ≡ involves cluster.now (transaction_of t.entry) shard }
{
    reads_at(t, cluster, shard) || writes_at(t, cluster, shard)
}

/// Whether a read key of the transaction is of this shard.
fn reads_at(t: TransactionView<'_>, cluster: &Cluster, shard: u8) -> bool
    ensures { result ≡ reads_of cluster.now (transaction_of t.entry) shard }
{
    for item in t.reads() {
        if shard_of(item.key, cluster) == shard {
            return true;
        }
    }
    false
}

/// Whether a written or deleted key of the transaction is of this shard.
fn writes_at(t: TransactionView<'_>, cluster: &Cluster, shard: u8) -> bool
    ensures { result ≡ writes_of cluster.now (transaction_of t.entry) shard }
{
    for item in t.writes() {
        if shard_of(item.key, cluster) == shard {
            return true;
        }
    }
    false
}
