//! Where a transaction's decision is logged, and who leads there (Basil, second stage and fallback).

ghost use Rattle.std.specs.Prelude.{◌≡◌, ◌<◌, true, false};
ghost use Rattle.quorum_laws.specs.Numbers.{replicas};
ghost use Rattle.basil_types.specs.Shown.{transaction_of};
ghost use Rattle.txn_meta.specs.Form.{is_empty};
ghost use Rattle.txn_meta.specs.Places.{involves};

use crate::shards::involved;
use basil_types::cluster::Cluster;
use basil_types::transaction::TransactionView;

/// The shard that logs the decision of a transaction that isn't empty: with the involved shards ascending, the one at
/// the place of the transaction's time modulo their number. Takes no memory.
pub fn log_shard(t: TransactionView<'_>, cluster: &Cluster) -> u8
    requires { is_empty (transaction_of t) ≡ false }
    ensures value { result ≡ Rattle.txn_meta.specs.Places.log_shard cluster.now (transaction_of t.entry) }
    ensures involved { involves cluster.now (transaction_of t.entry) result ≡ true }
    ensures in_range { result < cluster.now.shards }
{
    let shards = involved(t, cluster);
    let _ = cluster.n();
    let place = t.time() % u64::from(shards.count());
    match shards.nth(place as u8) {
        Some(shard) => shard,
        None => unreachable!(),
    }
}

/// The replica of the log shard that leads a view of a transaction of this time: their sum, which may pass 2^64, modulo
/// the number of replicas. Takes no memory.
pub fn leader_of(time: u64, view: u64, cluster: &Cluster) -> u8
    ensures value { result ≡ Rattle.txn_meta.specs.Places.leader_of cluster.now time view }
    ensures in_range { result < replicas cluster.now.f }
{
    let n = u64::from(cluster.n());
    ((time % n + view % n) % n) as u8
}
