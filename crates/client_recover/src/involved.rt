//! The shards of a transaction's keys, as a list.

ghost use Rattle.std.specs.Prelude.{◌≡◌};
ghost use Rattle.basil_types.specs.Shown.{transaction_of};
ghost use Rattle.txn_meta.specs.Places as places;

use basil_types::cluster::Cluster;
use basil_types::transaction::TransactionView;
use std::marker::Model;
use txn_meta::shards::involved;

/// The involved shards of a transaction, ascending.
#[derive(Drop)]
pub struct Involved {
    shards: [u8; 8],
    count: usize,
}

impl Model for Involved {
    ghost use Rattle.std.specs.Prelude.{List, ℕ, take, ◌≤◌};

    ghost Value = { List ℕ };

    ghost view = { λ i. take i.count i.shards };

    ghost invariant = { λ i. i.count ≤ 8 };
}

impl Involved {
    /// The shards of the transaction's keys. Takes no memory.
    pub(crate) fn of(t: TransactionView<'_>, cluster: &Cluster) -> Involved
        ensures { result ≡ places.involved cluster.now (transaction_of t.entry) }
    {
        let marks = involved(t, cluster);
        let mut shards = [0u8; 8];
        let mut count = 0usize;
        for shard in 0..8u8 {
            if marks.has(shard) {
                shards[count] = shard;
                count += 1;
            }
        }
        Involved { shards, count }
    }

    /// The shards.
    pub(crate) fn as_slice(&self) -> &[u8]
        ensures { result.now ≡ self.now }
    {
        &self.shards[..self.count]
    }
}
