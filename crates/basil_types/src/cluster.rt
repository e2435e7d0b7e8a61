//! A cluster and its numbers (Basil, system model).

ghost use Rattle.std.specs.Prelude.{◌≡◌, ◌+◌, ◌*◌, ◌≤◌, OnOk, IfOk, IfErr, None, Some};
ghost use Rattle.basil_types.specs.Cluster.{cluster_fault, IsCluster};
ghost use Rattle.quorum_laws.specs.Numbers as numbers;

use std::marker::Model;

/// A cluster: `shards` shards of 5f + 1 replicas, of which at most `f` of each shard are faulty; a read waits for
/// `reads` replies; a transaction's time may be at most `delta` above a replica's moment.
/// Every value of this type is in range.
#[derive(Clone, Copy)]
pub struct Cluster {
    pub f: u8,
    pub shards: u8,
    pub reads: u8,
    pub delta: u64,
}

impl Model for Cluster {
    ghost use Rattle.basil_types.specs.Setting.{Setting, IsSetting};

    ghost Value = { Setting };

    ghost view = { λ c. record { f = c.f; shards = c.shards; reads = c.reads; delta = c.delta } };

    ghost inverse = { λ s. record { f = s.f; shards = s.shards; reads = s.reads; delta = s.delta } };

    ghost invariant = { λ c. IsSetting (record { f = c.f; shards = c.shards; reads = c.reads; delta = c.delta }) };
}

/// Why numbers are no cluster.
#[derive(Clone, Copy, Debug, PartialEq, Eq)]
pub enum ClusterFault {
    /// `f` is above 6.
    FOutOfRange,
    /// `shards` isn't 1 to 8.
    ShardsOutOfRange,
    /// `reads` isn't f + 1 to 4f + 1.
    ReadsOutOfRange,
}

impl Cluster {
    /// The cluster of these numbers, or the first of them that is out of range.
    pub fn new(f: u8, shards: u8, reads: u8, delta: u64) -> Result<Cluster, ClusterFault>
        ensures value { IfOk result (λ c. c ≡ record { f = f; shards = shards; reads = reads; delta = delta }) }
        ensures in_range { OnOk result (cluster_fault f shards reads ≡ None) }
        ensures refused { IfErr result (λ fault. cluster_fault f shards reads ≡ Some fault) }
    {
        if f > 6 {
            return Err(ClusterFault::FOutOfRange);
        }
        if shards < 1 || shards > 8 {
            return Err(ClusterFault::ShardsOutOfRange);
        }
        if reads < f + 1 || reads > 4 * f + 1 {
            return Err(ClusterFault::ReadsOutOfRange);
        }
        Ok(Cluster {
            f,
            shards,
            reads,
            delta,
        })
    }

    /// Replicas of a shard: 5f + 1.
    pub fn n(&self) -> u8
        ensures value { result ≡ numbers.replicas self.now.f }
        ensures in_range { IsCluster self.now }
    {
        5 * self.f + 1
    }

    /// Commit votes of a shard for a fast commit: 5f + 1.
    pub fn fast_commit(&self) -> u8
        ensures { result ≡ numbers.fast_commit self.now.f }
    {
        5 * self.f + 1
    }

    /// Commit votes of a shard for a commit tally: 3f + 1.
    pub fn commit_tally(&self) -> u8
        ensures { result ≡ numbers.commit_tally self.now.f }
    {
        3 * self.f + 1
    }

    /// Abort votes of a shard for an abort tally: f + 1.
    pub fn abort_tally(&self) -> u8
        ensures { result ≡ numbers.abort_tally self.now.f }
    {
        self.f + 1
    }

    /// Abort votes of a shard for a fast abort: 3f + 1.
    pub fn fast_abort(&self) -> u8
        ensures { result ≡ numbers.fast_abort self.now.f }
    {
        3 * self.f + 1
    }

    /// Log replies for a logged certificate: 4f + 1.
    pub fn log_quorum(&self) -> u8
        ensures { result ≡ numbers.log_quorum self.now.f }
    {
        4 * self.f + 1
    }

    /// Election words that decide an election of 4f + 1: 2f + 1.
    pub fn majority(&self) -> u8
        ensures { result ≡ numbers.majority self.now.f }
    {
        2 * self.f + 1
    }
}
