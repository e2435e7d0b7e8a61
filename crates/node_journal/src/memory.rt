//! A replica whose disk is in memory: it stops, and starts again.

ghost use Rattle.std.specs.Prelude.{◌≡◌, ◌<◌, List, ℕ, false, true, OnErr, OnOk, MatchResult, length};
ghost use Rattle.basil_types.specs.declared.party.Party.TheVariants as parties;
ghost use Rattle.journal_disk.specs.Memory.{goes_on, stops_in};
ghost use Rattle.node_steps.specs.Pens.{PenValue, pen_value};
ghost use Rattle.quorum_laws.specs.Numbers.{replicas};
ghost use Rattle.replica_core.specs.Shown.{own};
ghost use Rattle.replica_laws.specs.Steps.{Handed};
ghost use Rattle.node_journal.specs.Journals.{Keeps};
ghost use Rattle.node_journal.specs.Opening.{HasRisen, IsAt, IsBad, IsBadAt, IsNotBad, self_in};
ghost use Rattle.node_journal.specs.Replicas.{Reflects};

use crate::fault::{JournalFault, Refused};
use crate::journaled::Journaled;
use basil_types::bytes::Bytes;
use basil_types::cluster::Cluster;
use journal_disk::memory::MemDisk;
use keyring::signer::Signer;
use keyring::verifier::Verifier;
use std::mem;

impl<V: Verifier + Drop, S: Signer + Drop> Journaled<V, S, MemDisk> {
    /// The disk will stop within a write from now on, counted from 1, and leave these bytes in the written range,
    /// repeated from the front. A stop that still awaits is given up for this one.
    pub fn stop_in(&mut self, write: u64, bytes: Bytes)
        requires write { 0 < write }
        requires bytes { 0 < length bytes }
        ensures disk { self.new.disk ≡ stops_in write bytes self.old.disk }
        ensures reflects { (begun : PenValue) (hs : List Handed) → Reflects self.old begun hs →
            Reflects self.new begun hs }
        ensures replica { self.new.replica ≡ self.old.replica }
        ensures closed { self.new.closed ≡ self.old.closed }
    {
        self.disk.stop_in(write, bytes);
    }

    /// Starts again, as the replica of this index of a shard of the cluster: the disk is as the stop left it, or as it
    /// reads if it didn't stop, and is opened. After a fault the disk holds what it held, and the replica is closed.
    pub fn start_again(
        &mut self,
        cluster: Cluster,
        shard: u8,
        index: u8,
        keys: V,
        signer: S,
    ) -> Result<(), JournalFault>
        requires shard { shard < cluster.shards }
        requires index { index < replicas cluster.f }
        requires party { (S.fixed signer).party ≡ parties.Replica shard index }
        ensures good { (hs : List Handed) → let begun = pen_value (S.spent signer) (S.left_of signer) in
            Keeps (self_in cluster shard index (V.accepted keys) (S.fixed signer)) begun hs
            self.old.disk.disk.contents → MatchResult result (λ _. Reflects self.new begun hs) IsNotBad }
        ensures bad { (place : ℕ) → let begun = pen_value (S.spent signer) (S.left_of signer) in
            IsBadAt (self_in cluster shard index (V.accepted keys) (S.fixed signer)) begun
            self.old.disk.disk.contents place → MatchResult result (λ _. ⊥) (IsAt place) }
        ensures found { let begun = pen_value (S.spent signer) (S.left_of signer) in
            let me = self_in cluster shard index (V.accepted keys) (S.fixed signer) in
            MatchResult result (λ _. (hs : List Handed) × Keeps me begun hs self.old.disk.disk.contents)
            (IsBad me begun self.old.disk.disk.contents) }
        ensures own { OnOk result
            (own self.new.replica ≡ self_in cluster shard index (V.accepted keys) (S.fixed signer)) }
        ensures as_before { OnErr result (self.new.replica ≡ self.old.replica) }
        ensures closed { MatchResult result (λ _. self.new.closed ≡ false) (λ _. self.new.closed ≡ true) }
        ensures contents { self.new.disk.disk.contents ≡ self.old.disk.disk.contents }
        ensures stops { self.new.disk.stops ≡ goes_on self.old.disk.stops }
        ensures faults { MatchResult result (λ _. self.new.disk.calls.faults ≡ self.old.disk.calls.faults)
            (λ fault. HasRisen fault self.old.disk.calls.faults self.new.disk.calls.faults) }
    {
        let alloc = self.alloc;
        let disk = mem::replace(&mut self.disk, MemDisk::new(alloc)).revive();
        match Journaled::open(alloc, disk, cluster, shard, index, keys, signer) {
            Ok(journaled) => {
                *self = journaled;
                Ok(())
            }
            Err(Refused { disk, fault }) => {
                self.disk = disk;
                self.closed = true;
                Err(fault)
            }
        }
    }
}
