//! The journal of one replica.

ghost use Rattle.std.specs.Prelude.{◌≡◌, ◌<◌};
ghost use Rattle.quorum_laws.specs.Numbers.{replicas};
ghost use Rattle.replica_core.specs.Shown.{own};

use crate::took::{Took, fullness};
use basil_types::cluster::Cluster;
use basil_types::memory::NoMemory;
use basil_types::party::Party;
use journal_disk::memory::MemDisk;
use keyring::signer::Signer;
use keyring::verifier::Verifier;
use node_journal::{JOURNAL_BYTES, Journaled, StepFault};
use node_steps::pending::outbox;
use std::alloc::Global;

/// Bytes of a record beside its frame: its length, the moment and the sender, and the gate behind it.
const RECORD_BYTES: u64 = 16;

/// The journal of a replica, in memory: a replica beside those of the run, which takes what it takes and writes that
/// down.
#[derive(Drop)]
pub struct RunJournal<V: Verifier, S: Signer> {
    pub(crate) cluster: Cluster,
    pub(crate) shard: u8,
    pub(crate) index: u8,
    pub(crate) alloc: Global,
    pub(crate) journaled: Journaled<V, S, MemDisk>,
    ghost shards: { shard < cluster.shards },
    ghost replicas: { index < replicas cluster.f },
    ghost cluster_is: { (own journaled.replica).home.cluster ≡ cluster },
    ghost shard_is: { (own journaled.replica).home.shard ≡ shard },
    ghost index_is: { (own journaled.replica).index ≡ index },
}

impl<V: Verifier, S: Signer> RunJournal<V, S> {
    ghost use Rattle.std.specs.Prelude.{◌≢◌, IfOk, IsErr, OnOk, Option, Result, length};
    ghost use Rattle.journal_disk.specs.Foreseen.{Foreseen};
    ghost use Rattle.node_journal.specs.declared.fault.StepFault.TheVariants as faults;
    ghost use Rattle.node_journal.specs.Steps.{IsFaulted, handed};
    ghost use Rattle.node_steps.specs.Pens.{PenValue};
    ghost use Rattle.replica_core.specs.declared.refusal.Refusal.{Refusal};
    ghost use Rattle.replica_core.specs.Replicas.{Done, ReplicaSelf};
    ghost use Rattle.replica_laws.specs.Steps.{Handed};
    ghost use Rattle.run_journals.specs.declared.took.Took.TheVariants as tooks;
    ghost use Rattle.run_journals.specs.Journals as journals;
    ghost use Rattle.run_journals.specs.Journals.{JournalValue, after_take, fullness, took_next, took_of};
    ghost use Rattle.run_journals.specs.Kept.{HoldsJournal, IsGoing, IsJournal, at_place};

    /// The replica takes a frame that this sender sent, at this moment, and writes it down; unless it refuses the
    /// frame, or the journal would be too long.
    pub fn take(&mut self, now: u64, from: Party, frame: &[u8]) -> Result<Took, NoMemory>
        ensures took { (me : ReplicaSelf) (begun : PenValue) (value : JournalValue) →
            IsJournal me begun self.old value →
            IfOk result (λ took. took ≡ took_next me begun value (handed now from frame.now)) }
        ensures journal { (me : ReplicaSelf) (begun : PenValue) (value : JournalValue) →
            IsJournal me begun self.old value →
            IfOk result (λ took. IsJournal me begun self.new (after_take value (handed now from frame.now) took)) }
        ensures shard { self.new.shard ≡ self.old.shard }
        ensures index { self.new.index ≡ self.old.index }
    {
        let mut sent = outbox(self.alloc);
        let stepped = self.journaled.step(now, from, frame, &mut sent);
        drop(sent);
        match stepped {
            Ok(()) => Ok(Took::Taken),
            // A disk of which no call is listed, and that awaits no stop, fails for want of memory alone.
            Err(fault) => self.untaken(fault),
        }
    }

    /// What a frame comes to that isn't taken. Where the disk failed, memory was wanting.
    pub(crate) fn untaken(&self, fault: StepFault) -> Result<Took, NoMemory>
        ensures took { (me : ReplicaSelf) (begun : PenValue) (awaits : Option Foreseen) (value : JournalValue)
            (h : Handed) (answered : Result Done Refusal) → IsGoing me begun self.now.journaled awaits value →
            IsFaulted value.taken h fault answered → IfOk result (λ took. took ≡ took_of value h answered) }
        ensures untaken { IfOk result (λ took. took ≢ tooks.Taken) }
        ensures disk { fault ≡ faults.DiskFault → IsErr result }
    {
        match fault {
            StepFault::Refused(_) => Ok(Took::Refused),
            StepFault::Full => Ok(Took::Full {
                records: self.journaled.records(),
                bytes: self.journaled.bytes(),
            }),
            StepFault::Closed | StepFault::DiskFault | StepFault::NoMemory => Err(NoMemory),
        }
    }

    /// Whether the journal would be too long with the record of a frame of so many bytes.
    fn is_full_for(&self, count: usize) -> bool
        ensures { (me : ReplicaSelf) (begun : PenValue) (value : JournalValue) (h : Handed) →
            IsJournal me begun self.now value → count ≡ length h.frame → result ≡ journals.is_full_for value h }
    {
        let room = JOURNAL_BYTES.saturating_sub(self.journaled.bytes());
        room < RECORD_BYTES || room - RECORD_BYTES < count as u64
    }

    /// Its records and bytes, where the replica would take this frame but it would be too long with its record. Nothing
    /// changes.
    pub fn finds_full(
        &mut self,
        now: u64,
        from: Party,
        frame: &[u8],
    ) -> Result<Option<(u64, u64)>, NoMemory>
        ensures full { (me : ReplicaSelf) (begun : PenValue) (value : JournalValue) →
            IsJournal me begun self.old value →
            IfOk result (λ full. full ≡ fullness (took_next me begun value (handed now from frame.now))) }
        ensures journal { (me : ReplicaSelf) (begun : PenValue) (value : JournalValue) →
            IsJournal me begun self.old value → OnOk result (IsJournal me begun self.new value) }
        ensures shard { self.new.shard ≡ self.old.shard }
        ensures index { self.new.index ≡ self.old.index }
    {
        if !self.is_full_for(frame.len()) {
            return Ok(None);
        }
        match self.take(now, from, frame) {
            Ok(took) => Ok(fullness(took)),
            Err(wanting) => Err(wanting),
        }
    }

    /// Its disk.
    pub fn disk(&self) -> &MemDisk
        ensures { (me : ReplicaSelf) (begun : PenValue) (value : JournalValue) → IsJournal me begun self.now value →
            HoldsJournal result.now value }
    {
        self.journaled.disk()
    }

    /// Whether it is that of the replica of this index of this shard.
    pub fn is_at(&self, shard: u8, index: u8) -> bool
        ensures { result ≡ at_place shard index self.now }
    {
        self.shard == shard && self.index == index
    }
}

impl<V: Verifier + Drop, S: Signer + Drop> RunJournal<V, S> {
    ghost use Rattle.std.specs.Prelude.{IfOk};
    ghost use Rattle.basil_types.specs.declared.party.Party.TheVariants as parties;
    ghost use Rattle.node_journal.specs.Opening.{self_in};
    ghost use Rattle.node_steps.specs.Pens.{pen_value};
    ghost use Rattle.run_journals.specs.Journals.{fresh};
    ghost use Rattle.run_journals.specs.Kept.{IsJournal};

    /// The journal of a replica of this index of a shard of the cluster, before its first frame.
    pub fn begin(
        alloc: Global,
        cluster: Cluster,
        shard: u8,
        index: u8,
        keys: V,
        signer: S,
    ) -> Result<RunJournal<V, S>, NoMemory>
        requires shard { shard < cluster.shards }
        requires index { index < replicas cluster.f }
        requires party { (S.fixed signer).party ≡ parties.Replica shard index }
        ensures { IfOk result (λ journal.
            IsJournal (self_in cluster shard index (V.accepted keys) (S.fixed signer))
            (pen_value (S.spent signer) (S.left_of signer)) journal (fresh shard index)) }
    {
        match Journaled::create(
            alloc,
            MemDisk::new(alloc),
            cluster,
            shard,
            index,
            keys,
            signer,
        ) {
            Ok(journaled) => Ok(RunJournal {
                cluster,
                shard,
                index,
                alloc,
                journaled,
            }),
            // On a disk without a byte, of which no call is listed, memory alone may be wanting.
            Err(_refused) => Err(NoMemory),
        }
    }
}
