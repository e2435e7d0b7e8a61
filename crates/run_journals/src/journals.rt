//! The journals of several replicas.

use crate::journal::RunJournal;
use crate::took::Took;
use basil_types::memory::NoMemory;
use basil_types::party::Party;
use journal_disk::disk::Stop;
use journal_disk::memory::MemDisk;
use keyring::signer::Signer;
use keyring::verifier::Verifier;
use std::alloc::Global;

/// The journals of several replicas, at most one of each.
#[derive(Drop)]
pub struct Journals<V: Verifier, S: Signer> {
    journals: Vec<RunJournal<V, S>>,
}

impl<V: Verifier, S: Signer> Journals<V, S> {
    ghost use Rattle.std.specs.Prelude.{◌≡◌, [], ℕ, List, IfOk, OnOk, position, option_map, is_some};
    ghost use Rattle.node_journal.specs.Steps.{handed};
    ghost use Rattle.node_steps.specs.Pens.{PenValue};
    ghost use Rattle.replica_core.specs.Replicas.{ReplicaSelf};
    ghost use Rattle.run_journals.specs.Journals.{JournalValue, after_take, fullness, journal_at, put_at, took_among};
    ghost use Rattle.run_journals.specs.Kept.{AreJournals, ShowsDisk, at_place};

    /// No journal. Takes no memory.
    pub fn new(alloc: Global) -> Journals<V, S>
        ensures { (who : ℕ → ℕ → ReplicaSelf) (begun : ℕ → ℕ → PenValue) → AreJournals who begun result [] }
    {
        Journals {
            journals: Vec::new(alloc),
        }
    }

    /// The place of the journal of a replica.
    fn place_of(&self, shard: u8, index: u8) -> Option<usize>
        ensures { result ≡ position (λ journal. at_place shard index journal) self.now.journals.items }
    {
        self.journals
            .iter()
            .position(|journal| journal.is_at(shard, index))
    }

    /// Whether a replica has a journal.
    pub fn has(&self, shard: u8, index: u8) -> bool
        ensures { (who : ℕ → ℕ → ReplicaSelf) (begun : ℕ → ℕ → PenValue) (values : List JournalValue) →
            AreJournals who begun self.now values → result ≡ is_some (journal_at values shard index) }
    {
        self.place_of(shard, index).is_some()
    }

    /// A replica takes a frame that this sender sent, at this moment, and writes it down, if it has a journal.
    pub fn take(
        &mut self,
        shard: u8,
        index: u8,
        now: u64,
        from: Party,
        frame: &[u8],
    ) -> Result<Took, NoMemory>
        ensures took { (who : ℕ → ℕ → ReplicaSelf) (begun : ℕ → ℕ → PenValue) (values : List JournalValue) →
            AreJournals who begun self.old values →
            IfOk result (λ took. took ≡ took_among who begun (journal_at values shard index)
            (handed now from frame.now)) }
        ensures journals { (who : ℕ → ℕ → ReplicaSelf) (begun : ℕ → ℕ → PenValue) (values : List JournalValue) →
            AreJournals who begun self.old values →
            IfOk result (λ took. AreJournals who begun self.new
            (put_at (λ x. after_take x (handed now from frame.now) took) (journal_at values shard index) values)) }
    {
        let Some(place) = self.place_of(shard, index) else {
            return Ok(Took::Taken);
        };
        self.journals[place].take(now, from, frame)
    }

    /// The records and bytes of a replica's journal, where the replica would take this frame but the journal would be
    /// too long with its record. Nothing changes.
    pub fn finds_full(
        &mut self,
        shard: u8,
        index: u8,
        now: u64,
        from: Party,
        frame: &[u8],
    ) -> Result<Option<(u64, u64)>, NoMemory>
        ensures full { (who : ℕ → ℕ → ReplicaSelf) (begun : ℕ → ℕ → PenValue) (values : List JournalValue) →
            AreJournals who begun self.old values →
            IfOk result (λ full. full ≡ fullness (took_among who begun (journal_at values shard index)
            (handed now from frame.now))) }
        ensures journals { (who : ℕ → ℕ → ReplicaSelf) (begun : ℕ → ℕ → PenValue) (values : List JournalValue) →
            AreJournals who begun self.old values → OnOk result (AreJournals who begun self.new values) }
    {
        let Some(place) = self.place_of(shard, index) else {
            return Ok(None);
        };
        self.journals[place].finds_full(now, from, frame)
    }

    /// The disk of a replica's journal.
    pub fn disk(&self, shard: u8, index: u8) -> Option<&MemDisk>
        ensures { (who : ℕ → ℕ → ReplicaSelf) (begun : ℕ → ℕ → PenValue) (values : List JournalValue) →
            AreJournals who begun self.now values →
            ShowsDisk (option_map (λ disk. disk.now) result) (journal_at values shard index) }
    {
        let Some(place) = self.place_of(shard, index) else {
            return None;
        };
        Some(self.journals[place].disk())
    }
}

impl<V: Verifier + Drop, S: Signer + Drop> Journals<V, S> {
    ghost use Rattle.std.specs.Prelude.{◌≡◌, ◌<◌, ◌⊎◌, ◌++◌, ◌∷◌, [], ℕ, List, IfOk, OnErr, OnOk, length};
    ghost use Rattle.basil_types.specs.declared.party.Party.TheVariants as parties;
    ghost use Rattle.node_journal.specs.Steps.{handed};
    ghost use Rattle.node_steps.specs.Pens.{PenValue, pen_value};
    ghost use Rattle.replica_core.specs.Replicas.{ReplicaSelf};
    ghost use Rattle.run_journals.specs.Journals.{JournalValue, after_stop, journal_at, put_at, took_among};
    ghost use Rattle.run_journals.specs.Kept.{AreJournals, AreOf, IsOne};

    /// One more, behind the others.
    pub fn add(&mut self, journal: RunJournal<V, S>) -> Result<(), NoMemory>
        ensures added { (who : ℕ → ℕ → ReplicaSelf) (begun : ℕ → ℕ → PenValue) (values : List JournalValue)
            (value : JournalValue) → AreJournals who begun self.old values → IsOne who begun journal value →
            OnOk result (AreJournals who begun self.new (values ++ value ∷ [])) }
        ensures as_before { OnErr result (self.new.journals.items ≡ self.old.journals.items) }
    {
        self.journals.push(journal)?;
        Ok(())
    }

    /// The disk of a replica's journal stops within the step of a frame, if the replica takes it; the replica then
    /// starts again from what the stop left, with this keyring and signer, which are as they were before its first
    /// frame.
    pub fn stop(
        &mut self,
        shard: u8,
        index: u8,
        stop: Stop,
        now: u64,
        from: Party,
        frame: &[u8],
        keys: V,
        signer: S,
    ) -> Result<Took, NoMemory>
        requires write { (stop.write ≡ 1) ⊎ (stop.write ≡ 2) }
        requires bytes { 0 < length stop.bytes }
        requires party { (S.fixed signer).party ≡ parties.Replica shard index }
        ensures took { (who : ℕ → ℕ → ReplicaSelf) (begun : ℕ → ℕ → PenValue) (values : List JournalValue) →
            AreJournals who begun self.old values →
            IfOk result (λ took. took ≡ took_among who begun (journal_at values shard index)
            (handed now from frame.now)) }
        ensures journals { (who : ℕ → ℕ → ReplicaSelf) (begun : ℕ → ℕ → PenValue) (values : List JournalValue) →
            AreJournals who begun self.old values →
            AreOf (who shard index) (begun shard index) (V.accepted keys) (S.fixed signer)
            (pen_value (S.spent signer) (S.left_of signer)) →
            IfOk result (λ took. AreJournals who begun self.new (put_at
            (λ x. after_stop x (handed now from frame.now) stop took) (journal_at values shard index) values)) }
    {
        let Some(place) = self.place_of(shard, index) else {
            return Ok(Took::Taken);
        };
        self.journals[place].stop(stop, now, from, frame, keys, signer)
    }
}
