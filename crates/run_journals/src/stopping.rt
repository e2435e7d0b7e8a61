//! A stop of the disk of a replica's journal.

ghost use Rattle.std.specs.Prelude.{◌≡◌, ◌≢◌, ◌<◌, ◌⊎◌, IfOk, OnOk, Option, Result, None, Some, length};
ghost use Rattle.basil_types.specs.declared.party.Party.TheVariants as parties;
ghost use Rattle.journal_disk.specs.declared.disk.Stop.{Stop};
ghost use Rattle.journal_disk.specs.Foreseen.{Foreseen};
ghost use Rattle.node_journal.specs.declared.fault.StepFault.TheVariants as faults;
ghost use Rattle.node_journal.specs.Steps.{IsFaulted, handed};
ghost use Rattle.node_steps.specs.Pens.{PenValue, pen_value};
ghost use Rattle.replica_core.specs.declared.refusal.Refusal.{Refusal};
ghost use Rattle.replica_core.specs.Replicas.{Done, ReplicaSelf};
ghost use Rattle.replica_laws.specs.Steps.{Handed};
ghost use Rattle.run_journals.specs.declared.took.Took.TheVariants as tooks;
ghost use Rattle.run_journals.specs.Journals.{JournalValue, after_stop, took_next, took_of};
ghost use Rattle.run_journals.specs.Kept.{AreOf, IsGoing, IsJournal, IsLeft, in_its_write};

use crate::journal::RunJournal;
use crate::took::Took;
use basil_types::memory::NoMemory;
use basil_types::party::Party;
use journal_disk::disk::Stop;
use keyring::signer::Signer;
use keyring::verifier::Verifier;
use node_journal::StepFault;
use node_steps::pending::outbox;

impl<V: Verifier + Drop, S: Signer + Drop> RunJournal<V, S> {
    /// The disk stops within the step of a frame, if it is taken; the replica then starts again from what the stop
    /// left, with this keyring and signer, which are as they were before its first frame.
    pub fn stop(
        &mut self,
        stop: Stop,
        now: u64,
        from: Party,
        frame: &[u8],
        keys: V,
        signer: S,
    ) -> Result<Took, NoMemory>
        requires write { (stop.write ≡ 1) ⊎ (stop.write ≡ 2) }
        requires bytes { 0 < length stop.bytes }
        requires party { (S.fixed signer).party ≡ parties.Replica self.old.shard self.old.index }
        ensures took { (me : ReplicaSelf) (begun : PenValue) (value : JournalValue) →
            IsJournal me begun self.old value →
            IfOk result (λ took. took ≡ took_next me begun value (handed now from frame.now)) }
        ensures journal { (me : ReplicaSelf) (begun : PenValue) (value : JournalValue) →
            IsJournal me begun self.old value →
            AreOf me begun (V.accepted keys) (S.fixed signer) (pen_value (S.spent signer) (S.left_of signer)) →
            IfOk result (λ took. IsJournal me begun self.new
            (after_stop value (handed now from frame.now) stop took)) }
        ensures shard { self.new.shard ≡ self.old.shard }
        ensures index { self.new.index ≡ self.old.index }
    {
        let Stop { write, bytes } = stop;
        self.journaled.stop_in(write, bytes);
        let took = self.take_stopping(now, from, frame)?;
        self.start_again(keys, signer)?;
        Ok(took)
    }

    /// The replica is handed a frame, and its disk stops within that step, if the frame is taken.
    fn take_stopping(&mut self, now: u64, from: Party, frame: &[u8]) -> Result<Took, NoMemory>
        ensures took { (me : ReplicaSelf) (begun : PenValue) (stop : Stop) (value : JournalValue) →
            IsGoing me begun self.old.journaled (Some (in_its_write stop)) value →
            (stop.write ≡ 1) ⊎ (stop.write ≡ 2) →
            IfOk result (λ took. took ≡ took_next me begun value (handed now from frame.now)) }
        ensures left { (me : ReplicaSelf) (begun : PenValue) (stop : Stop) (value : JournalValue) →
            IsGoing me begun self.old.journaled (Some (in_its_write stop)) value →
            (stop.write ≡ 1) ⊎ (stop.write ≡ 2) →
            IfOk result (λ took. IsLeft me begun self.new.journaled
            (after_stop value (handed now from frame.now) stop took)) }
        ensures cluster { self.new.cluster ≡ self.old.cluster }
        ensures shard { self.new.shard ≡ self.old.shard }
        ensures index { self.new.index ≡ self.old.index }
    {
        let mut sent = outbox(self.alloc);
        let stepped = self.journaled.step(now, from, frame, &mut sent);
        drop(sent);
        match stepped {
            // It never is where a stop is near.
            Ok(()) => Ok(Took::Taken),
            Err(fault) => self.cut_short(fault),
        }
    }

    /// What a frame comes to whose step failed, where a stop was to come in it.
    fn cut_short(&self, fault: StepFault) -> Result<Took, NoMemory>
        ensures took { (me : ReplicaSelf) (begun : PenValue) (awaits : Option Foreseen) (value : JournalValue)
            (h : Handed) (answered : Result Done Refusal) → fault ≢ faults.DiskFault →
            IsGoing me begun self.now.journaled awaits value → IsFaulted value.taken h fault answered →
            IfOk result (λ took. took ≡ took_of value h answered) }
        ensures untaken { fault ≢ faults.DiskFault → IfOk result (λ took. took ≢ tooks.Taken) }
        ensures stopped { fault ≡ faults.DiskFault →
            IfOk result (λ took. (took ≡ tooks.Taken) × (self.now.journaled.disk.stops.awaits ≡ None)) }
    {
        if fault != StepFault::DiskFault {
            return self.untaken(fault);
        }
        if self.journaled.disk().awaits() {
            // The stop didn't come: memory was wanting.
            return Err(NoMemory);
        }
        Ok(Took::Taken)
    }

    /// The replica starts again from what its disk holds.
    fn start_again(&mut self, keys: V, signer: S) -> Result<(), NoMemory>
        requires party { (S.fixed signer).party ≡ parties.Replica self.old.shard self.old.index }
        ensures going { (me : ReplicaSelf) (begun : PenValue) (value : JournalValue) →
            IsLeft me begun self.old.journaled value →
            AreOf me begun (V.accepted keys) (S.fixed signer) (pen_value (S.spent signer) (S.left_of signer)) →
            OnOk result (IsGoing me begun self.new.journaled None value) }
        ensures shard { self.new.shard ≡ self.old.shard }
        ensures index { self.new.index ≡ self.old.index }
    {
        match self
            .journaled
            .start_again(self.cluster, self.shard, self.index, keys, signer)
        {
            Ok(()) => Ok(()),
            Err(_fault) => Err(NoMemory),
        }
    }
}
