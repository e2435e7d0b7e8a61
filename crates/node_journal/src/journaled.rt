//! A replica, the disk on which it writes down what it takes, and its answer to every frame.

ghost use Rattle.std.specs.Prelude.{◌<◌, ◌≤◌};
ghost use Rattle.journal_records.specs.declared.limits.TheConstants.{JOURNAL_LIMIT};

use crate::entry::front;
use crate::fault::{StepFault, fault_of};
use crate::limits::{BEFORE_FRAME, JOURNAL_BYTES};
use basil_types::outbox::Outbox;
use basil_types::party::Party;
use journal_disk::disk::Disk;
use journal_records::{SpelledRecord, append, gate_behind};
use keyring::signer::Signer;
use keyring::verifier::Verifier;
use node_steps::appending;
use replica_core::{Plan, Replica};
use std::alloc::Global;

/// A replica that writes each frame that it takes down before it answers. Its disk holds the records of what it took,
/// and its last gate stands at `end`; after a fault of the disk it is closed.
#[derive(Drop)]
pub struct Journaled<V: Verifier, S: Signer, D: Disk> {
    pub(crate) replica: Replica<V, S>,
    pub(crate) disk: D,
    pub(crate) end: u64,
    pub(crate) records: u64,
    pub(crate) closed: bool,
    pub(crate) alloc: Global,
    ghost near: { end < JOURNAL_LIMIT },
    ghost few: { records ≤ end },
}

impl<V: Verifier, S: Signer, D: Disk> Journaled<V, S, D> {
    ghost use Rattle.std.specs.Prelude.{◌≡◌, ◌≢◌, ◌+◌, ◌↔◌, ◌⊎◌, ◌++◌, ◌∷◌, [], List, ℕ, false, true, IsTrue, length};
    ghost use Rattle.std.specs.Prelude.{IfErr, OnOk, OnErr, MatchResult, Some, None};
    ghost use Rattle.std.specs.Result.{IsErrOf};
    ghost use Rattle.basil_types.specs.Causes.{Rose};
    ghost use Rattle.basil_types.specs.Limits.{frame_limit};
    ghost use Rattle.journal_disk.specs.Disk.{BothTold};
    ghost use Rattle.journal_disk.specs.Foreseen.{Foreseen, OnStopped};
    ghost use Rattle.journal_records.specs.Journal.{EndsAt, Holds, last_gate};
    ghost use Rattle.journal_records.specs.Journal as records;
    ghost use Rattle.journal_records.specs.Stopping.{IsNear, after_stop};
    ghost use Rattle.node_steps.specs.Pens.{PenValue};
    ghost use Rattle.replica_core.specs.Nodes.{CanCommit};
    ghost use Rattle.replica_core.specs.Replicas.{BookValue};
    ghost use Rattle.replica_core.specs.Shown.{ShowsBook, own};
    ghost use Rattle.replica_core.specs.Works.{word_count};
    ghost use Rattle.replica_laws.specs.Steps.{Handed};
    ghost use Rattle.node_journal.specs.Entries.{entry_of};
    ghost use Rattle.node_journal.specs.Journals.{IsTooLong, Keeps, LosesNone, entries_of, journal_bytes};
    ghost use Rattle.node_journal.specs.Replicas.{Reflects};
    ghost use Rattle.node_journal.specs.Steps.{GainsWords, IsTaken, IsWithin, MayHaveWritten, answer_after, handed};

    /// Answers a frame that this sender sent, at this moment: once the record of the frame is kept, what is sent and
    /// signed comes behind what the outbox held; a fault leaves the outbox as it was. What it hands out is known again
    /// after every stop, and a stop that is foreseen within it tells whether the record is.
    pub fn step(
        &mut self,
        now: u64,
        from: Party,
        frame: &[u8],
        out: &mut Outbox,
    ) -> Result<(), StepFault>
        ensures taken { (begun : PenValue) (hs : List Handed) → Reflects self.old begun hs →
            let h = handed now from frame.now in
            IsTaken hs h out.old out.new result (answer_after (own self.old.replica) begun hs h) }
        ensures reflects { (begun : PenValue) (hs : List Handed) → Reflects self.old begun hs →
            OnOk result (Reflects self.new begun (hs ++ handed now from frame.now ∷ [])) }
        ensures signed { (begun : PenValue) (hs : List Handed) → Reflects self.old begun hs →
            OnOk result (GainsWords (own self.old.replica) begun hs (handed now from frame.now) out.old out.new) }
        ensures as_before { (begun : PenValue) (hs : List Handed) → Reflects self.old begun hs →
            IfErr result (λ fault. fault ≢ StepFault.DiskFault → Reflects self.new begun hs) }
        ensures loses_none { (begun : PenValue) (hs : List Handed) → Reflects self.old begun hs →
            BothTold (λ old new. LosesNone (own self.old.replica) begun hs (handed now from frame.now) old.past new)
            (D.told self.old.disk) (D.told self.new.disk) }
        ensures foreseen { (begun : PenValue) (hs : List Handed) (stop : Foreseen) → Reflects self.old begun hs →
            (D.stops self.old.disk).awaits ≡ Some stop → IsNear stop → MatchResult result (λ _. ⊥)
            (λ _. OnStopped (Keeps (own self.old.replica) begun (after_stop stop hs (handed now from frame.now)))
            stop.stop (D.stops self.old.disk) (D.stops self.new.disk) (D.told self.new.disk)) }
        ensures same_book { (book : BookValue) → ShowsBook self.old.replica book →
            OnErr result (ShowsBook self.new.replica book) }
        ensures same_messages { OnErr result (out.new.messages.items ≡ out.old.messages.items) }
        ensures same_words { OnErr result (out.new.signed.items ≡ out.old.signed.items) }
        ensures unwritten { IfErr result
            (λ fault. fault ≢ StepFault.DiskFault → D.told self.new.disk ≡ D.told self.old.disk) }
        ensures untouched { IfErr result
            (λ fault. fault ≢ StepFault.DiskFault → D.stops self.new.disk ≡ D.stops self.old.disk) }
        ensures unforeseen { (D.stops self.old.disk).awaits ≡ None →
            D.stops self.new.disk ≡ D.stops self.old.disk }
        ensures closed { IsErrOf result StepFault.Closed ↔ IsTrue self.old.closed }
        ensures closes { IsTrue self.new.closed ↔ (IsTrue self.old.closed ⊎ IsErrOf result StepFault.DiskFault) }
        ensures cause { IsErrOf result StepFault.DiskFault → Rose (D.faults self.old.disk) (D.faults self.new.disk) }
        ensures faults { D.faults self.old.disk ≤ D.faults self.new.disk }
        ensures own { own self.new.replica ≡ own self.old.replica }
    {
        if self.closed {
            return Err(StepFault::Closed);
        }
        match self.replica.plan(now, from, frame) {
            Ok(plan) => match self.write_down(now, from, frame, &plan, out) {
                Ok(()) => {
                    appending::append(out, self.replica.commit(plan));
                    Ok(())
                }
                Err(fault) => {
                    self.replica.give_up(plan);
                    Err(fault)
                }
            },
            Err(refusal) => Err(fault_of(refusal)),
        }
    }

    /// Has the disk keep the record of a frame behind the others, unless the journal would be too long. Before that it
    /// makes room in the outbox for what is planned; the outbox holds what it held.
    fn write_down(
        &mut self,
        now: u64,
        from: Party,
        frame: &[u8],
        plan: &Plan,
        out: &mut Outbox,
    ) -> Result<(), StepFault>
        requires some { 1 ≤ length frame.now }
        requires short { length frame.now ≤ frame_limit }
        ensures written { (entries : List (List ℕ)) → EndsAt entries self.old.end (D.told self.old.disk) →
            OnOk result (EndsAt (entries ++ entry_of (handed now from frame.now) ∷ []) self.new.end
            (D.told self.new.disk)) }
        ensures loses_none { MayHaveWritten result →
            (entries : List (List ℕ)) → EndsAt entries self.old.end (D.told self.old.disk) →
            BothTold (λ old new. records.LosesNone entries (entry_of (handed now from frame.now)) old.past new)
            (D.told self.old.disk) (D.told self.new.disk) }
        ensures foreseen { (entries : List (List ℕ)) (stop : Foreseen) →
            EndsAt entries self.old.end (D.told self.old.disk) → (D.stops self.old.disk).awaits ≡ Some stop →
            IsNear stop → MatchResult result (λ _. ⊥)
            (λ _. OnStopped (Holds (after_stop stop entries (entry_of (handed now from frame.now)))) stop.stop
            (D.stops self.old.disk) (D.stops self.new.disk) (D.told self.new.disk)) }
        ensures length { (entries : List (List ℕ)) → self.old.end ≡ last_gate entries →
            IsWithin (last_gate (entries ++ entry_of (handed now from frame.now) ∷ []) + 1) result }
        ensures count { OnOk result (self.new.records ≡ self.old.records + 1) }
        ensures ready { OnOk result (self.new.closed ≡ self.old.closed) }
        ensures not_closed { IfErr result (λ fault. fault ≢ StepFault.Closed) }
        ensures as_before { IfErr result
            (λ fault. (self.new.end ≡ self.old.end) × (self.new.records ≡ self.old.records)) }
        ensures unwritten { IfErr result
            (λ fault. fault ≢ StepFault.DiskFault → D.told self.new.disk ≡ D.told self.old.disk) }
        ensures untouched { IfErr result
            (λ fault. fault ≢ StepFault.DiskFault → D.stops self.new.disk ≡ D.stops self.old.disk) }
        ensures unforeseen { (D.stops self.old.disk).awaits ≡ None →
            D.stops self.new.disk ≡ D.stops self.old.disk }
        ensures closes { IsTrue self.new.closed ↔ (IsTrue self.old.closed ⊎ IsErrOf result StepFault.DiskFault) }
        ensures cause { IsErrOf result StepFault.DiskFault → Rose (D.faults self.old.disk) (D.faults self.new.disk) }
        ensures faults { D.faults self.old.disk ≤ D.faults self.new.disk }
        ensures replica { self.new.replica ≡ self.old.replica }
        ensures same_messages { out.new.messages.items ≡ out.old.messages.items }
        ensures same_words { out.new.signed.items ≡ out.old.signed.items }
        ensures message_room { OnOk result (plan.now.messages ≤ out.new.messages.room) }
        ensures word_room { OnOk result (word_count plan.now.work ≤ out.new.signed.room) }
    {
        let end = gate_behind(self.end, BEFORE_FRAME + frame.len());
        let too_long = end >= JOURNAL_BYTES;
        if too_long {
            return Err(StepFault::Full);
        }
        plan.room_in(out)?;
        let entry = SpelledRecord::new(self.alloc, &front(now, from), frame)?;
        match append(&mut self.disk, self.end, &entry) {
            Ok(_gate) => {
                self.end = end;
                self.records += 1;
                Ok(())
            }
            Err(_failed) => {
                self.closed = true;
                Err(StepFault::DiskFault)
            }
        }
    }

    /// The replica.
    pub fn replica(&self) -> &Replica<V, S>
        ensures { result.now ≡ self.now.replica }
    {
        &self.replica
    }

    /// How many records the disk holds.
    pub fn records(&self) -> u64
        ensures { result ≡ self.now.records }
    {
        self.records
    }

    /// How many bytes the journal has: the first gate, and each record with the gate behind it.
    pub fn bytes(&self) -> u64
        ensures { (begun : PenValue) (hs : List Handed) → Reflects self.now begun hs → result ≡ journal_bytes hs }
    {
        self.end + 1
    }

    /// The disk.
    pub fn disk(&self) -> &D
        ensures { result.now ≡ self.now.disk }
    {
        &self.disk
    }
}
