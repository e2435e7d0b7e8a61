//! How a journal of a replica is begun, and opened after a stop.

ghost use Rattle.std.specs.Prelude.{◌≡◌, ◌≢◌, ◌+◌, ◌<◌, ◌≤◌, [], List, ℕ, Some, None, Ok};
ghost use Rattle.std.specs.Prelude.{true, false, IfOk, IfErr, OnOk, MatchResult, length, option_map};
ghost use Rattle.basil_types.specs.declared.party.Party.TheVariants as parties;
ghost use Rattle.journal_disk.specs.Disk.{DiskState, OnTold, keeps};
ghost use Rattle.journal_records.specs.declared.limits.TheConstants.{JOURNAL_LIMIT};
ghost use Rattle.journal_records.specs.Journal.{EndsAt, opened};
ghost use Rattle.node_steps.specs.Pens.{PenValue, pen_value};
ghost use Rattle.quorum_laws.specs.Numbers.{replicas};
ghost use Rattle.replica_core.specs.Answers.{answer};
ghost use Rattle.replica_core.specs.Replicas.{BookValue, Done};
ghost use Rattle.replica_core.specs.Shown.{ShowsBook, own};
ghost use Rattle.replica_laws.specs.Steps.{Handed};
ghost use Rattle.node_journal.specs.Entries.{entry_of, handed_in};
ghost use Rattle.node_journal.specs.Journals.{Accepts, Keeps};
ghost use Rattle.node_journal.specs.Opening.{HasRisen, IsAt, IsBad, IsBadAt, IsKeptBut, IsNotBad, IsNotBegun, self_in};
ghost use Rattle.node_journal.specs.Replicas.{Reflects};
ghost use Rattle.node_journal.specs.Retracing.{Fronts, GoesOn, Hears, ReadsOn, StandsBehind, StandsFront, StandsLast};

use crate::entry::read;
use crate::fault::{JournalFault, Refused};
use crate::journaled::Journaled;
use basil_types::cluster::Cluster;
use journal_disk::disk::Disk;
use journal_records::{Found, GREATEST_ENTRY, gate_behind, is_full, next};
use keyring::signer::Signer;
use keyring::verifier::Verifier;
use node_steps::pending::outbox;
use replica_core::{Refusal, Replica};
use std::alloc::Global;

/// Begins a journal on a disk without a byte.
fn begin<D: Disk>(disk: &mut D) -> Result<(), JournalFault>
    ensures begun { OnOk result (EndsAt [] 0 (D.told disk.new)) }
    ensures empty { OnOk result (OnTold (λ s. s.contents ≡ []) (D.told disk.old)) }
    ensures fault { IfErr result (λ fault. IsNotBegun fault (D.told disk.old)) }
    ensures cause { IfErr result (λ fault. HasRisen fault (D.faults disk.old) (D.faults disk.new)) }
    ensures calm { OnOk result (D.faults disk.new ≡ D.faults disk.old) }
    ensures unforeseen { (D.stops disk.old).awaits ≡ None → D.stops disk.new ≡ D.stops disk.old }
    ensures unwritten { IfErr result (λ fault. fault ≢ JournalFault.DiskFault → D.told disk.new ≡ D.told disk.old) }
{
    let mut byte = [0; 1];
    match disk.read_at(0, &mut byte) {
        Ok(0) => {}
        Ok(_) => return Err(JournalFault::BadJournal(0)),
        Err(_failed) => return Err(JournalFault::DiskFault),
    }
    match journal_records::create(disk) {
        Ok(()) => Ok(()),
        Err(_failed) => Err(JournalFault::DiskFault),
    }
}

/// Has a replica take the frame of a record again, which stands behind the gate at `at`.
fn take_again<V: Verifier, S: Signer>(
    alloc: Global,
    replica: &mut Replica<V, S>,
    at: u64,
    entry: &[u8],
) -> Result<(), JournalFault>
    ensures refused { (book : BookValue) (h : Handed) (done : Done) → ShowsBook replica.old book →
        handed_in entry.now ≡ Some h → answer (own replica.old) h.now h.from book h.frame ≡ Ok done →
        IfErr result (λ fault. fault ≡ JournalFault.NoMemory) }
    ensures heard { (book : BookValue) → ShowsBook replica.old book →
        OnOk result (Hears replica.new (own replica.old) book entry.now) }
    ensures place { IfErr result (IsAt at) }
    ensures calm { IfErr result (λ fault. fault ≢ JournalFault.DiskFault) }
    ensures own { own replica.new ≡ own replica.old }
{
    let handed = match read(entry) {
        Some(handed) => handed,
        None => return Err(JournalFault::BadJournal(at)),
    };
    let mut scratch = outbox(alloc);
    match replica.step(handed.now, handed.from, handed.frame, &mut scratch) {
        Ok(()) => Ok(()),
        Err(refusal) => {
            if refusal == Refusal::NoMemory {
                Err(JournalFault::NoMemory)
            } else {
                Err(JournalFault::BadJournal(at))
            }
        }
    }
}

impl<V: Verifier, S: Signer, D: Disk> Journaled<V, S, D> {
    /// Takes the frame of the record behind the gate where it stands, and goes on to the gate behind that.
    fn go_on(&mut self, entry: &[u8]) -> Result<(), JournalFault>
        requires { length entry.now ≤ GREATEST_ENTRY }
        ensures refused { (book : BookValue) (h : Handed) → ShowsBook self.old.replica book → entry.now ≡ entry_of h →
            Accepts (own self.old.replica) book h → self.old.end + length (opened entry.now) < JOURNAL_LIMIT →
            IfErr result (λ fault. fault ≡ JournalFault.NoMemory) }
        ensures goes_on { (begun : PenValue) (before : List Handed) → StandsBehind self.old begun before →
            OnOk result (GoesOn self.new begun before entry.now) }
        ensures further { OnOk result (self.old.end < self.new.end) }
        ensures calm { IfErr result (λ fault. fault ≢ JournalFault.DiskFault) }
        ensures disk { self.new.disk ≡ self.old.disk }
        ensures place { IfErr result (IsAt self.old.end) }
        ensures own { own self.new.replica ≡ own self.old.replica }
        ensures closed { self.new.closed ≡ self.old.closed }
    {
        let end = gate_behind(self.end, entry.len());
        if is_full(end) {
            return Err(JournalFault::BadJournal(self.end));
        }
        match take_again(self.alloc, &mut self.replica, self.end, entry) {
            Ok(()) => {
                self.end = end;
                self.records += 1;
                Ok(())
            }
            Err(fault) => Err(fault),
        }
    }

    /// Goes on by one record, or finds that the gate where it stands is closed.
    fn retrace_next(&mut self, buffer: &mut [u8]) -> Result<bool, JournalFault>
        requires { GREATEST_ENTRY ≤ length buffer.old }
        ensures retraces { (s : DiskState) (begun : PenValue) → D.told self.old.disk ≡ Some s →
            StandsFront self.old begun s.contents →
            MatchResult result (Fronts self.new begun s.contents) (IsBad (own self.old.replica) begun s.contents) }
        ensures further { result ≡ Ok true → self.old.end < self.new.end }
        ensures reads { ReadsOn self.old self.new result }
    {
        match next(&mut self.disk, self.end, buffer) {
            Ok(Found::Closed) => Ok(false),
            Ok(Found::Record(count)) => match self.go_on(&buffer[..count]) {
                Ok(()) => Ok(true),
                Err(fault) => Err(fault),
            },
            Ok(Found::Broken) => Err(JournalFault::BadJournal(self.end)),
            Err(_failed) => Err(JournalFault::DiskFault),
        }
    }

    /// Takes the frames of the records, up to the first gate that is closed.
    fn retrace(&mut self, buffer: &mut [u8]) -> Result<(), JournalFault>
        requires { GREATEST_ENTRY ≤ length buffer.old }
        ensures retraces { (s : DiskState) (begun : PenValue) → D.told self.old.disk ≡ Some s →
            StandsFront self.old begun s.contents →
            MatchResult result (λ _. StandsLast self.new begun s.contents)
            (IsBad (own self.old.replica) begun s.contents) }
        ensures reads { ReadsOn self.old self.new result }
    {
        loop {
            match self.retrace_next(buffer) {
                Ok(true) => {}
                Ok(false) => return Ok(()),
                Err(fault) => return Err(fault),
            }
        }
    }

    /// Takes the frames of the records, with room for the longest.
    fn retrace_all(&mut self) -> Result<(), JournalFault>
        ensures retraces { (s : DiskState) (begun : PenValue) → D.told self.old.disk ≡ Some s →
            StandsFront self.old begun s.contents →
            MatchResult result (λ _. StandsLast self.new begun s.contents)
            (IsBad (own self.old.replica) begun s.contents) }
        ensures reads { ReadsOn self.old self.new result }
    {
        let mut buffer = match vec![in self.alloc; 0u8; GREATEST_ENTRY] {
            Ok(buffer) => buffer,
            Err(_wanting) => return Err(JournalFault::NoMemory),
        };
        self.retrace(&mut buffer)
    }
}

impl<V: Verifier + Drop, S: Signer + Drop, D: Disk> Journaled<V, S, D> {
    /// Begins a journal on a disk without a byte, of a replica of this index of a shard of the cluster before its first
    /// frame.
    pub fn create(
        alloc: Global,
        disk: D,
        cluster: Cluster,
        shard: u8,
        index: u8,
        keys: V,
        signer: S,
    ) -> Result<Journaled<V, S, D>, Refused<D>>
        requires shard { shard < cluster.shards }
        requires index { index < replicas cluster.f }
        requires party { (S.fixed signer).party ≡ parties.Replica shard index }
        ensures begun { IfOk result (λ j. Reflects j (pen_value (S.spent signer) (S.left_of signer)) []) }
        ensures own { IfOk result
            (λ j. own j.replica ≡ self_in cluster shard index (V.accepted keys) (S.fixed signer)) }
        ensures empty { OnOk result (OnTold (λ s. s.contents ≡ []) (D.told disk)) }
        ensures fault { IfErr result (λ r. IsNotBegun r.fault (D.told disk)) }
        ensures cause { IfErr result (λ r. HasRisen r.fault (D.faults disk) (D.faults r.disk)) }
        ensures calm { IfOk result (λ j. D.faults j.disk ≡ D.faults disk) }
        ensures unforeseen { (D.stops disk).awaits ≡ None →
            MatchResult result (λ j. D.stops j.disk ≡ D.stops disk) (λ r. D.stops r.disk ≡ D.stops disk) }
        ensures unwritten { IfErr result (λ r. r.fault ≢ JournalFault.DiskFault → D.told r.disk ≡ D.told disk) }
    {
        let mut disk = disk;
        match begin(&mut disk) {
            Ok(()) => Ok(Journaled {
                replica: Replica::new(alloc, cluster, shard, index, keys, signer),
                disk,
                end: 0,
                records: 0,
                closed: false,
                alloc,
            }),
            Err(fault) => Err(Refused { disk, fault }),
        }
    }

    /// Opens the journal of a replica of this index of a shard of the cluster after a stop: has the disk keep what its
    /// reads give, and has the replica take the frames of the records, each at its moment and from its sender, up to
    /// the first gate that is closed. Writes nothing.
    pub fn open(
        alloc: Global,
        disk: D,
        cluster: Cluster,
        shard: u8,
        index: u8,
        keys: V,
        signer: S,
    ) -> Result<Journaled<V, S, D>, Refused<D>>
        requires shard { shard < cluster.shards }
        requires index { index < replicas cluster.f }
        requires party { (S.fixed signer).party ≡ parties.Replica shard index }
        ensures good { (s : DiskState) (hs : List Handed) → D.told disk ≡ Some s →
            let begun = pen_value (S.spent signer) (S.left_of signer) in
            Keeps (self_in cluster shard index (V.accepted keys) (S.fixed signer)) begun hs s.contents →
            MatchResult result (λ j. Reflects j begun hs) (λ r. IsNotBad r.fault) }
        ensures bad { (s : DiskState) (place : ℕ) → D.told disk ≡ Some s →
            let begun = pen_value (S.spent signer) (S.left_of signer) in
            IsBadAt (self_in cluster shard index (V.accepted keys) (S.fixed signer)) begun s.contents place →
            MatchResult result (λ _. ⊥) (λ r. IsAt place r.fault) }
        ensures found { (s : DiskState) → D.told disk ≡ Some s →
            let begun = pen_value (S.spent signer) (S.left_of signer) in
            let me = self_in cluster shard index (V.accepted keys) (S.fixed signer) in
            MatchResult result (λ _. (hs : List Handed) × Keeps me begun hs s.contents)
            (λ r. IsBad me begun s.contents r.fault) }
        ensures own { IfOk result
            (λ j. own j.replica ≡ self_in cluster shard index (V.accepted keys) (S.fixed signer)) }
        ensures ready { IfOk result (λ j. j.closed ≡ false) }
        ensures kept { MatchResult result (λ j. D.told j.disk ≡ option_map keeps (D.told disk))
            (λ r. IsKeptBut r.fault (D.told disk) (D.told r.disk)) }
        ensures stops { MatchResult result (λ j. D.stops j.disk ≡ D.stops disk)
            (λ r. D.stops r.disk ≡ D.stops disk) }
        ensures faults { MatchResult result (λ j. D.faults j.disk ≡ D.faults disk)
            (λ r. HasRisen r.fault (D.faults disk) (D.faults r.disk)) }
    {
        let mut disk = disk;
        match journal_records::open(&mut disk) {
            Ok(()) => Journaled {
                replica: Replica::new(alloc, cluster, shard, index, keys, signer),
                disk,
                end: 0,
                records: 0,
                closed: false,
                alloc,
            }
            .retraced(),
            Err(_failed) => Err(Refused {
                disk,
                fault: JournalFault::DiskFault,
            }),
        }
    }

    /// The replica after the frames of the records; or the disk, and the fault.
    fn retraced(self) -> Result<Journaled<V, S, D>, Refused<D>>
        ensures retraces { (s : DiskState) (begun : PenValue) → D.told self.disk ≡ Some s →
            StandsFront self begun s.contents →
            MatchResult result (λ j. StandsLast j begun s.contents)
            (λ r. IsBad (own self.replica) begun s.contents r.fault) }
        ensures own { IfOk result (λ j. own j.replica ≡ own self.replica) }
        ensures closed { IfOk result (λ j. j.closed ≡ self.closed) }
        ensures told { MatchResult result (λ j. D.told j.disk ≡ D.told self.disk)
            (λ r. D.told r.disk ≡ D.told self.disk) }
        ensures stops { MatchResult result (λ j. D.stops j.disk ≡ D.stops self.disk)
            (λ r. D.stops r.disk ≡ D.stops self.disk) }
        ensures faults { MatchResult result (λ j. D.faults j.disk ≡ D.faults self.disk)
            (λ r. HasRisen r.fault (D.faults self.disk) (D.faults r.disk)) }
    {
        let mut journaled = self;
        match journaled.retrace_all() {
            Ok(()) => Ok(journaled),
            Err(fault) => Err(Refused {
                disk: journaled.into_disk(),
                fault,
            }),
        }
    }

    /// The disk, without the replica.
    pub fn into_disk(self) -> D
        ensures { result ≡ self.disk }
    {
        self.disk
    }
}
