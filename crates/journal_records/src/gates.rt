//! Gates: where they stand, and how one is opened.

ghost use Rattle.std.specs.Prelude.{◌≡◌, ◌+◌, ◌<◌, ◌≤◌, ◌↔◌, ◌++◌, List, ℕ, [], ◌∷◌, OnOk, IsTrue, length};
ghost use Rattle.std.specs.Prelude.{Some, None, MatchResult};
ghost use Rattle.basil_types.specs.Causes.{HasCause};
ghost use Rattle.journal_disk.specs.Disk.{Change, OnTold, BothTold};
ghost use Rattle.journal_disk.specs.Foreseen.{Foreseen, OnStopped};
ghost use Rattle.journal_records.specs.Journal.{Holds, HoldsForGood, LosesNone, last_gate};
ghost use Rattle.journal_records.specs.Steps.{IsPrepared};
ghost use Rattle.journal_records.specs.Stopping.{and_if, leaves_open};

use crate::limits::{GATE_AND_LENGTH, GREATEST_ENTRY, JOURNAL_LIMIT};
use basil_types::source::Failed;
use journal_disk::disk::Disk;

/// A gate that is open; every other byte is a closed one.
pub const OPEN: u8 = 1;

/// A gate as it is written closed.
pub const CLOSED: u8 = 0;

/// Whether a journal whose last gate stands at this place takes no more records.
pub fn is_full(end: u64) -> bool
    ensures { IsTrue result ↔ (JOURNAL_LIMIT ≤ end) }
{
    end >= JOURNAL_LIMIT
}

/// The place of the gate behind a record that counts so many bytes, behind the gate at this place.
pub fn gate_behind(at: u64, count: usize) -> u64
    requires near { at < JOURNAL_LIMIT }
    requires short { count ≤ GREATEST_ENTRY }
    ensures place { result ≡ at + GATE_AND_LENGTH + count }
    ensures gate { (entries : List (List ℕ)) (entry : List ℕ) → at ≡ last_gate entries → count ≡ length entry
        → result ≡ last_gate (entries ++ entry ∷ []) }
{
    at + GATE_AND_LENGTH + count as u64
}

/// Opens the last gate, behind which the disk keeps a record.
pub fn open_gate<D: Disk>(disk: &mut D, end: u64) -> Result<(), Failed>
    ensures opened { (entries : List (List ℕ)) (entry : List ℕ) (then_past : List Change) → end ≡ last_gate entries
        → OnTold (IsPrepared entries entry then_past) (D.told disk.old)
        → OnOk result (OnTold (HoldsForGood (entries ++ entry ∷ [])) (D.told disk.new)) }
    ensures loses_none { (entries : List (List ℕ)) (entry : List ℕ) (then_past : List Change) → end ≡ last_gate entries
        → OnTold (IsPrepared entries entry then_past) (D.told disk.old)
        → BothTold (λ _ new. LosesNone entries entry then_past new) (D.told disk.old) (D.told disk.new) }
    ensures foreseen { (entries : List (List ℕ)) (entry : List ℕ) (then_past : List Change) (stop : Foreseen)
        → end ≡ last_gate entries → OnTold (IsPrepared entries entry then_past) (D.told disk.old)
        → (D.stops disk.old).awaits ≡ Some stop → stop.left ≡ 1
        → MatchResult result (λ _. ⊥) (λ _. OnStopped (Holds (and_if (leaves_open stop) entries entry)) stop.stop
        (D.stops disk.old) (D.stops disk.new) (D.told disk.new)) }
    ensures unforeseen { (D.stops disk.old).awaits ≡ None → D.stops disk.new ≡ D.stops disk.old }
    ensures cause { HasCause (D.faults disk.old) (D.faults disk.new) result }
{
    disk.write_at(end, &[OPEN])?;
    disk.sync()
}
