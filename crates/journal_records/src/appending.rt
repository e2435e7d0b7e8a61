//! A record behind the last gate.

ghost use Rattle.std.specs.Prelude.{◌≡◌, ◌+◌, ◌<◌, ◌++◌, List, ℕ, [], ◌∷◌, OnOk, OnErr, IfOk, length};
ghost use Rattle.std.specs.Prelude.{Some, None, MatchResult};
ghost use Rattle.basil_types.specs.Causes.{HasCause};
ghost use Rattle.journal_disk.specs.Disk.{BothTold};
ghost use Rattle.journal_disk.specs.Foreseen.{Foreseen, OnStopped, Passes};
ghost use Rattle.journal_records.specs.Journal.{EndsAt, Holds, LosesNone};
ghost use Rattle.journal_records.specs.Steps.{IsPrepared};
ghost use Rattle.journal_records.specs.Stopping.{IsNear, after_stop};

use crate::gates::open_gate;
use crate::limits::{GATE_AND_LENGTH, JOURNAL_LIMIT};
use crate::spelled::SpelledRecord;
use basil_types::source::Failed;
use journal_disk::disk::Disk;

/// Appends the record behind the last gate, which stands at `end`, and says where the last gate stands then. Whether it
/// fails or not, a stop loses no record of before, and leaves the new one whole or not at all: which, a stop that is
/// foreseen within it tells.
pub fn append<D: Disk>(disk: &mut D, end: u64, entry: &SpelledRecord) -> Result<u64, Failed>
    requires { end < JOURNAL_LIMIT }
    ensures appended { (entries : List (List ℕ)) → EndsAt entries end (D.told disk.old)
        → IfOk result (λ next. EndsAt (entries ++ entry.now ∷ []) next (D.told disk.new)) }
    ensures place { IfOk result (λ next. next ≡ end + GATE_AND_LENGTH + length entry.now) }
    ensures loses_none { (entries : List (List ℕ)) → EndsAt entries end (D.told disk.old)
        → BothTold (λ old new. LosesNone entries entry.now old.past new) (D.told disk.old) (D.told disk.new) }
    ensures foreseen { (entries : List (List ℕ)) (stop : Foreseen) → EndsAt entries end (D.told disk.old)
        → (D.stops disk.old).awaits ≡ Some stop → IsNear stop → MatchResult result (λ _. ⊥)
        (λ _. OnStopped (Holds (after_stop stop entries entry.now)) stop.stop (D.stops disk.old) (D.stops disk.new)
        (D.told disk.new)) }
    ensures unforeseen { (D.stops disk.old).awaits ≡ None → D.stops disk.new ≡ D.stops disk.old }
    ensures cause { HasCause (D.faults disk.old) (D.faults disk.new) result }
{
    prepare(disk, end, entry)?;
    open_gate(disk, end)?;
    Ok(end + entry.bytes().len() as u64)
}

/// Has the disk keep the record with its closed gate, behind the last gate.
fn prepare<D: Disk>(disk: &mut D, end: u64, entry: &SpelledRecord) -> Result<(), Failed>
    requires { end < JOURNAL_LIMIT }
    ensures prepared { (entries : List (List ℕ)) → EndsAt entries end (D.told disk.old) → OnOk result
        (BothTold (λ old new. IsPrepared entries entry.now old.past new) (D.told disk.old) (D.told disk.new)) }
    ensures loses_none { (entries : List (List ℕ)) → EndsAt entries end (D.told disk.old)
        → BothTold (λ old new. LosesNone entries entry.now old.past new) (D.told disk.old) (D.told disk.new) }
    ensures foreseen { (entries : List (List ℕ)) (stop : Foreseen) → EndsAt entries end (D.told disk.old)
        → (D.stops disk.old).awaits ≡ Some stop
        → OnErr result (OnStopped (λ bytes. (stop.left ≡ 1) × Holds entries bytes) stop.stop (D.stops disk.old)
        (D.stops disk.new) (D.told disk.new)) }
    ensures passed { OnOk result (Passes (D.stops disk.old) (D.stops disk.new)) }
    ensures unforeseen { (D.stops disk.old).awaits ≡ None → D.stops disk.new ≡ D.stops disk.old }
    ensures cause { HasCause (D.faults disk.old) (D.faults disk.new) result }
{
    disk.write_at(end + 1, entry.bytes())?;
    disk.sync()
}
