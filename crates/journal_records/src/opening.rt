//! How a journal goes on after a stop.

ghost use Rattle.std.specs.Prelude.{◌≡◌, List, ℕ, OnOk, OnErr, option_map};
ghost use Rattle.basil_types.specs.Causes.{HasCause};
ghost use Rattle.journal_disk.specs.Disk.{Change, OnTold, keeps};
ghost use Rattle.journal_records.specs.Journal.{Holds, HoldsForGood, LosesNone};

use basil_types::source::Failed;
use journal_disk::disk::Disk;

/// Opens a journal after a stop: has the disk keep what its reads give, so that what is read then is held for good.
pub fn open<D: Disk>(disk: &mut D) -> Result<(), Failed>
    ensures kept { OnOk result (D.told disk.new ≡ option_map keeps (D.told disk.old)) }
    ensures as_before { OnErr result (D.told disk.new ≡ D.told disk.old) }
    ensures stops { D.stops disk.new ≡ D.stops disk.old }
    ensures settles { (entries : List (List ℕ)) → OnTold (λ s. Holds entries s.contents) (D.told disk.old)
        → OnOk result (OnTold (HoldsForGood entries) (D.told disk.new)) }
    ensures loses_none { (entries : List (List ℕ)) (entry : List ℕ) (then_past : List Change)
        → OnTold (LosesNone entries entry then_past) (D.told disk.old)
        → OnTold (LosesNone entries entry then_past) (D.told disk.new) }
    ensures cause { HasCause (D.faults disk.old) (D.faults disk.new) result }
{
    disk.sync()
}
