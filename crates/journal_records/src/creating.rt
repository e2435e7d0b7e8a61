//! How a journal begins.

ghost use Rattle.std.specs.Prelude.{◌≡◌, [], None, OnOk};
ghost use Rattle.basil_types.specs.Causes.{HasCause};
ghost use Rattle.journal_disk.specs.Foreseen.{Passes};
ghost use Rattle.journal_records.specs.Journal.{EndsAt};

use crate::gates::CLOSED;
use basil_types::source::Failed;
use journal_disk::disk::Disk;

/// Begins a journal that holds no record: its first gate stands at 0.
pub fn create<D: Disk>(disk: &mut D) -> Result<(), Failed>
    ensures empty { OnOk result (EndsAt [] 0 (D.told disk.new)) }
    ensures passed { OnOk result (Passes (D.stops disk.old) (D.stops disk.new)) }
    ensures unforeseen { (D.stops disk.old).awaits ≡ None → D.stops disk.new ≡ D.stops disk.old }
    ensures cause { HasCause (D.faults disk.old) (D.faults disk.new) result }
{
    disk.write_at(0, &[CLOSED])?;
    disk.sync()
}
