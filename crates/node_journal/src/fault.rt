//! Why a journal isn't begun, opened or written.

ghost use Rattle.std.specs.Prelude.{◌≡◌, ◌≢◌};

use basil_types::memory::NoMemory;
use replica_core::Refusal;

/// Why a journal isn't begun or opened.
#[derive(Clone, Copy, Debug, PartialEq, Eq)]
pub enum JournalFault {
    /// A call of the disk failed.
    DiskFault,
    /// At this place: a byte, where a journal is to begin; where one is to be opened, neither a closed gate nor an open
    /// one before the record of a frame that the replica accepts next, with the gate behind that near enough.
    BadJournal(u64),
    /// There is no memory for the records.
    NoMemory,
}

impl From<NoMemory> for JournalFault {
    ghost use Rattle.node_journal.specs.declared.fault.JournalFault.TheVariants.{NoMemory};

    ghost from_gives = { λ _ e. e ≡ NoMemory };

    fn from(_wanting: NoMemory) -> JournalFault {
        JournalFault::NoMemory
    }
}

/// A disk that is handed back, and why.
#[derive(Drop)]
pub struct Refused<D> {
    pub disk: D,
    pub fault: JournalFault,
}

/// Why a frame isn't taken: the first of these that holds; but memory may be wanting at any place before anything is
/// written.
#[derive(Clone, Copy, Debug, PartialEq, Eq)]
pub enum StepFault {
    /// A call of the disk failed before: it must be opened again.
    Closed,
    /// The replica refuses the frame.
    Refused(Refusal),
    /// With this record the journal would be longer than 1,073,741,824 bytes.
    Full,
    /// A call of the disk failed.
    DiskFault,
    /// There is no memory for the answer or the record.
    NoMemory,
}

impl From<NoMemory> for StepFault {
    ghost use Rattle.node_journal.specs.declared.fault.StepFault.TheVariants.{NoMemory};

    ghost from_gives = { λ _ e. e ≡ NoMemory };

    fn from(_wanting: NoMemory) -> StepFault {
        StepFault::NoMemory
    }
}

/// The fault of a frame that the replica refuses: want of memory is told as such.
pub(crate) fn fault_of(refusal: Refusal) -> StepFault
    ensures wanting { refusal ≡ Refusal.NoMemory → result ≡ StepFault.NoMemory }
    ensures named { refusal ≢ Refusal.NoMemory → result ≡ StepFault.Refused refusal }
{
    if refusal == Refusal::NoMemory {
        StepFault::NoMemory
    } else {
        StepFault::Refused(refusal)
    }
}
