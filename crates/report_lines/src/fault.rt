//! Why a schedule has no report.

ghost use Rattle.std.specs.Prelude.{◌≡◌};
ghost use Rattle.report_lines.specs.Ending.{ends_by};

use basil_types::memory::NoMemory;
use line_fields::reason::Reason;
use premise_watch::broken::Broken;
use std::alloc::AllocFailed;

/// Why a schedule has no report.
#[derive(Debug, Drop)]
pub enum ReplayFault {
    /// The line of this number, from 1, is refused for this reason, by the table of `docs/formats.md`.
    BadInput { line: u64, reason: Reason },
    /// A premise of the run is broken.
    Broken(Broken),
    /// The messages of an event would pass a limit of the pool, or a record the limit of a journal; that holds so many
    /// messages or records, and bytes.
    Full { messages: u64, bytes: u64 },
    /// The link failed.
    LinkFault,
    /// The sink failed.
    WriteFault,
    /// Memory is wanting.
    NoMemory,
}

impl From<NoMemory> for ReplayFault {
    ghost use Rattle.std.specs.Prelude.{◌≡◌};
    ghost use Rattle.report_lines.specs.declared.fault.ReplayFault.TheVariants.{NoMemory};

    ghost from_gives = { λ _ e. e ≡ NoMemory };

    fn from(_wanting: NoMemory) -> ReplayFault {
        ReplayFault::NoMemory
    }
}

impl<T: Drop> From<AllocFailed<T>> for ReplayFault {
    ghost use Rattle.std.specs.Prelude.{◌≡◌};
    ghost use Rattle.report_lines.specs.declared.fault.ReplayFault.TheVariants.{NoMemory};

    ghost from_gives = { λ _ e. e ≡ NoMemory };

    fn from(_wanting: AllocFailed<T>) -> ReplayFault {
        ReplayFault::NoMemory
    }
}

/// Whether what a line comes to ends a replay: a breach does, and want of memory.
pub fn ends(done: &Result<(), ReplayFault>) -> bool
    ensures { result ≡ ends_by done.now }
{
    match done {
        Err(ReplayFault::Broken(_)) => true,
        Err(ReplayFault::NoMemory) => true,
        _ => false,
    }
}
