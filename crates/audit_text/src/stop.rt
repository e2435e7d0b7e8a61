//! Why a text isn't read further.

use basil_types::memory::NoMemory;
use line_fields::reason::Reason;
use std::alloc::AllocFailed;

/// Why a line isn't taken.
#[derive(Clone, Copy)]
pub(crate) enum Stop {
    /// It is refused, for this reason.
    Refused { reason: Reason },
    /// Memory is wanting.
    NoMemory,
}

/// Why a text isn't read further.
#[derive(Clone, Copy)]
pub(crate) enum Failure {
    /// The line of this number is refused, for this reason.
    Refused { line: u64, reason: Reason },
    /// Memory is wanting.
    NoMemory,
}

impl From<NoMemory> for Stop {
    ghost use Rattle.std.specs.Prelude.{◌≡◌};
    ghost use Rattle.audit_text.specs.declared.stop.Stop.TheVariants.{NoMemory};

    ghost from_gives = { λ _ e. e ≡ NoMemory };

    fn from(_refused: NoMemory) -> Stop {
        Stop::NoMemory
    }
}

impl From<NoMemory> for Failure {
    ghost use Rattle.std.specs.Prelude.{◌≡◌};
    ghost use Rattle.audit_text.specs.declared.stop.Failure.TheVariants.{NoMemory};

    ghost from_gives = { λ _ e. e ≡ NoMemory };

    fn from(_refused: NoMemory) -> Failure {
        Failure::NoMemory
    }
}

impl<T: Drop> From<AllocFailed<T>> for Failure {
    ghost use Rattle.std.specs.Prelude.{◌≡◌};
    ghost use Rattle.audit_text.specs.declared.stop.Failure.TheVariants.{NoMemory};

    ghost from_gives = { λ _ e. e ≡ NoMemory };

    fn from(_refused: AllocFailed<T>) -> Failure {
        Failure::NoMemory
    }
}
