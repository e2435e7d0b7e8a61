//! Why a transaction isn't carried through.

ghost use Rattle.client_steps.specs.declared.fault.CallFault.{CallFault};

use basil_types::memory::NoMemory;
use client_core::CallFault;

/// Why a transaction isn't carried through.
#[derive(Debug, Drop)]
pub enum RunFault {
    /// All was asked, and a read's choice or the decision isn't there. Tells how many valid votes and log replies are
    /// held.
    Undecided(u32),
    /// The client refuses a call.
    Call(CallFault),
    /// Memory is wanting.
    NoMemory,
}

impl From<NoMemory> for RunFault {
    ghost use Rattle.std.specs.Prelude.{◌≡◌};
    ghost use Rattle.client_link.specs.declared.fault.RunFault.TheVariants.{NoMemory};

    ghost from_gives = { λ _ e. e ≡ NoMemory };

    fn from(_refused: NoMemory) -> RunFault {
        RunFault::NoMemory
    }
}
