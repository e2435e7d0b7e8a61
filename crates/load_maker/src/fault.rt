//! Why a load isn't written.

use basil_types::memory::NoMemory;

/// Why a load isn't written.
#[derive(Debug, Drop)]
pub enum MakeFault {
    /// The sink failed.
    WriteFault,
    /// Memory is wanting.
    NoMemory,
}

impl From<NoMemory> for MakeFault {
    ghost use Rattle.std.specs.Prelude.{◌≡◌};
    ghost use Rattle.load_maker.specs.declared.fault.MakeFault.TheVariants.{NoMemory};

    ghost from_gives = { λ _ e. e ≡ NoMemory };

    fn from(_wanting: NoMemory) -> MakeFault {
        MakeFault::NoMemory
    }
}
