//! Why bytes or parts are no transaction.

ghost use Rattle.std.specs.Prelude.{◌≡◌};
ghost use Rattle.basil_types.specs.Placed.{placed};

use crate::memory::NoMemory;
use crate::reading::Fault;
use std::alloc::{AllocError, AllocFailed};

/// Why no transaction begins at an offset. The number is the offset, in all the bytes, of the first field that is at
/// fault, from left to right.
#[derive(Clone, Copy, Debug, PartialEq, Eq)]
pub enum PartFault {
    /// The bytes end inside the field that begins at this offset.
    Short(usize),
    /// The field that begins at this offset is out of range.
    Range(usize),
    /// The key whose length stands at this offset isn't above the one before it in its list.
    Order(usize),
}

impl Fault {
    /// Where the fault lies in bytes of this length.
    pub(crate) fn place(self, len: usize) -> PartFault
        ensures { result ≡ placed len self }
    {
        match self {
            Fault::Short(left) => PartFault::Short(len.saturating_sub(left)),
            Fault::Range(left) => PartFault::Range(len.saturating_sub(left)),
            Fault::Order(left) => PartFault::Order(len.saturating_sub(left)),
        }
    }
}

/// Why parts are no transaction. A place counts the reads first and then the writes, from 0.
#[derive(Clone, Copy, Debug, PartialEq, Eq)]
pub enum BuildFault {
    /// The client isn't 1 to 16.
    ClientOut,
    /// There are more than 32 reads, or more than 32 writes.
    TooMany,
    /// The first place whose key isn't 1 to 64 bytes, whose value is longer than 256 bytes, or which deletes and has
    /// a value.
    SizeOut(usize),
    /// The first place whose key isn't above the one before it in its list.
    KeyOrder(usize),
    /// Memory is wanting.
    NoMemory,
}

impl From<NoMemory> for BuildFault {
    ghost use Rattle.std.specs.Prelude.{◌≡◌};
    ghost use Rattle.basil_types.specs.declared.transaction.fault.BuildFault.TheVariants.{NoMemory};

    ghost from_gives = { λ _ e. e ≡ NoMemory };

    fn from(_refused: NoMemory) -> BuildFault {
        BuildFault::NoMemory
    }
}

impl From<AllocError> for BuildFault {
    ghost use Rattle.std.specs.Prelude.{◌≡◌};
    ghost use Rattle.basil_types.specs.declared.transaction.fault.BuildFault.TheVariants.{NoMemory};

    ghost from_gives = { λ _ e. e ≡ NoMemory };

    fn from(_refused: AllocError) -> BuildFault {
        BuildFault::NoMemory
    }
}

impl<T: Drop> From<AllocFailed<T>> for BuildFault {
    ghost use Rattle.std.specs.Prelude.{◌≡◌};
    ghost use Rattle.basil_types.specs.declared.transaction.fault.BuildFault.TheVariants.{NoMemory};

    ghost from_gives = { λ _ e. e ≡ NoMemory };

    fn from(_refused: AllocFailed<T>) -> BuildFault {
        BuildFault::NoMemory
    }
}
