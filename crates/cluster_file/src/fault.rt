//! Why a file is refused.

use basil_types::memory::NoMemory;
use std::alloc::{AllocError, AllocFailed};

/// `f`, `shards` or `reads` is out of range.
pub const REFUSED_CLUSTER: u8 = 1;

/// The bytes aren't one JSON object (RFC 8259) with exactly the members of a file, each of its type.
pub const NOT_A_FILE: u8 = 2;

/// Another number is out of range, or a party is missing or stands twice.
pub const WRONG_PARTIES: u8 = 3;

/// A public key isn't 112 lower-case hex digits.
pub const BAD_KEY: u8 = 8;

/// Why a file isn't read.
#[derive(Debug, Drop)]
pub enum FileFault {
    /// It is refused: the first reason that holds, of `NOT_A_FILE`, `REFUSED_CLUSTER`, `WRONG_PARTIES` and `BAD_KEY`.
    BadFile { reason: u8 },
    /// Memory is wanting.
    NoMemory,
}

impl From<NoMemory> for FileFault {
    ghost use Rattle.std.specs.Prelude.{◌≡◌};
    ghost use Rattle.cluster_file.specs.declared.fault.FileFault.TheVariants.{NoMemory as no_memory};

    ghost from_gives = { λ _ e. e ≡ no_memory };

    fn from(_refused: NoMemory) -> FileFault {
        FileFault::NoMemory
    }
}

impl From<AllocError> for FileFault {
    ghost use Rattle.std.specs.Prelude.{◌≡◌};
    ghost use Rattle.cluster_file.specs.declared.fault.FileFault.TheVariants.{NoMemory as no_memory};

    ghost from_gives = { λ _ e. e ≡ no_memory };

    fn from(_refused: AllocError) -> FileFault {
        FileFault::NoMemory
    }
}
