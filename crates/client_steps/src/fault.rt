//! Why a client refuses a call.

use basil_types::bytes::Bytes;
use basil_types::memory::NoMemory;
use std::alloc::AllocError;
use txn_meta::form::FormFault;

/// Why a client refuses a call: the first of these, in this order, that holds.
#[derive(Debug, Drop)]
pub enum CallFault {
    /// The time isn't above the last one, which is told.
    TimeNotAbove(u64),
    /// The transaction is prepared, or was recovered.
    NotOpen,
    /// A 33rd key of a list.
    TooMany,
    /// A key or a value is out of size.
    SizeOut,
    /// A read of this key has no choice yet.
    ReadPending(Bytes),
    /// There are neither reads nor writes.
    Empty,
    /// No signature is left.
    Exhausted,
    /// The transaction isn't prepared.
    NotPrepared,
    /// Nothing is known of what is logged.
    NothingLogged,
    /// The transaction has no good form.
    BadTransaction(FormFault),
    /// There is no memory for the answer.
    NoMemory,
}

impl From<NoMemory> for CallFault {
    ghost use Rattle.std.specs.Prelude.{◌≡◌};
    ghost use Rattle.client_steps.specs.declared.fault.CallFault.TheVariants.{NoMemory};

    ghost from_gives = { λ _ e. e ≡ NoMemory };

    fn from(_refused: NoMemory) -> CallFault {
        CallFault::NoMemory
    }
}

impl From<AllocError> for CallFault {
    ghost use Rattle.std.specs.Prelude.{◌≡◌};
    ghost use Rattle.client_steps.specs.declared.fault.CallFault.TheVariants.{NoMemory};

    ghost from_gives = { λ _ e. e ≡ NoMemory };

    fn from(_refused: AllocError) -> CallFault {
        CallFault::NoMemory
    }
}
