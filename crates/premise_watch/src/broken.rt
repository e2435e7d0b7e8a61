//! What breaks a premise.

use basil_types::bytes::Bytes;
use basil_types::memory::NoMemory;
use basil_types::party::Party;
use basil_types::words::Words;

/// A premise that a seen frame breaks.
#[derive(Debug, Drop)]
pub enum Broken {
    /// A signature is accepted for a correct party on words that it never signed.
    Forged {
        party: Party,
        words: Words,
        signature: Bytes,
    },
    /// Two texts have one digest.
    Collision {
        first: Bytes,
        second: Bytes,
    },
}

/// Why a frame isn't taken.
#[derive(Debug, Drop)]
pub enum WatchFault {
    Broken(Broken),
    NoMemory,
}

impl From<NoMemory> for WatchFault {
    ghost use Rattle.std.specs.Prelude.{◌≡◌};
    ghost use Rattle.premise_watch.specs.declared.broken.WatchFault.TheVariants.{NoMemory};

    ghost from_gives = { λ _ e. e ≡ NoMemory };

    fn from(_refused: NoMemory) -> WatchFault {
        WatchFault::NoMemory
    }
}
