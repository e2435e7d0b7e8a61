//! Why a node stops serving.

ghost use Rattle.basil_types.specs.declared.links.LinkFail.{LinkFail};
ghost use Rattle.node_link.specs.Faults.{fault_of};

use basil_types::links::LinkFail;
use basil_types::memory::NoMemory;

/// Why a node stops serving.
#[derive(Clone, Copy, Debug, PartialEq, Eq)]
pub enum ServeFault {
    /// The links failed to listen, or to accept a connection.
    LinkFault,
    /// There is no memory for a connection, an envelope or its answer.
    NoMemory,
}

impl From<NoMemory> for ServeFault {
    ghost use Rattle.std.specs.Prelude.{◌≡◌};
    ghost use Rattle.node_link.specs.declared.fault.ServeFault.TheVariants.{NoMemory};

    ghost from_gives = { λ _ e. e ≡ NoMemory };

    fn from(_refused: NoMemory) -> ServeFault {
        ServeFault::NoMemory
    }
}

impl From<LinkFail> for ServeFault {
    ghost use Rattle.std.specs.Prelude.{◌≡◌};

    ghost from_gives = { λ fail e. e ≡ fault_of fail };

    fn from(fail: LinkFail) -> ServeFault {
        match fail {
            LinkFail::Failed => ServeFault::LinkFault,
            LinkFail::NoMemory => ServeFault::NoMemory,
        }
    }
}
