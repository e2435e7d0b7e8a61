//! Why a party gets no seat, or a node ends early.

ghost use Rattle.party_seat.specs.Faults.{seat_fault_of, serve_fault_of};
ghost use Rattle.party_seat.specs.declared.fault.SeatFault.{SeatFault};

use basil_types::memory::NoMemory;
use node_link::ServeFault;

/// Why a party doesn't get the seat that it asks for.
#[derive(Clone, Copy, Debug, PartialEq, Eq)]
pub enum SeatFault {
    /// The file doesn't list the party, or the seed, with the identifier of the listed public key, doesn't give that
    /// key.
    WrongKey,
    /// The first leaf is beyond the leaves of the key's tree.
    WrongLeaf,
    /// Memory is wanting.
    NoMemory,
}

impl From<NoMemory> for SeatFault {
    ghost use Rattle.std.specs.Prelude.{◌≡◌};
    ghost use Rattle.party_seat.specs.declared.fault.SeatFault.TheVariants.{NoMemory};

    ghost from_gives = { λ _ e. e ≡ NoMemory };

    fn from(_refused: NoMemory) -> SeatFault {
        SeatFault::NoMemory
    }
}

/// Why a node ends early.
#[derive(Clone, Copy, Debug, PartialEq, Eq)]
pub enum NodeFault {
    /// It doesn't get its seat, as `SeatFault::WrongKey` has it.
    WrongKey,
    /// It doesn't get its seat, as `SeatFault::WrongLeaf` has it.
    WrongLeaf,
    /// The links failed to listen, or to accept a connection.
    LinkFault,
    /// Memory is wanting.
    NoMemory,
}

impl From<SeatFault> for NodeFault {
    ghost use Rattle.std.specs.Prelude.{◌≡◌};

    ghost from_gives = { λ fault e. e ≡ seat_fault_of fault };

    fn from(fault: SeatFault) -> NodeFault {
        match fault {
            SeatFault::WrongKey => NodeFault::WrongKey,
            SeatFault::WrongLeaf => NodeFault::WrongLeaf,
            SeatFault::NoMemory => NodeFault::NoMemory,
        }
    }
}

impl From<ServeFault> for NodeFault {
    ghost use Rattle.std.specs.Prelude.{◌≡◌};

    ghost from_gives = { λ fault e. e ≡ serve_fault_of fault };

    fn from(fault: ServeFault) -> NodeFault {
        match fault {
            ServeFault::LinkFault => NodeFault::LinkFault,
            ServeFault::NoMemory => NodeFault::NoMemory,
        }
    }
}
