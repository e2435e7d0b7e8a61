//! What a node comes to, once a pool has told its room.

ghost use Rattle.cluster_nodes.specs.Asking.{RefusesAsk};
ghost use Rattle.cluster_nodes.specs.Refusing.{Refuses};

use basil_types::memory::NoMemory;
use basil_types::outbox::Outbox;
use certificates::FrameFault;
use client_core::{AskFault, CallFault};
use replica_core::Refusal;

/// What a node did with a frame or a call.
#[derive(Drop)]
pub enum Handled<E> {
    /// It refused.
    Refused(E),
    /// It would have done something, but what it sends has no room.
    Full,
    /// It did what it does, and sends and signed this.
    Sent(Outbox),
}

/// A refusal for want of memory is no answer of the node.
pub(crate) fn refused(refusal: Refusal) -> Result<Handled<Refusal>, NoMemory>
    ensures { Refuses refusal result }
{
    if refusal == Refusal::NoMemory {
        Err(NoMemory)
    } else {
        Ok(Handled::Refused(refusal))
    }
}

/// Want of memory is no answer of a client.
pub(crate) fn refused_ask(fault: AskFault) -> Result<Handled<AskFault>, NoMemory>
    ensures { RefusesAsk fault result }
{
    match fault {
        AskFault::Call(call) => match call {
            CallFault::NoMemory => Err(NoMemory),
            call => Ok(Handled::Refused(AskFault::Call(call))),
        },
        AskFault::Frame(frame) => match frame {
            FrameFault::NoMemory => Err(NoMemory),
            frame => Ok(Handled::Refused(AskFault::Frame(frame))),
        },
    }
}
