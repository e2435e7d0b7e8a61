//! What an event's refusal says.

use basil_types::party::Party;
use client_core::CallFault;
use premise_watch::broken::Broken;

/// Why an event is refused; of a breach, the run ends.
#[derive(Debug, Drop)]
pub enum WorldFault {
    Broken(Broken),
    /// The event's messages would pass a limit of the pool, which holds this.
    PoolFull { messages: u64, bytes: u64 },
    /// The client refused the call.
    Call(CallFault),
    /// A faulty party must sign, and has no signature left.
    Exhausted { party: Party },
}
