//! What a client can be asked to plan.

use basil_types::transaction::Transaction;
use certificates::FrameFault;
use client_steps::fault::CallFault;

/// What a client is asked to plan: a call, or the answer to a frame.
#[derive(Clone, Copy)]
pub enum Ask<'a> {
    /// A key is read.
    Read {
        slot: u32,
        key: &'a [u8],
    },
    /// The transaction in a slot is formed and signed.
    Prepare {
        slot: u32,
    },
    /// Its second stage starts, where the votes allow it.
    Settle {
        slot: u32,
    },
    /// A transaction that its client signed is recovered.
    Recover {
        t: &'a Transaction,
        signature: &'a [u8],
    },
    /// The fallback is invoked.
    Invoke {
        slot: u32,
    },
    /// A frame came.
    Frame {
        frame: &'a [u8],
    },
}

/// Why a client refuses what it is asked to plan.
#[derive(Debug, Drop)]
pub enum AskFault {
    Call(CallFault),
    Frame(FrameFault),
}
