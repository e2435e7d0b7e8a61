//! What a planned call or frame does.

ghost use Rattle.std.specs.Prelude.{◌≡◌, ◌+◌, IfSome, length};
ghost use Rattle.client_core.specs.Letting.{takes_in};
ghost use Rattle.client_core.specs.Works.{pending_bytes, pending_count, word_count};
ghost use Rattle.node_steps.specs.Pendings.{bytes_sent};

use crate::asking::Asking;
use crate::held::Slot;
use crate::replies::KeptReply;
use basil_types::memory::NoMemory;
use basil_types::outbox::{Envelope, Outbox};
use basil_types::transaction::Transaction;
use node_steps::pending::Pending;

/// What a planned call or frame does to what is held.
#[derive(Drop)]
pub enum Work {
    Nothing,
    /// The transaction in a slot asks for a key.
    Ask {
        slot: usize,
        asked: Asking,
    },
    /// The transaction in a slot is formed, and pursued with the signature that waits.
    Pursue {
        slot: usize,
        formed: Transaction,
        pending: Pending,
    },
    /// The second stage of the transaction in a slot starts.
    Start {
        slot: usize,
    },
    /// A recovered transaction is held in a new slot.
    Hold {
        recovered: Slot,
    },
    /// The read at a place of the transaction in a slot keeps a reply.
    Reply {
        slot: usize,
        read: usize,
        reply: KeptReply,
    },
    /// The transaction in a slot takes the frame that is held back; its second stage may start.
    Take {
        slot: usize,
        starts: bool,
    },
}

/// A planned call or frame: what it does, what it sends beside what waits for a signature, the slot that a recovery
/// answers, and how many messages it sends, with how many bytes in their frames.
#[derive(Drop)]
pub struct ClientPlan {
    pub(crate) work: Work,
    pub(crate) out: Outbox,
    pub(crate) slot: Option<u32>,
    pub(crate) messages: u64,
    pub(crate) bytes: u64,
}

/// The bytes of the frames of these messages. None only where the sum passes 2^64 - 1.
fn bytes_of(messages: &[Envelope]) -> Option<u64>
    ensures { IfSome result (λ n. n ≡ bytes_sent messages.now) }
{
    let mut bytes = 0u64;
    for envelope in messages {
        bytes = bytes.checked_add(envelope.frame.as_slice().len() as u64)?;
    }
    Some(bytes)
}

impl Work {
    /// How many messages it sends, that wait for its signature.
    fn messages(&self) -> usize
        ensures { result ≡ pending_count self.now }
    {
        match self {
            Work::Pursue { pending, .. } => pending.frames.len(),
            Work::Nothing
            | Work::Ask { .. }
            | Work::Start { .. }
            | Work::Hold { .. }
            | Work::Reply { .. }
            | Work::Take { .. } => 0,
        }
    }

    /// The bytes of these messages, with signatures of this size. None only where the sum passes 2^64 - 1.
    fn bytes(&self, size: usize) -> Option<u64>
        ensures { IfSome result (λ n. n ≡ pending_bytes size self.now) }
    {
        match self {
            Work::Pursue { pending, .. } => pending.bytes(size),
            Work::Nothing
            | Work::Ask { .. }
            | Work::Start { .. }
            | Work::Hold { .. }
            | Work::Reply { .. }
            | Work::Take { .. } => Some(0),
        }
    }

    /// The slot in which a frame is held back that it takes. None where it takes none.
    pub(crate) fn takes_in(&self) -> Option<usize>
        ensures { result ≡ takes_in self.now }
    {
        match self {
            Work::Take { slot, .. } => Some(*slot),
            Work::Nothing
            | Work::Ask { .. }
            | Work::Pursue { .. }
            | Work::Start { .. }
            | Work::Hold { .. }
            | Work::Reply { .. } => None,
        }
    }

    /// How many words it signs.
    pub(crate) fn words(&self) -> usize
        ensures { result ≡ word_count self.now }
    {
        match self {
            Work::Pursue { .. } => 1,
            Work::Nothing
            | Work::Ask { .. }
            | Work::Start { .. }
            | Work::Hold { .. }
            | Work::Reply { .. }
            | Work::Take { .. } => 0,
        }
    }
}

/// How many messages a plan sends. None only where the sum passes 2^64 - 1.
fn message_sum(work: &Work, out: &Outbox) -> Option<u64>
    ensures { IfSome result (λ n. n ≡ length out.now.messages.items + pending_count work.now) }
{
    match out.messages.as_slice().len().checked_add(work.messages()) {
        Some(count) => Some(count as u64),
        None => None,
    }
}

/// How many bytes the frames of a plan's messages have. None only where the sum passes 2^64 - 1.
fn byte_sum(work: &Work, out: &Outbox, size: usize) -> Option<u64>
    ensures { IfSome result (λ n. n ≡ bytes_sent out.now.messages.items + pending_bytes size work.now) }
{
    let sent = bytes_of(out.messages.as_slice())?;
    sent.checked_add(work.bytes(size)?)
}

impl ClientPlan {
    ghost use Rattle.std.specs.Prelude.{IfOk, None, Some};
    ghost use Rattle.client_core.specs.Works.{IsPlanOf};

    /// The plan of this work, with messages that are sent beside, for signatures of this size, which is of no account
    /// where none is given. Memory is wanting where the messages can't be counted.
    pub(crate) fn of(work: Work, out: Outbox, size: usize) -> Result<ClientPlan, NoMemory>
        ensures plan { IfOk result (IsPlanOf size work out) }
        ensures slot { IfOk result (λ plan. plan.slot ≡ None) }
    {
        let Some(messages) = message_sum(&work, &out) else {
            return Err(NoMemory);
        };
        let Some(bytes) = byte_sum(&work, &out, size) else {
            return Err(NoMemory);
        };
        Ok(ClientPlan {
            work,
            out,
            slot: None,
            messages,
            bytes,
        })
    }

    /// The same plan of a recovery, which answers this slot.
    pub(crate) fn in_slot(self, slot: u32) -> ClientPlan
        ensures { result ≡ record self { slot = Some slot } }
    {
        let mut plan = self;
        plan.slot = Some(slot);
        plan
    }

    /// How many messages it sends.
    pub fn messages(&self) -> u64
        ensures { result ≡ self.now.messages }
    {
        self.messages
    }

    /// How many bytes the frames of its messages have together.
    pub fn bytes(&self) -> u64
        ensures { result ≡ self.now.bytes }
    {
        self.bytes
    }

    /// The slot that `recover` would answer. None for every other call, and for a frame.
    pub fn slot(&self) -> Option<u32>
        ensures { result ≡ self.now.slot }
    {
        self.slot
    }
}
