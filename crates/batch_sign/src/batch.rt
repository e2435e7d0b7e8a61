//! Batches.

ghost use Rattle.std.specs.Prelude.{◌≡◌, ◌≢◌, ◌<◌, ◌≤◌, ◌+◌, ◌++◌, ◌∷◌, ◌↔◌, [], length, None, Some};
ghost use Rattle.std.specs.Prelude.{IfOk, IfErr, OnOk, OnErr, IsErrOf};
ghost use Rattle.batch_sign.specs.Batches.{add_fault, sign_fault};
ghost use Rattle.batch_sign.specs.Trees.{most_messages};
ghost use Rattle.batch_sign.specs.Signatures as signatures;
ghost use Rattle.batch_sign.specs.Signatures.{AllHold, sealing_of};

use crate::hashing::leaf_of;
use crate::sealed::{SealedBatch, seal};
use basil_types::bytes::Bytes;
use basil_types::list::List;
use basil_types::memory::NoMemory;
use keyring::signer::Signer;
use std::alloc::Global;
use std::marker::Model;

/// Why a batch doesn't take a message, or isn't signed.
#[derive(Clone, Copy, Debug, PartialEq, Eq)]
pub enum BatchFault {
    /// It has 256 messages.
    Full,
    /// The message has no byte, or more than 8,192.
    SizeOut,
    /// It has no message.
    Empty,
    /// The pen has no signature left.
    Exhausted,
    /// Memory is wanting.
    NoMemory,
}

impl From<NoMemory> for BatchFault {
    ghost use Rattle.std.specs.Prelude.{◌≡◌};
    ghost use Rattle.batch_sign.specs.declared.batch.BatchFault.{BatchFault};

    ghost from_gives = { λ _ fault. fault ≡ BatchFault.NoMemory };

    fn from(_refused: NoMemory) -> BatchFault {
        BatchFault::NoMemory
    }
}

/// At most 256 messages that one signature is made for, in the order in which they were added. Contracts see them as a
/// list.
#[derive(Drop)]
pub struct Batch {
    alloc: Global,
    messages: List<Bytes>,
}

impl Model for Batch {
    ghost use Rattle.std.specs.Prelude.{◌≤◌, ℕ, List, length};
    ghost use Rattle.batch_sign.specs.Trees.{most_messages};

    ghost Value = { List (List ℕ) };

    ghost view = { λ batch. batch.messages.items };

    ghost invariant = { λ batch. length batch.messages.items ≤ most_messages };
}

/// The leaves of messages.
pub(crate) fn leaves_of(alloc: Global, messages: &[Bytes]) -> Result<Vec<[u8; 32]>, NoMemory>
    ensures { IfOk result (λ leaves. leaves.items ≡ signatures.leaves_of messages.now) }
{
    let mut leaves = Vec::new(alloc);
    for message in messages {
        leaves.push(leaf_of(message.as_slice()))?;
    }
    Ok(leaves)
}

impl Batch {
    /// A batch without a message. Takes no memory.
    pub fn new(alloc: Global) -> Batch
        ensures { result ≡ [] }
    {
        Batch {
            alloc,
            messages: List::new(alloc),
        }
    }

    /// Its messages, lent.
    pub fn messages(&self) -> &[Bytes]
        ensures are { result.now ≡ self.now }
        ensures most { length self.now ≤ most_messages }
    {
        self.messages.as_slice()
    }

    /// Adds a message of 1 to 8,192 bytes behind the others, and tells its place. After a refusal the batch is as
    /// before.
    pub fn add(&mut self, message: &[u8]) -> Result<u16, BatchFault>
        ensures place { IfOk result (λ place. place ≡ length self.old) }
        ensures added { OnOk result (self.new ≡ self.old ++ message.now ∷ []) }
        ensures taken { OnOk result (add_fault self.old message.now ≡ None) }
        ensures refused { IfErr result (λ fault.
            fault ≢ BatchFault.NoMemory → add_fault self.old message.now ≡ Some fault) }
        ensures as_before { OnErr result (self.new ≡ self.old) }
    {
        let place = self.messages.as_slice().len();
        if place >= 256 {
            return Err(BatchFault::Full);
        }
        if message.len() < 1 || message.len() > 8192 {
            return Err(BatchFault::SizeOut);
        }
        let message = Bytes::copy_of(self.alloc, message)?;
        self.messages.room_for(1)?;
        self.messages.push(message);
        Ok(place as u16)
    }

    /// Signs the root words of all messages with the next signature of a pen. Empty exactly where there is no message,
    /// and else Exhausted exactly where the pen has no signature left. After a refusal the pen is as before.
    pub fn sign<S: Signer>(&self, pen: &mut S) -> Result<SealedBatch, BatchFault>
        ensures sealed { IfOk result (λ s. s ≡ sealing_of (S.fixed pen.old) (S.spent pen.old) self.now) }
        ensures accepted { OnOk result (AllHold (S.fixed pen.old).holds (S.fixed pen.old).party self.now
            (sealing_of (S.fixed pen.old) (S.spent pen.old) self.now)) }
        ensures spent { OnOk result (S.spent pen.new ≡ S.spent pen.old + 1) }
        ensures left { OnOk result (S.left_of pen.new + 1 ≡ S.left_of pen.old) }
        ensures fixed { S.fixed pen.new ≡ S.fixed pen.old }
        ensures empty { IsErrOf result BatchFault.Empty ↔ (length self.now ≡ 0) }
        ensures exhausted { IsErrOf result BatchFault.Exhausted ↔ ((0 < length self.now) × (S.left_of pen.old ≡ 0)) }
        ensures refused { IfErr result (λ fault.
            fault ≢ BatchFault.NoMemory → sign_fault self.now (S.left_of pen.old) ≡ Some fault) }
        ensures as_before { OnErr result (pen.new ≡ pen.old) }
    {
        if self.messages.as_slice().is_empty() {
            return Err(BatchFault::Empty);
        }
        if pen.left() == 0 {
            return Err(BatchFault::Exhausted);
        }
        let leaves = leaves_of(self.alloc, self.messages.as_slice())?;
        Ok(seal(self.alloc, leaves, pen)?)
    }
}
