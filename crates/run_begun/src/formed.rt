//! A transaction that its client formed.

ghost use Rattle.std.specs.Prelude.{◌≡◌, false, IfOk};
ghost use Rattle.frame_views.specs.Fitting.{IsSignature};
ghost use Rattle.txn_meta.specs.Form.{is_empty};

use basil_types::bytes::Bytes;
use basil_types::memory::NoMemory;
use basil_types::transaction::Transaction;
use std::alloc::Global;
use std::marker::Model;

/// A transaction that its client formed, which reads or writes some key, with its client's signature, 1 to 8,192 bytes.
#[derive(Drop)]
pub struct Formed {
    transaction: Transaction,
    signature: Bytes,
    ghost some: { is_empty transaction ≡ false },
    ghost sized: { IsSignature signature },
}

impl Model for Formed {
    ghost use Rattle.cluster_run.specs.States.{FormedValue};

    ghost Value = { FormedValue };

    ghost view = { λ f. record { transaction = f.transaction; signature = f.signature } };
}

impl Formed {
    /// A transaction with this signature. Takes no memory.
    pub fn new(transaction: Transaction, signature: Bytes) -> Formed
        requires some { is_empty transaction ≡ false }
        requires fits { IsSignature signature }
        ensures { result ≡ record { transaction = transaction; signature = signature } }
    {
        Formed {
            transaction,
            signature,
        }
    }

    /// A copy of a transaction, with a copy of this signature, or want of memory.
    pub fn copy_of(
        alloc: Global,
        transaction: &Transaction,
        signature: &[u8],
    ) -> Result<Formed, NoMemory>
        requires some { is_empty transaction.now ≡ false }
        requires fits { IsSignature signature.now }
        ensures { IfOk result (λ f. f ≡ record { transaction = transaction.now; signature = signature.now }) }
    {
        let transaction = transaction.try_copy(alloc)?;
        let signature = Bytes::copy_of(alloc, signature)?;
        Ok(Formed::new(transaction, signature))
    }

    /// The transaction.
    pub fn transaction(&self) -> &Transaction
        ensures value { result.now ≡ self.now.transaction }
        ensures some { is_empty result.now ≡ false }
    {
        &self.transaction
    }

    /// The signature of the transaction's client, 1 to 8,192 bytes.
    pub fn signature(&self) -> &[u8]
        ensures value { result.now ≡ self.now.signature }
        ensures fits { IsSignature result.now }
    {
        self.signature.as_slice()
    }
}
