//! A transaction that was formed.

ghost use Rattle.std.specs.Prelude.{◌≡◌, IfOk};
ghost use Rattle.frame_views.specs.Fitting.{IsSignature};

use basil_types::bytes::Bytes;
use basil_types::memory::NoMemory;
use basil_types::transaction::Transaction;
use std::alloc::Global;
use std::marker::Model;

/// A transaction that was formed, with its client's signature, 1 to 8,192 bytes. Contracts see it as these two.
#[derive(Drop)]
pub struct Signed {
    transaction: Transaction,
    signature: Bytes,
    ghost sized: { IsSignature signature },
}

impl Model for Signed {
    ghost use Rattle.frame_views.specs.Values.{SignedValue};

    ghost Value = { SignedValue };

    ghost view = { λ x. record { transaction = x.transaction; signature = x.signature } };
}

impl Signed {
    /// A transaction with this signature. Takes no memory.
    pub fn new(transaction: Transaction, signature: Bytes) -> Signed
        requires { IsSignature signature }
        ensures { result ≡ record { transaction = transaction; signature = signature } }
    {
        Signed {
            transaction,
            signature,
        }
    }

    /// A copy of a transaction, with a copy of this signature, or want of memory.
    pub(crate) fn copy_of(
        alloc: Global,
        transaction: &Transaction,
        signature: &[u8],
    ) -> Result<Signed, NoMemory>
        requires { IsSignature signature.now }
        ensures { IfOk result (λ x. x ≡ record { transaction = transaction.now; signature = signature.now }) }
    {
        let transaction = transaction.try_copy(alloc)?;
        let signature = Bytes::copy_of(alloc, signature)?;
        Ok(Signed::new(transaction, signature))
    }

    /// The transaction.
    pub(crate) fn transaction(&self) -> &Transaction
        ensures { result.now ≡ self.now.transaction }
    {
        &self.transaction
    }

    /// Its client's signature.
    pub(crate) fn signature(&self) -> &[u8]
        ensures value { result.now ≡ self.now.signature }
        ensures fits { IsSignature result.now }
    {
        self.signature.as_slice()
    }
}
