//! Owned transactions.

ghost use Rattle.std.specs.Prelude.{◌≡◌, ◌≢◌, IfOk, IfErr, OnOk, None, Some, IsTrue};
ghost use Rattle.basil_types.specs.Built.{built, build_fault};
ghost use Rattle.basil_types.specs.Parsed.{spells_transaction, transaction_in};
ghost use Rattle.basil_types.specs.Transaction.{IsTransaction};
ghost use Rattle.basil_types.specs.Transaction as transactions;
ghost use Rattle.basil_types.specs.Id.{id_of as named_by};

use super::fault::BuildFault;
use super::parts::{ReadPart, WritePart};
use super::spell::{fault_in, spell};
use super::view::TransactionView;
use crate::bytes::id_of;
use crate::memory::NoMemory;
use crate::reading::in_range;
use std::alloc::Global;
use std::marker::Model;

/// A transaction, by its canonical bytes, and its id, which is made once.
#[derive(Drop)]
pub struct Transaction {
    bytes: Vec<u8>,
    id: [u8; 32],
}

impl Model for Transaction {
    ghost use Rattle.std.specs.Prelude.{◌≡◌, IsTrue};
    ghost use Rattle.basil_types.specs.Transaction.{TransactionValue};
    ghost use Rattle.basil_types.specs.Id.{id_of};

    ghost Value = { TransactionValue };

    ghost use Rattle.basil_types.specs.Parsed.{transaction_in, spells_transaction};

    ghost view = { λ t. transaction_in t.bytes.items };

    ghost invariant = { λ t. IsTrue (spells_transaction t.bytes.items) × (t.id ≡ id_of t.bytes.items) };
}

impl Transaction {
    ghost use Rattle.basil_types.specs.Shown.{transaction_of};

    /// The transaction of these parts, of format 2 exactly where some write deletes, or the first fault. Every fault of
    /// the parts comes before want of memory.
    pub fn build(
        alloc: Global,
        time: u64,
        client: u8,
        reads: &[ReadPart],
        writes: &[WritePart],
    ) -> Result<Transaction, BuildFault>
        ensures value { IfOk result (λ t. t ≡ built time client reads.now writes.now) }
        ensures fit { OnOk result (build_fault client reads.now writes.now ≡ None) }
        ensures refused { IfErr result
            (λ e. e ≢ BuildFault.NoMemory → build_fault client reads.now writes.now ≡ Some e) }
        ensures wanting { IfErr result (λ e. e ≡ BuildFault.NoMemory → build_fault client reads.now writes.now ≡ None) }
    {
        match fault_in(client, reads, writes) {
            Some(fault) => Err(fault),
            None => {
                let bytes = spell(alloc, time, client, reads, writes)?;
                let id = id_of(bytes.as_slice());
                Ok(Transaction { bytes, id })
            }
        }
    }

    /// A view of it.
    pub fn view(&self) -> TransactionView<'_>
        ensures value { transaction_of result ≡ self.now }
        ensures in_range { IsTransaction self.now }
    {
        TransactionView::named(in_range(self.bytes.as_slice()), self.id)
    }

    /// Its id: the SHA-256 of its canonical bytes (FIPS 180-4).
    pub fn id(&self) -> [u8; 32]
        ensures { result ≡ transactions.id self.now }
    {
        self.view().id()
    }

    /// An equal transaction, or want of memory.
    pub fn try_copy(&self, alloc: Global) -> Result<Transaction, NoMemory>
        ensures { IfOk result (λ t. t ≡ self.now) }
    {
        Transaction::of_bytes(alloc, self.bytes.as_slice(), self.id)
    }

    /// The transaction with this id that these bytes, whole, spell.
    pub(crate) fn of_bytes(
        alloc: Global,
        bytes: &[u8],
        id: [u8; 32],
    ) -> Result<Transaction, NoMemory>
        requires whole { IsTrue (spells_transaction bytes.now) }
        requires named { id ≡ named_by bytes.now }
        ensures { IfOk result (λ t. t ≡ transaction_in bytes.now) }
    {
        let bytes = Vec::from_slice(alloc, bytes)?;
        Ok(Transaction { bytes, id })
    }
}
