//! Views of transactions in borrowed bytes.

ghost use Rattle.std.specs.Prelude.{◌≡◌, IsTrue};
ghost use Rattle.basil_types.specs.Parsed.{spells_transaction};
ghost use Rattle.basil_types.specs.Id.{id_of};

use super::fault::PartFault;
use super::lists::{Front, ReadsIter, ReadsView, WritesIter, WritesView};
use super::owned::Transaction;
use super::parse::{before_writes, first, read_front};
use super::parts::{ReadItem, WriteItem};
use crate::bytes::id_of;
use crate::memory::NoMemory;
use crate::reading::{behind, between, in_range};
use std::alloc::Global;

/// A transaction, by its canonical bytes, which were checked, and its id, which is made once.
#[derive(Clone, Copy)]
pub struct TransactionView<'a> {
    bytes: &'a [u8],
    id: [u8; 32],
    ghost whole: { IsTrue (spells_transaction bytes.now) },
    ghost named: { id ≡ id_of bytes.now },
}

impl<'a> TransactionView<'a> {
    ghost use Rattle.std.specs.Prelude.{◌≡◌, ◌≤◌, IfOk, Ok, length, drop, option_map, slice_get};
    ghost use Rattle.basil_types.specs.Steps.{Gives};
    ghost use Rattle.basil_types.specs.Transaction.{TransactionValue, IsTransaction, Begins, canonical};
    ghost use Rattle.basil_types.specs.Transaction as transactions;
    ghost use Rattle.basil_types.specs.Placed.{transaction_from};
    ghost use Rattle.basil_types.specs.Parsed.{transaction_in};
    ghost use Rattle.basil_types.specs.Shown.{transaction_of, read_of, write_of, reads_left, writes_left};
    ghost use Rattle.basil_types.specs.Inner.{reads_of, writes_of, head_of};

    /// The transaction that begins at this offset, whatever follows it, or the first fault, with its offset in `bytes`.
    /// A transaction is: format, 1 or 2; u64 time; client, 1 to 16; number of reads, at most 32; the reads; number of
    /// writes, at most 32; the writes. A read is key, version, flag; a write of format 1 is key, value, and one of
    /// format 2 key, flag, and where the flag is 1 the value. The keys of each list ascend strictly by their bytes.
    pub fn read(bytes: &'a [u8], at: usize) -> Result<TransactionView<'a>, PartFault>
        requires { at ≤ length bytes.now }

        // What is read is a transaction, and its canonical bytes stand there.
        ensures found { IfOk result (λ t. Begins (drop at bytes.now) (transaction_of t)) }
        // Each transaction whose canonical bytes stand there is read.
        ensures only { (t : TransactionValue) → Begins (drop at bytes.now) t → Gives transaction_of result (Ok t) }
        // Which transaction, and which fault.
        ensures exact { Gives transaction_of result (transaction_from at bytes.now) }
    {
        match first(behind(at, bytes)) {
            Ok((view, _rest)) => Ok(view),
            Err(fault) => Err(fault.place(bytes.len())),
        }
    }

    /// The format: 2 exactly where it may hold deletions, and otherwise 1.
    pub fn format(&self) -> u8
        ensures value { result ≡ (transaction_of self.now).format }
        ensures in_range { IsTransaction (transaction_of self.now) }
    {
        self.front().format
    }

    /// The time.
    pub fn time(&self) -> u64
        ensures value { result ≡ (transaction_of self.now).time }
        ensures in_range { IsTransaction (transaction_of self.now) }
    {
        self.front().time
    }

    /// The client, 1 to 16.
    pub fn client(&self) -> u8
        ensures value { result ≡ (transaction_of self.now).client }
        ensures in_range { IsTransaction (transaction_of self.now) }
    {
        self.front().client
    }

    /// The canonical bytes.
    pub fn bytes(&self) -> &'a [u8]
        ensures spelled { result.now ≡ canonical (transaction_of self.now) }
        ensures in_range { IsTransaction (transaction_of self.now) }
    {
        in_range(self.bytes)
    }

    /// The id: the SHA-256 of the canonical bytes (FIPS 180-4).
    pub fn id(&self) -> [u8; 32]
        ensures { result ≡ transactions.id (transaction_of self.now) }
    {
        let _ = in_range(self.bytes);
        self.id
    }

    /// The read at a place, from 0. None exactly past the end.
    pub fn read_at(&self, place: usize) -> Option<ReadItem<'a>>
        ensures { option_map read_of result ≡ slice_get (transaction_of self.now).reads place }
    {
        self.read_list().at(place)
    }

    /// The write at a place, from 0. None exactly past the end.
    pub fn write_at(&self, place: usize) -> Option<WriteItem<'a>>
        ensures { option_map write_of result ≡ slice_get (transaction_of self.now).writes place }
    {
        self.write_list().at(place)
    }

    /// The reads, ascending by key, by one walk over their bytes.
    pub fn reads(&self) -> ReadsIter<'a>
        ensures all { reads_left result ≡ (transaction_of self.now).reads }
        ensures in_range { IsTransaction (transaction_of self.now) }
    {
        let _ = self.bytes();
        self.read_list().iter()
    }

    /// The writes, ascending by key, by one walk over their bytes.
    pub fn writes(&self) -> WritesIter<'a>
        ensures all { writes_left result ≡ (transaction_of self.now).writes }
        ensures in_range { IsTransaction (transaction_of self.now) }
    {
        let _ = self.bytes();
        self.write_list().iter()
    }

    /// An owned transaction with the same bytes, or want of memory.
    pub fn try_owned(&self, alloc: Global) -> Result<Transaction, NoMemory>
        ensures { IfOk result (λ t. t ≡ transaction_of self.now) }
    {
        Transaction::of_bytes(alloc, self.bytes, self.id)
    }

    /// The view of bytes that, whole, spell a transaction.
    pub(crate) fn of(bytes: &'a [u8]) -> TransactionView<'a>
        requires { IsTrue (spells_transaction bytes.now) }
        ensures { transaction_of result ≡ transaction_in bytes.now }
    {
        TransactionView {
            bytes,
            id: id_of(bytes),
        }
    }

    /// The view of bytes that, whole, spell the transaction with this id.
    pub(crate) fn named(bytes: &'a [u8], id: [u8; 32]) -> TransactionView<'a>
        requires whole { IsTrue (spells_transaction bytes.now) }
        requires named { id ≡ id_of bytes.now }
        ensures { transaction_of result ≡ transaction_in bytes.now }
    {
        TransactionView { bytes, id }
    }

    fn front(&self) -> Front
        ensures shown { let t = transaction_of self.now in head_of result
            ≡ record { format = t.format; time = t.time; client = t.client } }
        ensures in_range { IsTransaction (transaction_of self.now) }
    {
        match read_front(in_range(self.bytes)) {
            Ok((front, _rest)) => front,
            Err(_) => unreachable!(),
        }
    }

    fn read_list(&self) -> ReadsView<'a>
        ensures { reads_of result ≡ (transaction_of self.now).reads }
    {
        match read_front(self.bytes) {
            Ok((_front, rest)) => match between(0, 33, rest) {
                Ok((count, items)) => ReadsView::new(count, items),
                Err(_) => unreachable!(),
            },
            Err(_) => unreachable!(),
        }
    }

    fn write_list(&self) -> WritesView<'a>
        ensures { writes_of result ≡ (transaction_of self.now).writes }
    {
        match before_writes(self.bytes) {
            Ok((format, rest)) => match between(0, 33, rest) {
                Ok((count, items)) => WritesView::new(format, count, items),
                Err(_) => unreachable!(),
            },
            Err(_) => unreachable!(),
        }
    }
}
