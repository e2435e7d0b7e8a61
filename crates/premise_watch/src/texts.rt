//! The texts of the transactions that were seen.

ghost use Rattle.std.specs.Prelude.{◌≡◌, [], ◌∷◌, ◌++◌, List, None, IfErr, IfOk, OnOk, OnErr, length, take};
ghost use Rattle.std.specs.Map.{lookup};
ghost use Rattle.std.specs.Str.{bytes_eq};
ghost use Rattle.basil_types.specs.Shown.{transaction_of};
ghost use Rattle.basil_types.specs.Transaction.{TransactionValue};
ghost use Rattle.premise_watch.specs.Breaches.{WatchValue, collision};
ghost use Rattle.premise_watch.specs.Telling.{Tells};
ghost use Rattle.premise_watch.specs.Texts.{AreTexts};
ghost use Rattle.premise_watch.specs.declared.broken.Broken.TheVariants as broken;

use crate::broken::{Broken, WatchFault};
use basil_types::bytes::Bytes;
use basil_types::memory::NoMemory;
use basil_types::transaction::TransactionView;
use id_maps::map::{IdMap, empty_map};
use std::alloc::Global;

/// The first text of each id, in the order in which they came.
#[derive(Drop)]
pub(crate) struct Texts {
    alloc: Global,
    first: IdMap<[u8; 32], Bytes>,
}

impl Texts {
    /// No text. Takes no memory.
    pub(crate) fn new(alloc: Global) -> Texts
        ensures { result.first.entries ≡ [] }
    {
        Texts {
            alloc,
            first: empty_map(alloc),
        }
    }

    /// How many there are.
    pub(crate) fn len(&self) -> usize
        ensures { result ≡ length self.now.first.entries }
    {
        self.first.len()
    }

    /// Takes a transaction that is seen: keeps its text, if it is the first of its id. A text that differs from the
    /// first of its id is a breach, and nothing is kept.
    pub(crate) fn take(&mut self, t: TransactionView<'_>) -> Result<(), WatchFault>
        ensures texts { OnOk result ((texts : List TransactionValue) → AreTexts self.old.first.entries texts
            → AreTexts self.new.first.entries (texts ++ transaction_of t.entry ∷ [])) }
        ensures apart { OnOk result ((w : WatchValue) → AreTexts self.old.first.entries w.texts
            → collision w (transaction_of t.entry) ≡ None) }
        ensures breach { IfErr result (λ fault. (w : WatchValue) → AreTexts self.old.first.entries w.texts
            → Tells (collision w (transaction_of t.entry)) fault) }
        ensures grown { take (length self.old.first.entries) self.new.first.entries ≡ self.old.first.entries }
    {
        let bytes = t.bytes();
        let id = t.id();
        match self.first.get(&id) {
            Some(first) => {
                if first.as_slice() == bytes {
                    Ok(())
                } else {
                    Err(collision(self.alloc, first.as_slice(), bytes))
                }
            }
            None => match self.keep(id, bytes) {
                Ok(()) => Ok(()),
                Err(NoMemory) => Err(WatchFault::NoMemory),
            },
        }
    }

    /// Keeps a text of an id that has none.
    fn keep(&mut self, id: [u8; 32], bytes: &[u8]) -> Result<(), NoMemory>
        requires { lookup (bytes_eq id) self.old.first.entries ≡ None }
        ensures kept { OnOk result (self.new.first.entries ≡ self.old.first.entries ++ (id, bytes.now) ∷ []) }
        ensures as_before { OnErr result (self.new.first.entries ≡ self.old.first.entries) }
    {
        let text = Bytes::copy_of(self.alloc, bytes)?;
        let _ = self.first.insert(id, text)?;
        Ok(())
    }

    /// Keeps the first of them, so many, and no other. Takes no memory.
    pub(crate) fn cut(&mut self, count: usize)
        ensures { self.new.first.entries ≡ take count self.old.first.entries }
    {
        self.first.truncate(count);
    }
}

/// The breach of two texts with one id.
fn collision(alloc: Global, first: &[u8], second: &[u8]) -> WatchFault
    ensures { Tells (Some (broken.Collision first.now second.now)) result }
{
    match copies(alloc, first, second) {
        Ok((first, second)) => WatchFault::Broken(Broken::Collision { first, second }),
        Err(NoMemory) => WatchFault::NoMemory,
    }
}

/// Copies of two texts.
fn copies(alloc: Global, first: &[u8], second: &[u8]) -> Result<(Bytes, Bytes), NoMemory>
    ensures { IfOk result (λ both. both ≡ (first.now, second.now)) }
{
    Ok((
        Bytes::copy_of(alloc, first)?,
        Bytes::copy_of(alloc, second)?,
    ))
}
