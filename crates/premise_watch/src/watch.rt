//! The watch over the frames of a run.

ghost use Rattle.std.specs.Prelude.{◌≡◌, [], ◌∷◌, ◌++◌, IfErr, OnOk, OnErr, option_map, ◌||◌, List};
ghost use Rattle.std.specs.List.{list_any};
ghost use Rattle.basil_types.specs.Shown.{transaction_of};
ghost use Rattle.certificates.specs.Accepted.{Accepted};
ghost use Rattle.frame_views.specs.Fitting.{IsSpoken};
ghost use Rattle.frame_views.specs.Shown.{message_of};
ghost use Rattle.frame_views.specs.Walks.{signed_of, signed_left};
ghost use Rattle.premise_watch.specs.Breaches.{WatchValue, forged, said};
ghost use Rattle.premise_watch.specs.Looks.{Holds, Grown, Passes, Breaks};
ghost use Rattle.premise_watch.specs.Marks.{as_marks, marks, maybe_text};
ghost use Rattle.premise_watch.specs.Parts.{maybe_signature, parts_marks};
ghost use Rattle.premise_watch.specs.Telling.{Tells};

use crate::broken::{Broken, WatchFault};
use crate::faulty::Faulty;
use crate::noted::Noted;
use crate::parts::{Parts, parts_of};
use crate::texts::Texts;
use basil_types::bytes::Bytes;
use basil_types::memory::NoMemory;
use basil_types::party::Party;
use basil_types::transaction::TransactionView;
use basil_types::words::Words;
use frame_views::frames::MessageView;
use frame_views::signed::{Signatures, SignedItem};
use keyring::verifier::Verifier;
use std::alloc::Global;

/// The words that parties signed, and the transactions that were seen. Contracts see the lists of these that the watch
/// stands for, and the transactions that were seen before the last frame, to which `undo` goes back.
#[derive(Drop)]
pub struct Watch {
    alloc: Global,
    noted: Noted,
    texts: Texts,
    /// How many of the texts were kept before the last frame.
    before: usize,
}

impl Watch {
    ghost use Rattle.premise_watch.specs.Watches.{Watches, KeepsWatching, Notes, Sees};
    ghost use Rattle.premise_watch.specs.Watches.{GoesBack, IsSound, IsFirstBreach};

    /// A watch that knows of no words and has seen nothing. Takes no memory.
    pub fn new(alloc: Global) -> Watch
        ensures { (faulty : List Party) → Watches result (record { faulty = faulty; signed = []; texts = [] }) [] }
    {
        Watch {
            alloc,
            noted: Noted::new(alloc),
            texts: Texts::new(alloc),
            before: 0,
        }
    }

    /// Notes that a party signed these words, or finds memory wanting and changes nothing.
    pub fn note(&mut self, party: Party, words: &Words) -> Result<(), NoMemory>
        ensures noted { OnOk result (Notes self.old self.new party words.now) }
        ensures as_before { OnErr result (KeepsWatching self.old self.new) }
    {
        self.noted.add(party, words)
    }

    /// Sees a frame, nested certificates too, in the order of its bytes. It is refused by the first breach: a signature
    /// that is accepted for a party that isn't faulty, on words that weren't noted, or a transaction whose text differs
    /// from another one of its id that was seen. A refusal, also for want of memory, leaves the watch as before.
    ///
    /// Each signature's words and each transaction's id are looked up once, and the keyring is asked only where a
    /// signature's words weren't noted.
    pub fn see<V: Verifier>(
        &mut self,
        keys: &V,
        faulty: &Faulty,
        m: &MessageView<'_>,
    ) -> Result<(), WatchFault>
        requires { IsSpoken (message_of m.now) }
        ensures sound { OnOk result (IsSound (V.accepted keys.now) faulty.now self.old (marks (message_of m.now))) }
        ensures seen { OnOk result (Sees self.old self.new faulty.now (marks (message_of m.now))) }
        ensures breach { IfErr result
            (IsFirstBreach (V.accepted keys.now) faulty.now self.old (marks (message_of m.now))) }
        ensures as_before { OnErr result (KeepsWatching self.old self.new) }
    {
        let before = self.texts.len();
        match self.look(keys, faulty, parts_of(m)) {
            Ok(()) => {
                self.before = before;
                Ok(())
            }
            Err(fault) => {
                self.texts.cut(before);
                Err(fault)
            }
        }
    }

    /// Takes back the last `see` that was Ok, once: where there is none, or it was taken back, nothing changes. What
    /// was noted stays. Takes no memory.
    pub fn undo(&mut self)
        ensures { GoesBack self.old self.new }
    {
        self.texts.cut(self.before);
    }

    /// Looks at the parts of a frame, and keeps the texts before the first breach.
    fn look<V: Verifier>(
        &mut self,
        keys: &V,
        faulty: &Faulty,
        parts: Parts<'_>,
    ) -> Result<(), WatchFault>
        ensures passed { OnOk result
            (Passes (V.accepted keys.now) faulty.now self.old (parts_marks parts.entry) self.new) }
        ensures breach { IfErr result
            (Breaks (V.accepted keys.now) faulty.now self.old (parts_marks parts.entry)) }
        ensures grown { Grown self.old self.new }
    {
        self.look_at(keys, faulty, parts.first, parts.own)?;
        self.look_at_text(parts.rival)?;
        self.refuse_forgeries(keys, faulty, parts.signed)?;
        self.look_at(keys, faulty, parts.prepared, parts.last)
    }

    /// Looks at a transaction and then at a signature, where they are there.
    fn look_at<V: Verifier>(
        &mut self,
        keys: &V,
        faulty: &Faulty,
        transaction: Option<TransactionView<'_>>,
        signature: Option<SignedItem<'_>>,
    ) -> Result<(), WatchFault>
        ensures passed { OnOk result (Passes (V.accepted keys.now) faulty.now self.old
            (maybe_text (option_map transaction_of transaction.entry) ++ maybe_signature signature.entry) self.new) }
        ensures breach { IfErr result (Breaks (V.accepted keys.now) faulty.now self.old
            (maybe_text (option_map transaction_of transaction.entry) ++ maybe_signature signature.entry)) }
        ensures grown { Grown self.old self.new }
    {
        self.look_at_text(transaction)?;
        self.look_at_signature(keys, faulty, signature)
    }

    /// Looks at a transaction, where one is there.
    fn look_at_text(&mut self, transaction: Option<TransactionView<'_>>) -> Result<(), WatchFault>
        ensures passed { OnOk result ((A : Accepted) (faulty : List Party)
            → Passes A faulty self.old (maybe_text (option_map transaction_of transaction.entry)) self.new) }
        ensures breach { IfErr result (λ fault. (A : Accepted) (faulty : List Party)
            → Breaks A faulty self.old (maybe_text (option_map transaction_of transaction.entry)) fault) }
        ensures grown { Grown self.old self.new }
    {
        match transaction {
            Some(transaction) => self.texts.take(transaction),
            None => Ok(()),
        }
    }

    /// Looks at a signature, where one is there.
    fn look_at_signature<V: Verifier>(
        &self,
        keys: &V,
        faulty: &Faulty,
        signature: Option<SignedItem<'_>>,
    ) -> Result<(), WatchFault>
        ensures passed { OnOk result (Passes (V.accepted keys.now) faulty.now self.now
            (maybe_signature signature.entry) self.now) }
        ensures breach { IfErr result (Breaks (V.accepted keys.now) faulty.now self.now
            (maybe_signature signature.entry)) }
    {
        match signature {
            Some(item) => self.refuse_forgery(keys, faulty, item),
            None => Ok(()),
        }
    }

    /// Refuses signatures by the first that is forged.
    fn refuse_forgeries<V: Verifier>(
        &self,
        keys: &V,
        faulty: &Faulty,
        signed: Signatures<'_>,
    ) -> Result<(), WatchFault>
        ensures passed { OnOk result (Passes (V.accepted keys.now) faulty.now self.now
            (as_marks (signed_left signed.entry)) self.now) }
        ensures breach { IfErr result (Breaks (V.accepted keys.now) faulty.now self.now
            (as_marks (signed_left signed.entry))) }
    {
        for item in signed {
            self.refuse_forgery(keys, faulty, item)?;
        }
        Ok(())
    }

    /// Refuses a signature that is accepted for a party that isn't faulty, on words that were not noted.
    fn refuse_forgery<V: Verifier>(
        &self,
        keys: &V,
        faulty: &Faulty,
        item: SignedItem<'_>,
    ) -> Result<(), WatchFault>
        ensures passed { OnOk result (Passes (V.accepted keys.now) faulty.now self.now
            (as_marks (signed_of item.entry ∷ [])) self.now) }
        ensures breach { IfErr result (Breaks (V.accepted keys.now) faulty.now self.now
            (as_marks (signed_of item.entry ∷ []))) }
    {
        if self.noted.has(item.party, &item.words)
            || faulty.has(item.party)
            || !keys.accepts(item.party, item.words.bytes(), item.signature)
        {
            return Ok(());
        }
        let signature = Bytes::copy_of(self.alloc, item.signature)?;
        Err(WatchFault::Broken(Broken::Forged {
            party: item.party,
            words: item.words,
            signature,
        }))
    }
}
