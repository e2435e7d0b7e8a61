//! The words that parties signed.

ghost use Rattle.std.specs.Prelude.{◌≡◌, [], OnOk, OnErr, IsSome};

use crate::parties::is_among;
use basil_types::memory::NoMemory;
use basil_types::party::Party;
use basil_types::words::Words;
use std::alloc::Global;
use std::collections::BTreeMap;

/// The parties that signed words, by the words.
#[derive(Drop)]
pub(crate) struct Noted {
    alloc: Global,
    signers: BTreeMap<Vec<u8>, Vec<Party>>,
}

impl Noted {
    ghost use Rattle.std.specs.Prelude.{List, ℕ};
    ghost use Rattle.premise_watch.specs.Parties as parties;
    ghost use Rattle.premise_watch.specs.Signers.{Adds, SameSigners, listed_at, signers_of};

    /// Nobody signed anything. Takes no memory.
    pub(crate) fn new(alloc: Global) -> Noted
        ensures { (words : List ℕ) → signers_of result words ≡ [] }
    {
        Noted {
            alloc,
            signers: BTreeMap::new(alloc),
        }
    }

    /// Whether a party signed these words.
    pub(crate) fn has(&self, party: Party, words: &Words) -> bool
        ensures { result ≡ parties.is_among (signers_of self.now words.now) party }
    {
        match self.signers.get(words.bytes()) {
            Some(signers) => is_among(signers.as_slice(), party),
            None => false,
        }
    }

    /// Notes that a party signed these words.
    pub(crate) fn add(&mut self, party: Party, words: &Words) -> Result<(), NoMemory>
        ensures added { OnOk result (Adds self.old self.new words.now party) }
        ensures as_before { OnErr result (SameSigners self.old self.new) }
    {
        self.add_words(words)?;
        match self.signers.get_mut(words.bytes()) {
            Some(signers) => {
                signers.push(party)?;
                Ok(())
            }
            None => unreachable!(),
        }
    }

    /// Gives words a list of nobody, where they have none.
    fn add_words(&mut self, words: &Words) -> Result<(), NoMemory>
        ensures same { SameSigners self.old self.new }
        ensures there { OnOk result (IsSome (listed_at self.new words.now)) }
    {
        let bytes = words.bytes();
        if self.signers.contains_key(bytes) {
            return Ok(());
        }
        let key = Vec::from_slice(self.alloc, bytes)?;
        self.signers.insert(key, Vec::new(self.alloc))?;
        Ok(())
    }
}
