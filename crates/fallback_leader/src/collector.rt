//! The election words that a leader has collected.

ghost use Rattle.std.specs.Prelude.{◌≡◌, [], IfOk, IfSome, OnErr, OnOk, option_map};
ghost use Rattle.std.specs.List.Sorted.{IsPermutation};
ghost use Rattle.fallback_leader.specs.Elections.{words_of, collected, proposal_of, proposal_value, Elects};

use crate::election::{count_of, has_word_of, propose};
use crate::index::Index;
use crate::words::{ElectWord, KeptWord, Proposal};
use basil_types::cluster::Cluster;
use basil_types::memory::NoMemory;
use std::alloc::Global;
use std::marker::Model;

/// The words that a leader keeps, of all transactions and views. Contracts see them in the order in which they came,
/// and beside them those that it kept before its last call of `collect`, to which `undo` goes back.
#[derive(Drop)]
pub struct Collector {
    alloc: Global,
    kept: Vec<KeptWord>,
    // where the words for a view of a transaction are in `kept`
    index: Index,
    // whether the last call of `collect` kept its word, and wasn't taken back
    kept_last: bool,
}

impl Model for Collector {
    ghost use Rattle.fallback_leader.specs.Collectors.{CollectorValue, before, IsKept};

    ghost Value = { CollectorValue };

    ghost view = { λ c. record { kept = c.kept.items; before = before c.kept.items c.kept_last } };

    ghost invariant = { λ c. IsKept c.kept.items c.index };
}

impl Collector {
    /// A collector of no word. Takes no memory.
    pub fn new(alloc: Global) -> Collector
        ensures { result ≡ record { kept = []; before = [] } }
    {
        Collector {
            alloc,
            kept: Vec::new(alloc),
            index: Index::new(alloc),
            kept_last: false,
        }
    }

    /// Takes a word for a view of a transaction (Basil, fallback: the election). A second word of one replica, and any
    /// word after 4f+1 words, change nothing. Any other word is kept; with the (4f+1)th the answer is the proposal: the
    /// decision that 2f+1 of the words name, and copies of the words.
    ///
    /// Where memory is wanting, the collector is as before and the word is dropped. The time depends on the
    /// words that are kept for this view of this transaction, not on others.
    pub fn collect(
        &mut self,
        id: &[u8; 32],
        view: u64,
        word: ElectWord,
        cluster: &Cluster,
    ) -> Result<Option<Proposal>, NoMemory>
        ensures kept { OnOk result (self.new ≡ record {
          kept = collected cluster.now.f self.old.kept id.now view word;
          before = self.old.kept;
        }) }
        ensures proposal { IfOk result (λ p.
            option_map proposal_value p ≡ proposal_of cluster.now.f self.old.kept id.now view word) }
        ensures as_before { OnErr result (self.new ≡ self.old) }

        // the words of a proposal are those that are kept for its view, and they elect its decision
        ensures same_words { IfOk result (λ p. IfSome p (λ p.
            IsPermutation (words_of self.new.kept id.now view) p.words.items)) }
        ensures elects { IfOk result (λ p. IfSome p (λ p. Elects cluster.now.f p.words.items p.decision)) }
    {
        let standing = count_of(self.kept.as_slice(), &self.index, id, view);
        let quorum = usize::from(cluster.log_quorum());
        if quorum <= standing
            || has_word_of(self.kept.as_slice(), &self.index, id, view, word.replica)
        {
            self.kept_last = false;
            return Ok(None);
        }
        self.kept.reserve(1)?;
        let proposal = if standing + 1 == quorum {
            Some(propose(
                self.alloc,
                self.kept.as_slice(),
                &self.index,
                id,
                view,
                &word,
                cluster,
            )?)
        } else {
            None
        };
        self.index.add(id, view, self.kept.len())?;
        self.kept.push_reserved(KeptWord {
            id: *id,
            view,
            word,
        });
        self.kept_last = true;
        Ok(proposal)
    }

    /// Takes back the last call of `collect` that was `Ok`, once: where there is none, or it was taken back, nothing
    /// changes. Takes no memory.
    pub fn undo(&mut self)
        ensures { self.new ≡ record { kept = self.old.before; before = self.old.before } }
    {
        if self.kept_last {
            match self.kept.pop() {
                Some(last) => self.index.take_back(&last.id, last.view),
                None => {}
            }
            self.kept_last = false;
        }
    }
}
