//! The election words that a replica collects as the leader of views.

ghost use Rattle.std.specs.Prelude.{◌≡◌, [], None, Some, IfOk, IfSome, OnOk, map, option_map};
ghost use Rattle.frame_views.specs.Fitting.{widest, after_word, AreCounted, FitsWord, IsSignature};
ghost use Rattle.frame_values.specs.Owned.{word_value};
ghost use Rattle.fallback_leader.specs.Elections.{collected, proposal_of, proposal_value};
ghost use Rattle.replica_core.specs.Leads.{kept_by, kept_next};

use basil_types::cluster::Cluster;
use basil_types::memory::NoMemory;
use fallback_leader::{Collector, ElectWord, Proposal};
use std::alloc::Global;
use std::marker::Model;

/// The words that are kept, and one more that is held back until it is taken or given up. Contracts see the words that
/// are kept, and beside them those that will be once the one that is held back is taken.
#[derive(Drop)]
pub(crate) struct Leading {
    collector: Collector,
    held_back: bool,
}

impl Model for Leading {
    ghost use Rattle.replica_core.specs.Leads.{LeadingValue, AreWritten, kept_by, next_by};

    ghost Value = { LeadingValue };

    ghost view = { λ l. record { kept = kept_by l.collector l.held_back; next = next_by l.collector l.held_back } };

    ghost invariant = { λ l. AreWritten l.collector };
}

impl Leading {
    /// No word is kept. Takes no memory.
    pub(crate) fn new(alloc: Global) -> Leading
        ensures { result ≡ record { kept = []; next = None } }
    {
        Leading {
            collector: Collector::new(alloc),
            held_back: false,
        }
    }

    /// Collects a word, and holds it back. One that was held back before is given up. The answer is the proposal that
    /// it makes, if any. Where memory is wanting no word is held back.
    pub(crate) fn collect(
        &mut self,
        id: &[u8; 32],
        view: u64,
        word: ElectWord,
        cluster: &Cluster,
    ) -> Result<Option<Proposal>, NoMemory>
        requires { IsSignature word.signature }
        ensures kept { self.new.kept ≡ self.old.kept }
        ensures next { OnOk result (self.new.next ≡ Some (collected cluster.now.f self.old.kept id.now view word)) }
        ensures proposal { IfOk result (λ p.
            option_map proposal_value p ≡ proposal_of cluster.now.f self.old.kept id.now view word) }
        ensures counted { IfOk result (λ p. IfSome p (λ p.
            AreCounted (FitsWord widest) after_word (map word_value p.words.items))) }
    {
        let _ = cluster.n();
        settle(&mut self.collector, self.held_back);
        self.held_back = false;
        match self.collector.collect(id, view, word, cluster) {
            Ok(proposal) => {
                self.held_back = true;
                Ok(proposal)
            }
            Err(refused) => Err(refused),
        }
    }

    /// Takes the word that is held back, if one is. Takes no memory.
    pub(crate) fn take(&mut self)
        ensures { self.new ≡ record { kept = kept_next self.old; next = None } }
    {
        self.held_back = false;
    }

    /// Gives the word up that is held back, if one is. Takes no memory.
    pub(crate) fn give_up(&mut self)
        ensures { self.new ≡ record self.old { next = None } }
    {
        settle(&mut self.collector, self.held_back);
        self.held_back = false;
    }
}

/// Gives the word up that is held back, if one is.
fn settle(collector: &mut Collector, held_back: bool)
    ensures { collector.new ≡ record collector.old { kept = kept_by collector.old held_back } }
{
    if held_back {
        collector.undo();
    }
}
