//! What the words of a decide frame name.

ghost use Rattle.std.specs.Prelude.{◌≡◌};
ghost use Rattle.frame_views.specs.Items.{elects_of};
ghost use Rattle.fallback_leader.specs.Elections.{are_enough};
ghost use Rattle.fallback_leader.specs.Deciding.{naming_of};

use basil_types::cluster::Cluster;
use basil_types::party::{Decision, same_decision};
use frame_views::items::ElectsView;

/// How many election words there are, and how many of them name a decision.
#[derive(Clone, Copy)]
pub struct Naming {
    /// At most 255, as a frame counts them.
    pub words: u8,
    pub agreeing: u8,
}

impl Naming {
    /// Of these words, and how many of them name this decision.
    pub fn of(words: &ElectsView<'_>, decision: Decision) -> Naming
        ensures words { result.words ≡ (naming_of (elects_of words.now) decision).words }
        ensures agreeing { result.agreeing ≡ (naming_of (elects_of words.now) decision).agreeing }
    {
        let (count, _) = words.spelled();
        let agreeing = words
            .iter()
            .filter(|word| same_decision(word.decision, decision))
            .count();
        Naming {
            words: count,
            agreeing: agreeing as u8,
        }
    }

    /// Whether the decision is elected: exactly 4f+1 words, of which at least 2f+1 name it (Basil, fallback).
    pub fn is_election(self, cluster: &Cluster) -> bool
        ensures { result ≡ are_enough cluster.now.f self.words self.agreeing }
    {
        self.words == cluster.log_quorum() && cluster.majority() <= self.agreeing
    }
}
