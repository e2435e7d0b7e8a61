//! Laws of collected words and of proposals.

ghost use Rattle.fallback_leader.specs.Laws.{WordsStayApart, OfProposals, HasWords, IsElected};

/// The words that are kept for a view of a transaction stay those of distinct replicas.
pub fn words_stay_apart()
    ensures { WordsStayApart }
{}

/// A proposal has the words that are kept for its view, and they elect its decision.
pub fn proposals_elect()
    ensures words { OfProposals HasWords }
    ensures elects { OfProposals IsElected }
{}
