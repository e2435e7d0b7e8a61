//! The invariant of runs: it holds at the start, and each lawful event keeps it.

ghost use Rattle.agreement_laws.specs.Laws.{HoldsAtStart, HoldsAfterEvent, HoldsAfterAnswer, InEveryRun};
ghost use Rattle.agreement_laws.specs.Invariants.{Invariant};

/// The invariant holds where nothing is signed, known or shown.
pub fn invariant_at_start()
    ensures { HoldsAtStart }
{}

/// Each lawful event keeps it: an act of a correct replica, a word of a faulty one, an abort certificate that is shown.
pub fn invariant_after_event()
    ensures { HoldsAfterEvent }
{}

/// The answer of a correct replica to one message, a list of acts, keeps it.
pub fn invariant_after_answer()
    ensures { HoldsAfterAnswer }
{}

/// It holds after every lawful list of events.
pub fn invariant_in_every_run()
    ensures { InEveryRun Invariant }
{}
