//! What a client decides, and when it starts a second stage.

ghost use Rattle.client_laws.specs.Deciding.{DecidingSetDecides, OutcomesStay, StartsOnce};

/// A second stage starts at most once for the transaction in a slot, and its message is sent only as it starts.
pub fn second_stage_once()
    ensures { StartsOnce }
{}

/// An outcome stays, with its certificate, whatever comes.
pub fn outcomes_stay()
    ensures { OutcomesStay }
{}

/// Valid frames for a held transaction decide it as soon as one of the five rules holds of what was taken.
pub fn deciding_set_decides()
    ensures { DecidingSetDecides }
{}
