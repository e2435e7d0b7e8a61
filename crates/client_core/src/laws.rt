//! Laws of what a client shows.

ghost use Rattle.client_core.specs.Laws.{SlotsAreHeld};

/// The slots that a client holds are those of the value that it shows.
pub fn slots_are_held()
    ensures { SlotsAreHeld }
{}
