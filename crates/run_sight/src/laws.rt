//! Laws of what a run sees.

ghost use Rattle.run_sight.specs.Sights.{FramesAreTakenBack};

/// Where a run went on from a frame, and nothing else was seen or signed since, what is taken back is the whole of what
/// the frame changed.
pub fn frames_are_taken_back()
    ensures { FramesAreTakenBack }
{}
