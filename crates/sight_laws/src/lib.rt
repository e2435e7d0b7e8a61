//! That a run has seen every message of its pool.
//!
//! Each function here has an empty body: its contract is the law.
#![tactic(auto)]

ghost use Rattle.sight_laws.specs.Seen.{PostedAreSeen, SeenShowsNothing, SeenStays};

/// After every list of events without a breach, each message of the pool was seen: its transactions are among those
/// that were seen, none of its signatures is forged, and its pairs that prove their decisions are among the certified ones.
pub fn posted_are_seen()
    ensures { PostedAreSeen }
{}

/// A message that was seen stays seen, whatever happens then.
pub fn seen_stays()
    ensures { SeenStays }
{}

/// A message that was seen shows nothing new when it is seen again, where no two texts that were seen are a collision.
pub fn seen_shows_nothing()
    ensures { SeenShowsNothing }
{}
