//! What holds of a node that serves, however its connections end.
//!
//! The function here has an empty body but for the laws that it stands on: its contract is the law.

ghost use Rattle.node_link.specs.Spending.{SignsWithinFrames};

use replica_laws::steps::{places_never_repeat, signs_no_more_than_handed};

/// A node that begins with an empty book gives at most as many signatures as its replica is handed frames, so its pen's
/// leaves from that many on are unused.
pub fn signs_within_frames()
    ensures { SignsWithinFrames }
{
    places_never_repeat();
    signs_no_more_than_handed();
}
