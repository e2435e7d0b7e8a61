//! Laws of keys: functions that do nothing, and whose contracts say them.
ghost use Rattle.hss_sign.specs.Laws.{SignsOncePerNumber, OneKeyPerTopLeaf};

/// No two signatures of one key name the same top leaf and the same bottom leaf, whichever messages the
/// key is given in turn.
pub fn signs_once_per_number()
    ensures { SignsOncePerNumber }
{}

/// All signatures of one key that name a top leaf hold the same bottom key, which is all that this top leaf
/// signs.
pub fn one_key_per_top_leaf()
    ensures { OneKeyPerTopLeaf }
{}
