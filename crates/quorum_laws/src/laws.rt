//! How much two sets of the replicas of a shard have in common, for every f.

ghost use Rattle.quorum_laws.specs.Laws.{SetsShare, TalliesShare, TalliesShareCorrect};
ghost use Rattle.quorum_laws.specs.Laws.{TallyHasCorrect, LogAndTallyShare};
ghost use Rattle.quorum_laws.specs.Laws.{LogAndMajorityShareCorrect, LogsShareCorrect, CorrectAreMany};
ghost use Rattle.quorum_laws.specs.Lists.{ListsAreSets};

/// Two sets of numbers below n share at least |p| + |q| - n of them.
pub fn sets_share()
    ensures { SetsShare }
{}

/// Two sets of 3f+1 replicas share f+1.
pub fn tallies_share()
    ensures { TalliesShare }
{}

/// Two sets of 3f+1 replicas share a correct one.
pub fn tallies_share_correct()
    ensures { TalliesShareCorrect }
{}

/// A set of f+1 replicas has a correct one.
pub fn tally_has_correct()
    ensures { TallyHasCorrect }
{}

/// A set of 4f+1 replicas and one of 3f+1 share 2f+1.
pub fn log_and_tally_share()
    ensures { LogAndTallyShare }
{}

/// A set of 4f+1 replicas and one of 2f+1 share a correct one.
pub fn log_and_majority_share_correct()
    ensures { LogAndMajorityShareCorrect }
{}

/// Two sets of 4f+1 replicas share 2f+1 correct ones.
pub fn logs_share_correct()
    ensures { LogsShareCorrect }
{}

/// At least 4f+1 replicas are correct.
pub fn correct_are_many()
    ensures { CorrectAreMany }
{}

/// A strictly ascending list of numbers below n is a set of as many of them.
pub fn lists_are_sets()
    ensures { ListsAreSets }
{}
