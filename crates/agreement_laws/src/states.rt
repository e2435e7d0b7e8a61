//! What the invariant says of the certificates of a state.

ghost use Rattle.agreement_laws.specs.Laws.{FromInvariant, Counting, LockIn, Exclusion, Dependency, DependencyThere};
ghost use Rattle.agreement_laws.specs.Laws.{CommitVotes, Voters, Agreement, OneElected, WithMoreWords};

/// A transaction whose signed words allow a commit certificate allows neither a fast nor a logged abort, over all
/// views.
pub fn counting()
    ensures { FromInvariant Counting }
{}

/// Log certificates of all views name one decision.
pub fn lock_in()
    ensures { FromInvariant LockIn }
{}

/// Of two transactions that can both be committed none conflicts with the other.
pub fn exclusion()
    ensures { FromInvariant Exclusion }
{}

/// What a transaction that can be committed depends on can be committed.
pub fn dependency()
    ensures { FromInvariant Dependency }
{}

/// What a transaction that can be committed depends on by a key of a shard is committed at a correct replica there.
pub fn dependency_there()
    ensures { FromInvariant DependencyThere }
{}

/// What can be committed has a commit tally of votes in each involved shard.
pub fn commit_votes()
    ensures { FromInvariant CommitVotes }
{}

/// Each involved shard of a transaction that can be committed has a correct replica that signed a commit vote on it.
pub fn voters()
    ensures { FromInvariant Voters }
{}

/// What can be committed or aborted can be as more is signed.
pub fn certificates_stay()
    ensures { WithMoreWords }
{}

/// A transaction that has had an abort certificate shown, or can have one of whatever kind, cannot be committed.
pub fn agreement()
    ensures { FromInvariant Agreement }
{}

/// The words of an election elect one decision.
pub fn one_elected()
    ensures { OneElected }
{}
