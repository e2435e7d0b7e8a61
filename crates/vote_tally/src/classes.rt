//! What the votes of a shard amount to.

/// What the first votes of a shard's replicas amount to, in the order in which the classes are tested. The shard has
/// 5f + 1 replicas, of which at most f are faulty.
#[derive(Clone, Copy, PartialEq, Eq)]
pub enum Class {
    /// 5f + 1 commits: a fast commit.
    FastCommit,
    /// 3f + 1 aborts: a fast abort.
    FastAbort,
    /// An abort with a proof: a conflict abort.
    ConflictAbort,
    /// 3f + 1 commits and f + 1 aborts: tallies for either decision.
    Both,
    /// 3f + 1 commits: a tally for commit.
    CommitTally,
    /// f + 1 aborts: a tally for abort.
    AbortTally,
    /// None of these.
    Open,
}
