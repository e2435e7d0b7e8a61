//! The laws of every lawful list of events, from the invariant.

ghost use Rattle.agreement_laws.specs.Laws.{InEveryRun, Counting, LockIn, Exclusion, Dependency};
ghost use Rattle.agreement_laws.specs.Laws.{DependencyThere, CommitVotes, Voters, Agreement};
ghost use Rattle.agreement_laws.specs.Laws.{ShownArePossible, WithMoreEvents};

use crate::invariant::invariant_in_every_run;
use crate::states::{
    agreement, commit_votes, counting, dependency, dependency_there, exclusion, lock_in, voters,
};

/// After every lawful list of events a commit certificate excludes a fast and a logged abort.
pub fn counting_in_every_run()
    ensures { InEveryRun Counting }
{
    invariant_in_every_run();
    counting();
}

/// After every lawful list of events log certificates of all views name one decision.
pub fn lock_in_in_every_run()
    ensures { InEveryRun LockIn }
{
    invariant_in_every_run();
    lock_in();
}

/// After every lawful list of events no two transactions that can both be committed conflict.
pub fn exclusion_in_every_run()
    ensures { InEveryRun Exclusion }
{
    invariant_in_every_run();
    exclusion();
}

/// After every lawful list of events what a transaction that can be committed depends on can be committed.
pub fn dependency_in_every_run()
    ensures { InEveryRun Dependency }
{
    invariant_in_every_run();
    dependency();
}

/// After every lawful list of events what a transaction that can be committed depends on by a key of a shard is
/// committed at a correct replica there.
pub fn dependency_there_in_every_run()
    ensures { InEveryRun DependencyThere }
{
    invariant_in_every_run();
    dependency_there();
}

/// After every lawful list of events what can be committed has a commit tally of votes in each involved shard.
pub fn commit_votes_in_every_run()
    ensures { InEveryRun CommitVotes }
{
    invariant_in_every_run();
    commit_votes();
}

/// After every lawful list of events each involved shard of a transaction that can be committed has a correct replica
/// that signed a commit vote on it.
pub fn voters_in_every_run()
    ensures { InEveryRun Voters }
{
    invariant_in_every_run();
    voters();
}

/// What can be committed or aborted after some events can be after more of them, lawful or not.
pub fn certificates_stay_in_every_run()
    ensures { WithMoreEvents }
{}

/// After every lawful list of events a transaction of which an abort certificate was shown can have one.
pub fn shown_are_possible_in_every_run()
    ensures { InEveryRun ShownArePossible }
{}

/// After every lawful list of events no transaction that has had an abort certificate shown, or can have one of
/// whatever kind, can have a commit certificate.
pub fn agreement_in_every_run()
    ensures { InEveryRun Agreement }
{
    invariant_in_every_run();
    agreement();
}
