//! That a replica lets only one of two transactions stand that conflict, over every list of frames that it is handed,
//! whatever their bytes.
//!
//! Each function here has an empty body: its contract is the law.
#![tactic(auto)]

ghost use Rattle.conflict_laws.specs.Conflicts.{OneIsAborted, EndedNeverVote};

use mvtso_check::laws::nothing_that_stands_conflicts;
use txn_meta::conflicts::shard_conflicts;
use txn_table::laws::{ids_tell_places, released_votes_ascend};

/// From the empty book on, of two transactions that conflict on a key of the replica's shard, and of which each waits
/// or has voted to commit, one has an abort outcome (Basil, multiversion timestamp ordering check).
pub fn one_is_aborted()
    ensures { OneIsAborted }
{
    ids_tell_places();
    released_votes_ascend();
    nothing_that_stands_conflicts();
    shard_conflicts();
}

/// A transaction that has an outcome never votes: its vote, or the want of one, stays as it is.
pub fn ended_never_vote()
    ensures { EndedNeverVote }
{
    ids_tell_places();
    released_votes_ascend();
    nothing_that_stands_conflicts();
    shard_conflicts();
}
