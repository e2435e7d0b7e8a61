//! When a replica votes.

ghost use Rattle.replica_laws.specs.Voting.{ReleasedVoteAtOnce, VotesAtOnce};

use txn_table::laws::{ids_tell_places, released_votes_ascend};

/// A valid first stage about a transaction without a vote, anybody who waits or an outcome is voted on in that step, by
/// the verdict, unless that is to wait or no signature is left.
pub fn votes_at_once()
    ensures { VotesAtOnce }
{}

/// A vote that an accepted writeback's outcome releases is signed in that step, where enough signatures are left.
pub fn released_vote_at_once()
    ensures { ReleasedVoteAtOnce }
{
    ids_tell_places();
    released_votes_ascend();
}
