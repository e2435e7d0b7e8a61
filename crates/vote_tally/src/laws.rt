//! Laws of first votes.

ghost use Rattle.std.specs.Prelude.{◌≡◌, ◌≤◌, ◌+◌, List, length};
ghost use Rattle.basil_types.specs.Setting.{Setting};
ghost use Rattle.quorum_laws.specs.Numbers.{replicas};
ghost use Rattle.vote_tally.specs.declared.votes.FirstVote.{FirstVote};
ghost use Rattle.vote_tally.specs.Votes.{AreFirst, commits_of, aborts_of};

/// There are at most as many first votes as replicas of a shard.
pub fn first_votes_are_few()
    ensures { (c : Setting) (votes : List FirstVote) → AreFirst c votes → length votes ≤ replicas c.f }
{}

/// Each vote is a commit or an abort.
pub fn each_vote_is_one_of_two()
    ensures { (votes : List FirstVote) → commits_of votes + aborts_of votes ≡ length votes }
{}
