//! Votes that count, and their running counts.

ghost use Rattle.std.specs.Prelude.{◌≡◌, ◌<◌, ◌++◌, ◌∷◌, [], List};
ghost use Rattle.vote_tally.specs.declared.votes.FirstVote.{FirstVote};
ghost use Rattle.vote_tally.specs.Votes.{counts_of};

use basil_types::party::Decision;

/// The first vote of a replica.
#[derive(Clone, Copy)]
pub struct FirstVote {
    /// The replica's index in its shard.
    pub replica: u8,
    pub vote: Decision,
    /// Whether a proof came with the vote; it tells only of an abort.
    pub proof: bool,
}

/// The running counts of votes: how many commits, how many aborts, and whether some abort has a proof.
#[derive(Clone, Copy)]
pub(crate) struct Counts {
    pub(crate) commits: u8,
    pub(crate) aborts: u8,
    pub(crate) proven: bool,
}

impl Counts {
    /// The counts of no vote.
    pub(crate) fn none() -> Counts
        ensures { result ≡ counts_of [] }
    {
        Counts {
            commits: 0,
            aborts: 0,
            proven: false,
        }
    }

    /// The counts of these votes and one more.
    pub(crate) fn with(self, first: FirstVote) -> Counts
        requires commits { self.commits < 255 }
        requires aborts { self.aborts < 255 }
        ensures { (votes : List FirstVote) → self ≡ counts_of votes → result ≡ counts_of (votes ++ first ∷ []) }
    {
        match first.vote {
            Decision::Commit => Counts {
                commits: self.commits + 1,
                aborts: self.aborts,
                proven: self.proven,
            },
            Decision::Abort => Counts {
                commits: self.commits,
                aborts: self.aborts + 1,
                proven: self.proven || first.proof,
            },
        }
    }
}
