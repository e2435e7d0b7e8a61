//! The signatures of lists, one after the other.

ghost use Rattle.std.specs.Prelude.{◌≡◌, map};
ghost use Rattle.std.specs.Iterator.{YieldsFirstBy};
ghost use Rattle.frame_views.specs.Items.{votes_of, tallies_of, logs_of, replies_of, elects_of};
ghost use Rattle.frame_views.specs.Signed.{tally_signed, tallies_signed, logged_signed, log_signed, word_signed};
ghost use Rattle.frame_views.specs.Walks.{signed_of, tallies_walk, logs_walk, replies_walk, words_walk, run_left};

use super::item::{SignedItem, log, vote, word};
use crate::items::{
    ElectsIter, ElectsView, InvokeItem, InvokesIter, InvokesView, LogsIter, LogsView, TalliesIter,
    TalliesView, VotesIter, VotesView,
};
use basil_types::party::Decision;

/// Votes with one decision on one transaction: those left of one shard, and those of the shards behind it.
#[derive(Drop)]
pub(crate) struct TalliesRun<'a> {
    pub(crate) id: [u8; 32],
    pub(crate) decision: Decision,
    pub(crate) shard: u8,
    pub(crate) votes: VotesIter<'a>,
    pub(crate) tallies: TalliesIter<'a>,
}

/// Log replies of a certificate.
#[derive(Drop)]
pub(crate) struct LogsRun<'a> {
    pub(crate) id: [u8; 32],
    pub(crate) shard: u8,
    pub(crate) decision: Decision,
    pub(crate) decided: u64,
    pub(crate) logs: LogsIter<'a>,
}

/// Log replies of an invoke.
#[derive(Drop)]
pub(crate) struct RepliesRun<'a> {
    pub(crate) id: [u8; 32],
    pub(crate) shard: u8,
    pub(crate) replies: InvokesIter<'a>,
}

/// Election words of a view.
#[derive(Drop)]
pub(crate) struct WordsRun<'a> {
    pub(crate) id: [u8; 32],
    pub(crate) shard: u8,
    pub(crate) view: u64,
    pub(crate) words: ElectsIter<'a>,
}

/// The signatures of one list.
#[derive(Drop)]
pub(crate) enum Run<'a> {
    Nothing,
    Tallies(TalliesRun<'a>),
    Logs(LogsRun<'a>),
    Replies(RepliesRun<'a>),
    Words(WordsRun<'a>),
}

impl<'a> TalliesRun<'a> {
    /// The votes of tallies.
    pub(super) fn of_tallies(
        id: [u8; 32],
        decision: Decision,
        tallies: TalliesView<'a>,
    ) -> TalliesRun<'a>
        ensures { tallies_walk result ≡ tallies_signed id decision (tallies_of tallies.entry) }
    {
        TalliesRun {
            id,
            decision,
            shard: 0,
            votes: VotesIter::none(),
            tallies: tallies.iter(),
        }
    }

    /// The votes of one shard.
    pub(super) fn of_votes(
        id: [u8; 32],
        decision: Decision,
        shard: u8,
        votes: VotesView<'a>,
    ) -> TalliesRun<'a>
        ensures { tallies_walk result ≡ tally_signed id decision
            (record { shard = shard; votes = votes_of votes.entry }) }
    {
        TalliesRun {
            id,
            decision,
            shard,
            votes: votes.iter(),
            tallies: TalliesIter::none(),
        }
    }

    fn next(&mut self) -> Option<SignedItem<'a>>
        ensures { YieldsFirstBy signed_of tallies_walk self.old result self.new }
    {
        loop {
            if let Some(item) = self.votes.next() {
                return Some(vote(self.shard, &self.id, self.decision, item));
            }
            match self.tallies.next() {
                Some(tally) => {
                    self.shard = tally.shard;
                    self.votes = tally.votes.iter();
                }
                None => return None,
            }
        }
    }
}

impl<'a> LogsRun<'a> {
    /// The log replies of a certificate.
    pub(super) fn of(
        id: [u8; 32],
        shard: u8,
        decision: Decision,
        decided: u64,
        logs: LogsView<'a>,
    ) -> LogsRun<'a>
        ensures { logs_walk result ≡ logged_signed id
            (record { shard = shard; decision = decision; decided = decided; logs = logs_of logs.entry }) }
    {
        LogsRun {
            id,
            shard,
            decision,
            decided,
            logs: logs.iter(),
        }
    }

    fn next(&mut self) -> Option<SignedItem<'a>>
        ensures { YieldsFirstBy signed_of logs_walk self.old result self.new }
    {
        match self.logs.next() {
            Some(item) => Some(log(
                self.shard,
                &self.id,
                InvokeItem {
                    replica: item.replica,
                    decision: self.decision,
                    decided: self.decided,
                    current: item.current,
                    signature: item.signature,
                },
            )),
            None => None,
        }
    }
}

impl<'a> RepliesRun<'a> {
    /// The log replies of an invoke.
    pub(super) fn of(id: [u8; 32], shard: u8, replies: InvokesView<'a>) -> RepliesRun<'a>
        ensures { replies_walk result ≡ map (log_signed shard id) (replies_of replies.entry) }
    {
        RepliesRun {
            id,
            shard,
            replies: replies.iter(),
        }
    }

    fn next(&mut self) -> Option<SignedItem<'a>>
        ensures { YieldsFirstBy signed_of replies_walk self.old result self.new }
    {
        match self.replies.next() {
            Some(item) => Some(log(self.shard, &self.id, item)),
            None => None,
        }
    }
}

impl<'a> WordsRun<'a> {
    /// The election words of a view.
    pub(super) fn of(id: [u8; 32], shard: u8, view: u64, words: ElectsView<'a>) -> WordsRun<'a>
        ensures { words_walk result ≡ map (word_signed shard id view) (elects_of words.entry) }
    {
        WordsRun {
            id,
            shard,
            view,
            words: words.iter(),
        }
    }

    fn next(&mut self) -> Option<SignedItem<'a>>
        ensures { YieldsFirstBy signed_of words_walk self.old result self.new }
    {
        match self.words.next() {
            Some(item) => Some(word(self.shard, &self.id, self.view, item)),
            None => None,
        }
    }
}

impl<'a> Run<'a> {
    /// The next signature of the list.
    pub(super) fn next(&mut self) -> Option<SignedItem<'a>>
        ensures { YieldsFirstBy signed_of run_left self.old result self.new }
    {
        match self {
            Run::Nothing => None,
            Run::Tallies(run) => run.next(),
            Run::Logs(run) => run.next(),
            Run::Replies(run) => run.next(),
            Run::Words(run) => run.next(),
        }
    }
}
