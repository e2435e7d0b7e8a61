//! Owned copies of lists.

ghost use Rattle.std.specs.Prelude.{◌≡◌, IfOk, map};
ghost use Rattle.frame_views.specs.Items.{vote_of, votes_of, tally_of, tallies_of, log_of, logs_of, reply_of};
ghost use Rattle.frame_views.specs.Items.{replies_of, elect_of, elects_of};
ghost use Rattle.frame_values.specs.Owned.{vote_value, tally_value, log_value, reply_value, word_value};

use crate::owned::{ElectPart, InvokePart, LogPart, ShardVotes, VotePart};
use basil_types::bytes::Bytes;
use basil_types::list::List;
use basil_types::memory::NoMemory;
use frame_views::items::{
    ElectItem, ElectsView, InvokeItem, InvokesView, LogItem, LogsView, ShardItem, TalliesView,
    VoteItem, VotesView,
};
use std::alloc::Global;

fn own_vote(alloc: Global, item: &VoteItem<'_>) -> Result<VotePart, NoMemory>
    ensures { IfOk result (λ x. vote_value x ≡ vote_of item.now) }
{
    let signature = Bytes::copy_of(alloc, item.signature)?;
    Ok(VotePart {
        replica: item.replica,
        signature,
    })
}

/// Owned votes.
pub(super) fn own_votes(alloc: Global, votes: &VotesView<'_>) -> Result<List<VotePart>, NoMemory>
    ensures { IfOk result (λ x. map vote_value x.items ≡ votes_of votes.now) }
{
    let mut parts = Vec::with_capacity(alloc, votes.len())?;
    for item in votes.iter() {
        let part = own_vote(alloc, &item)?;
        parts.push(part)?;
    }
    Ok(List::from_vec(parts))
}

fn own_tally(alloc: Global, item: &ShardItem<'_>) -> Result<ShardVotes, NoMemory>
    ensures { IfOk result (λ x. tally_value x ≡ tally_of item.now) }
{
    let votes = own_votes(alloc, &item.votes)?;
    Ok(ShardVotes {
        shard: item.shard,
        votes,
    })
}

/// Owned tallies.
pub(super) fn own_tallies(
    alloc: Global,
    tallies: &TalliesView<'_>,
) -> Result<List<ShardVotes>, NoMemory>
    ensures { IfOk result (λ x. map tally_value x.items ≡ tallies_of tallies.now) }
{
    let mut parts = Vec::with_capacity(alloc, tallies.len())?;
    for item in tallies.iter() {
        let part = own_tally(alloc, &item)?;
        parts.push(part)?;
    }
    Ok(List::from_vec(parts))
}

fn own_log(alloc: Global, item: &LogItem<'_>) -> Result<LogPart, NoMemory>
    ensures { IfOk result (λ x. log_value x ≡ log_of item.now) }
{
    let signature = Bytes::copy_of(alloc, item.signature)?;
    Ok(LogPart {
        replica: item.replica,
        current: item.current,
        signature,
    })
}

/// Owned log replies of a certificate.
pub(super) fn own_logs(alloc: Global, logs: &LogsView<'_>) -> Result<List<LogPart>, NoMemory>
    ensures { IfOk result (λ x. map log_value x.items ≡ logs_of logs.now) }
{
    let mut parts = Vec::with_capacity(alloc, logs.len())?;
    for item in logs.iter() {
        let part = own_log(alloc, &item)?;
        parts.push(part)?;
    }
    Ok(List::from_vec(parts))
}

fn own_reply(alloc: Global, item: &InvokeItem<'_>) -> Result<InvokePart, NoMemory>
    ensures { IfOk result (λ x. reply_value x ≡ reply_of item.now) }
{
    let signature = Bytes::copy_of(alloc, item.signature)?;
    Ok(InvokePart {
        replica: item.replica,
        decision: item.decision,
        decided: item.decided,
        current: item.current,
        signature,
    })
}

/// Owned log replies of an invoke.
pub(super) fn own_replies(
    alloc: Global,
    replies: &InvokesView<'_>,
) -> Result<List<InvokePart>, NoMemory>
    ensures { IfOk result (λ x. map reply_value x.items ≡ replies_of replies.now) }
{
    let mut parts = Vec::with_capacity(alloc, replies.len())?;
    for item in replies.iter() {
        let part = own_reply(alloc, &item)?;
        parts.push(part)?;
    }
    Ok(List::from_vec(parts))
}

fn own_word(alloc: Global, item: &ElectItem<'_>) -> Result<ElectPart, NoMemory>
    ensures { IfOk result (λ x. word_value x ≡ elect_of item.now) }
{
    let signature = Bytes::copy_of(alloc, item.signature)?;
    Ok(ElectPart {
        replica: item.replica,
        decision: item.decision,
        signature,
    })
}

/// Owned election words.
pub(super) fn own_words(alloc: Global, words: &ElectsView<'_>) -> Result<List<ElectPart>, NoMemory>
    ensures { IfOk result (λ x. map word_value x.items ≡ elects_of words.now) }
{
    let mut parts = Vec::with_capacity(alloc, words.len())?;
    for item in words.iter() {
        let part = own_word(alloc, &item)?;
        parts.push(part)?;
    }
    Ok(List::from_vec(parts))
}
