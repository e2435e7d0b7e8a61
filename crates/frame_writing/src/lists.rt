//! Writers of lists of owned items, each behind its number of items.

ghost use Rattle.std.specs.Prelude.{◌≡◌, ◌++◌, ◌∷◌, [], ◌<◌, length, map, OnOk};
ghost use Rattle.std.specs.Prelude.{ℕ};
ghost use Rattle.frame_views.specs.Fitting.{widest, AreCounted, FitsVote, FitsTally, FitsLog, FitsReply, FitsWord};
ghost use Rattle.frame_views.specs.Fitting.{after_vote, after_tally, after_log, after_reply, after_word};
ghost use Rattle.frame_views.specs.Spelling.{counted, vote_bytes, tally_bytes, log_bytes, reply_bytes, word_bytes};
ghost use Rattle.frame_values.specs.Owned.{vote_value, tally_value, log_value, reply_value, word_value};
ghost use Rattle.frame_writing.specs.Written.{FitsItem};
ghost use Rattle.frame_writing.specs.Draft.{Writes};

use super::draft::Draft;
use super::fields::{write_decision, write_number, write_signature};
use basil_types::memory::NoMemory;
use frame_values::owned::{ElectPart, InvokePart, LogPart, ShardVotes, VotePart};

fn write_vote(vote: &VotePart, out: &mut Draft) -> Result<(), NoMemory>
    requires { FitsItem (FitsVote widest) (vote_value vote.now) }
    ensures kept { out.new.kept ≡ out.old.kept }
    ensures writes { OnOk result (Writes out.old out.new (vote_bytes (vote_value vote.now))) }
{
    out.push(vote.replica)?;
    write_signature(vote.signature.as_slice(), out)
}

/// Votes behind their number.
pub(super) fn write_votes(votes: &[VotePart], out: &mut Draft) -> Result<(), NoMemory>
    requires { AreCounted (FitsVote widest) after_vote (map vote_value votes.now) }
    ensures kept { out.new.kept ≡ out.old.kept }
    ensures writes { OnOk result (Writes out.old out.new (counted vote_bytes (map vote_value votes.now))) }
{
    out.push(votes.len() as u8)?;
    for part in votes {
        write_vote(part, out)?;
    }
    Ok(())
}

fn write_tally(tally: &ShardVotes, out: &mut Draft) -> Result<(), NoMemory>
    requires { FitsItem (FitsTally widest) (tally_value tally.now) }
    ensures kept { out.new.kept ≡ out.old.kept }
    ensures writes { OnOk result (Writes out.old out.new (tally_bytes (tally_value tally.now))) }
{
    out.push(tally.shard)?;
    write_votes(tally.votes.as_slice(), out)
}

/// Tallies behind their number.
pub(super) fn write_tallies(tallies: &[ShardVotes], out: &mut Draft) -> Result<(), NoMemory>
    requires { AreCounted (FitsTally widest) after_tally (map tally_value tallies.now) }
    ensures kept { out.new.kept ≡ out.old.kept }
    ensures writes { OnOk result (Writes out.old out.new (counted tally_bytes (map tally_value tallies.now))) }
{
    out.push(tallies.len() as u8)?;
    for part in tallies {
        write_tally(part, out)?;
    }
    Ok(())
}

fn write_log(log: &LogPart, out: &mut Draft) -> Result<(), NoMemory>
    requires { FitsItem (FitsLog widest 0) (log_value log.now) }
    ensures kept { out.new.kept ≡ out.old.kept }
    ensures writes { OnOk result (Writes out.old out.new (log_bytes (log_value log.now))) }
{
    out.push(log.replica)?;
    write_number(log.current, out)?;
    write_signature(log.signature.as_slice(), out)
}

/// Log replies of a certificate, behind their number.
pub(super) fn write_logs(logs: &[LogPart], out: &mut Draft) -> Result<(), NoMemory>
    requires { AreCounted (FitsLog widest 0) after_log (map log_value logs.now) }
    ensures kept { out.new.kept ≡ out.old.kept }
    ensures writes { OnOk result (Writes out.old out.new (counted log_bytes (map log_value logs.now))) }
{
    out.push(logs.len() as u8)?;
    for part in logs {
        write_log(part, out)?;
    }
    Ok(())
}

fn write_reply(reply: &InvokePart, out: &mut Draft) -> Result<(), NoMemory>
    requires { FitsItem (FitsReply widest) (reply_value reply.now) }
    ensures kept { out.new.kept ≡ out.old.kept }
    ensures writes { OnOk result (Writes out.old out.new (reply_bytes (reply_value reply.now))) }
{
    out.push(reply.replica)?;
    write_decision(reply.decision, out)?;
    write_number(reply.decided, out)?;
    write_number(reply.current, out)?;
    write_signature(reply.signature.as_slice(), out)
}

/// Log replies of an invoke, behind their number.
pub(super) fn write_replies(replies: &[InvokePart], out: &mut Draft) -> Result<(), NoMemory>
    requires { AreCounted (FitsReply widest) after_reply (map reply_value replies.now) }
    ensures kept { out.new.kept ≡ out.old.kept }
    ensures writes { OnOk result (Writes out.old out.new (counted reply_bytes (map reply_value replies.now))) }
{
    out.push(replies.len() as u8)?;
    for part in replies {
        write_reply(part, out)?;
    }
    Ok(())
}

fn write_word(word: &ElectPart, out: &mut Draft) -> Result<(), NoMemory>
    requires { FitsItem (FitsWord widest) (word_value word.now) }
    ensures kept { out.new.kept ≡ out.old.kept }
    ensures writes { OnOk result (Writes out.old out.new (word_bytes (word_value word.now))) }
{
    out.push(word.replica)?;
    write_decision(word.decision, out)?;
    write_signature(word.signature.as_slice(), out)
}

/// Election words behind their number.
pub(super) fn write_words(words: &[ElectPart], out: &mut Draft) -> Result<(), NoMemory>
    requires { AreCounted (FitsWord widest) after_word (map word_value words.now) }
    ensures kept { out.new.kept ≡ out.old.kept }
    ensures writes { OnOk result (Writes out.old out.new (counted word_bytes (map word_value words.now))) }
{
    out.push(words.len() as u8)?;
    for part in words {
        write_word(part, out)?;
    }
    Ok(())
}
