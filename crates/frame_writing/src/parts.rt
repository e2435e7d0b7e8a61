//! Frames of owned values and of lists of owned items. Each public call appends a frame, or finds memory wanting and
//! leaves the bytes as they were.

ghost use Rattle.std.specs.Prelude.{◌≡◌, ◌++◌, ◌∷◌, [], length, true, OnOk, OnErr, option_map};
ghost use Rattle.frame_views.specs.Fitting.{widest, AreCounted, IsKeyLength, FitsPart, FitsCommitted, FitsWord};
ghost use Rattle.frame_views.specs.Fitting.{after_word};
ghost use Rattle.frame_views.specs.Fitting.{FitsWriteback, FitsReadReply, FitsVoted, FitsSt2, FitsInvoke, FitsDecide};
ghost use Rattle.frame_views.specs.Fitting.{FitsMessage};
ghost use Rattle.frame_views.specs.Spelling.{spelling};
ghost use Rattle.frame_views.specs.Values.{Decide, Invoke, ReadReply, St2, Vote, Writeback};
ghost use Rattle.frame_values.specs.Owned.{committed_value, word_value, message_value};
ghost use Rattle.frame_values.specs.Parts.{read_reply_parts, vote_parts, st2_parts, writeback_parts, invoke_parts};
ghost use Rattle.frame_values.specs.Parts.{decide_parts, message_parts};
ghost use Rattle.frame_writing.specs.Unsigned.{second_bytes, unsigned_read_reply, unsigned_vote, unsigned_decide};
ghost use Rattle.frame_writing.specs.Unsigned.{proposal_front};
ghost use Rattle.frame_writing.specs.Draft.{Writes};

use super::certificates::{write_owned, write_owned_committed};
use super::draft::Draft;
use super::fields::{
    write_decision, write_key, write_number, write_owned_prepared, write_signature,
    write_transaction,
};
use super::frames::{put_elect, put_log_reply, put_read, put_recover, put_st1};
use super::lists::{write_replies, write_tallies, write_words};
use super::unsigned::signatures_end_frames;
use basil_types::memory::NoMemory;
use frame_values::lending::{
    DecideParts, InvokeParts, MessageParts, ReadReplyParts, St2Parts, VoteParts, WritebackParts,
    lent,
};
use frame_values::owned::Message;

fn write_unsigned_read_reply(m: &ReadReplyParts<'_>, out: &mut Draft) -> Result<(), NoMemory>
    requires key { IsKeyLength (length m.now.key.now) }
    requires committed { FitsPart true (FitsCommitted widest) (read_reply_parts m.now).committed }
    ensures kept { out.new.kept ≡ out.old.kept }
    ensures writes { OnOk result (Writes out.old out.new (unsigned_read_reply (read_reply_parts m.now))) }
{
    out.push(2)?;
    out.push(m.shard)?;
    out.push(m.replica)?;
    write_key(m.key, out)?;
    write_number(m.time, out)?;
    out.push(m.client)?;
    write_owned_committed(m.committed, out)?;
    write_owned_prepared(m.prepared, out)
}

/// Appends the frame of a read reply, of owned transactions and an owned certificate, but its signature.
pub fn put_unsigned_read_reply_parts(
    m: &ReadReplyParts<'_>,
    out: &mut Vec<u8>,
) -> Result<(), NoMemory>
    requires key { IsKeyLength (length m.now.key.now) }
    requires committed { FitsPart true (FitsCommitted widest) (read_reply_parts m.now).committed }
    ensures appends { OnOk result (out.new.items ≡ out.old.items ++ unsigned_read_reply (read_reply_parts m.now)) }
    ensures as_before { OnErr result (out.new.items ≡ out.old.items) }
{
    let mut draft = Draft::behind(out);
    let written = write_unsigned_read_reply(m, &mut draft);
    draft.end(written, out)
}

fn write_read_reply(m: &ReadReplyParts<'_>, out: &mut Draft) -> Result<(), NoMemory>
    requires { FitsReadReply widest (read_reply_parts m.now) }
    ensures kept { out.new.kept ≡ out.old.kept }
    ensures writes { OnOk result (Writes out.old out.new (spelling (ReadReply (read_reply_parts m.now)))) }
{
    write_unsigned_read_reply(m, out)?;
    write_signature(m.signature, out)
}

/// Appends the frame of a read reply, of owned transactions and an owned certificate.
pub fn put_read_reply_parts(m: &ReadReplyParts<'_>, out: &mut Vec<u8>) -> Result<(), NoMemory>
    requires { FitsReadReply widest (read_reply_parts m.now) }
    ensures appends { OnOk result (out.new.items ≡ out.old.items ++ spelling (ReadReply (read_reply_parts m.now))) }
    ensures as_before { OnErr result (out.new.items ≡ out.old.items) }
{
    let mut draft = Draft::behind(out);
    let written = write_read_reply(m, &mut draft);
    draft.end(written, out)
}

fn write_unsigned_vote(m: &VoteParts<'_>, out: &mut Draft) -> Result<(), NoMemory>
    requires { FitsPart true (FitsCommitted widest) (vote_parts m.now).proof }
    ensures kept { out.new.kept ≡ out.old.kept }
    ensures writes { OnOk result (Writes out.old out.new (unsigned_vote (vote_parts m.now))) }
{
    out.push(4)?;
    out.push(m.shard)?;
    out.push(m.replica)?;
    out.extend(&m.id)?;
    write_decision(m.decision, out)?;
    write_owned_committed(m.proof, out)
}

/// Appends the frame of a vote, with an owned proof, but its signature.
pub fn put_unsigned_vote_parts(m: &VoteParts<'_>, out: &mut Vec<u8>) -> Result<(), NoMemory>
    requires { FitsPart true (FitsCommitted widest) (vote_parts m.now).proof }
    ensures appends { OnOk result (out.new.items ≡ out.old.items ++ unsigned_vote (vote_parts m.now)) }
    ensures as_before { OnErr result (out.new.items ≡ out.old.items) }
{
    let mut draft = Draft::behind(out);
    let written = write_unsigned_vote(m, &mut draft);
    draft.end(written, out)
}

fn write_vote(m: &VoteParts<'_>, out: &mut Draft) -> Result<(), NoMemory>
    requires { FitsVoted widest (vote_parts m.now) }
    ensures kept { out.new.kept ≡ out.old.kept }
    ensures writes { OnOk result (Writes out.old out.new (spelling (Vote (vote_parts m.now)))) }
{
    write_unsigned_vote(m, out)?;
    write_signature(m.signature, out)
}

/// Appends the frame of a vote, with an owned proof.
pub fn put_vote_parts(m: &VoteParts<'_>, out: &mut Vec<u8>) -> Result<(), NoMemory>
    requires { FitsVoted widest (vote_parts m.now) }
    ensures appends { OnOk result (out.new.items ≡ out.old.items ++ spelling (Vote (vote_parts m.now))) }
    ensures as_before { OnErr result (out.new.items ≡ out.old.items) }
{
    let mut draft = Draft::behind(out);
    let written = write_vote(m, &mut draft);
    draft.end(written, out)
}

/// What stands behind the transaction of a second stage.
fn write_second(m: &St2Parts<'_>, out: &mut Draft) -> Result<(), NoMemory>
    requires { FitsSt2 widest (st2_parts m.now) }
    ensures kept { out.new.kept ≡ out.old.kept }
    ensures writes { OnOk result (Writes out.old out.new (second_bytes (st2_parts m.now))) }
{
    write_signature(m.signature, out)?;
    write_decision(m.decision, out)?;
    write_tallies(m.tallies, out)
}

fn write_st2(m: &St2Parts<'_>, out: &mut Draft) -> Result<(), NoMemory>
    requires { FitsSt2 widest (st2_parts m.now) }
    ensures kept { out.new.kept ≡ out.old.kept }
    ensures writes { OnOk result (Writes out.old out.new (spelling (St2 (st2_parts m.now)))) }
{
    out.push(5)?;
    write_transaction(&m.transaction, out)?;
    write_second(m, out)?;
    Ok(())
}

/// Appends the frame of a second stage, of votes that are held one by one.
pub fn put_st2_parts(m: &St2Parts<'_>, out: &mut Vec<u8>) -> Result<(), NoMemory>
    requires { FitsSt2 widest (st2_parts m.now) }
    ensures appends { OnOk result (out.new.items ≡ out.old.items ++ spelling (St2 (st2_parts m.now))) }
    ensures as_before { OnErr result (out.new.items ≡ out.old.items) }
{
    let mut draft = Draft::behind(out);
    let written = write_st2(m, &mut draft);
    draft.end(written, out)
}

fn write_writeback(m: &WritebackParts<'_>, out: &mut Draft) -> Result<(), NoMemory>
    requires { FitsWriteback widest (writeback_parts m.now) }
    ensures kept { out.new.kept ≡ out.old.kept }
    ensures writes { OnOk result (Writes out.old out.new (spelling (Writeback (writeback_parts m.now)))) }
{
    out.push(7)?;
    write_transaction(&m.transaction, out)?;
    write_owned(m.certificate, out)?;
    Ok(())
}

/// Appends the frame of a writeback, of an owned certificate.
pub fn put_writeback_parts(m: &WritebackParts<'_>, out: &mut Vec<u8>) -> Result<(), NoMemory>
    requires { FitsWriteback widest (writeback_parts m.now) }
    ensures appends { OnOk result (out.new.items ≡ out.old.items ++ spelling (Writeback (writeback_parts m.now))) }
    ensures as_before { OnErr result (out.new.items ≡ out.old.items) }
{
    let mut draft = Draft::behind(out);
    let written = write_writeback(m, &mut draft);
    draft.end(written, out)
}

fn write_invoke(m: &InvokeParts<'_>, out: &mut Draft) -> Result<(), NoMemory>
    requires { FitsInvoke widest (invoke_parts m.now) }
    ensures kept { out.new.kept ≡ out.old.kept }
    ensures writes { OnOk result (Writes out.old out.new (spelling (Invoke (invoke_parts m.now)))) }
{
    out.push(9)?;
    out.extend(&m.id)?;
    out.push(m.shard)?;
    write_replies(m.replies, out)
}

/// Appends the frame of an invoke, of log replies that are held one by one.
pub fn put_invoke_parts(m: &InvokeParts<'_>, out: &mut Vec<u8>) -> Result<(), NoMemory>
    requires { FitsInvoke widest (invoke_parts m.now) }
    ensures appends { OnOk result (out.new.items ≡ out.old.items ++ spelling (Invoke (invoke_parts m.now))) }
    ensures as_before { OnErr result (out.new.items ≡ out.old.items) }
{
    let mut draft = Draft::behind(out);
    let written = write_invoke(m, &mut draft);
    draft.end(written, out)
}

/// What a decide says behind its transaction.
fn write_proposal(m: &DecideParts<'_>, out: &mut Draft) -> Result<(), NoMemory>
    requires { AreCounted (FitsWord widest) after_word (decide_parts m.now).words }
    ensures kept { out.new.kept ≡ out.old.kept }
    ensures writes { OnOk result (Writes out.old out.new (proposal_front (decide_parts m.now))) }
{
    out.push(m.shard)?;
    out.push(m.replica)?;
    write_decision(m.decision, out)?;
    write_number(m.view, out)?;
    write_words(m.words, out)
}

fn write_unsigned_decide(m: &DecideParts<'_>, out: &mut Draft) -> Result<(), NoMemory>
    requires { AreCounted (FitsWord widest) after_word (decide_parts m.now).words }
    ensures kept { out.new.kept ≡ out.old.kept }
    ensures writes { OnOk result (Writes out.old out.new (unsigned_decide (decide_parts m.now))) }
{
    out.push(11)?;
    write_transaction(&m.transaction, out)?;
    write_proposal(m, out)?;
    Ok(())
}

/// Appends the frame of a decide, of election words that are held one by one, but its signature.
pub fn put_unsigned_decide_parts(m: &DecideParts<'_>, out: &mut Vec<u8>) -> Result<(), NoMemory>
    requires { AreCounted (FitsWord widest) after_word (decide_parts m.now).words }
    ensures appends { OnOk result (out.new.items ≡ out.old.items ++ unsigned_decide (decide_parts m.now)) }
    ensures as_before { OnErr result (out.new.items ≡ out.old.items) }
{
    let mut draft = Draft::behind(out);
    let written = write_unsigned_decide(m, &mut draft);
    draft.end(written, out)
}

fn write_decide(m: &DecideParts<'_>, out: &mut Draft) -> Result<(), NoMemory>
    requires { FitsDecide widest (decide_parts m.now) }
    ensures kept { out.new.kept ≡ out.old.kept }
    ensures writes { OnOk result (Writes out.old out.new (spelling (Decide (decide_parts m.now)))) }
{
    signatures_end_frames();
    write_unsigned_decide(m, out)?;
    write_signature(m.signature, out)?;
    Ok(())
}

/// Appends the frame of a decide, of election words that are held one by one.
pub fn put_decide_parts(m: &DecideParts<'_>, out: &mut Vec<u8>) -> Result<(), NoMemory>
    requires { FitsDecide widest (decide_parts m.now) }
    ensures appends { OnOk result (out.new.items ≡ out.old.items ++ spelling (Decide (decide_parts m.now))) }
    ensures as_before { OnErr result (out.new.items ≡ out.old.items) }
{
    let mut draft = Draft::behind(out);
    let written = write_decide(m, &mut draft);
    draft.end(written, out)
}

/// Appends the frame of a message that breaks no rule but perhaps the limit on a frame's length, or finds
/// memory wanting and leaves the bytes as they were.
pub fn encode_into(m: &Message, out: &mut Vec<u8>) -> Result<(), NoMemory>
    requires { FitsMessage widest (message_value m.now) }
    // The one spelling of the message.
    ensures appends { OnOk result (out.new.items ≡ out.old.items ++ spelling (message_value m.now)) }
    ensures as_before { OnErr result (out.new.items ≡ out.old.items) }
{
    put_lent(&lent(m), out)
}

fn put_lent(m: &MessageParts<'_>, out: &mut Vec<u8>) -> Result<(), NoMemory>
    requires { FitsMessage widest (message_parts m.now) }
    ensures appends { OnOk result (out.new.items ≡ out.old.items ++ spelling (message_parts m.now)) }
    ensures as_before { OnErr result (out.new.items ≡ out.old.items) }
{
    match m {
        MessageParts::Read(m) => put_read(m, out),
        MessageParts::ReadReply(m) => put_read_reply_parts(m, out),
        MessageParts::St1(m) => put_st1(m, out),
        MessageParts::Vote(m) => put_vote_parts(m, out),
        MessageParts::St2(m) => put_st2_parts(m, out),
        MessageParts::LogReply(m) => put_log_reply(m, out),
        MessageParts::Writeback(m) => put_writeback_parts(m, out),
        MessageParts::Recover(m) => put_recover(m, out),
        MessageParts::Invoke(m) => put_invoke_parts(m, out),
        MessageParts::Elect(m) => put_elect(m, out),
        MessageParts::Decide(m) => put_decide_parts(m, out),
    }
}
