//! Frames that lack their signature, which is the last field of each frame that a node signs as it sends it. Each
//! public call appends all that stands before the signature, whatever the signature is, or finds memory wanting
//! and leaves the bytes as they were.

ghost use Rattle.std.specs.Prelude.{◌≡◌, ◌++◌, ◌∷◌, [], length, OnOk, OnErr};
ghost use Rattle.frame_views.specs.Fitting.{IsKeyLength};
ghost use Rattle.frame_views.specs.Shown.{read_reply_of, st1_of, voted_of, log_reply_of, recover_of, elect_message_of};
ghost use Rattle.frame_views.specs.Shown.{decide_of};
ghost use Rattle.frame_views.specs.Values.{Decide, DecideValue, Elect, ElectValue, LogReply, LogReplyValue, ReadReply};
ghost use Rattle.frame_views.specs.Values.{ReadReplyValue, Recover, SignedValue, St1, Vote, VotedValue};
ghost use Rattle.frame_writing.specs.Unsigned.{unsigned_read_reply, unsigned_st1, unsigned_vote, unsigned_log_reply};
ghost use Rattle.frame_writing.specs.Unsigned.{EndsSigned, unsigned_recover, unsigned_elect, unsigned_decide};
ghost use Rattle.frame_writing.specs.Unsigned.{word_front};
ghost use Rattle.frame_writing.specs.Unsigned.{proposal_front};
ghost use Rattle.frame_writing.specs.Draft.{Writes};

use super::draft::Draft;
use super::fields::{
    write_committed, write_decision, write_key, write_number, write_prepared, write_transaction,
};
use basil_types::memory::NoMemory;
use frame_views::frames::{
    DecideView, ElectView, LogReplyView, ReadReplyView, RecoverView, St1View, VoteView,
};

pub(super) fn write_unsigned_read_reply(
    m: &ReadReplyView<'_>,
    out: &mut Draft,
) -> Result<(), NoMemory>
    requires { IsKeyLength (length m.now.key.now) }
    ensures kept { out.new.kept ≡ out.old.kept }
    ensures writes { OnOk result (Writes out.old out.new (unsigned_read_reply (read_reply_of m.now))) }
{
    out.push(2)?;
    out.push(m.shard)?;
    out.push(m.replica)?;
    write_key(m.key, out)?;
    write_number(m.time, out)?;
    out.push(m.client)?;
    write_committed(&m.committed, out)?;
    write_prepared(&m.prepared, out)
}

/// Appends the frame of a read reply but its signature.
pub fn put_unsigned_read_reply(m: &ReadReplyView<'_>, out: &mut Vec<u8>) -> Result<(), NoMemory>
    requires { IsKeyLength (length m.now.key.now) }
    ensures appends { OnOk result (out.new.items ≡ out.old.items ++ unsigned_read_reply (read_reply_of m.now)) }
    ensures as_before { OnErr result (out.new.items ≡ out.old.items) }
{
    let mut draft = Draft::behind(out);
    let written = write_unsigned_read_reply(m, &mut draft);
    draft.end(written, out)
}

pub(super) fn write_unsigned_st1(m: &St1View<'_>, out: &mut Draft) -> Result<(), NoMemory>
    ensures kept { out.new.kept ≡ out.old.kept }
    ensures writes { OnOk result (Writes out.old out.new (unsigned_st1 (st1_of m.now))) }
{
    out.push(3)?;
    write_transaction(&m.transaction, out)?;
    Ok(())
}

/// Appends the frame of a first stage but its signature.
pub fn put_unsigned_st1(m: &St1View<'_>, out: &mut Vec<u8>) -> Result<(), NoMemory>
    ensures appends { OnOk result (out.new.items ≡ out.old.items ++ unsigned_st1 (st1_of m.now)) }
    ensures as_before { OnErr result (out.new.items ≡ out.old.items) }
{
    let mut draft = Draft::behind(out);
    let written = write_unsigned_st1(m, &mut draft);
    draft.end(written, out)
}

pub(super) fn write_unsigned_vote(m: &VoteView<'_>, out: &mut Draft) -> Result<(), NoMemory>
    ensures kept { out.new.kept ≡ out.old.kept }
    ensures writes { OnOk result (Writes out.old out.new (unsigned_vote (voted_of m.now))) }
{
    out.push(4)?;
    out.push(m.shard)?;
    out.push(m.replica)?;
    out.extend(&m.id)?;
    write_decision(m.decision, out)?;
    write_committed(&m.proof, out)
}

/// Appends the frame of a vote but its signature.
pub fn put_unsigned_vote(m: &VoteView<'_>, out: &mut Vec<u8>) -> Result<(), NoMemory>
    ensures appends { OnOk result (out.new.items ≡ out.old.items ++ unsigned_vote (voted_of m.now)) }
    ensures as_before { OnErr result (out.new.items ≡ out.old.items) }
{
    let mut draft = Draft::behind(out);
    let written = write_unsigned_vote(m, &mut draft);
    draft.end(written, out)
}

pub(super) fn write_unsigned_log_reply(
    m: &LogReplyView<'_>,
    out: &mut Draft,
) -> Result<(), NoMemory>
    ensures kept { out.new.kept ≡ out.old.kept }
    ensures writes { OnOk result (Writes out.old out.new (unsigned_log_reply (log_reply_of m.now))) }
{
    out.push(6)?;
    out.push(m.shard)?;
    out.push(m.replica)?;
    out.extend(&m.id)?;
    write_decision(m.decision, out)?;
    write_number(m.decided, out)?;
    write_number(m.current, out)
}

/// Appends the frame of a log reply but its signature.
pub fn put_unsigned_log_reply(m: &LogReplyView<'_>, out: &mut Vec<u8>) -> Result<(), NoMemory>
    ensures appends { OnOk result (out.new.items ≡ out.old.items ++ unsigned_log_reply (log_reply_of m.now)) }
    ensures as_before { OnErr result (out.new.items ≡ out.old.items) }
{
    let mut draft = Draft::behind(out);
    let written = write_unsigned_log_reply(m, &mut draft);
    draft.end(written, out)
}

pub(super) fn write_unsigned_recover(m: &RecoverView<'_>, out: &mut Draft) -> Result<(), NoMemory>
    ensures kept { out.new.kept ≡ out.old.kept }
    ensures writes { OnOk result (Writes out.old out.new (unsigned_recover (recover_of m.now))) }
{
    out.push(8)?;
    write_transaction(&m.transaction, out)?;
    Ok(())
}

/// Appends the frame of a recover but its signature.
pub fn put_unsigned_recover(m: &RecoverView<'_>, out: &mut Vec<u8>) -> Result<(), NoMemory>
    ensures appends { OnOk result (out.new.items ≡ out.old.items ++ unsigned_recover (recover_of m.now)) }
    ensures as_before { OnErr result (out.new.items ≡ out.old.items) }
{
    let mut draft = Draft::behind(out);
    let written = write_unsigned_recover(m, &mut draft);
    draft.end(written, out)
}

/// What an elect says behind its transaction.
fn write_word(m: &ElectView<'_>, out: &mut Draft) -> Result<(), NoMemory>
    ensures kept { out.new.kept ≡ out.old.kept }
    ensures writes { OnOk result (Writes out.old out.new (word_front (elect_message_of m.now))) }
{
    out.push(m.shard)?;
    out.push(m.replica)?;
    write_decision(m.decision, out)?;
    write_number(m.view, out)
}

pub(super) fn write_unsigned_elect(m: &ElectView<'_>, out: &mut Draft) -> Result<(), NoMemory>
    ensures kept { out.new.kept ≡ out.old.kept }
    ensures writes { OnOk result (Writes out.old out.new (unsigned_elect (elect_message_of m.now))) }
{
    out.push(10)?;
    write_transaction(&m.transaction, out)?;
    write_word(m, out)?;
    Ok(())
}

/// Appends the frame of an elect but its signature.
pub fn put_unsigned_elect(m: &ElectView<'_>, out: &mut Vec<u8>) -> Result<(), NoMemory>
    ensures appends { OnOk result (out.new.items ≡ out.old.items ++ unsigned_elect (elect_message_of m.now)) }
    ensures as_before { OnErr result (out.new.items ≡ out.old.items) }
{
    let mut draft = Draft::behind(out);
    let written = write_unsigned_elect(m, &mut draft);
    draft.end(written, out)
}

/// What a decide says behind its transaction.
fn write_proposal(m: &DecideView<'_>, out: &mut Draft) -> Result<(), NoMemory>
    ensures kept { out.new.kept ≡ out.old.kept }
    ensures writes { OnOk result (Writes out.old out.new (proposal_front (decide_of m.now))) }
{
    let (count, words) = m.words.spelled();
    out.push(m.shard)?;
    out.push(m.replica)?;
    write_decision(m.decision, out)?;
    write_number(m.view, out)?;
    out.push(count)?;
    out.extend(words)
}

pub(super) fn write_unsigned_decide(m: &DecideView<'_>, out: &mut Draft) -> Result<(), NoMemory>
    ensures kept { out.new.kept ≡ out.old.kept }
    ensures writes { OnOk result (Writes out.old out.new (unsigned_decide (decide_of m.now))) }
{
    out.push(11)?;
    write_transaction(&m.transaction, out)?;
    write_proposal(m, out)?;
    Ok(())
}

/// Appends the frame of a decide but its signature.
pub fn put_unsigned_decide(m: &DecideView<'_>, out: &mut Vec<u8>) -> Result<(), NoMemory>
    ensures appends { OnOk result (out.new.items ≡ out.old.items ++ unsigned_decide (decide_of m.now)) }
    ensures as_before { OnErr result (out.new.items ≡ out.old.items) }
{
    let mut draft = Draft::behind(out);
    let written = write_unsigned_decide(m, &mut draft);
    draft.end(written, out)
}

/// A law: a frame that a node signs as it sends it is what lacks the signature, and behind it the signature's field.
pub fn signatures_end_frames()
    ensures read_replies { (m : ReadReplyValue) → EndsSigned (ReadReply m) (unsigned_read_reply m) m.signature }
    ensures first_stages { (m : SignedValue) → EndsSigned (St1 m) (unsigned_st1 m) m.signature }
    ensures votes { (m : VotedValue) → EndsSigned (Vote m) (unsigned_vote m) m.signature }
    ensures log_replies { (m : LogReplyValue) → EndsSigned (LogReply m) (unsigned_log_reply m) m.signature }
    ensures recovers { (m : SignedValue) → EndsSigned (Recover m) (unsigned_recover m) m.signature }
    ensures elects { (m : ElectValue) → EndsSigned (Elect m) (unsigned_elect m) m.signature }
    ensures decides { (m : DecideValue) → EndsSigned (Decide m) (unsigned_decide m) m.signature }
{}
