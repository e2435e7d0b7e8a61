//! Frames of borrowed parts. Each public call appends the frame of one kind, or finds memory wanting and leaves
//! the bytes as they were.

ghost use Rattle.std.specs.Prelude.{◌≡◌, ◌++◌, ◌∷◌, [], length, OnOk, OnErr};
ghost use Rattle.frame_views.specs.Fitting.{widest, IsKeyLength, IsSignature, FitsMessage};
ghost use Rattle.frame_views.specs.Shown.{read_of, read_reply_of, st1_of, voted_of, st2_of, log_reply_of, writeback_of};
ghost use Rattle.frame_views.specs.Shown.{recover_of, invoke_of, elect_message_of, decide_of, message_of};
ghost use Rattle.frame_views.specs.Spelling.{spelling};
ghost use Rattle.frame_views.specs.Values.{Decide, Elect, Invoke, LogReply, Read, ReadReply, Recover, St1, St2, Vote};
ghost use Rattle.frame_views.specs.Values.{Writeback};
ghost use Rattle.frame_writing.specs.Unsigned.{second_bytes};
ghost use Rattle.frame_writing.specs.Draft.{Writes};

use super::draft::Draft;
use super::fields::{
    write_decision, write_key, write_number, write_signature, write_stored, write_transaction,
};
use super::unsigned::{
    signatures_end_frames, write_unsigned_decide, write_unsigned_elect, write_unsigned_log_reply,
    write_unsigned_read_reply, write_unsigned_recover, write_unsigned_st1, write_unsigned_vote,
};
use basil_types::memory::NoMemory;
use frame_views::frames::{
    DecideView, ElectView, InvokeView, LogReplyView, MessageView, ReadReplyView, ReadView,
    RecoverView, St1View, St2View, VoteView, WritebackView,
};

fn write_read(m: &ReadView<'_>, out: &mut Draft) -> Result<(), NoMemory>
    requires { IsKeyLength (length m.now.key.now) }
    ensures kept { out.new.kept ≡ out.old.kept }
    ensures writes { OnOk result (Writes out.old out.new (spelling (Read (read_of m.now)))) }
{
    out.push(1)?;
    write_key(m.key, out)?;
    write_number(m.time, out)?;
    out.push(m.client)
}

/// Appends the frame of a read.
pub fn put_read(m: &ReadView<'_>, out: &mut Vec<u8>) -> Result<(), NoMemory>
    requires { IsKeyLength (length m.now.key.now) }
    ensures appends { OnOk result (out.new.items ≡ out.old.items ++ spelling (Read (read_of m.now))) }
    ensures as_before { OnErr result (out.new.items ≡ out.old.items) }
{
    let mut draft = Draft::behind(out);
    let written = write_read(m, &mut draft);
    draft.end(written, out)
}

fn write_read_reply(m: &ReadReplyView<'_>, out: &mut Draft) -> Result<(), NoMemory>
    requires key { IsKeyLength (length m.now.key.now) }
    requires signature { IsSignature m.now.signature.now }
    ensures kept { out.new.kept ≡ out.old.kept }
    ensures writes { OnOk result (Writes out.old out.new (spelling (ReadReply (read_reply_of m.now)))) }
{
    write_unsigned_read_reply(m, out)?;
    write_signature(m.signature, out)
}

/// Appends the frame of a read reply.
pub fn put_read_reply(m: &ReadReplyView<'_>, out: &mut Vec<u8>) -> Result<(), NoMemory>
    requires key { IsKeyLength (length m.now.key.now) }
    requires signature { IsSignature m.now.signature.now }
    ensures appends { OnOk result (out.new.items ≡ out.old.items ++ spelling (ReadReply (read_reply_of m.now))) }
    ensures as_before { OnErr result (out.new.items ≡ out.old.items) }
{
    let mut draft = Draft::behind(out);
    let written = write_read_reply(m, &mut draft);
    draft.end(written, out)
}

fn write_st1(m: &St1View<'_>, out: &mut Draft) -> Result<(), NoMemory>
    requires { IsSignature m.now.signature.now }
    ensures kept { out.new.kept ≡ out.old.kept }
    ensures writes { OnOk result (Writes out.old out.new (spelling (St1 (st1_of m.now)))) }
{
    write_unsigned_st1(m, out)?;
    write_signature(m.signature, out)
}

/// Appends the frame of a first stage.
pub fn put_st1(m: &St1View<'_>, out: &mut Vec<u8>) -> Result<(), NoMemory>
    requires { IsSignature m.now.signature.now }
    ensures appends { OnOk result (out.new.items ≡ out.old.items ++ spelling (St1 (st1_of m.now))) }
    ensures as_before { OnErr result (out.new.items ≡ out.old.items) }
{
    let mut draft = Draft::behind(out);
    let written = write_st1(m, &mut draft);
    draft.end(written, out)
}

fn write_vote(m: &VoteView<'_>, out: &mut Draft) -> Result<(), NoMemory>
    requires { IsSignature m.now.signature.now }
    ensures kept { out.new.kept ≡ out.old.kept }
    ensures writes { OnOk result (Writes out.old out.new (spelling (Vote (voted_of m.now)))) }
{
    write_unsigned_vote(m, out)?;
    write_signature(m.signature, out)
}

/// Appends the frame of a vote.
pub fn put_vote(m: &VoteView<'_>, out: &mut Vec<u8>) -> Result<(), NoMemory>
    requires { IsSignature m.now.signature.now }
    ensures appends { OnOk result (out.new.items ≡ out.old.items ++ spelling (Vote (voted_of m.now))) }
    ensures as_before { OnErr result (out.new.items ≡ out.old.items) }
{
    let mut draft = Draft::behind(out);
    let written = write_vote(m, &mut draft);
    draft.end(written, out)
}

/// What stands behind the transaction of a second stage.
fn write_second(m: &St2View<'_>, out: &mut Draft) -> Result<(), NoMemory>
    requires { IsSignature m.now.signature.now }
    ensures kept { out.new.kept ≡ out.old.kept }
    ensures writes { OnOk result (Writes out.old out.new (second_bytes (st2_of m.now))) }
{
    let (count, tallies) = m.tallies.spelled();
    write_signature(m.signature, out)?;
    write_decision(m.decision, out)?;
    out.push(count)?;
    out.extend(tallies)
}

fn write_st2(m: &St2View<'_>, out: &mut Draft) -> Result<(), NoMemory>
    requires { IsSignature m.now.signature.now }
    ensures kept { out.new.kept ≡ out.old.kept }
    ensures writes { OnOk result (Writes out.old out.new (spelling (St2 (st2_of m.now)))) }
{
    out.push(5)?;
    write_transaction(&m.transaction, out)?;
    write_second(m, out)?;
    Ok(())
}

/// Appends the frame of a second stage.
pub fn put_st2(m: &St2View<'_>, out: &mut Vec<u8>) -> Result<(), NoMemory>
    requires { IsSignature m.now.signature.now }
    ensures appends { OnOk result (out.new.items ≡ out.old.items ++ spelling (St2 (st2_of m.now))) }
    ensures as_before { OnErr result (out.new.items ≡ out.old.items) }
{
    let mut draft = Draft::behind(out);
    let written = write_st2(m, &mut draft);
    draft.end(written, out)
}

fn write_log_reply(m: &LogReplyView<'_>, out: &mut Draft) -> Result<(), NoMemory>
    requires { IsSignature m.now.signature.now }
    ensures kept { out.new.kept ≡ out.old.kept }
    ensures writes { OnOk result (Writes out.old out.new (spelling (LogReply (log_reply_of m.now)))) }
{
    write_unsigned_log_reply(m, out)?;
    write_signature(m.signature, out)
}

/// Appends the frame of a log reply.
pub fn put_log_reply(m: &LogReplyView<'_>, out: &mut Vec<u8>) -> Result<(), NoMemory>
    requires { IsSignature m.now.signature.now }
    ensures appends { OnOk result (out.new.items ≡ out.old.items ++ spelling (LogReply (log_reply_of m.now))) }
    ensures as_before { OnErr result (out.new.items ≡ out.old.items) }
{
    let mut draft = Draft::behind(out);
    let written = write_log_reply(m, &mut draft);
    draft.end(written, out)
}

fn write_writeback(m: &WritebackView<'_>, out: &mut Draft) -> Result<(), NoMemory>
    ensures kept { out.new.kept ≡ out.old.kept }
    ensures writes { OnOk result (Writes out.old out.new (spelling (Writeback (writeback_of m.now)))) }
{
    out.push(7)?;
    write_transaction(&m.transaction, out)?;
    write_stored(&m.certificate, out)?;
    Ok(())
}

/// Appends the frame of a writeback.
pub fn put_writeback(m: &WritebackView<'_>, out: &mut Vec<u8>) -> Result<(), NoMemory>
    ensures appends { OnOk result (out.new.items ≡ out.old.items ++ spelling (Writeback (writeback_of m.now))) }
    ensures as_before { OnErr result (out.new.items ≡ out.old.items) }
{
    let mut draft = Draft::behind(out);
    let written = write_writeback(m, &mut draft);
    draft.end(written, out)
}

fn write_recover(m: &RecoverView<'_>, out: &mut Draft) -> Result<(), NoMemory>
    requires { IsSignature m.now.signature.now }
    ensures kept { out.new.kept ≡ out.old.kept }
    ensures writes { OnOk result (Writes out.old out.new (spelling (Recover (recover_of m.now)))) }
{
    write_unsigned_recover(m, out)?;
    write_signature(m.signature, out)
}

/// Appends the frame of a recover.
pub fn put_recover(m: &RecoverView<'_>, out: &mut Vec<u8>) -> Result<(), NoMemory>
    requires { IsSignature m.now.signature.now }
    ensures appends { OnOk result (out.new.items ≡ out.old.items ++ spelling (Recover (recover_of m.now))) }
    ensures as_before { OnErr result (out.new.items ≡ out.old.items) }
{
    let mut draft = Draft::behind(out);
    let written = write_recover(m, &mut draft);
    draft.end(written, out)
}

fn write_invoke(m: &InvokeView<'_>, out: &mut Draft) -> Result<(), NoMemory>
    ensures kept { out.new.kept ≡ out.old.kept }
    ensures writes { OnOk result (Writes out.old out.new (spelling (Invoke (invoke_of m.now)))) }
{
    let (count, replies) = m.replies.spelled();
    out.push(9)?;
    out.extend(&m.id)?;
    out.push(m.shard)?;
    out.push(count)?;
    out.extend(replies)
}

/// Appends the frame of an invoke.
pub fn put_invoke(m: &InvokeView<'_>, out: &mut Vec<u8>) -> Result<(), NoMemory>
    ensures appends { OnOk result (out.new.items ≡ out.old.items ++ spelling (Invoke (invoke_of m.now))) }
    ensures as_before { OnErr result (out.new.items ≡ out.old.items) }
{
    let mut draft = Draft::behind(out);
    let written = write_invoke(m, &mut draft);
    draft.end(written, out)
}

fn write_elect(m: &ElectView<'_>, out: &mut Draft) -> Result<(), NoMemory>
    requires { IsSignature m.now.signature.now }
    ensures kept { out.new.kept ≡ out.old.kept }
    ensures writes { OnOk result (Writes out.old out.new (spelling (Elect (elect_message_of m.now)))) }
{
    write_unsigned_elect(m, out)?;
    write_signature(m.signature, out)
}

/// Appends the frame of an elect.
pub fn put_elect(m: &ElectView<'_>, out: &mut Vec<u8>) -> Result<(), NoMemory>
    requires { IsSignature m.now.signature.now }
    ensures appends { OnOk result (out.new.items ≡ out.old.items ++ spelling (Elect (elect_message_of m.now))) }
    ensures as_before { OnErr result (out.new.items ≡ out.old.items) }
{
    let mut draft = Draft::behind(out);
    let written = write_elect(m, &mut draft);
    draft.end(written, out)
}

fn write_decide(m: &DecideView<'_>, out: &mut Draft) -> Result<(), NoMemory>
    requires { IsSignature m.now.signature.now }
    ensures kept { out.new.kept ≡ out.old.kept }
    ensures writes { OnOk result (Writes out.old out.new (spelling (Decide (decide_of m.now)))) }
{
    signatures_end_frames();
    write_unsigned_decide(m, out)?;
    write_signature(m.signature, out)?;
    Ok(())
}

/// Appends the frame of a decide.
pub fn put_decide(m: &DecideView<'_>, out: &mut Vec<u8>) -> Result<(), NoMemory>
    requires { IsSignature m.now.signature.now }
    ensures appends { OnOk result (out.new.items ≡ out.old.items ++ spelling (Decide (decide_of m.now))) }
    ensures as_before { OnErr result (out.new.items ≡ out.old.items) }
{
    let mut draft = Draft::behind(out);
    let written = write_decide(m, &mut draft);
    draft.end(written, out)
}

/// Appends the frame of a message that breaks no rule but perhaps the limit on length.
pub fn put_message(m: &MessageView<'_>, out: &mut Vec<u8>) -> Result<(), NoMemory>
    requires { FitsMessage widest (message_of m.now) }
    ensures appends { OnOk result (out.new.items ≡ out.old.items ++ spelling (message_of m.now)) }
    ensures as_before { OnErr result (out.new.items ≡ out.old.items) }
{
    match m {
        MessageView::Read(m) => put_read(m, out),
        MessageView::ReadReply(m) => put_read_reply(m, out),
        MessageView::St1(m) => put_st1(m, out),
        MessageView::Vote(m) => put_vote(m, out),
        MessageView::St2(m) => put_st2(m, out),
        MessageView::LogReply(m) => put_log_reply(m, out),
        MessageView::Writeback(m) => put_writeback(m, out),
        MessageView::Recover(m) => put_recover(m, out),
        MessageView::Invoke(m) => put_invoke(m, out),
        MessageView::Elect(m) => put_elect(m, out),
        MessageView::Decide(m) => put_decide(m, out),
    }
}
