//! Owned messages, lent.

ghost use Rattle.std.specs.Prelude.{◌≡◌};
ghost use Rattle.frame_values.specs.Owned.{read_value, read_reply_value, st1_value, voted_value, st2_value};
ghost use Rattle.frame_values.specs.Owned.{log_reply_value, writeback_value, recover_value, invoke_value, elect_value};
ghost use Rattle.frame_values.specs.Owned.{decide_value, message_value};
ghost use Rattle.frame_values.specs.Parts.{read_reply_parts, vote_parts, st2_parts, writeback_parts, invoke_parts};
ghost use Rattle.frame_values.specs.Parts.{decide_parts, message_parts};
ghost use Rattle.frame_views.specs.Shown.{read_of, st1_of, log_reply_of, recover_of, elect_message_of};

use super::parts::{
    DecideParts, InvokeParts, MessageParts, ReadReplyParts, St2Parts, VoteParts, WritebackParts,
};
use crate::owned::{
    DecideMessage, ElectMessage, InvokeMessage, LogReplyMessage, Message, ReadMessage,
    ReadReplyMessage, RecoverMessage, St1Message, St2Message, VoteMessage, WritebackMessage,
};
use frame_views::frames::{ElectView, LogReplyView, ReadView, RecoverView, St1View};

/// The message, lent.
pub fn lent(m: &Message) -> MessageParts<'_>
    ensures { message_parts result ≡ message_value m.now }
{
    match m {
        Message::Read(m) => MessageParts::Read(lent_read(m)),
        Message::ReadReply(m) => MessageParts::ReadReply(lent_read_reply(m)),
        Message::St1(m) => MessageParts::St1(lent_st1(m)),
        Message::Vote(m) => MessageParts::Vote(lent_vote(m)),
        Message::St2(m) => MessageParts::St2(lent_st2(m)),
        Message::LogReply(m) => MessageParts::LogReply(lent_log_reply(m)),
        Message::Writeback(m) => MessageParts::Writeback(lent_writeback(m)),
        Message::Recover(m) => MessageParts::Recover(lent_recover(m)),
        Message::Invoke(m) => MessageParts::Invoke(lent_invoke(m)),
        Message::Elect(m) => MessageParts::Elect(lent_elect(m)),
        Message::Decide(m) => MessageParts::Decide(lent_decide(m)),
    }
}

fn lent_read(m: &ReadMessage) -> ReadView<'_>
    ensures { read_of result ≡ read_value m.now }
{
    ReadView {
        key: m.key.as_slice(),
        time: m.time,
        client: m.client,
    }
}

fn lent_read_reply(m: &ReadReplyMessage) -> ReadReplyParts<'_>
    ensures { read_reply_parts result ≡ read_reply_value m.now }
{
    ReadReplyParts {
        shard: m.shard,
        replica: m.replica,
        key: m.key.as_slice(),
        time: m.time,
        client: m.client,
        committed: &m.committed,
        prepared: &m.prepared,
        signature: m.signature.as_slice(),
    }
}

fn lent_st1(m: &St1Message) -> St1View<'_>
    ensures { st1_of result ≡ st1_value m.now }
{
    St1View {
        transaction: m.transaction.view(),
        signature: m.signature.as_slice(),
    }
}

fn lent_vote(m: &VoteMessage) -> VoteParts<'_>
    ensures { vote_parts result ≡ voted_value m.now }
{
    VoteParts {
        shard: m.shard,
        replica: m.replica,
        id: m.id,
        decision: m.decision,
        proof: &m.proof,
        signature: m.signature.as_slice(),
    }
}

fn lent_st2(m: &St2Message) -> St2Parts<'_>
    ensures { st2_parts result ≡ st2_value m.now }
{
    St2Parts {
        transaction: m.transaction.view(),
        signature: m.signature.as_slice(),
        decision: m.decision,
        tallies: m.tallies.as_slice(),
    }
}

fn lent_log_reply(m: &LogReplyMessage) -> LogReplyView<'_>
    ensures { log_reply_of result ≡ log_reply_value m.now }
{
    LogReplyView {
        shard: m.shard,
        replica: m.replica,
        id: m.id,
        decision: m.decision,
        decided: m.decided,
        current: m.current,
        signature: m.signature.as_slice(),
    }
}

fn lent_writeback(m: &WritebackMessage) -> WritebackParts<'_>
    ensures { writeback_parts result ≡ writeback_value m.now }
{
    WritebackParts {
        transaction: m.transaction.view(),
        certificate: &m.certificate,
    }
}

fn lent_recover(m: &RecoverMessage) -> RecoverView<'_>
    ensures { recover_of result ≡ recover_value m.now }
{
    RecoverView {
        transaction: m.transaction.view(),
        signature: m.signature.as_slice(),
    }
}

fn lent_invoke(m: &InvokeMessage) -> InvokeParts<'_>
    ensures { invoke_parts result ≡ invoke_value m.now }
{
    InvokeParts {
        id: m.id,
        shard: m.shard,
        replies: m.replies.as_slice(),
    }
}

fn lent_elect(m: &ElectMessage) -> ElectView<'_>
    ensures { elect_message_of result ≡ elect_value m.now }
{
    ElectView {
        transaction: m.transaction.view(),
        shard: m.shard,
        replica: m.replica,
        decision: m.decision,
        view: m.view,
        signature: m.signature.as_slice(),
    }
}

fn lent_decide(m: &DecideMessage) -> DecideParts<'_>
    ensures { decide_parts result ≡ decide_value m.now }
{
    DecideParts {
        transaction: m.transaction.view(),
        shard: m.shard,
        replica: m.replica,
        decision: m.decision,
        view: m.view,
        words: m.words.as_slice(),
        signature: m.signature.as_slice(),
    }
}
