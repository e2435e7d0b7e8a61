//! Owned copies of messages.

ghost use Rattle.std.specs.Prelude.{◌≡◌, IfOk, option_map};
ghost use Rattle.basil_types.specs.Shown.{transaction_of};
ghost use Rattle.frame_values.specs.Owned.{message_value};
ghost use Rattle.frame_views.specs.Shown.{message_of, read_of, read_reply_of, st1_of, voted_of, st2_of, log_reply_of};
ghost use Rattle.frame_views.specs.Shown.{writeback_of, recover_of, invoke_of, elect_message_of, decide_of};
ghost use Rattle.frame_views.specs.Values as values;

use super::certificates::{own_certificate, own_committed};
use super::lists::{own_replies, own_tallies, own_words};
use crate::owned::{
    DecideMessage, ElectMessage, InvokeMessage, LogReplyMessage, Message, ReadMessage,
    ReadReplyMessage, RecoverMessage, St1Message, St2Message, VoteMessage, WritebackMessage,
};
use basil_types::bytes::Bytes;
use basil_types::memory::NoMemory;
use basil_types::transaction::{Transaction, TransactionView};
use frame_views::frames::{
    DecideView, ElectView, InvokeView, LogReplyView, MessageView, ReadReplyView, ReadView,
    RecoverView, St1View, St2View, VoteView, WritebackView,
};
use std::alloc::Global;

/// The value that the frame spells, owned.
pub fn decode(alloc: Global, m: &MessageView<'_>) -> Result<Message, NoMemory>
    ensures { IfOk result (λ x. message_value x ≡ message_of m.now) }
{
    match m {
        MessageView::Read(m) => own_read(alloc, m),
        MessageView::ReadReply(m) => own_read_reply(alloc, m),
        MessageView::St1(m) => own_st1(alloc, m),
        MessageView::Vote(m) => own_vote_message(alloc, m),
        MessageView::St2(m) => own_st2(alloc, m),
        MessageView::LogReply(m) => own_log_reply(alloc, m),
        MessageView::Writeback(m) => own_writeback(alloc, m),
        MessageView::Recover(m) => own_recover(alloc, m),
        MessageView::Invoke(m) => own_invoke(alloc, m),
        MessageView::Elect(m) => own_elect_message(alloc, m),
        MessageView::Decide(m) => own_decide(alloc, m),
    }
}

fn own_prepared(
    alloc: Global,
    part: &Option<TransactionView<'_>>,
) -> Result<Option<Transaction>, NoMemory>
    ensures { IfOk result (λ x. x ≡ option_map transaction_of part.now) }
{
    match part {
        Some(part) => {
            let transaction = part.try_owned(alloc)?;
            Ok(Some(transaction))
        }
        None => Ok(None),
    }
}

fn own_read(alloc: Global, m: &ReadView<'_>) -> Result<Message, NoMemory>
    ensures { IfOk result (λ x. message_value x ≡ values.Read (read_of m.now)) }
{
    let key = Bytes::copy_of(alloc, m.key)?;
    Ok(Message::Read(ReadMessage {
        key,
        time: m.time,
        client: m.client,
    }))
}

fn own_read_reply(alloc: Global, m: &ReadReplyView<'_>) -> Result<Message, NoMemory>
    ensures { IfOk result (λ x. message_value x ≡ values.ReadReply (read_reply_of m.now)) }
{
    let key = Bytes::copy_of(alloc, m.key)?;
    let committed = own_committed(alloc, &m.committed)?;
    let prepared = own_prepared(alloc, &m.prepared)?;
    let signature = Bytes::copy_of(alloc, m.signature)?;
    Ok(Message::ReadReply(ReadReplyMessage {
        shard: m.shard,
        replica: m.replica,
        key,
        time: m.time,
        client: m.client,
        committed,
        prepared,
        signature,
    }))
}

fn own_st1(alloc: Global, m: &St1View<'_>) -> Result<Message, NoMemory>
    ensures { IfOk result (λ x. message_value x ≡ values.St1 (st1_of m.now)) }
{
    let transaction = m.transaction.try_owned(alloc)?;
    let signature = Bytes::copy_of(alloc, m.signature)?;
    Ok(Message::St1(St1Message {
        transaction,
        signature,
    }))
}

fn own_vote_message(alloc: Global, m: &VoteView<'_>) -> Result<Message, NoMemory>
    ensures { IfOk result (λ x. message_value x ≡ values.Vote (voted_of m.now)) }
{
    let proof = own_committed(alloc, &m.proof)?;
    let signature = Bytes::copy_of(alloc, m.signature)?;
    Ok(Message::Vote(VoteMessage {
        shard: m.shard,
        replica: m.replica,
        id: m.id,
        decision: m.decision,
        proof,
        signature,
    }))
}

fn own_st2(alloc: Global, m: &St2View<'_>) -> Result<Message, NoMemory>
    ensures { IfOk result (λ x. message_value x ≡ values.St2 (st2_of m.now)) }
{
    let transaction = m.transaction.try_owned(alloc)?;
    let signature = Bytes::copy_of(alloc, m.signature)?;
    let tallies = own_tallies(alloc, &m.tallies)?;
    Ok(Message::St2(St2Message {
        transaction,
        signature,
        decision: m.decision,
        tallies,
    }))
}

fn own_log_reply(alloc: Global, m: &LogReplyView<'_>) -> Result<Message, NoMemory>
    ensures { IfOk result (λ x. message_value x ≡ values.LogReply (log_reply_of m.now)) }
{
    let signature = Bytes::copy_of(alloc, m.signature)?;
    Ok(Message::LogReply(LogReplyMessage {
        shard: m.shard,
        replica: m.replica,
        id: m.id,
        decision: m.decision,
        decided: m.decided,
        current: m.current,
        signature,
    }))
}

fn own_writeback(alloc: Global, m: &WritebackView<'_>) -> Result<Message, NoMemory>
    ensures { IfOk result (λ x. message_value x ≡ values.Writeback (writeback_of m.now)) }
{
    let transaction = m.transaction.try_owned(alloc)?;
    let certificate = own_certificate(alloc, &m.certificate)?;
    Ok(Message::Writeback(WritebackMessage {
        transaction,
        certificate,
    }))
}

fn own_recover(alloc: Global, m: &RecoverView<'_>) -> Result<Message, NoMemory>
    ensures { IfOk result (λ x. message_value x ≡ values.Recover (recover_of m.now)) }
{
    let transaction = m.transaction.try_owned(alloc)?;
    let signature = Bytes::copy_of(alloc, m.signature)?;
    Ok(Message::Recover(RecoverMessage {
        transaction,
        signature,
    }))
}

fn own_invoke(alloc: Global, m: &InvokeView<'_>) -> Result<Message, NoMemory>
    ensures { IfOk result (λ x. message_value x ≡ values.Invoke (invoke_of m.now)) }
{
    let replies = own_replies(alloc, &m.replies)?;
    Ok(Message::Invoke(InvokeMessage {
        id: m.id,
        shard: m.shard,
        replies,
    }))
}

fn own_elect_message(alloc: Global, m: &ElectView<'_>) -> Result<Message, NoMemory>
    ensures { IfOk result (λ x. message_value x ≡ values.Elect (elect_message_of m.now)) }
{
    let transaction = m.transaction.try_owned(alloc)?;
    let signature = Bytes::copy_of(alloc, m.signature)?;
    Ok(Message::Elect(ElectMessage {
        transaction,
        shard: m.shard,
        replica: m.replica,
        decision: m.decision,
        view: m.view,
        signature,
    }))
}

fn own_decide(alloc: Global, m: &DecideView<'_>) -> Result<Message, NoMemory>
    ensures { IfOk result (λ x. message_value x ≡ values.Decide (decide_of m.now)) }
{
    let transaction = m.transaction.try_owned(alloc)?;
    let words = own_words(alloc, &m.words)?;
    let signature = Bytes::copy_of(alloc, m.signature)?;
    Ok(Message::Decide(DecideMessage {
        transaction,
        shard: m.shard,
        replica: m.replica,
        decision: m.decision,
        view: m.view,
        words,
        signature,
    }))
}
