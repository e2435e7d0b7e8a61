//! Messages of each kind but writebacks, and the rules of their fields.

use super::fields::{
    CARRIED, CLIENT, DECISION, Fields, KEY, PROOF, REPLICA, REPLIES, Rule, SHARD, SHARDS,
    SIGNATURE, SIGNERS, TIME, VIEW, VIEWS, fit_but,
};
use super::is_fit;
use super::parts::{committed, prepared, replies, some, tallies, transaction, words};
use basil_codec::{
    CommittedPart, DecideMessage, ElectMessage, InvokeMessage, LogReplyMessage, Message,
    ReadMessage, ReadReplyMessage, RecoverMessage, St1Message, St2Message, VoteMessage,
};
use basil_types::bytes::Bytes;
use basil_types::transaction::Transaction;
use std::alloc::Global;
use std::process::Abort;
use std::test::Fail;

/// A kind of message.
#[derive(Clone, Copy)]
enum Kind {
    Read,
    ReadReply,
    St1,
    Vote,
    St2,
    LogReply,
    Recover,
    Invoke,
    Elect,
    Decide,
}

/// A kind, its name, and the rules of its fields.
type Row = (Kind, &'static str, &'static [Rule]);

const KINDS: &[Row] = &[
    (Kind::Read, "read", &[KEY, TIME, CLIENT]),
    (
        Kind::ReadReply,
        "read reply",
        &[SHARD, REPLICA, KEY, TIME, CLIENT, CARRIED, SIGNATURE],
    ),
    (Kind::St1, "first stage", &[SIGNATURE]),
    (Kind::Vote, "vote", &[SHARD, REPLICA, PROOF, SIGNATURE]),
    (
        Kind::St2,
        "second stage",
        &[SIGNATURE, DECISION, SHARDS, SIGNERS],
    ),
    (
        Kind::LogReply,
        "log reply",
        &[SHARD, REPLICA, DECISION, VIEWS, SIGNATURE],
    ),
    (Kind::Recover, "recover", &[SIGNATURE]),
    (Kind::Invoke, "invoke", &[SHARD, DECISION, REPLIES, SIGNERS]),
    (
        Kind::Elect,
        "elect",
        &[SHARD, REPLICA, DECISION, VIEW, SIGNATURE],
    ),
    (
        Kind::Decide,
        "decide",
        &[SHARD, REPLICA, DECISION, VIEW, SIGNERS, SIGNATURE],
    ),
];

fn is_read_fit(alloc: Global, fields: &Fields) -> Result<bool, Fail> {
    let key = some(alloc, fields.key)?;
    Ok(is_fit(Message::Read(ReadMessage {
        key,
        time: fields.time,
        client: fields.client,
    })))
}

/// The read reply of these parts.
pub(crate) fn read_reply(
    fields: &Fields,
    key: Bytes,
    signature: Bytes,
    prepared: Option<Transaction>,
    committed: Option<CommittedPart>,
) -> Message {
    Message::ReadReply(ReadReplyMessage {
        shard: fields.shard,
        replica: fields.replica,
        key,
        time: fields.time,
        client: fields.client,
        committed,
        prepared,
        signature,
    })
}

fn is_read_reply_fit(alloc: Global, fields: &Fields) -> Result<bool, Fail> {
    let key = some(alloc, fields.key)?;
    let signature = some(alloc, fields.signature)?;
    let prepared = prepared(alloc, fields.prepared)?;
    let committed = committed(alloc, fields.committed)?;
    Ok(is_fit(read_reply(fields, key, signature, prepared, committed)))
}

fn is_first_stage_fit(alloc: Global, fields: &Fields) -> Result<bool, Fail> {
    let signature = some(alloc, fields.signature)?;
    let transaction = transaction(alloc)?;
    Ok(is_fit(Message::St1(St1Message {
        transaction,
        signature,
    })))
}

/// The vote of these parts.
pub(crate) fn vote(fields: &Fields, signature: Bytes, proof: Option<CommittedPart>) -> Message {
    Message::Vote(VoteMessage {
        shard: fields.shard,
        replica: fields.replica,
        id: [0; 32],
        decision: fields.decision,
        proof,
        signature,
    })
}

fn is_vote_fit(alloc: Global, fields: &Fields) -> Result<bool, Fail> {
    let signature = some(alloc, fields.signature)?;
    let proof = committed(alloc, fields.committed)?;
    Ok(is_fit(vote(fields, signature, proof)))
}

fn is_second_stage_fit(alloc: Global, fields: &Fields) -> Result<bool, Fail> {
    let signature = some(alloc, fields.signature)?;
    let transaction = transaction(alloc)?;
    let tallies = tallies(alloc, fields)?;
    Ok(is_fit(Message::St2(St2Message {
        transaction,
        signature,
        decision: fields.decision,
        tallies,
    })))
}

fn is_log_reply_fit(alloc: Global, fields: &Fields) -> Result<bool, Fail> {
    let signature = some(alloc, fields.signature)?;
    Ok(is_fit(Message::LogReply(LogReplyMessage {
        shard: fields.shard,
        replica: fields.replica,
        id: [0; 32],
        decision: fields.decision,
        decided: fields.decided,
        current: fields.current,
        signature,
    })))
}

fn is_recover_fit(alloc: Global, fields: &Fields) -> Result<bool, Fail> {
    let signature = some(alloc, fields.signature)?;
    let transaction = transaction(alloc)?;
    Ok(is_fit(Message::Recover(RecoverMessage {
        transaction,
        signature,
    })))
}

fn is_invoke_fit(alloc: Global, fields: &Fields) -> Result<bool, Fail> {
    let replies = replies(alloc, fields)?;
    Ok(is_fit(Message::Invoke(InvokeMessage {
        id: [0; 32],
        shard: fields.shard,
        replies,
    })))
}

fn is_elect_fit(alloc: Global, fields: &Fields) -> Result<bool, Fail> {
    let signature = some(alloc, fields.signature)?;
    let transaction = transaction(alloc)?;
    Ok(is_fit(Message::Elect(ElectMessage {
        transaction,
        shard: fields.shard,
        replica: fields.replica,
        decision: fields.decision,
        view: fields.current,
        signature,
    })))
}

fn is_decide_fit(alloc: Global, fields: &Fields) -> Result<bool, Fail> {
    let signature = some(alloc, fields.signature)?;
    let transaction = transaction(alloc)?;
    let words = words(alloc, fields)?;
    Ok(is_fit(Message::Decide(DecideMessage {
        transaction,
        shard: fields.shard,
        replica: fields.replica,
        decision: fields.decision,
        view: fields.current,
        words,
        signature,
    })))
}

/// Whether a message of a kind with these fields fits.
fn is_kind_fit(alloc: Global, kind: Kind, fields: &Fields) -> Result<bool, Fail> {
    match kind {
        Kind::Read => is_read_fit(alloc, fields),
        Kind::ReadReply => is_read_reply_fit(alloc, fields),
        Kind::St1 => is_first_stage_fit(alloc, fields),
        Kind::Vote => is_vote_fit(alloc, fields),
        Kind::St2 => is_second_stage_fit(alloc, fields),
        Kind::LogReply => is_log_reply_fit(alloc, fields),
        Kind::Recover => is_recover_fit(alloc, fields),
        Kind::Invoke => is_invoke_fit(alloc, fields),
        Kind::Elect => is_elect_fit(alloc, fields),
        Kind::Decide => is_decide_fit(alloc, fields),
    }
}

/// Whether a kind keeps a rule: its messages fit as the rows say.
fn keeps(alloc: Global, kind: Kind, rule: &Rule) -> Result<bool, Fail> {
    for &(field, fit) in rule.rows {
        if is_kind_fit(alloc, kind, &fit_but(field))? != fit {
            return Ok(false);
        }
    }
    Ok(true)
}

/// Fails with the first rule that a kind doesn't keep.
fn keeps_all(rt: &impl Abort, alloc: Global, row: &Row) -> Result<(), Fail> {
    let &(kind, name, rules) = row;
    for rule in rules {
        assert!(rt; keeps(alloc, kind, rule)?, "{name}: {}", rule.says);
    }
    Ok(())
}

#[test]
fn messages_keep_each_rule(rt: HostRuntime) -> Result<(), Fail> {
    for row in KINDS {
        keeps_all(&rt, rt.alloc(), row)?;
    }
    Ok(())
}
