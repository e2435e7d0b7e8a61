//! Owned messages.

use super::certificate::Certificate;
use super::parts::{CommittedPart, ElectPart, InvokePart, ShardVotes};
use basil_types::bytes::Bytes;
use basil_types::list::List;
use basil_types::party::Decision;
use basil_types::transaction::Transaction;

/// What a frame says, by kinds; the fields of each are those of its view.
#[derive(Drop)]
pub enum Message {
    Read(ReadMessage),
    ReadReply(ReadReplyMessage),
    St1(St1Message),
    Vote(VoteMessage),
    St2(St2Message),
    LogReply(LogReplyMessage),
    Writeback(WritebackMessage),
    Recover(RecoverMessage),
    Invoke(InvokeMessage),
    Elect(ElectMessage),
    Decide(DecideMessage),
}

/// A client reads a key for a transaction of this time.
#[derive(Drop)]
pub struct ReadMessage {
    pub key: Bytes,
    pub time: u64,
    pub client: u8,
}

/// A replica's latest committed and prepared writers of a key below a read.
#[derive(Drop)]
pub struct ReadReplyMessage {
    pub shard: u8,
    pub replica: u8,
    pub key: Bytes,
    pub time: u64,
    pub client: u8,
    pub committed: Option<CommittedPart>,
    pub prepared: Option<Transaction>,
    pub signature: Bytes,
}

/// The first stage, a transaction that its client signed.
#[derive(Drop)]
pub struct St1Message {
    pub transaction: Transaction,
    pub signature: Bytes,
}

/// A replica's vote.
#[derive(Drop)]
pub struct VoteMessage {
    pub shard: u8,
    pub replica: u8,
    pub id: [u8; 32],
    pub decision: Decision,
    pub proof: Option<CommittedPart>,
    pub signature: Bytes,
}

/// The second stage, a decision with the votes that give it.
#[derive(Drop)]
pub struct St2Message {
    pub transaction: Transaction,
    pub signature: Bytes,
    pub decision: Decision,
    pub tallies: List<ShardVotes>,
}

/// A replica's logged decision, the view in which it was decided, and the current view.
#[derive(Drop)]
pub struct LogReplyMessage {
    pub shard: u8,
    pub replica: u8,
    pub id: [u8; 32],
    pub decision: Decision,
    pub decided: u64,
    pub current: u64,
    pub signature: Bytes,
}

/// A transaction and a certificate.
#[derive(Drop)]
pub struct WritebackMessage {
    pub transaction: Transaction,
    pub certificate: Certificate,
}

/// A client asks for what is known of a transaction that its client signed.
#[derive(Drop)]
pub struct RecoverMessage {
    pub transaction: Transaction,
    pub signature: Bytes,
}

/// A client invokes the fallback with log replies.
#[derive(Drop)]
pub struct InvokeMessage {
    pub id: [u8; 32],
    pub shard: u8,
    pub replies: List<InvokePart>,
}

/// A replica's word in the election of a view.
#[derive(Drop)]
pub struct ElectMessage {
    pub transaction: Transaction,
    pub shard: u8,
    pub replica: u8,
    pub decision: Decision,
    pub view: u64,
    pub signature: Bytes,
}

/// A leader's proposal in a view, with the words that elect it.
#[derive(Drop)]
pub struct DecideMessage {
    pub transaction: Transaction,
    pub shard: u8,
    pub replica: u8,
    pub decision: Decision,
    pub view: u64,
    pub words: List<ElectPart>,
    pub signature: Bytes,
}
