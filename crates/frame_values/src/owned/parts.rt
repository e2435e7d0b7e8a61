//! The parts of owned messages.

use super::certificate::Certificate;
use basil_types::bytes::Bytes;
use basil_types::list::List;
use basil_types::party::Decision;
use basil_types::transaction::Transaction;

/// A transaction, with a certificate of a kind that may commit.
#[derive(Drop)]
pub struct CommittedPart {
    pub transaction: Transaction,
    pub certificate: Certificate,
}

/// A vote in a list: the replica and its signature.
#[derive(Drop)]
pub struct VotePart {
    pub replica: u8,
    pub signature: Bytes,
}

/// The votes of one shard, ascending strictly by replica.
#[derive(Drop)]
pub struct ShardVotes {
    pub shard: u8,
    pub votes: List<VotePart>,
}

/// A log reply of a certificate: the replica, its current view and its signature.
#[derive(Drop)]
pub struct LogPart {
    pub replica: u8,
    pub current: u64,
    pub signature: Bytes,
}

/// A log reply of an invoke: the replica, its decision, the view in which it was decided, its current view
/// and its signature.
#[derive(Drop)]
pub struct InvokePart {
    pub replica: u8,
    pub decision: Decision,
    pub decided: u64,
    pub current: u64,
    pub signature: Bytes,
}

/// An election word: the replica, its decision and its signature.
#[derive(Drop)]
pub struct ElectPart {
    pub replica: u8,
    pub decision: Decision,
    pub signature: Bytes,
}
