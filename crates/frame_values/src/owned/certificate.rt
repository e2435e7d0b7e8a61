//! Owned certificates (Basil, commit and abort certificates).

use super::parts::{LogPart, ShardVotes, VotePart};
use basil_types::bytes::Bytes;
use basil_types::list::List;
use basil_types::party::Decision;
use basil_types::transaction::Transaction;

/// A certificate about the transaction with this id.
#[derive(Drop)]
#[cycle(certificate)]
pub struct Certificate {
    pub id: [u8; 32],
    pub body: CertificateBody,
}

/// What a certificate holds, by kinds.
#[derive(Drop)]
#[cycle(certificate)]
pub enum CertificateBody {
    /// Commit votes of every involved shard.
    FastCommit {
        tallies: List<ShardVotes>,
    },
    /// Log replies of the log shard: the decision, the view in which it was decided, and the replies.
    Logged {
        shard: u8,
        decision: Decision,
        decided: u64,
        logs: List<LogPart>,
    },
    /// Abort votes of one shard.
    FastAbort {
        shard: u8,
        votes: List<VotePart>,
    },
    /// One abort vote, with a transaction that conflicts and its commit certificate, which is of the first
    /// two kinds.
    ConflictAbort {
        shard: u8,
        replica: u8,
        signature: Bytes,
        other: Transaction,
        proof: Box<Certificate>,
    },
}
