//! Borrowed parts of frames and certificates, with lists of owned items.

use crate::owned::{
    Certificate, CommittedPart, ElectPart, InvokePart, LogPart, ShardVotes, VotePart,
};
use basil_types::party::Decision;
use basil_types::transaction::{Transaction, TransactionView};
use frame_views::certificates::CertificateView;
use frame_views::frames::{ElectView, LogReplyView, ReadView, RecoverView, St1View};

/// A certificate about the transaction with this id.
#[derive(Clone, Copy)]
pub struct CertificateParts<'a> {
    pub id: [u8; 32],
    pub body: BodyParts<'a>,
}

/// The body of a certificate, by kinds (Basil, commit and abort certificates).
#[derive(Clone, Copy)]
pub enum BodyParts<'a> {
    /// Commit votes of every involved shard.
    FastCommit {
        tallies: &'a [ShardVotes],
    },
    /// Log replies of the log shard: the decision, the view in which it was decided, and the replies.
    Logged {
        shard: u8,
        decision: Decision,
        decided: u64,
        logs: &'a [LogPart],
    },
    /// Abort votes of one shard.
    FastAbort {
        shard: u8,
        votes: &'a [VotePart],
    },
    /// One abort vote, with a transaction that conflicts and its commit certificate, which is of the first
    /// two kinds.
    ConflictAbort {
        shard: u8,
        replica: u8,
        signature: &'a [u8],
        other: TransactionView<'a>,
        proof: CertificateView<'a>,
    },
}

/// The second stage, a decision with the votes that give it.
#[derive(Clone, Copy)]
pub struct St2Parts<'a> {
    pub transaction: TransactionView<'a>,
    /// 1 to 8,192 bytes.
    pub signature: &'a [u8],
    pub decision: Decision,
    pub tallies: &'a [ShardVotes],
}

/// A client invokes the fallback with log replies.
#[derive(Clone, Copy)]
pub struct InvokeParts<'a> {
    pub id: [u8; 32],
    pub shard: u8,
    pub replies: &'a [InvokePart],
}

/// A leader's proposal in a view, from 1, with the words that elect it.
#[derive(Clone, Copy)]
pub struct DecideParts<'a> {
    pub transaction: TransactionView<'a>,
    pub shard: u8,
    pub replica: u8,
    pub decision: Decision,
    /// At least 1.
    pub view: u64,
    pub words: &'a [ElectPart],
    /// 1 to 8,192 bytes.
    pub signature: &'a [u8],
}

/// A replica's latest committed and prepared writers of a key below a read.
#[derive(Clone, Copy)]
pub struct ReadReplyParts<'a> {
    pub shard: u8,
    pub replica: u8,
    /// 1 to 64 bytes.
    pub key: &'a [u8],
    pub time: u64,
    /// 1 to 16.
    pub client: u8,
    pub committed: &'a Option<CommittedPart>,
    pub prepared: &'a Option<Transaction>,
    /// 1 to 8,192 bytes.
    pub signature: &'a [u8],
}

/// A replica's vote.
#[derive(Clone, Copy)]
pub struct VoteParts<'a> {
    pub shard: u8,
    pub replica: u8,
    pub id: [u8; 32],
    pub decision: Decision,
    pub proof: &'a Option<CommittedPart>,
    /// 1 to 8,192 bytes.
    pub signature: &'a [u8],
}

/// A transaction and an owned certificate.
#[derive(Clone, Copy)]
pub struct WritebackParts<'a> {
    pub transaction: TransactionView<'a>,
    pub certificate: &'a Certificate,
}

/// What is written as a frame, by kinds: an owned message, lent.
#[derive(Clone, Copy)]
pub enum MessageParts<'a> {
    Read(ReadView<'a>),
    ReadReply(ReadReplyParts<'a>),
    St1(St1View<'a>),
    Vote(VoteParts<'a>),
    St2(St2Parts<'a>),
    LogReply(LogReplyView<'a>),
    Writeback(WritebackParts<'a>),
    Recover(RecoverView<'a>),
    Invoke(InvokeParts<'a>),
    Elect(ElectView<'a>),
    Decide(DecideParts<'a>),
}
