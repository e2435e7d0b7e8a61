//! What a frame says, over the frame's bytes.

use crate::certificates::CertificateView;
use crate::items::{ElectsView, InvokesView, TalliesView};
use basil_types::party::Decision;
use basil_types::transaction::TransactionView;

/// What a checked frame says, by kinds.
#[derive(Clone, Copy)]
pub enum MessageView<'a> {
    Read(ReadView<'a>),
    ReadReply(ReadReplyView<'a>),
    St1(St1View<'a>),
    Vote(VoteView<'a>),
    St2(St2View<'a>),
    LogReply(LogReplyView<'a>),
    Writeback(WritebackView<'a>),
    Recover(RecoverView<'a>),
    Invoke(InvokeView<'a>),
    Elect(ElectView<'a>),
    Decide(DecideView<'a>),
}

/// A transaction, with a certificate of a kind that may commit.
#[derive(Clone, Copy)]
pub struct CommittedView<'a> {
    pub transaction: TransactionView<'a>,
    pub certificate: CertificateView<'a>,
}

/// Kind 1: a client reads a key for a transaction of this time.
#[derive(Clone, Copy)]
pub struct ReadView<'a> {
    /// 1 to 64 bytes.
    pub key: &'a [u8],
    pub time: u64,
    /// 1 to 16.
    pub client: u8,
}

/// Kind 2: a replica's latest committed and prepared writers of a key below a read.
#[derive(Clone, Copy)]
pub struct ReadReplyView<'a> {
    pub shard: u8,
    pub replica: u8,
    /// 1 to 64 bytes.
    pub key: &'a [u8],
    pub time: u64,
    /// 1 to 16.
    pub client: u8,
    pub committed: Option<CommittedView<'a>>,
    pub prepared: Option<TransactionView<'a>>,
    /// 1 to `SIGNATURE_LIMIT` bytes.
    pub signature: &'a [u8],
}

/// Kind 3: the first stage, a transaction that its client signed.
#[derive(Clone, Copy)]
pub struct St1View<'a> {
    pub transaction: TransactionView<'a>,
    /// 1 to `SIGNATURE_LIMIT` bytes.
    pub signature: &'a [u8],
}

/// Kind 4: a replica's vote. A vote to commit has no proof.
#[derive(Clone, Copy)]
pub struct VoteView<'a> {
    pub shard: u8,
    pub replica: u8,
    pub id: [u8; 32],
    pub decision: Decision,
    pub proof: Option<CommittedView<'a>>,
    /// 1 to `SIGNATURE_LIMIT` bytes.
    pub signature: &'a [u8],
}

/// Kind 5: the second stage, a decision with the votes that give it.
#[derive(Clone, Copy)]
pub struct St2View<'a> {
    pub transaction: TransactionView<'a>,
    /// 1 to `SIGNATURE_LIMIT` bytes.
    pub signature: &'a [u8],
    pub decision: Decision,
    pub tallies: TalliesView<'a>,
}

/// Kind 6: a replica's logged decision, the view in which it was decided, and the current view.
#[derive(Clone, Copy)]
pub struct LogReplyView<'a> {
    pub shard: u8,
    pub replica: u8,
    pub id: [u8; 32],
    pub decision: Decision,
    pub decided: u64,
    /// At least `decided`.
    pub current: u64,
    /// 1 to `SIGNATURE_LIMIT` bytes.
    pub signature: &'a [u8],
}

/// Kind 7: a transaction and a certificate.
#[derive(Clone, Copy)]
pub struct WritebackView<'a> {
    pub transaction: TransactionView<'a>,
    pub certificate: CertificateView<'a>,
}

/// Kind 8: a client asks for what is known of a transaction that its client signed.
#[derive(Clone, Copy)]
pub struct RecoverView<'a> {
    pub transaction: TransactionView<'a>,
    /// 1 to `SIGNATURE_LIMIT` bytes.
    pub signature: &'a [u8],
}

/// Kind 9: a client invokes the fallback with log replies.
#[derive(Clone, Copy)]
pub struct InvokeView<'a> {
    pub id: [u8; 32],
    pub shard: u8,
    pub replies: InvokesView<'a>,
}

/// Kind 10: a replica's word in the election of a view, from 1.
#[derive(Clone, Copy)]
pub struct ElectView<'a> {
    pub transaction: TransactionView<'a>,
    pub shard: u8,
    pub replica: u8,
    pub decision: Decision,
    /// At least 1.
    pub view: u64,
    /// 1 to `SIGNATURE_LIMIT` bytes.
    pub signature: &'a [u8],
}

/// Kind 11: a leader's proposal in a view, from 1, with the words that elect it.
#[derive(Clone, Copy)]
pub struct DecideView<'a> {
    pub transaction: TransactionView<'a>,
    pub shard: u8,
    pub replica: u8,
    pub decision: Decision,
    /// At least 1.
    pub view: u64,
    pub words: ElectsView<'a>,
    /// 1 to `SIGNATURE_LIMIT` bytes.
    pub signature: &'a [u8],
}
