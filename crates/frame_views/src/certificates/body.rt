//! The bodies of certificates, by kinds (Basil, commit and abort certificates).

use super::view::CertificateView;
use crate::items::{LogsView, TalliesView, VotesView};
use basil_types::party::Decision;
use basil_types::transaction::TransactionView;

/// The body of a certificate.
#[derive(Clone, Copy)]
pub enum CertBody<'a> {
    /// Commit votes of every involved shard.
    FastCommit {
        tallies: TalliesView<'a>,
    },
    /// Log replies of the log shard: the decision, the view in which it was decided, and the replies.
    Logged {
        shard: u8,
        decision: Decision,
        decided: u64,
        logs: LogsView<'a>,
    },
    /// Abort votes of one shard.
    FastAbort {
        shard: u8,
        votes: VotesView<'a>,
    },
    /// One abort vote, with a transaction that conflicts and its commit certificate, which is of the first two kinds.
    ConflictAbort {
        shard: u8,
        replica: u8,
        signature: &'a [u8],
        other: TransactionView<'a>,
        proof: CertificateView<'a>,
    },
}

/// What stands behind the kind of a certificate.
#[derive(Clone, Copy)]
pub(crate) struct CertParts<'a> {
    pub(crate) id: [u8; 32],
    pub(crate) body: CertBody<'a>,
}
