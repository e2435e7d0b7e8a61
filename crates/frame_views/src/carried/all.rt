//! All that a frame carries.

ghost use Rattle.std.specs.Prelude.{◌≡◌, option_map};
ghost use Rattle.basil_types.specs.Shown.{transaction_of};
ghost use Rattle.frame_views.specs.Carried.{rival_in, pairs_from, committed_pairs, pairs_in, bare_in, maybe_one};
ghost use Rattle.frame_views.specs.Carried.{transactions_in};
ghost use Rattle.frame_views.specs.CarriedWalks.{pair_of, pairs_left, transactions_left};
ghost use Rattle.frame_views.specs.Shown.{certificate_of, committed_of, message_of};

use super::walks::{PairItem, Pairs, Transactions};
use crate::certificates::{CertBody, CertificateView};
use crate::frames::{CommittedView, MessageView};
use basil_types::transaction::TransactionView;

/// Every transaction of the frame, those inside of certificates too, in the order of the frame's bytes, and no other.
/// Takes no memory.
pub fn transactions<'a>(m: &MessageView<'a>) -> Transactions<'a>
    ensures { transactions_left result ≡ transactions_in (message_of m.now) }
{
    Transactions {
        pairs: pairs(m),
        bare: bare(m),
    }
}

/// Every pair of a transaction and a certificate in the frame, the one inside of a conflict abort too, in the order of
/// the frame's bytes, and no other. Takes no memory.
pub fn pairs<'a>(m: &MessageView<'a>) -> Pairs<'a>
    ensures { pairs_left result ≡ pairs_in (message_of m.now) }
{
    match m {
        MessageView::ReadReply(m) => committed(m.committed),
        MessageView::Vote(m) => committed(m.proof),
        MessageView::Writeback(m) => with_nested(PairItem {
            transaction: m.transaction,
            certificate: m.certificate,
        }),
        MessageView::Read(_)
        | MessageView::St1(_)
        | MessageView::St2(_)
        | MessageView::LogReply(_)
        | MessageView::Recover(_)
        | MessageView::Invoke(_)
        | MessageView::Elect(_)
        | MessageView::Decide(_) => committed(None),
    }
}

/// The transaction of the frame that stands there without a certificate.
fn bare<'a>(m: &MessageView<'a>) -> Option<TransactionView<'a>>
    ensures { option_map transaction_of result ≡ bare_in (message_of m.now) }
{
    match m {
        MessageView::ReadReply(m) => m.prepared,
        MessageView::St1(m) => Some(m.transaction),
        MessageView::St2(m) => Some(m.transaction),
        MessageView::Recover(m) => Some(m.transaction),
        MessageView::Elect(m) => Some(m.transaction),
        MessageView::Decide(m) => Some(m.transaction),
        MessageView::Read(_)
        | MessageView::Vote(_)
        | MessageView::LogReply(_)
        | MessageView::Writeback(_)
        | MessageView::Invoke(_) => None,
    }
}

/// The pairs of a committed transaction, where it is there.
fn committed<'a>(part: Option<CommittedView<'a>>) -> Pairs<'a>
    ensures { pairs_left result ≡ committed_pairs (option_map committed_of part.entry) }
{
    match part {
        Some(part) => with_nested(PairItem {
            transaction: part.transaction,
            certificate: part.certificate,
        }),
        None => Pairs {
            outer: None,
            inner: None,
        },
    }
}

/// A pair, and the one inside of its certificate.
fn with_nested<'a>(pair: PairItem<'a>) -> Pairs<'a>
    ensures { pairs_left result ≡ pairs_from (pair_of pair.entry) }
{
    let inner = rival(pair.certificate);
    Pairs {
        outer: Some(pair),
        inner,
    }
}

/// The rival that a conflict abort names, with its commit certificate.
fn rival<'a>(certificate: CertificateView<'a>) -> Option<PairItem<'a>>
    ensures { maybe_one (option_map pair_of result) ≡ rival_in (certificate_of certificate.entry).body }
{
    match certificate.body() {
        CertBody::ConflictAbort { other, proof, .. } => Some(PairItem {
            transaction: other,
            certificate: proof,
        }),
        CertBody::FastCommit { .. } | CertBody::Logged { .. } | CertBody::FastAbort { .. } => None,
    }
}
