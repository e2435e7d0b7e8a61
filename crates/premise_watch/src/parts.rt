//! What the watch looks at in a frame, in the order of the frame's bytes.

ghost use Rattle.std.specs.Prelude.{◌≡◌, ◌∷◌, ◌++◌, None, Some, option_map, length};
ghost use Rattle.basil_types.specs.Shown.{transaction_of};
ghost use Rattle.frame_views.specs.Fitting.{IsSpoken, IsKeyLength};
ghost use Rattle.frame_views.specs.Shown.{certificate_of, committed_of, message_of, read_reply_of};
ghost use Rattle.frame_views.specs.Signed.{reply_signed};
ghost use Rattle.frame_views.specs.Values as values;
ghost use Rattle.frame_views.specs.Walks.{signed_of, signed_left};
ghost use Rattle.premise_watch.specs.Marks.{Text, as_marks, marks, maybe_text};
ghost use Rattle.premise_watch.specs.Parts.{around, maybe_signature, parts_marks, rival_of};

use basil_types::party::Party;
use basil_types::transaction::TransactionView;
use basil_types::words::Words;
use frame_views::certificates::{CertBody, CertificateView};
use frame_views::frames::{CommittedView, MessageView, ReadReplyView, WritebackView};
use frame_views::signed::{Signatures, SignedItem, signatures};
use txn_meta::form::version_of;

/// The transactions and the signatures of a frame; its signatures are in most frames all in `signed`.
#[derive(Drop)]
pub(crate) struct Parts<'a> {
    pub(crate) first: Option<TransactionView<'a>>,
    /// The vote of a conflict abort, before the rival.
    pub(crate) own: Option<SignedItem<'a>>,
    pub(crate) rival: Option<TransactionView<'a>>,
    pub(crate) signed: Signatures<'a>,
    /// The prepared transaction of a read reply, behind the committed one and its certificate.
    pub(crate) prepared: Option<TransactionView<'a>>,
    /// The signature of such a reply.
    pub(crate) last: Option<SignedItem<'a>>,
}

/// What the watch looks at in a frame.
pub(crate) fn parts_of<'a>(m: &MessageView<'a>) -> Parts<'a>
    requires { IsSpoken (message_of m.now) }
    ensures { parts_marks result ≡ marks (message_of m.now) }
{
    match m {
        MessageView::Read(_) | MessageView::LogReply(_) | MessageView::Invoke(_) => {
            behind(None, signatures(m))
        }
        MessageView::St1(v) => behind(Some(v.transaction), signatures(m)),
        MessageView::St2(v) => behind(Some(v.transaction), signatures(m)),
        MessageView::Recover(v) => behind(Some(v.transaction), signatures(m)),
        MessageView::Elect(v) => behind(Some(v.transaction), signatures(m)),
        MessageView::Decide(v) => behind(Some(v.transaction), signatures(m)),
        MessageView::Writeback(v) => paired(v.transaction, v.certificate, signatures(m)),
        MessageView::Vote(v) => match v.proof {
            Some(part) => paired(part.transaction, part.certificate, signatures(m)),
            None => behind(None, signatures(m)),
        },
        MessageView::ReadReply(v) => of_reply(m, v),
    }
}

/// A transaction, if there is one, and then signatures.
fn behind<'a>(first: Option<TransactionView<'a>>, signed: Signatures<'a>) -> Parts<'a>
    ensures { parts_marks result ≡ maybe_text (option_map transaction_of first.entry)
        ++ as_marks (signed_left signed.entry) }
{
    Parts {
        first,
        own: None,
        rival: None,
        signed,
        prepared: None,
        last: None,
    }
}

/// A transaction and signatures, of which those of its certificate come first.
fn paired<'a>(
    transaction: TransactionView<'a>,
    certificate: CertificateView<'a>,
    mut signed: Signatures<'a>,
) -> Parts<'a>
    ensures marks { parts_marks result ≡ Text (transaction_of transaction.entry)
        ∷ around (rival_of (certificate_of certificate.entry).body) (signed_left signed.entry) }
    ensures prepared { result.prepared ≡ None }
    ensures last { result.last ≡ None }
{
    let rival = rival(certificate);
    let own = if rival.is_some() { signed.next() } else { None };
    Parts {
        first: Some(transaction),
        own,
        rival,
        signed,
        prepared: None,
        last: None,
    }
}

/// The rival that a conflict abort names.
fn rival<'a>(certificate: CertificateView<'a>) -> Option<TransactionView<'a>>
    ensures { option_map transaction_of result ≡ rival_of (certificate_of certificate.entry).body }
{
    match certificate.body() {
        CertBody::ConflictAbort { other, .. } => Some(other),
        CertBody::FastCommit { .. } | CertBody::Logged { .. } | CertBody::FastAbort { .. } => None,
    }
}

/// What the watch looks at in a read reply.
fn of_reply<'a>(m: &MessageView<'a>, reply: &ReadReplyView<'a>) -> Parts<'a>
    requires spoken { IsSpoken (message_of m.now) }
    requires same { message_of m.now ≡ values.ReadReply (read_reply_of reply.now) }
    ensures { parts_marks result ≡ marks (message_of m.now) }
{
    match reply.committed {
        None => behind(reply.prepared, signatures(m)),
        Some(part) => match reply.prepared {
            None => paired(part.transaction, part.certificate, signatures(m)),
            Some(prepared) => with_both(reply, part, prepared),
        },
    }
}

/// What the watch looks at in a read reply with a committed and a prepared transaction.
fn with_both<'a>(
    reply: &ReadReplyView<'a>,
    part: CommittedView<'a>,
    prepared: TransactionView<'a>,
) -> Parts<'a>
    requires key { IsKeyLength (length reply.now.key.now) }
    requires committed { option_map committed_of reply.now.committed ≡ Some (committed_of part) }
    requires prepared { option_map transaction_of reply.now.prepared ≡ Some (transaction_of prepared) }
    ensures { parts_marks result ≡ marks (values.ReadReply (read_reply_of reply.now)) }
{
    let certified = MessageView::Writeback(WritebackView {
        transaction: part.transaction,
        certificate: part.certificate,
    });
    let last = Some(signature_of(reply, part, prepared));
    Parts {
        prepared: Some(prepared),
        last,
        ..paired(part.transaction, part.certificate, signatures(&certified))
    }
}

/// The signature of a read reply with a committed and a prepared transaction.
fn signature_of<'a>(
    reply: &ReadReplyView<'a>,
    part: CommittedView<'a>,
    prepared: TransactionView<'a>,
) -> SignedItem<'a>
    requires key { IsKeyLength (length reply.now.key.now) }
    requires committed { option_map committed_of reply.now.committed ≡ Some (committed_of part) }
    requires prepared { option_map transaction_of reply.now.prepared ≡ Some (transaction_of prepared) }
    ensures { signed_of result ≡ reply_signed (read_reply_of reply.now) }
{
    SignedItem {
        party: Party::Replica {
            shard: reply.shard,
            index: reply.replica,
        },
        words: Words::read_reply(
            reply.shard,
            reply.replica,
            reply.key,
            reply.time,
            reply.client,
            version_of(part.transaction),
            version_of(prepared),
        ),
        signature: reply.signature,
    }
}
