//! One signature, with its party and its words.

ghost use Rattle.std.specs.Prelude.{◌≡◌, length, option_map};
ghost use Rattle.basil_types.specs.Shown.{transaction_of};
ghost use Rattle.basil_types.specs.Transaction as transactions;
ghost use Rattle.frame_views.specs.Fitting.{IsKeyLength};
ghost use Rattle.frame_views.specs.Items.{vote_of, reply_of, elect_of};
ghost use Rattle.frame_views.specs.Shown.{read_reply_of, committed_of};
ghost use Rattle.frame_views.specs.Signed.{client_signed, vote_signed, log_signed, word_signed, proposal_signed};
ghost use Rattle.frame_views.specs.Signed.{reply_signed, version_told, committed_told};
ghost use Rattle.frame_views.specs.Walks.{signed_of};

use crate::frames::{CommittedView, ReadReplyView};
use crate::items::{ElectItem, InvokeItem, VoteItem};
use basil_types::party::{Decision, Party};
use basil_types::transaction::TransactionView;
use basil_types::version::Version;
use basil_types::words::Words;

/// A signature of a frame, with the party whose it is and the words that it is of.
#[derive(Drop)]
pub struct SignedItem<'a> {
    pub party: Party,
    pub words: Words,
    pub signature: &'a [u8],
}

/// The id of a transaction.
pub(super) fn id_in(transaction: TransactionView<'_>) -> [u8; 32]
    ensures { result ≡ transactions.id (transaction_of transaction.entry) }
{
    transaction.id()
}

/// The version of a transaction.
fn version_in(transaction: TransactionView<'_>) -> Version
    ensures { result ≡ transactions.version_of (transaction_of transaction.entry) }
{
    Version {
        time: transaction.time(),
        client: transaction.client(),
        id: id_in(transaction),
    }
}

/// A client's signature of its transaction.
pub(super) fn client<'a>(transaction: TransactionView<'a>, signature: &'a [u8]) -> SignedItem<'a>
    ensures { signed_of result ≡ client_signed (transaction_of transaction.entry) signature.now }
{
    SignedItem {
        party: Party::Client {
            number: transaction.client(),
        },
        words: Words::transaction(&id_in(transaction)),
        signature,
    }
}

/// A replica's signature of its vote.
pub(super) fn vote<'a>(
    shard: u8,
    id: &[u8; 32],
    decision: Decision,
    vote: VoteItem<'a>,
) -> SignedItem<'a>
    ensures { signed_of result ≡ vote_signed shard id.now decision (vote_of vote.entry) }
{
    SignedItem {
        party: Party::Replica {
            shard,
            index: vote.replica,
        },
        words: Words::vote(shard, vote.replica, id, decision),
        signature: vote.signature,
    }
}

/// A replica's signature of its logged decision.
pub(super) fn log<'a>(shard: u8, id: &[u8; 32], reply: InvokeItem<'a>) -> SignedItem<'a>
    ensures { signed_of result ≡ log_signed shard id.now (reply_of reply.entry) }
{
    SignedItem {
        party: Party::Replica {
            shard,
            index: reply.replica,
        },
        words: Words::log_reply(
            shard,
            reply.replica,
            id,
            reply.decision,
            reply.decided,
            reply.current,
        ),
        signature: reply.signature,
    }
}

/// A replica's signature of its word in the election of a view.
pub(super) fn word<'a>(shard: u8, id: &[u8; 32], view: u64, word: ElectItem<'a>) -> SignedItem<'a>
    ensures { signed_of result ≡ word_signed shard id.now view (elect_of word.entry) }
{
    SignedItem {
        party: Party::Replica {
            shard,
            index: word.replica,
        },
        words: Words::election(shard, word.replica, id, word.decision, view),
        signature: word.signature,
    }
}

/// A leader's signature of its proposal in a view.
pub(super) fn proposal<'a>(
    shard: u8,
    id: &[u8; 32],
    view: u64,
    word: ElectItem<'a>,
) -> SignedItem<'a>
    ensures { signed_of result ≡ proposal_signed shard id.now view (elect_of word.entry) }
{
    SignedItem {
        party: Party::Replica {
            shard,
            index: word.replica,
        },
        words: Words::proposal(shard, word.replica, id, word.decision, view),
        signature: word.signature,
    }
}

/// The version of a prepared transaction, genesis where there is none.
pub fn prepared_version(prepared: Option<TransactionView<'_>>) -> Version
    ensures { result ≡ version_told (option_map transaction_of prepared.entry) }
{
    match prepared {
        Some(transaction) => version_in(transaction),
        None => Version::genesis(),
    }
}

/// The version of a committed transaction, genesis where there is none.
pub fn committed_version(committed: Option<CommittedView<'_>>) -> Version
    ensures { result ≡ committed_told (option_map committed_of committed.entry) }
{
    match committed {
        Some(part) => version_in(part.transaction),
        None => Version::genesis(),
    }
}

/// A replica's signature of its answer to a read.
pub(super) fn read_reply<'a>(m: &ReadReplyView<'a>) -> SignedItem<'a>
    requires { IsKeyLength (length m.now.key.now) }
    ensures { signed_of result ≡ reply_signed (read_reply_of m.now) }
{
    SignedItem {
        party: Party::Replica {
            shard: m.shard,
            index: m.replica,
        },
        words: Words::read_reply(
            m.shard,
            m.replica,
            m.key,
            m.time,
            m.client,
            committed_version(m.committed),
            prepared_version(m.prepared),
        ),
        signature: m.signature,
    }
}
