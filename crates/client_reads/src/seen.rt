//! Which transactions a read may see.

ghost use Rattle.std.specs.Prelude.{◌≡◌, option_map, OnOk, IfSome};
ghost use Rattle.basil_types.specs.Refusals.{Refuses};
ghost use Rattle.basil_types.specs.Shown.{transaction_of};
ghost use Rattle.frame_views.specs.Shown.{committed_of, read_of, read_reply_of};
ghost use Rattle.certificates.specs.Deciding.{HasGoodForm};
ghost use Rattle.client_reads.specs.Replies as replies;
ghost use Rattle.client_reads.specs.Replies.{bad_version};
ghost use Rattle.client_reads.specs.Versions as versions;

use basil_types::transaction::TransactionView;
use basil_types::version::Version;
use certificates::FrameFault;
use frame_views::frames::{CommittedView, ReadReplyView, ReadView};
use txn_meta::conflicts::writes_key;
use txn_meta::form::{has_good_form, version_of};

/// The version that stands above all that a read sees.
fn limit_of(read: &ReadView<'_>) -> Version
    ensures { result ≡ versions.limit_of (read_of read.now) }
{
    Version {
        time: read.time,
        client: read.client,
        id: [0; 32],
    }
}

/// Whether a read may see what this transaction wrote.
fn is_seen(read: &ReadView<'_>, t: TransactionView<'_>) -> bool
    ensures { result ≡ replies.is_seen (read_of read.now) (transaction_of t.entry) }
{
    has_good_form(t) && writes_key(t, read.key) && version_of(t).is_below(&limit_of(read))
}

/// The same of a transaction that may be missing.
fn is_missing_or_seen(read: &ReadView<'_>, t: Option<TransactionView<'_>>) -> bool
    ensures { result ≡ replies.is_missing_or_seen (read_of read.now) (option_map transaction_of t.entry) }
{
    match t {
        Some(transaction) => is_seen(read, transaction),
        None => true,
    }
}

/// The transaction of a committed one, which may be missing.
fn transaction_in<'a>(committed: Option<CommittedView<'a>>) -> Option<TransactionView<'a>>
    ensures { option_map transaction_of result
        ≡ option_map (λ part. part.transaction) (option_map committed_of committed.entry) }
{
    committed.map(|part| part.transaction)
}

/// Refuses a reply that carries a transaction that the read may not see.
pub(crate) fn check_versions(
    read: &ReadView<'_>,
    reply: &ReadReplyView<'_>,
) -> Result<(), FrameFault>
    ensures exact { Refuses result (bad_version (read_of read.now) (read_reply_of reply.now)) }
    ensures form { OnOk result (IfSome (read_reply_of reply.now).committed (λ part. HasGoodForm part.transaction)) }
{
    let committed = transaction_in(reply.committed);
    if is_missing_or_seen(read, committed) && is_missing_or_seen(read, reply.prepared) {
        Ok(())
    } else {
        Err(FrameFault::BadVersion)
    }
}
