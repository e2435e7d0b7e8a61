//! What a client keeps of a reply to a read.

ghost use Rattle.std.specs.Prelude.{◌≡◌, IfOk, option_map};
ghost use Rattle.basil_types.specs.Shown.{transaction_of, write_of};
ghost use Rattle.frame_views.specs.Shown.{committed_of, read_reply_of};
ghost use Rattle.client_core.specs.Kept as kept;
ghost use Rattle.client_core.specs.Slots as slots;

use basil_types::bytes::Bytes;
use basil_types::memory::NoMemory;
use basil_types::transaction::TransactionView;
use basil_types::transaction::parts::{WriteItem, WritePart};
use basil_types::version::Version;
use client_reads::{ReplyVersions, versions_of};
use frame_views::frames::ReadReplyView;
use std::alloc::Global;
use txn_meta::form::version_of;

/// A transaction that a reply carried: its version, and what it wrote to the key of the read.
#[derive(Drop)]
pub struct Carried {
    pub version: Version,
    pub write: Option<WritePart>,
}

/// What is kept of a reply: its replica, the versions that count for the choice, and the transactions that it carried.
#[derive(Drop)]
pub struct KeptReply {
    pub replica: u8,
    pub versions: ReplyVersions,
    pub committed: Option<Carried>,
    pub prepared: Option<Carried>,
}

/// The write of a transaction to a key.
fn write_to<'a>(t: TransactionView<'a>, key: &[u8]) -> Option<WriteItem<'a>>
    ensures { option_map write_of result ≡ slots.write_of key.now (transaction_of t.entry) }
{
    for item in t.writes() {
        if item.key == key {
            return Some(item);
        }
    }
    None
}

/// An owned write, or memory is wanting.
fn own(alloc: Global, item: &WriteItem<'_>) -> Result<WritePart, NoMemory>
    ensures { IfOk result (λ w. w ≡ write_of item.now) }
{
    let key = Bytes::copy_of(alloc, item.key)?;
    let value = Bytes::copy_of(alloc, item.value)?;
    Ok(WritePart {
        key,
        value,
        deletes: item.deletes,
    })
}

/// The write of a transaction to a key, owned.
fn own_write(
    alloc: Global,
    t: TransactionView<'_>,
    key: &[u8],
) -> Result<Option<WritePart>, NoMemory>
    ensures { IfOk result (λ w. w ≡ slots.write_of key.now (transaction_of t.entry)) }
{
    match write_to(t, key) {
        Some(item) => Ok(Some(own(alloc, &item)?)),
        None => Ok(None),
    }
}

/// What is kept of a transaction that a reply carried.
fn keep(alloc: Global, t: TransactionView<'_>, key: &[u8]) -> Result<Carried, NoMemory>
    ensures { IfOk result (λ c. c ≡ kept.carried_of key.now (transaction_of t.entry)) }
{
    let write = own_write(alloc, t, key)?;
    Ok(Carried {
        version: version_of(t),
        write,
    })
}

/// What is kept of the committed transaction.
fn keep_committed(
    alloc: Global,
    reply: &ReadReplyView<'_>,
    key: &[u8],
) -> Result<Option<Carried>, NoMemory>
    ensures { IfOk result (λ c. c ≡ kept.committed_in key.now (read_reply_of reply.now)) }
{
    match reply.committed {
        Some(part) => Ok(Some(keep(alloc, part.transaction, key)?)),
        None => Ok(None),
    }
}

/// What is kept of the prepared transaction.
fn keep_prepared(
    alloc: Global,
    reply: &ReadReplyView<'_>,
    key: &[u8],
) -> Result<Option<Carried>, NoMemory>
    ensures { IfOk result (λ c. c ≡ kept.prepared_in key.now (read_reply_of reply.now)) }
{
    match reply.prepared {
        Some(t) => Ok(Some(keep(alloc, t, key)?)),
        None => Ok(None),
    }
}

/// What is kept of a reply to a read of this key, or memory is wanting.
pub(crate) fn keep_reply(
    alloc: Global,
    reply: &ReadReplyView<'_>,
    key: &[u8],
) -> Result<KeptReply, NoMemory>
    ensures { IfOk result (λ k. k ≡ kept.reply_kept key.now (read_reply_of reply.now)) }
{
    let committed = keep_committed(alloc, reply, key)?;
    let prepared = keep_prepared(alloc, reply, key)?;
    Ok(KeptReply {
        replica: reply.replica,
        versions: versions_of(reply),
        committed,
        prepared,
    })
}
