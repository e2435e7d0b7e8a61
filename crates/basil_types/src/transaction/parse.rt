//! Reading a transaction from left to right.

ghost use Rattle.std.specs.Prelude.{◌≡◌, []};
ghost use Rattle.basil_types.specs.Lists.{items_at};
ghost use Rattle.basil_types.specs.Parsed.{head_at, read_at, write_at, reads_at};
ghost use Rattle.basil_types.specs.Parsed.{writes_at, before_writes_at, transaction_at};
ghost use Rattle.basil_types.specs.Transaction.{key_of_read, key_of_write};
ghost use Rattle.basil_types.specs.Inner.{head_of, reads_of, writes_of, whole_of};
ghost use Rattle.basil_types.specs.Shown.{transaction_of};
ghost use Rattle.basil_types.specs.Steps.{Gives};

use super::items::{read, write};
use super::lists::{Front, Parts, ReadsView, WritesView};
use super::view::TransactionView;
use crate::reading::{Fault, between, u64_at};

/// The format, 1 or 2, the time, and the client, 1 to 16.
#[tactic(auto, unfolding(crate::specs::Parsed::head_at))]
pub(crate) fn read_front(bytes: &[u8]) -> Result<(Front, &[u8]), Fault>
    ensures { Gives (λ x. (head_of x.0, x.1.now)) result (head_at bytes.now) }
{
    let (format, rest) = between(1, 3, bytes)?;
    let (time, rest) = u64_at(rest)?;
    let (client, rest) = between(1, 17, rest)?;
    Ok((
        Front {
            format,
            time,
            client,
        },
        rest,
    ))
}

/// So many reads, one after the other.
fn some_reads<'a>(count: u8, bytes: &'a [u8]) -> Result<(ReadsView<'a>, &'a [u8]), Fault>
    ensures { Gives (λ x. (reads_of x.0, x.1.now)) result (items_at read_at key_of_read count [] bytes.now) }
{
    let mut before = &bytes[..0];
    let mut rest = bytes;
    for _ in 0..count {
        let (item, after) = read(before, rest)?;
        before = item.key;
        rest = after;
    }
    Ok((ReadsView::new(count, bytes), rest))
}

/// So many writes, one after the other.
fn some_writes<'a>(
    format: u8,
    count: u8,
    bytes: &'a [u8],
) -> Result<(WritesView<'a>, &'a [u8]), Fault>
    ensures { Gives (λ x. (writes_of x.0, x.1.now)) result
        (items_at (write_at format) key_of_write count [] bytes.now) }
{
    let mut before = &bytes[..0];
    let mut rest = bytes;
    for _ in 0..count {
        let (item, after) = write(format, before, rest)?;
        before = item.key;
        rest = after;
    }
    Ok((WritesView::new(format, count, bytes), rest))
}

/// At most 32 reads behind their number.
#[tactic(auto, unfolding(crate::specs::Parsed::reads_at))]
pub(crate) fn reads(bytes: &[u8]) -> Result<(ReadsView<'_>, &[u8]), Fault>
    ensures { Gives (λ x. (reads_of x.0, x.1.now)) result (reads_at bytes.now) }
{
    let (count, items) = between(0, 33, bytes)?;
    some_reads(count, items)
}

/// At most 32 writes behind their number.
#[tactic(auto, unfolding(crate::specs::Parsed::writes_at))]
pub(crate) fn writes(format: u8, bytes: &[u8]) -> Result<(WritesView<'_>, &[u8]), Fault>
    ensures { Gives (λ x. (writes_of x.0, x.1.now)) result (writes_at format bytes.now) }
{
    let (count, rest) = between(0, 33, bytes)?;
    some_writes(format, count, rest)
}

/// All parts of the transaction that stands first.
#[tactic(auto, unfolding(crate::specs::Parsed::transaction_at))]
pub(crate) fn read_parts(bytes: &[u8]) -> Result<(Parts<'_>, &[u8]), Fault>
    ensures { Gives (λ x. (whole_of x.0, x.1.now)) result (transaction_at bytes.now) }
{
    let (front, rest) = read_front(bytes)?;
    let (reads, rest) = reads(rest)?;
    let (writes, rest) = writes(front.format, rest)?;
    Ok((
        Parts {
            front,
            reads,
            writes,
        },
        rest,
    ))
}

/// The format, and the bytes from the number of writes on.
#[tactic(auto, unfolding(crate::specs::Parsed::before_writes_at))]
pub(crate) fn before_writes(bytes: &[u8]) -> Result<(u8, &[u8]), Fault>
    ensures { Gives (λ x. (x.0, x.1.now)) result (before_writes_at bytes.now) }
{
    let (front, rest) = read_front(bytes)?;
    let (_reads, rest) = reads(rest)?;
    Ok((front.format, rest))
}

/// The transaction that stands first, and the bytes behind it, or the first fault, told by the bytes left.
pub fn first(bytes: &[u8]) -> Result<(TransactionView<'_>, &[u8]), Fault>
    ensures { Gives (λ x. (transaction_of x.0, x.1.now)) result (transaction_at bytes.now) }
{
    match read_parts(bytes) {
        Ok((_parts, rest)) => Ok((
            TransactionView::of(&bytes[..bytes.len() - rest.len()]),
            rest,
        )),
        Err(fault) => Err(fault),
    }
}
