//! Frames of an independent program: read, owned, and spelled again.

ghost use Rattle.std.specs.Prelude.{◌≡◌};
ghost use Rattle.basil_codec.specs.Fitting.{bounds_of, FitsMessage};
ghost use Rattle.basil_codec.specs.Shown.{message_of};

use crate::answers::{encoded, fault_of};
use crate::unsigned::put_in_two;
use basil_codec::signed::Signatures;
use basil_codec::wider::checked_may_be_written;
use basil_codec::{BadFrame, MessageView, SignedItem, check, decode, put_message, signatures};
use basil_types::cluster::Cluster;
use basil_types::party::Party;
use std::alloc::Global;
use std::test::Fail;

/// Whose a signature is: the shard and the number of a replica, or the number of a client.
pub(crate) enum By {
    Replica(u8, u8),
    Client(u8),
}

/// A signature: whose it is, its words and its bytes, both in hex.
pub(crate) type Signed = (By, &'static str, &'static str);

/// A frame in hex of a cluster (its f, shards, reads of a quorum and delta), and its signatures in order of bytes.
pub(crate) struct Sample {
    pub(crate) cluster: [u8; 4],
    pub(crate) frame: &'static str,
    pub(crate) signed: &'static [Signed],
}

fn party(by: &By) -> Party {
    match by {
        By::Replica(shard, index) => Party::Replica {
            shard: *shard,
            index: *index,
        },
        By::Client(number) => Party::Client { number: *number },
    }
}

fn is_told(alloc: Global, item: &SignedItem<'_>, told: &Signed) -> Result<bool, Fail> {
    let words = hex::decode(alloc, told.1)?;
    let signature = hex::decode(alloc, told.2)?;
    Ok(
        item.party == party(&told.0)
            && item.words.bytes() == words.as_slice()
            && item.signature == signature.as_slice(),
    )
}

/// Whether the signature at a place is told so.
fn is_told_at(
    alloc: Global,
    item: &SignedItem<'_>,
    signed: &[Signed],
    place: usize,
) -> Result<bool, Fail> {
    match signed.get(place) {
        Some(told) => is_told(alloc, item, told),
        None => Ok(false),
    }
}

/// Whether the signatures are these, in order.
fn are_signed(alloc: Global, all: Signatures<'_>, signed: &[Signed]) -> Result<bool, Fail> {
    let mut place = 0usize;
    for item in all {
        if !is_told_at(alloc, &item, signed, place)? {
            return Ok(false);
        }
        place = place.wrapping_add(1);
    }
    Ok(place == signed.len())
}

/// Whether the message, owned, has this frame.
fn is_owned(
    alloc: Global,
    cluster: &Cluster,
    message: &MessageView<'_>,
    frame: &[u8],
) -> Result<bool, Fail> {
    let again = encoded(alloc, cluster, decode(alloc, message)?)?;
    Ok(again.as_deref() == Some(frame))
}

/// Whether the frame of borrowed parts is this one.
fn is_put(
    alloc: Global,
    cluster: &Cluster,
    message: &MessageView<'_>,
    frame: &[u8],
) -> Result<bool, Fail>
    requires { FitsMessage (bounds_of cluster.now) (message_of message.now) }
{
    checked_may_be_written(cluster, message);
    let mut out = Vec::new(alloc);
    put_message(message, &mut out)?;
    Ok(out.as_slice() == frame)
}

/// Whether it is this one in two parts too, where its kind is written so.
fn is_put_in_two(
    alloc: Global,
    cluster: &Cluster,
    message: &MessageView<'_>,
    frame: &[u8],
) -> Result<bool, Fail>
    requires { FitsMessage (bounds_of cluster.now) (message_of message.now) }
{
    checked_may_be_written(cluster, message);
    let mut out = Vec::new(alloc);
    Ok(!put_in_two(message, &mut out)? || out.as_slice() == frame)
}

/// Whether bytes that end too early are short at each length.
fn is_short_before_its_end(cluster: &Cluster, frame: &[u8]) -> bool {
    for len in 0..frame.len() {
        if !matches!(fault_of(&frame[..len], cluster), Some(BadFrame::Short(_))) {
            return false;
        }
    }
    true
}

/// Whether one byte more is trailing.
fn is_trailed(alloc: Global, cluster: &Cluster, frame: &[u8]) -> Result<bool, Fail> {
    let mut longer = frame.to_vec(alloc)?;
    longer.push(0)?;
    Ok(fault_of(&longer, cluster) == Some(BadFrame::Trailing(frame.len())))
}

/// Whether a message has these signatures, in order, and is spelled again as its frame: as an owned message, of its
/// borrowed parts, and up to its signature.
fn is_message_told(
    alloc: Global,
    cluster: &Cluster,
    message: &MessageView<'_>,
    frame: &[u8],
    signed: &[Signed],
) -> Result<bool, Fail>
    requires { FitsMessage (bounds_of cluster.now) (message_of message.now) }
{
    Ok(
        are_signed(alloc, signatures(message), signed)?
            && is_owned(alloc, cluster, message, frame)?
            && is_put(alloc, cluster, message, frame)?
            && is_put_in_two(alloc, cluster, message, frame)?,
    )
}

/// Whether a frame is read, and its message is told so.
fn is_frame_told(
    alloc: Global,
    cluster: &Cluster,
    frame: &[u8],
    signed: &[Signed],
) -> Result<bool, Fail> {
    match check(frame, cluster) {
        Ok(message) => is_message_told(alloc, cluster, &message, frame, signed),
        Err(_) => Ok(false),
    }
}

/// Whether a frame is told so, no shorter and no longer.
fn is_whole_told(
    alloc: Global,
    cluster: &Cluster,
    frame: &[u8],
    signed: &[Signed],
) -> Result<bool, Fail> {
    Ok(
        is_short_before_its_end(cluster, frame)
            && is_trailed(alloc, cluster, frame)?
            && is_frame_told(alloc, cluster, frame, signed)?,
    )
}

fn is_row_told(alloc: Global, row: &Sample) -> Result<bool, Fail> {
    let [f, shards, reads, delta] = row.cluster;
    let cluster = Cluster::new(f, shards, reads, u64::from(delta))?;
    let frame = hex::decode(alloc, row.frame)?;
    is_whole_told(alloc, &cluster, &frame, row.signed)
}

/// Whether each frame is told so.
pub(crate) fn are_told(alloc: Global, rows: &[Sample]) -> Result<bool, Fail> {
    for row in rows {
        if !is_row_told(alloc, row)? {
            return Ok(false);
        }
    }
    Ok(true)
}
