//! First stages of faulty clients.

ghost use Rattle.std.specs.Prelude.{◌≡◌, ◌≤◌, ◌++◌, ◌∷◌, All, IfOk, OnOk, [], map};
ghost use Rattle.basil_types.specs.Limits.{signature_limit};
ghost use Rattle.basil_types.specs.Shown.{transaction_of};
ghost use Rattle.frame_writing.specs.Unsigned.{unsigned_st1};
ghost use Rattle.node_steps.specs.Pendings.{HasRoomFor, front_of};
ghost use Rattle.faulty_parties.specs.Fronts.{fronts_at, fronts_in, fronts_to};
ghost use Rattle.faulty_parties.specs.Lies.{CanBeSaid, Says};
ghost use Rattle.faulty_parties.specs.Unsaid.{unsaid_first};

use crate::lie::Lie;
use basil_types::cluster::Cluster;
use basil_types::memory::NoMemory;
use basil_types::party::Party;
use basil_types::transaction::TransactionView;
use basil_types::words::Words;
use frame_views::frames::St1View;
use frame_writing::{put_unsigned_st1, signatures_end_frames};
use node_steps::pending::{Pending, Unsigned};
use std::alloc::Global;
use txn_meta::shards::{Shards, involved};

/// A frame that lacks its signature, and how many bytes that will have.
#[derive(Clone, Copy)]
struct Front<'a> {
    bytes: &'a [u8],
    size: usize,
}

/// Appends this frame for a replica.
fn add_one(
    alloc: Global,
    frames: &mut Vec<Unsigned>,
    to: Party,
    front: &Front<'_>,
) -> Result<(), NoMemory>
    requires short { front.now.size ≤ signature_limit }
    requires rooms { All (HasRoomFor front.now.size) frames.old.items }
    ensures fronts { OnOk result (map front_of frames.new.items
        ≡ map front_of frames.old.items ++ record { to = to; bytes = front.now.bytes.now } ∷ []) }
    ensures rooms { OnOk result (All (HasRoomFor front.now.size) frames.new.items) }
{
    let frame = Vec::from_slice(alloc, front.bytes)?;
    frames.push(Unsigned::with_room(to, frame, front.size)?)?;
    Ok(())
}

/// Appends this frame for every replica of a shard, ascending.
fn add_shard(
    alloc: Global,
    frames: &mut Vec<Unsigned>,
    cluster: &Cluster,
    shard: u8,
    front: &Front<'_>,
) -> Result<(), NoMemory>
    requires short { front.now.size ≤ signature_limit }
    requires rooms { All (HasRoomFor front.now.size) frames.old.items }
    ensures fronts { OnOk result (map front_of frames.new.items
        ≡ map front_of frames.old.items ++ fronts_to cluster.now front.now.bytes.now shard) }
    ensures rooms { OnOk result (All (HasRoomFor front.now.size) frames.new.items) }
{
    for index in 0..cluster.n() {
        add_one(alloc, frames, Party::Replica { shard, index }, front)?;
    }
    Ok(())
}

/// Appends this frame for every replica of the shard at a place of a set, ascending, or nothing past its end.
fn add_at(
    alloc: Global,
    frames: &mut Vec<Unsigned>,
    cluster: &Cluster,
    shard: Option<u8>,
    front: &Front<'_>,
) -> Result<(), NoMemory>
    requires short { front.now.size ≤ signature_limit }
    requires rooms { All (HasRoomFor front.now.size) frames.old.items }
    ensures fronts { OnOk result (map front_of frames.new.items
        ≡ map front_of frames.old.items ++ fronts_at cluster.now front.now.bytes.now shard) }
    ensures rooms { OnOk result (All (HasRoomFor front.now.size) frames.new.items) }
{
    match shard {
        Some(shard) => add_shard(alloc, frames, cluster, shard, front),
        None => Ok(()),
    }
}

/// This frame for every replica of every involved shard, ascending.
fn frames_in(
    alloc: Global,
    cluster: &Cluster,
    t: TransactionView<'_>,
    front: &Front<'_>,
) -> Result<Vec<Unsigned>, NoMemory>
    requires { front.now.size ≤ signature_limit }
    ensures fronts { IfOk result (λ u. map front_of u.items
        ≡ fronts_in cluster.now front.now.bytes.now (transaction_of t.entry)) }
    ensures rooms { IfOk result (λ u. All (HasRoomFor front.now.size) u.items) }
{
    let shards = involved(t, cluster);
    let mut frames = Vec::new(alloc);
    for place in 0..8u8 {
        add_at(alloc, &mut frames, cluster, shards.nth(place), front)?;
    }
    Ok(frames)
}

/// A first stage but its signature.
fn first_frame(alloc: Global, t: TransactionView<'_>) -> Result<Vec<u8>, NoMemory>
    ensures { IfOk result (λ f. f.items
        ≡ unsigned_st1 (record { transaction = transaction_of t.entry; signature = [] })) }
{
    let mut frame = Vec::new(alloc);
    let first = St1View {
        transaction: t,
        signature: &[],
    };
    put_unsigned_st1(&first, &mut frame)?;
    Ok(frame)
}

/// A client's first stage of its transaction, for every replica of every involved shard, which waits for a signature of
/// this size; or memory is wanting.
pub fn first_stage(
    alloc: Global,
    cluster: &Cluster,
    t: TransactionView<'_>,
    size: usize,
) -> Result<Lie, NoMemory>
    requires some { 1 ≤ size }
    requires short { size ≤ signature_limit }
    ensures ready { IfOk result (CanBeSaid size) }
    ensures says { IfOk result (Says (unsaid_first cluster.now (transaction_of t.entry))) }
{
    signatures_end_frames();
    let frame = first_frame(alloc, t)?;
    let front = Front {
        bytes: frame.as_slice(),
        size,
    };
    let frames = frames_in(alloc, cluster, t, &front)?;
    let id = t.id();
    let pending = Pending::new(alloc, Words::transaction(&id), frames, size)?;
    Lie::of(alloc, pending, size)
}
