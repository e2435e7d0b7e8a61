//! Steps of a replica.

use crate::made::{Votes, boxed, joined, put_shard, signed_by};
use basil_types::bytes::id_of;
use basil_types::cluster::Cluster;
use basil_types::memory::NoMemory;
use basil_types::party::Party;
use basil_types::words::Words;
use keyring::plain::{PlainKeys, PlainPen};
use keyring::signer::Signer;
use keyring::verifier::Verifier;
use keyring_lms::{LmsKeys, LmsPen};
use lms_sign::LmsSet;
use node_steps::pending::outbox;
use replica_core::Replica;
use std::alloc::Global;

/// What a replica is handed, each about a transaction of its own.
#[derive(Clone, Copy)]
pub enum Stepping {
    /// First stages of transactions that aren't known.
    FirstStage,
    /// Writebacks of known transactions, with a fast commit.
    Writeback,
    /// Reads of keys that known transactions write.
    Read,
}

/// Whether frames are handed to a replica, or only made.
#[derive(Clone, Copy)]
pub enum Handing {
    Made,
    Handed,
}

/// The client of all transactions.
pub(crate) const CLIENT: Party = Party::Client { number: 1 };

/// The replica that is timed.
pub(crate) const REPLICA: Party = Party::Replica { shard: 0, index: 0 };

/// A moment above all times.
pub(crate) const NOW: u64 = 1 << 40;

/// The transaction of a number: it writes one byte to a key of its own.
pub(crate) fn transaction(alloc: Global, number: u32) -> Result<Vec<u8>, NoMemory> {
    let time = u64::from(number) + 1;
    let (time, key) = (time.to_be_bytes(), number.to_be_bytes());
    joined(alloc, &[&[1], &time, &[1, 0, 1, 4], &key, &[0, 1, b'v']])
}

/// The first stage of the transaction of these bytes.
pub(crate) fn first_stage_of<S: Signer>(
    alloc: Global,
    pen: &mut S,
    transaction: &[u8],
) -> Result<Vec<u8>, NoMemory> {
    let words = Words::transaction(&id_of(transaction));
    let signature = signed_by(alloc, pen, words.bytes())?;
    let length = u16::try_from(signature.len()).unwrap_or(u16::MAX);
    joined(
        alloc,
        &[&[3], transaction, &length.to_be_bytes(), &signature],
    )
}

/// The first stage of the transaction of a number.
pub(crate) fn first_stage<S: Signer>(
    alloc: Global,
    pen: &mut S,
    number: u32,
) -> Result<Vec<u8>, NoMemory> {
    let transaction = transaction(alloc, number)?;
    first_stage_of(alloc, pen, &transaction)
}

/// The writeback of the transaction of a number, with the plain votes of every replica of the one shard.
pub(crate) fn writeback(
    alloc: Global,
    cluster: &Cluster,
    number: u32,
) -> Result<Vec<u8>, NoMemory> {
    let transaction = transaction(alloc, number)?;
    let id = id_of(&transaction);
    let mut frame = joined(alloc, &[&[7], &transaction, &[1], &id, &[1]])?;
    put_shard(alloc, &mut frame, Votes::Plain, 0, cluster.n(), &id)?;
    Ok(frame)
}

/// A read of the key of a number, above all transactions.
fn read(alloc: Global, number: u32) -> Result<Vec<u8>, NoMemory> {
    joined(
        alloc,
        &[&[1, 4], &number.to_be_bytes(), &NOW.to_be_bytes(), &[1]],
    )
}

/// A frame about the transaction of a number.
fn frame_of<S: Signer>(
    alloc: Global,
    cluster: &Cluster,
    pen: &mut S,
    stepping: Stepping,
    number: u32,
) -> Result<Vec<u8>, NoMemory> {
    match stepping {
        Stepping::FirstStage => first_stage(alloc, pen, number),
        Stepping::Writeback => writeback(alloc, cluster, number),
        Stepping::Read => read(alloc, number),
    }
}

/// Hands a frame to a replica, and gives 1 where it is accepted.
fn hand<V: Verifier, S: Signer>(alloc: Global, replica: &mut Replica<V, S>, frame: &[u8]) -> u64 {
    let mut out = outbox(alloc);
    match replica.step(NOW, CLIENT, frame, &mut out) {
        Ok(()) => 1,
        Err(_) => 0,
    }
}

/// Hands a replica the first stages of so many transactions.
fn fill<V: Verifier, S: Signer, C: Signer>(
    alloc: Global,
    replica: &mut Replica<V, S>,
    client: &mut C,
    known: u32,
) -> Result<(), NoMemory> {
    for number in 0..known {
        let frame = first_stage(alloc, client, number)?;
        let _ = hand(alloc, replica, &frame);
    }
    Ok(())
}

/// The number of the transaction that a frame is about, the first ones of which are known. Reads go through all known
/// ones, not in their order.
fn number_of(stepping: Stepping, known: u32, place: u32) -> u32 {
    match stepping {
        Stepping::FirstStage => known.saturating_add(place),
        Stepping::Writeback => place,
        Stepping::Read => place.wrapping_mul(7919) % known.max(1),
    }
}

/// Makes so many frames, and hands them to a replica that knows so many transactions.
fn step_often<V: Verifier, S: Signer, C: Signer>(
    alloc: Global,
    cluster: &Cluster,
    replica: &mut Replica<V, S>,
    client: &mut C,
    stepping: Stepping,
    handing: Handing,
    known: u32,
    count: u32,
) -> Result<u64, NoMemory> {
    let mut sum = 0u64;
    for place in 0..count {
        let number = number_of(stepping, known, place);
        let frame = frame_of(alloc, cluster, client, stepping, number)?;
        let accepted = match handing {
            Handing::Made => 1,
            Handing::Handed => hand(alloc, replica, &frame),
        };
        sum = sum.saturating_add(accepted);
    }
    Ok(sum)
}

/// Hands a replica of plain keys so many transactions, and then so many frames.
pub fn plain_steps(
    alloc: Global,
    stepping: Stepping,
    handing: Handing,
    known: u32,
    count: u32,
) -> Result<u64, NoMemory> {
    let Ok(cluster) = Cluster::new(1, 1, 3, 100) else {
        return Ok(0);
    };
    let keys = PlainKeys::new(&cluster);
    let mut replica = boxed(
        alloc,
        Replica::new(alloc, cluster, 0, 0, keys, PlainPen::new(REPLICA)),
    )?;
    let mut client = PlainPen::new(CLIENT);
    fill(alloc, &mut replica, &mut client, known)?;
    step_often(
        alloc,
        &cluster,
        &mut replica,
        &mut client,
        stepping,
        handing,
        known,
        count,
    )
}

/// Hands a replica of the replay's LMS keys of a set the first stages of so many transactions.
pub fn lms_steps(
    alloc: Global,
    set: LmsSet,
    handing: Handing,
    count: u32,
) -> Result<u64, NoMemory> {
    let Ok(cluster) = Cluster::new(1, 1, 3, 100) else {
        return Ok(0);
    };
    let keys = LmsKeys::replay(alloc, &cluster, set)?;
    let mut client = LmsPen::replay(alloc, CLIENT, set)?;
    let pen = LmsPen::replay(alloc, REPLICA, set)?;
    let mut replica = boxed(alloc, Replica::new(alloc, cluster, 0, 0, keys, pen))?;
    let stepping = Stepping::FirstStage;
    step_often(
        alloc,
        &cluster,
        &mut replica,
        &mut client,
        stepping,
        handing,
        0,
        count,
    )
}
