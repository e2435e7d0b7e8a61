//! Releases of the votes that wait for a transaction's outcome.

use crate::made::{boxed, joined};
use crate::steps::{
    CLIENT, Handing, NOW, REPLICA, first_stage, first_stage_of, transaction, writeback,
};
use basil_types::bytes::id_of;
use basil_types::cluster::Cluster;
use basil_types::memory::NoMemory;
use keyring::plain::{PlainKeys, PlainPen};
use node_steps::pending::outbox;
use replica_core::Replica;
use std::alloc::Global;

/// A replica over plain keys.
type PlainReplica = Replica<PlainKeys, PlainPen>;

/// The transaction of a number that depends on the one of a lower number: it reads that one's key at its version, and
/// writes one byte to a key of its own.
fn dependent(alloc: Global, number: u32, on: u32) -> Result<Vec<u8>, NoMemory> {
    let read = id_of(&transaction(alloc, on)?);
    let time = u64::from(number) + 1;
    let read_time = u64::from(on) + 1;
    joined(
        alloc,
        &[
            &[1],
            &time.to_be_bytes(),
            &[1, 1, 4],
            &on.to_be_bytes(),
            &read_time.to_be_bytes(),
            &[1],
            &read,
            &[1, 1, 4],
            &number.to_be_bytes(),
            &[0, 1, b'v'],
        ],
    )
}

/// Hands a frame to a replica, and gives how many messages it sends. None where it refuses.
fn sent(alloc: Global, replica: &mut PlainReplica, frame: &[u8]) -> Option<u64> {
    let mut out = outbox(alloc);
    match replica.step(NOW, CLIENT, frame, &mut out) {
        Ok(()) => Some(out.messages.as_slice().len() as u64),
        Err(_) => None,
    }
}

/// Hands a replica the writebacks of so many transactions, and gives how many of them it accepts.
fn decide_all(
    alloc: Global,
    cluster: &Cluster,
    replica: &mut PlainReplica,
    known: u32,
) -> Result<u32, NoMemory> {
    let mut decided = 0u32;
    for number in 0..known {
        let frame = writeback(alloc, cluster, number)?;
        if sent(alloc, replica, &frame).is_some() {
            decided = decided.saturating_add(1);
        }
    }
    Ok(decided)
}

/// Hands a replica the first stage of the transaction of a number, and those of so many that depend on it and have the
/// numbers after it. Gives how many of them wait: they are accepted, and nothing is sent.
fn have_wait(
    alloc: Global,
    replica: &mut PlainReplica,
    client: &mut PlainPen,
    number: u32,
    waiters: u32,
) -> Result<u64, NoMemory> {
    let frame = first_stage(alloc, client, number)?;
    let _ = sent(alloc, replica, &frame);
    let mut waiting = 0u64;
    for place in 0..waiters {
        let later = number.saturating_add(1).saturating_add(place);
        let dependent = dependent(alloc, later, number)?;
        let frame = first_stage_of(alloc, client, &dependent)?;
        if sent(alloc, replica, &frame) == Some(0) {
            waiting = waiting.saturating_add(1);
        }
    }
    Ok(waiting)
}

/// Has so many wait for the transaction of a number, and makes its writeback. Gives how many votes the replica sends
/// when it is handed that, or, where it isn't, how many wait.
fn release(
    alloc: Global,
    cluster: &Cluster,
    replica: &mut PlainReplica,
    client: &mut PlainPen,
    handing: Handing,
    number: u32,
    waiters: u32,
) -> Result<u64, NoMemory> {
    let waiting = have_wait(alloc, replica, client, number, waiters)?;
    let frame = writeback(alloc, cluster, number)?;
    match handing {
        Handing::Made => Ok(waiting),
        Handing::Handed => Ok(sent(alloc, replica, &frame).unwrap_or(0)),
    }
}

/// Releases so many votes so many times, of a replica that knows so many transactions.
fn release_often(
    alloc: Global,
    cluster: &Cluster,
    replica: &mut PlainReplica,
    handing: Handing,
    waiters: u32,
    known: u32,
    count: u32,
) -> Result<u64, NoMemory> {
    if decide_all(alloc, cluster, replica, known)? != known {
        return Ok(0);
    }
    let mut client = PlainPen::new(CLIENT);
    let mut number = known;
    let mut sum = 0u64;
    for _ in 0..count {
        let votes = release(
            alloc,
            cluster,
            replica,
            &mut client,
            handing,
            number,
            waiters,
        )?;
        sum = sum.saturating_add(votes);
        number = number.saturating_add(1).saturating_add(waiters);
    }
    Ok(sum)
}

/// Hands a replica of plain keys so many decided transactions; then, so many times, one more and some that wait for it,
/// whose votes its writeback releases. Gives how many votes are released, or wait.
pub fn releases(
    alloc: Global,
    handing: Handing,
    waiters: u32,
    known: u32,
    count: u32,
) -> Result<u64, NoMemory> {
    let Ok(cluster) = Cluster::new(1, 1, 3, 100) else {
        return Ok(0);
    };
    let keys = PlainKeys::new(&cluster);
    let mut replica = boxed(
        alloc,
        Replica::new(alloc, cluster, 0, 0, keys, PlainPen::new(REPLICA)),
    )?;
    release_often(
        alloc,
        &cluster,
        &mut replica,
        handing,
        waiters,
        known,
        count,
    )
}
