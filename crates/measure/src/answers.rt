//! Frames for a client.

use crate::made::{boxed, joined, signed_by};
use crate::steps::Handing;
use basil_types::cluster::Cluster;
use basil_types::memory::NoMemory;
use basil_types::outbox::Outbox;
use basil_types::party::{Decision, Party};
use basil_types::words::Words;
use client_core::Client;
use keyring::plain::{PlainKeys, PlainPen};
use node_steps::pending::outbox;
use std::alloc::Global;

/// What a client is handed about a transaction.
#[derive(Clone, Copy)]
pub enum Answering {
    /// The votes to commit of every replica, of which the last one decides.
    Votes,
    /// The log replies to commit of every replica, of which a log quorum decides.
    Logs,
}

/// What a client does behind a flood of log replies of one replica about one transaction, each of a view of its own.
#[derive(Clone, Copy)]
pub enum Later {
    /// It takes one log reply more.
    Log,
    /// It takes a vote of that replica, of which the first counts.
    Vote,
    /// It calls for an election, with the latest log replies.
    Invoke,
}

/// A client over plain keys.
type PlainClient = Client<PlainKeys, PlainPen>;

/// The client of all transactions.
const CLIENT: u8 = 1;

/// The client, before its first call.
fn client(alloc: Global, cluster: Cluster) -> Result<Box<PlainClient>, NoMemory> {
    let pen = PlainPen::new(Party::Client { number: CLIENT });
    boxed(
        alloc,
        Client::new(alloc, cluster, CLIENT, PlainKeys::new(&cluster), pen),
    )
}

/// A transaction that the client formed.
#[derive(Clone, Copy)]
struct Formed {
    slot: u32,
    id: [u8; 32],
}

/// Forms a transaction that writes one key.
fn form(client: &mut PlainClient, out: &mut Outbox) -> Option<Formed> {
    let slot = client.begin(1).ok()?;
    client.write(slot, b"k", b"v").ok()?;
    client.prepare(slot, out).ok()?;
    match client.formed(slot) {
        Some((transaction, _)) => {
            let id = transaction.view().id();
            Some(Formed { slot, id })
        }
        None => None,
    }
}

/// The first bytes of a frame of a replica about a transaction, to commit it.
fn head(alloc: Global, kind: u8, index: u8, id: &[u8; 32]) -> Result<Vec<u8>, NoMemory> {
    joined(alloc, &[&[kind, 0, index], id, &[0]])
}

/// A replica's signature of these words, behind its length.
fn put_signature(
    alloc: Global,
    frame: &mut Vec<u8>,
    index: u8,
    words: &[u8],
) -> Result<(), NoMemory> {
    let mut pen = PlainPen::new(Party::Replica { shard: 0, index });
    let signature = signed_by(alloc, &mut pen, words)?;
    let length = u16::try_from(signature.len()).unwrap_or(u16::MAX);
    frame.extend_from_slice(&length.to_be_bytes())?;
    frame.extend_from_slice(&signature)?;
    Ok(())
}

/// A vote to commit.
fn vote(alloc: Global, index: u8, id: &[u8; 32]) -> Result<Vec<u8>, NoMemory> {
    let words = Words::vote(0, index, id, Decision::Commit);
    let mut frame = head(alloc, 4, index, id)?;
    frame.push(0)?;
    put_signature(alloc, &mut frame, index, words.bytes())?;
    Ok(frame)
}

/// A log reply that says that the commit was decided in this view, which is its replica's.
fn log_reply(alloc: Global, index: u8, id: &[u8; 32], view: u64) -> Result<Vec<u8>, NoMemory> {
    let words = Words::log_reply(0, index, id, Decision::Commit, view, view);
    let mut frame = head(alloc, 6, index, id)?;
    frame.extend_from_slice(&view.to_be_bytes())?;
    frame.extend_from_slice(&view.to_be_bytes())?;
    put_signature(alloc, &mut frame, index, words.bytes())?;
    Ok(frame)
}

/// Hands a frame to the client, or does not, and gives 1 where it is accepted.
fn hand(client: &mut PlainClient, handing: Handing, frame: &[u8], out: &mut Outbox) -> u64 {
    match handing {
        Handing::Made => 1,
        Handing::Handed => match client.on_frame(frame, out) {
            Ok(()) => 1,
            Err(_) => 0,
        },
    }
}

/// Hands the client the answers of every replica about a transaction.
fn answer_all(
    alloc: Global,
    client: &mut PlainClient,
    replicas: u8,
    answering: Answering,
    handing: Handing,
    id: &[u8; 32],
) -> Result<u64, NoMemory> {
    let mut out = outbox(alloc);
    let mut sum = 0u64;
    for index in 0..replicas {
        let frame = match answering {
            Answering::Votes => vote(alloc, index, id)?,
            Answering::Logs => log_reply(alloc, index, id, 0)?,
        };
        sum = sum.saturating_add(hand(client, handing, &frame, &mut out));
    }
    Ok(sum)
}

/// A client forms a transaction, and is handed the answers of every replica.
fn answer_one(
    alloc: Global,
    cluster: Cluster,
    answering: Answering,
    handing: Handing,
) -> Result<u64, NoMemory> {
    let mut client = client(alloc, cluster)?;
    let mut out = outbox(alloc);
    match form(&mut client, &mut out) {
        Some(formed) => {
            let id = formed.id;
            answer_all(alloc, &mut client, cluster.n(), answering, handing, &id)
        }
        None => Ok(0),
    }
}

/// So many clients form a transaction each in a cluster of this f, and are handed the answers of every replica.
pub fn answer_often(
    alloc: Global,
    f: u8,
    answering: Answering,
    handing: Handing,
    count: u32,
) -> Result<u64, NoMemory> {
    let Ok(cluster) = Cluster::new(f, 1, f.saturating_add(1), 100) else {
        return Ok(0);
    };
    let mut sum = 0u64;
    for _ in 0..count {
        let accepted = answer_one(alloc, cluster, answering, handing)?;
        sum = sum.saturating_add(accepted);
    }
    Ok(sum)
}

/// Hands the client log replies of one replica, each of a view of its own.
fn flood_by(
    alloc: Global,
    client: &mut PlainClient,
    handing: Handing,
    id: &[u8; 32],
    views: std::ops::Range<u32>,
) -> Result<u64, NoMemory> {
    let mut out = outbox(alloc);
    let mut sum = 0u64;
    for view in views {
        let frame = log_reply(alloc, 0, id, u64::from(view))?;
        sum = sum.saturating_add(hand(client, handing, &frame, &mut out));
    }
    Ok(sum)
}

/// Calls for an election, and gives 1 where it may.
fn invoke(client: &mut PlainClient, slot: u32, out: &mut Outbox) -> u64 {
    if slot >= client.slots() {
        return 0;
    }
    match client.invoke(slot, out) {
        Ok(()) => 1,
        Err(_) => 0,
    }
}

/// Calls for an election so many times.
fn invoke_often(alloc: Global, client: &mut PlainClient, slot: u32, count: u32) -> u64 {
    let mut sum = 0u64;
    for _ in 0..count {
        let mut out = outbox(alloc);
        sum = sum.saturating_add(invoke(client, slot, &mut out));
    }
    sum
}

/// Hands the client the vote of one replica so many times.
fn vote_often(
    alloc: Global,
    client: &mut PlainClient,
    handing: Handing,
    id: &[u8; 32],
    count: u32,
) -> Result<u64, NoMemory> {
    let mut out = outbox(alloc);
    let mut sum = 0u64;
    for _ in 0..count {
        let frame = vote(alloc, 0, id)?;
        sum = sum.saturating_add(hand(client, handing, &frame, &mut out));
    }
    Ok(sum)
}

/// Hands a client so many log replies of one replica about one transaction, and then has it do something so many times.
pub fn flood(
    alloc: Global,
    later: Later,
    handing: Handing,
    known: u32,
    count: u32,
) -> Result<u64, NoMemory> {
    let Ok(cluster) = Cluster::new(1, 1, 3, 100) else {
        return Ok(0);
    };
    let mut client = client(alloc, cluster)?;
    let mut out = outbox(alloc);
    let Some(formed) = form(&mut client, &mut out) else {
        return Ok(0);
    };
    let id = formed.id;
    let _ = flood_by(alloc, &mut client, handing, &id, 0..known)?;
    match later {
        Later::Log => {
            let last = known.saturating_add(count);
            flood_by(alloc, &mut client, handing, &id, known..last)
        }
        Later::Vote => vote_often(alloc, &mut client, handing, &id, count),
        Later::Invoke => Ok(invoke_often(alloc, &mut client, formed.slot, count)),
    }
}
