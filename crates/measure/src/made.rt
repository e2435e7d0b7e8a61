//! Frames that are timed: a first stage, and writebacks of fast commits.

use basil_types::bytes::id_of;
use basil_types::cluster::Cluster;
use basil_types::memory::NoMemory;
use basil_types::party::{Decision, Party};
use basil_types::words::Words;
use keyring::plain::PlainPen;
use keyring::signer::Signer;
use keyring_lms::LmsPen;
use lms_sign::LmsSet;
use std::alloc::Global;

/// How the votes of a made frame are signed.
#[derive(Clone, Copy)]
pub enum Votes {
    /// By bytes that are no signature, as many as in the longest one of the program's keyrings.
    Filler,
    /// By plain keys.
    Plain,
    /// By the replay's LMS keys of this set.
    Lms(LmsSet),
}

/// The bytes of the longest signature.
const LONGEST_SIGNATURE: usize = 2508;

/// Keeps a value apart.
pub(crate) fn boxed<T: Drop>(alloc: Global, value: T) -> Result<Box<T>, NoMemory> {
    Ok(Box::new(alloc, value)?)
}

/// Bytes, one behind another.
pub(crate) fn joined(alloc: Global, parts: &[&[u8]]) -> Result<Vec<u8>, NoMemory> {
    let mut all = Vec::new(alloc);
    for part in parts {
        all.extend_from_slice(part)?;
    }
    Ok(all)
}

/// A transaction of time 10 and client 1 that writes one byte to a key of each of so many shards.
fn transaction(alloc: Global, shards: u8) -> Result<Vec<u8>, NoMemory> {
    let mut bytes = Vec::from_slice(alloc, &[1, 0, 0, 0, 0, 0, 0, 0, 10, 1, 0, shards])?;
    for shard in 0..shards {
        let key = b'a'.wrapping_add(shard);
        bytes.extend_from_slice(&[1, key, 0, 1, b'v'])?;
    }
    Ok(bytes)
}

/// The pen's signature of these words.
pub(crate) fn signed_by<S: Signer>(
    alloc: Global,
    pen: &mut S,
    words: &[u8],
) -> Result<Vec<u8>, NoMemory> {
    let mut signature = Vec::from_elem(alloc, 0u8, pen.size())?;
    match pen.sign_into(words, &mut signature) {
        Ok(()) => Ok(signature),
        Err(_) => Ok(Vec::new(alloc)),
    }
}

/// A party's signature of these words.
fn signature(alloc: Global, votes: Votes, party: Party, words: &[u8]) -> Result<Vec<u8>, NoMemory> {
    match votes {
        Votes::Filler => Ok(Vec::from_elem(alloc, 7u8, LONGEST_SIGNATURE)?),
        Votes::Plain => signed_by(alloc, &mut PlainPen::new(party), words),
        Votes::Lms(set) => signed_by(alloc, &mut LmsPen::replay(alloc, party, set)?, words),
    }
}

/// A replica's vote to commit.
fn put_vote(
    alloc: Global,
    out: &mut Vec<u8>,
    votes: Votes,
    shard: u8,
    index: u8,
    id: &[u8; 32],
) -> Result<(), NoMemory> {
    let words = Words::vote(shard, index, id, Decision::Commit);
    let party = Party::Replica { shard, index };
    let signature = signature(alloc, votes, party, words.bytes())?;
    let length = u16::try_from(signature.len()).unwrap_or(u16::MAX);
    let [high, low] = length.to_be_bytes();
    out.extend_from_slice(&[index, high, low])?;
    out.extend_from_slice(&signature)?;
    Ok(())
}

/// The votes of every replica of a shard.
pub(crate) fn put_shard(
    alloc: Global,
    out: &mut Vec<u8>,
    votes: Votes,
    shard: u8,
    replicas: u8,
    id: &[u8; 32],
) -> Result<(), NoMemory> {
    out.extend_from_slice(&[shard, replicas])?;
    for index in 0..replicas {
        put_vote(alloc, out, votes, shard, index, id)?;
    }
    Ok(())
}

/// The frame of a writeback with a fast commit of every replica of every shard.
pub fn writeback(alloc: Global, cluster: &Cluster, votes: Votes) -> Result<Vec<u8>, NoMemory> {
    let transaction = transaction(alloc, cluster.shards)?;
    let id = id_of(&transaction);
    let mut frame = joined(alloc, &[&[7], &transaction, &[1], &id, &[cluster.shards]])?;
    for shard in 0..cluster.shards {
        put_shard(alloc, &mut frame, votes, shard, cluster.n(), &id)?;
    }
    Ok(frame)
}

/// The frame of a first stage.
pub fn first_stage(alloc: Global) -> Result<Vec<u8>, NoMemory> {
    let transaction = transaction(alloc, 1)?;
    joined(alloc, &[&[3], &transaction, &[0, 32], &[7; 32]])
}
