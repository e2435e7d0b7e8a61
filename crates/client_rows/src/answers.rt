//! What replicas answer a client that pursues a transaction: votes, log replies and writebacks with plain signatures,
//! each named by a token.

use crate::made::{fast_abort, fast_commit, put_signature};
use basil_types::bytes::id_of;
use basil_types::party::{Decision, Party};
use basil_types::words::Words;
use std::alloc::{AllocError, Global};
use std::test::Fail;

/// The transaction that is pursued, the writeback of a committed rival, and the votes of each shard in a writeback.
#[derive(Clone, Copy)]
pub(crate) struct Pursued<'a> {
    pub(crate) transaction: &'a [u8],
    pub(crate) rival: &'a [u8],
    pub(crate) tallies: &'a [(u8, u8)],
}

/// A vote's frame, with the pair of a writeback as its proof, or with none.
fn vote(
    alloc: Global,
    id: &[u8; 32],
    (shard, index): (u8, u8),
    decision: Decision,
    proof: &[u8],
) -> Result<Vec<u8>, AllocError> {
    let mut out = Vec::from_slice(alloc, &[4, shard, index])?;
    out.extend_from_slice(id)?;
    out.extend_from_slice(&[number_of(decision), u8::from(!proof.is_empty())])?;
    if let Some((_, pair)) = proof.split_first() {
        out.extend_from_slice(pair)?;
    }
    let words = Words::vote(shard, index, id, decision);
    put_signature(&mut out, Party::Replica { shard, index }, &words)?;
    Ok(out)
}

fn number_of(decision: Decision) -> u8 {
    match decision {
        Decision::Commit => 0,
        Decision::Abort => 1,
    }
}

/// A log reply's frame: the shard and the replica, the decision, and the views in which it was decided and that is
/// current.
fn log_reply(
    alloc: Global,
    id: &[u8; 32],
    (shard, index): (u8, u8),
    decision: Decision,
    (decided, current): (u64, u64),
) -> Result<Vec<u8>, AllocError> {
    let mut out = Vec::from_slice(alloc, &[6, shard, index])?;
    out.extend_from_slice(id)?;
    out.push(number_of(decision))?;
    out.extend_from_slice(&decided.to_be_bytes())?;
    out.extend_from_slice(&current.to_be_bytes())?;
    let words = Words::log_reply(shard, index, id, decision, decided, current);
    put_signature(&mut out, Party::Replica { shard, index }, &words)?;
    Ok(out)
}

/// The decimal digit at a place of a token; 0 where none stands there.
fn digit(token: &[u8], place: usize) -> u8 {
    token.get(place).map_or(0, |byte| byte.saturating_sub(b'0'))
}

/// The shard and the replica that a token names first.
fn replica_in(token: &[u8]) -> (u8, u8) {
    (digit(token, 1), digit(token, 2))
}

/// The views that a token names behind its replica.
fn views_in(token: &[u8]) -> (u64, u64) {
    (u64::from(digit(token, 3)), u64::from(digit(token, 4)))
}

/// The frame that a token names: `c02` and `a02`, a vote of replica 2 of shard 0 to commit or to abort; `p02`, one to
/// abort with the rival as its proof; `C0213` and `A0213`, its log reply, decided in view 1, with view 3 current; `w`
/// and `x`, the writeback of a fast commit and of a fast abort of shard 0.
pub(crate) fn frame_of(alloc: Global, pursued: &Pursued<'_>, token: &str) -> Result<Vec<u8>, Fail> {
    let token = token.as_bytes();
    let id = id_of(pursued.transaction);
    let replica = replica_in(token);
    Ok(match token.first() {
        Some(b'c') => vote(alloc, &id, replica, Decision::Commit, &[])?,
        Some(b'a') => vote(alloc, &id, replica, Decision::Abort, &[])?,
        Some(b'p') => vote(alloc, &id, replica, Decision::Abort, pursued.rival)?,
        Some(b'C') => log_reply(alloc, &id, replica, Decision::Commit, views_in(token))?,
        Some(b'A') => log_reply(alloc, &id, replica, Decision::Abort, views_in(token))?,
        Some(b'w') => fast_commit(alloc, pursued.transaction, pursued.tallies)?,
        Some(b'x') => fast_abort(alloc, pursued.transaction, 4)?,
        _ => return Err(Fail::new("no frame has this name")),
    })
}
