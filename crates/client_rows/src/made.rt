//! Writebacks that are put together here, with plain signatures.

use basil_types::bytes::id_of;
use basil_types::party::{Decision, Party};
use basil_types::words::Words;
use keyring::plain::PlainPen;
use keyring::signer::Signer;
use std::alloc::{AllocError, Global};

/// A plain signature of words behind its length.
pub(crate) fn put_signature(
    out: &mut Vec<u8>,
    party: Party,
    words: &Words,
) -> Result<(), AllocError> {
    let mut pen = PlainPen::new(party);
    let mut signature = [0u8; 32];
    let _ = pen.sign_into(words.bytes(), &mut signature);
    out.extend_from_slice(&[0, 32])?;
    out.extend_from_slice(&signature)
}

/// The votes of the first replicas of a shard, behind the shard and their number.
fn put_tally(
    out: &mut Vec<u8>,
    shard: u8,
    count: u8,
    id: &[u8; 32],
    decision: Decision,
) -> Result<(), AllocError> {
    out.extend_from_slice(&[shard, count])?;
    for index in 0..count {
        out.push(index)?;
        let words = Words::vote(shard, index, id, decision);
        put_signature(out, Party::Replica { shard, index }, &words)?;
    }
    Ok(())
}

/// Kind 1, or 3 for an abort, and the id.
fn put_kind(out: &mut Vec<u8>, kind: u8, id: &[u8; 32]) -> Result<(), AllocError> {
    out.push(kind)?;
    out.extend_from_slice(id)
}

/// A fast commit of these shards, each with the votes of so many replicas.
pub(crate) fn put_commit(
    out: &mut Vec<u8>,
    transaction: &[u8],
    tallies: &[(u8, u8)],
) -> Result<(), AllocError> {
    let id = id_of(transaction);
    put_kind(out, 1, &id)?;
    out.push(u8::try_from(tallies.len()).unwrap_or(u8::MAX))?;
    for (shard, count) in tallies {
        put_tally(out, *shard, *count, &id, Decision::Commit)?;
    }
    Ok(())
}

/// A writeback of a fast commit.
pub(crate) fn fast_commit(
    alloc: Global,
    transaction: &[u8],
    tallies: &[(u8, u8)],
) -> Result<Vec<u8>, AllocError> {
    let mut out = Vec::from_slice(alloc, &[7])?;
    out.extend_from_slice(transaction)?;
    put_commit(&mut out, transaction, tallies)?;
    Ok(out)
}

/// A writeback of a fast abort of shard 0 with the votes of so many replicas.
pub(crate) fn fast_abort(
    alloc: Global,
    transaction: &[u8],
    count: u8,
) -> Result<Vec<u8>, AllocError> {
    let id = id_of(transaction);
    let mut out = Vec::from_slice(alloc, &[7])?;
    out.extend_from_slice(transaction)?;
    put_kind(&mut out, 3, &id)?;
    put_tally(&mut out, 0, count, &id, Decision::Abort)?;
    Ok(out)
}

/// A writeback of a conflict abort by replica 0 of shard 0, up to the certificate inside of it.
pub(crate) fn conflict_abort(
    alloc: Global,
    transaction: &[u8],
    other: &[u8],
) -> Result<Vec<u8>, AllocError> {
    let id = id_of(transaction);
    let mut out = Vec::from_slice(alloc, &[7])?;
    out.extend_from_slice(transaction)?;
    put_kind(&mut out, 4, &id)?;
    out.extend_from_slice(&[0, 0])?;
    let words = Words::vote(0, 0, &id, Decision::Abort);
    put_signature(&mut out, Party::Replica { shard: 0, index: 0 }, &words)?;
    out.extend_from_slice(other)?;
    Ok(out)
}

/// A logged abort of shard 0 with the log reply of replica 0, in view 0.
pub(crate) fn put_logged_abort(out: &mut Vec<u8>, transaction: &[u8]) -> Result<(), AllocError> {
    let id = id_of(transaction);
    put_kind(out, 2, &id)?;
    out.extend_from_slice(&[0, 1, 0, 0, 0, 0, 0, 0, 0, 0, 1, 0, 0, 0, 0, 0, 0, 0, 0, 0])?;
    let words = Words::log_reply(0, 0, &id, Decision::Abort, 0, 0);
    put_signature(out, Party::Replica { shard: 0, index: 0 }, &words)
}
