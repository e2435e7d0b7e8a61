//! The longest frames.

use crate::answers::encoded;
use basil_codec::lengths::{below_the_limit, longest_certificates, longest_transaction};
use basil_codec::signed::Signatures;
use basil_codec::wider::may_be_written;
use basil_codec::{
    Certificate, CertificateBody, Message, ShardVotes, VotePart, WritebackMessage, check,
    signatures,
};
use basil_types::bytes::{Bytes, id_of};
use basil_types::cluster::Cluster;
use basil_types::list::List;
use basil_types::transaction::Transaction;
use basil_types::transaction::parts::WritePart;
use std::alloc::Global;
use std::test::Fail;

/// Votes of all replicas of a shard with f = 6, whose signatures have so many bytes each.
fn full_votes(alloc: Global, size: usize) -> Result<List<VotePart>, Fail> {
    let mut votes = Vec::new(alloc);
    for replica in 0..31u8 {
        let signature = Bytes::from_vec(vec![in alloc; replica; size]?);
        votes.push(VotePart { replica, signature })?;
    }
    Ok(List::from_vec(votes))
}

/// The votes of eight shards.
fn full_tallies(alloc: Global, size: usize) -> Result<List<ShardVotes>, Fail> {
    let mut tallies = Vec::new(alloc);
    for shard in 0..8u8 {
        let votes = full_votes(alloc, size)?;
        tallies.push(ShardVotes { shard, votes })?;
    }
    Ok(List::from_vec(tallies))
}

/// How many signatures a frame has. None where it is refused.
fn signature_count(frame: &[u8], cluster: &Cluster) -> Option<usize> {
    match check(frame, cluster) {
        Ok(message) => Some(count(signatures(&message))),
        Err(_) => None,
    }
}

fn count(all: Signatures<'_>) -> usize {
    let mut count = 0usize;
    for _item in all {
        count = count.wrapping_add(1);
    }
    count
}

/// A transaction of 12 bytes, or with a write of so many bytes to a key of one.
fn transaction(alloc: Global, written: Option<usize>) -> Result<Transaction, Fail> {
    let mut writes = Vec::new(alloc);
    if let Some(size) = written {
        let key = Bytes::copy_of(alloc, b"a")?;
        let value = Bytes::from_vec(vec![in alloc; 7u8; size]?);
        writes.push(WritePart {
            key,
            value,
            deletes: false,
        })?;
    }
    Ok(Transaction::build(alloc, 10, 1, &[], &writes)?)
}

/// The writeback of a fast commit with votes of all replicas of eight shards with f = 6.
fn full_writeback(alloc: Global, size: usize, written: Option<usize>) -> Result<Message, Fail> {
    let transaction = transaction(alloc, written)?;
    let id = id_of(transaction.view().bytes());
    let tallies = full_tallies(alloc, size)?;
    let certificate = Certificate {
        id,
        body: CertificateBody::FastCommit { tallies },
    };
    Ok(Message::Writeback(WritebackMessage {
        transaction,
        certificate,
    }))
}

/// The length of a frame that is read, with all 248 signatures.
fn read_length(frame: &[u8], cluster: &Cluster) -> Result<usize, Fail> {
    match signature_count(frame, cluster) {
        Some(248) => Ok(frame.len()),
        _ => Err(Fail::from("isn't read so")),
    }
}

/// The length of such a writeback's frame. None where it is too long.
fn full_length(
    alloc: Global,
    cluster: &Cluster,
    size: usize,
    written: Option<usize>,
) -> Result<Option<usize>, Fail> {
    let message = full_writeback(alloc, size, written)?;
    match encoded(alloc, cluster, message)? {
        Some(frame) => Ok(Some(read_length(&frame, cluster)?)),
        None => Ok(None),
    }
}

/// The length of each signature, that of a value which the transaction writes, and the length of the frame, which has
/// at most 1,048,576 bytes.
const LENGTHS: &[(usize, Option<usize>, Option<usize>)] = &[
    // The longest commit certificate, of 622,778 bytes behind a kind and a transaction of 12 bytes.
    (2508, None, Some(622_791)),
    // The limit, and one byte more.
    (4224, Some(213), Some(1_048_576)),
    (4224, Some(214), None),
    // The longest signatures.
    (8192, None, None),
];

#[test]
fn frames_are_written_up_to_the_limit(rt: HostRuntime) -> Result<(), Fail> {
    may_be_written();
    below_the_limit();
    longest_transaction();
    longest_certificates();
    let cluster = Cluster::new(6, 8, 7, 100)?;
    for &(size, written, length) in LENGTHS {
        assert!(rt; full_length(rt.alloc(), &cluster, size, written)? == length);
    }
    Ok(())
}
