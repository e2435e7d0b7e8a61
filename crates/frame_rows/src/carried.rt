//! The transactions that a frame carries, and its pairs of a transaction and a certificate.

use crate::writebacks::CONFLICT_ABORT;
use basil_codec::{MessageView, check, pairs, transactions};
use basil_types::cluster::Cluster;
use std::test::Fail;

/// The writeback's transaction, and the rival inside of its certificate: where each begins and ends.
const TRANSACTIONS: &[(usize, usize)] = &[(1, 19), (88, 144)];

/// Where the certificate of each begins. Both end with the frame.
const CERTIFICATES: [usize; 2] = [19, 144];

/// Whether these are the bytes of the frame's transaction at a place.
fn is_transaction(frame: &[u8], place: usize, bytes: &[u8]) -> bool {
    match TRANSACTIONS.get(place) {
        Some((from, to)) => frame.get(*from..*to) == Some(bytes),
        None => false,
    }
}

/// Whether these are the bytes of the frame's certificate at a place.
fn is_certificate(frame: &[u8], place: usize, bytes: &[u8]) -> bool {
    match CERTIFICATES.get(place) {
        Some(from) => frame.get(*from..) == Some(bytes),
        None => false,
    }
}

/// Whether both transactions are carried, and no more.
fn carries_transactions(frame: &[u8], message: &MessageView<'_>) -> bool {
    let mut place = 0usize;
    for transaction in transactions(message) {
        if !is_transaction(frame, place, transaction.bytes()) {
            return false;
        }
        place = place.wrapping_add(1);
    }
    place == 2
}

/// Whether both pairs are carried, and no more.
fn carries_pairs(frame: &[u8], message: &MessageView<'_>) -> bool {
    let mut place = 0usize;
    for pair in pairs(message) {
        if !is_transaction(frame, place, pair.transaction.bytes())
            || !is_certificate(frame, place, pair.certificate.bytes())
        {
            return false;
        }
        place = place.wrapping_add(1);
    }
    place == 2
}

/// Whether a frame is read, and carries both.
fn carries_both(frame: &[u8], cluster: &Cluster) -> bool {
    match check(frame, cluster) {
        Ok(message) => carries_transactions(frame, &message) && carries_pairs(frame, &message),
        Err(_) => false,
    }
}

#[test]
fn conflict_abort_carries_two_pairs(rt: HostRuntime) -> Result<(), Fail> {
    let cluster = Cluster::new(1, 1, 2, 100)?;
    let frame = hex::decode(rt.alloc(), CONFLICT_ABORT)?;
    assert!(rt; carries_both(&frame, &cluster));
    Ok(())
}
