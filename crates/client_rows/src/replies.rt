//! Which read replies a client takes, over plain keys.

use crate::reply_vectors::{
    CERTIFIED, COMMITTED, EARLIER_CLIENT, ELSEWHERE, NOTHING, OWN_TIME, PREPARED, TIMELESS,
    UNPROVEN, UNWRITTEN,
};
use basil_types::cluster::Cluster;
use basil_types::version::Version;
use certificates::CertRefusal;
use client_reads::{FrameFault, ReplyVersions, check_reply, versions_of};
use frame_views::frames::{MessageView, check};
use hex::FromHex;
use keyring::plain::PlainKeys;
use std::alloc::Global;
use std::process::Abort;
use std::test::Fail;

type Answer = Result<(), FrameFault>;

/// What `check_reply` answers on a frame. None where the frame is no read reply of the cluster.
fn judge(frame: &[u8], cluster: &Cluster, key: &[u8], time: u64, client: u8) -> Option<Answer> {
    let keys = PlainKeys::new(cluster);
    match check(frame, cluster) {
        Ok(MessageView::ReadReply(reply)) => {
            Some(check_reply(&keys, cluster, key, time, client, &reply))
        }
        _ => None,
    }
}

/// The versions of a frame. None where it is no read reply of the cluster.
fn versions(frame: &[u8], cluster: &Cluster) -> Option<ReplyVersions> {
    match check(frame, cluster) {
        Ok(MessageView::ReadReply(reply)) => Some(versions_of(&reply)),
        _ => None,
    }
}

/// The f and the shards of a cluster, and how many replies a read waits for.
type Of = (u8, u8, u8);

const ONE_SHARD: Of = (0, 1, 1);

const TWO_SHARDS: Of = (0, 2, 1);

const TWELVE_REPLICAS: Of = (1, 2, 2);

/// A key, a time and a client.
type Read = (&'static [u8], u64, u8);

const READ: Read = (b"a", 20, 2);

/// A frame, the cluster, the read, and what is answered.
type Row = (&'static str, Of, Read, Answer);

const MINE: Answer = Ok(());

const NOT_MINE: Answer = Err(FrameFault::NotMine);

const BAD_VERSION: Answer = Err(FrameFault::BadVersion);

const UNSIGNED: Answer = Err(FrameFault::BadSignature);

/// Whether a row's answer is given.
fn is_answered(alloc: Global, row: &Row) -> Result<bool, Fail> {
    let &(frame, (f, shards, reads), (key, time, client), answer) = row;
    let cluster = Cluster::new(f, shards, reads, 100)?;
    let bytes = hex::decode(alloc, frame)?;
    Ok(judge(&bytes, &cluster, key, time, client) == Some(answer))
}

/// Each row's answer is given.
fn are_answered(rt: &impl Abort, alloc: Global, rows: &[Row]) -> Result<(), Fail> {
    for (place, row) in rows.iter().enumerate() {
        assert!(rt; is_answered(alloc, row)?, "row {place}");
    }
    Ok(())
}

const TAKEN: &[Row] = &[
    // Nothing is found.
    (NOTHING, ONE_SHARD, (b"a", 30, 2), MINE),
    // A transaction is prepared, of two shards.
    (PREPARED, TWO_SHARDS, READ, MINE),
    // A transaction is committed, by six votes of each of two shards.
    (CERTIFIED, TWELVE_REPLICAS, READ, MINE),
    // A transaction is committed, by one vote.
    (COMMITTED, ONE_SHARD, READ, MINE),
    // A transaction of the read's time and an earlier client is prepared.
    (EARLIER_CLIENT, ONE_SHARD, READ, MINE),
];

#[test]
fn replies_of_another_program_are_taken(rt: HostRuntime) -> Result<(), Fail> {
    are_answered(&rt, rt.alloc(), TAKEN)
}

const OTHERS: &[Row] = &[
    // The read is of another key.
    (COMMITTED, ONE_SHARD, (b"b", 20, 2), NOT_MINE),
    // It is of another time.
    (COMMITTED, ONE_SHARD, (b"a", 21, 2), NOT_MINE),
    // It is of another client.
    (COMMITTED, ONE_SHARD, (b"a", 20, 3), NOT_MINE),
    // In a cluster of two shards a is of shard 1, and this reply of shard 0.
    (COMMITTED, TWO_SHARDS, READ, NOT_MINE),
];

#[test]
fn replies_to_other_reads_are_not_mine(rt: HostRuntime) -> Result<(), Fail> {
    are_answered(&rt, rt.alloc(), OTHERS)
}

const UNSEEN: &[Row] = &[
    // What is committed doesn't write the key.
    (ELSEWHERE, ONE_SHARD, READ, BAD_VERSION),
    // What is prepared doesn't write the key.
    (UNWRITTEN, ONE_SHARD, READ, BAD_VERSION),
    // What is prepared is of the read's own time and client.
    (OWN_TIME, ONE_SHARD, READ, BAD_VERSION),
    // What is prepared is of time 0.
    (TIMELESS, ONE_SHARD, READ, BAD_VERSION),
];

#[test]
fn a_read_sees_earlier_writes_of_its_key(rt: HostRuntime) -> Result<(), Fail> {
    are_answered(&rt, rt.alloc(), UNSEEN)
}

const FIRST: Answer = Err(FrameFault::BadCertificate(CertRefusal::BadSignature(0)));

const LAST: Answer = Err(FrameFault::BadCertificate(CertRefusal::BadSignature(11)));

const FEW: Answer = Err(FrameFault::BadCertificate(CertRefusal::Few {
    count: 0,
    needed: 1,
}));

/// A place in CERTIFIED, one bit of whose byte is turned, the key that is read, and the answer.
type Spoiled = (usize, &'static [u8], Answer);

const SPOILED: &[Spoiled] = &[
    // In the first vote's signature.
    (79, b"a", FIRST),
    // In the last vote's.
    (466, b"a", LAST),
    // In the reply's own.
    (532, b"a", UNSIGNED),
    // The key c is of the same shard, and another key comes before the signature.
    (532, b"c", NOT_MINE),
];

/// Whether a row's answer is given.
fn is_spoiled(alloc: Global, row: &Spoiled) -> Result<bool, Fail> {
    let &(place, key, answer) = row;
    let cluster = Cluster::new(1, 2, 2, 100)?;
    let mut frame = hex::decode(alloc, CERTIFIED)?;
    if let Some(byte) = frame.get_mut(place) {
        *byte ^= 1;
    }
    Ok(judge(&frame, &cluster, key, 20, 2) == Some(answer))
}

/// No vote is in the certificate.
const NO_VOTE: Row = (UNPROVEN, ONE_SHARD, READ, FEW);

#[test]
fn signatures_and_certificates_are_tested(rt: HostRuntime) -> Result<(), Fail> {
    for (place, row) in SPOILED.iter().enumerate() {
        assert!(rt; is_spoiled(rt.alloc(), row)?, "row {place}");
    }
    assert!(rt; is_answered(rt.alloc(), &NO_VOTE)?);
    Ok(())
}

/// The id of the transaction that is prepared.
const PREPARED_ID: &str = "d6bd8f1af9e1e734f81856188a5e33fbdfb31705ceafd9abb3472b2f0430fd4e";

/// Whether a frame's versions are genesis, which is committed, and this one, which is prepared.
fn is_prepared(frame: &[u8], wanted: Version) -> Result<bool, Fail> {
    let cluster = Cluster::new(0, 2, 1, 100)?;
    Ok(match versions(frame, &cluster) {
        Some(told) => told.committed == Version::genesis() && told.prepared == wanted,
        None => false,
    })
}

/// Whether those of PREPARED are so.
fn are_told(alloc: Global) -> Result<bool, Fail> {
    let wanted = Version {
        time: 10,
        client: 1,
        id: <[u8; 32] as FromHex>::from_hex(PREPARED_ID)?,
    };
    let frame = hex::decode(alloc, PREPARED)?;
    is_prepared(&frame, wanted)
}

#[test]
fn versions_are_those_of_the_transactions(rt: HostRuntime) -> Result<(), Fail> {
    assert!(rt; are_told(rt.alloc())?);
    Ok(())
}
