//! What a transaction is about: its form, its version, the shards of its keys, where it is logged, what it conflicts
//! with.

use basil_types::cluster::Cluster;
use basil_types::transaction::TransactionView;
use basil_types::version::Version;
use std::test::Fail;
use txn_meta::conflicts::{conflict, conflict_in, writes_key};
use txn_meta::form::{FormFault, check_form, has_good_form, version_of};
use txn_meta::places::{leader_of, log_shard};
use txn_meta::shards::{involved, is_involved, shard_of};

// Time 10, client 1, no reads, one write of x1 to a.
const WRITES: [u8; 18] = [
    1, 0, 0, 0, 0, 0, 0, 0, 10, 1, 0, 1, 1, 0x61, 0, 2, 0x78, 0x31,
];

// SHA-256 of these bytes, by sha256sum.
const ID: [u8; 32] = [
    0x2c, 0x05, 0xd5, 0x59, 0x55, 0xa6, 0x7c, 0x7b, 0x2d, 0x55, 0x2c, 0x41, 0xc1, 0x83, 0xb8, 0x43,
    0x3d, 0x6f, 0x2a, 0xea, 0x37, 0x09, 0x64, 0x2b, 0xef, 0x3b, 0x72, 0x98, 0xbb, 0xcf, 0x71, 0x58,
];

// Time 10, client 1, a read of b at time 11 by client 2 with an id of zeros, and one write of x1 to a.
const READS: [u8; 62] = [
    1, 0, 0, 0, 0, 0, 0, 0, 10, 1, 1, 1, 0x62, 0, 0, 0, 0, 0, 0, 0, 11, 2, 0, 0, 0, 0, 0, 0, 0, 0,
    0, 0, 0, 0, 0, 0, 0, 0, 0, 0, 0, 0, 0, 0, 0, 0, 0, 0, 0, 0, 0, 0, 0, 0, 0, 1, 1, 0x61, 0, 2,
    0x78, 0x31,
];

// Time 0, client 1, no reads, one write of x1 to a.
const TIMELESS: [u8; 18] = [
    1, 0, 0, 0, 0, 0, 0, 0, 0, 1, 0, 1, 1, 0x61, 0, 2, 0x78, 0x31,
];

// Time 10, client 1, no reads, no writes.
const EMPTY: [u8; 12] = [1, 0, 0, 0, 0, 0, 0, 0, 10, 1, 0, 0];

fn form_of(bytes: &[u8]) -> Result<Result<(), FormFault>, Fail> {
    Ok(check_form(TransactionView::read(bytes, 0)?))
}

/// Transactions, and what their form lacks.
const FORMS: &[(&[u8], Result<(), FormFault>)] = &[
    // One write is enough.
    (&WRITES, Ok(())),
    // The first read is of time 11, and the transaction of time 10.
    (&READS, Err(FormFault::ReadNotBelow(0))),
    // No transaction is of time 0.
    (&TIMELESS, Err(FormFault::ZeroTime)),
    // Neither a read nor a write.
    (&EMPTY, Err(FormFault::Empty)),
];

#[test]
fn forms_are_told_apart(rt: HostRuntime) -> Result<(), Fail> {
    for &(bytes, form) in FORMS {
        assert!(rt; form_of(bytes)? == form);
        assert!(rt; has_good_form(TransactionView::read(bytes, 0)?) == form.is_ok());
    }
    Ok(())
}

#[test]
fn a_version_has_the_digest(rt: HostRuntime) -> Result<(), Fail> {
    let version = version_of(TransactionView::read(&WRITES, 0)?);
    let wanted = Version {
        time: 10,
        client: 1,
        id: ID,
    };
    assert!(rt; version == wanted);
    Ok(())
}

/// Keys and their shards of three: 97 + 98 is 195, and 97, 98 and 195 modulo 3 are 1, 2 and 0.
const SHARDS: &[(&[u8], u8)] = &[(b"a", 1), (b"b", 2), (b"ab", 0)];

#[test]
fn shards_are_those_of_the_keys(rt: HostRuntime) -> Result<(), Fail> {
    let cluster = Cluster::new(0, 3, 1, 100)?;
    for &(key, shard) in SHARDS {
        assert!(rt; shard_of(key, &cluster) == shard, "shard {shard}");
    }
    Ok(())
}

#[test]
fn both_lists_involve_shards(rt: HostRuntime) -> Result<(), Fail> {
    let cluster = Cluster::new(0, 3, 1, 100)?;
    let t = TransactionView::read(&READS, 0)?;
    let shards = involved(t, &cluster);
    for (shard, wanted) in [(0, false), (1, true), (2, true), (8, false)] {
        assert!(rt; shards.has(shard) == wanted, "shard {shard}");
        assert!(rt; is_involved(t, &cluster, shard) == wanted, "shard {shard}");
    }
    for (place, wanted) in [(0, Some(1)), (1, Some(2)), (2, None)] {
        assert!(rt; shards.nth(place) == wanted, "place {place}");
    }
    Ok(())
}

// Writes of x1 to a and y1 to b, at no time yet.
const BOTH: [u8; 24] = [
    1, 0, 0, 0, 0, 0, 0, 0, 0, 1, 0, 2, 1, 0x61, 0, 2, 0x78, 0x31, 1, 0x62, 0, 2, 0x79, 0x31,
];

fn log_shard_at(time: u64, cluster: &Cluster) -> Result<u8, Fail> {
    let mut bytes = BOTH;
    bytes[1..9].copy_from_slice(&time.to_be_bytes());
    let t = TransactionView::read(&bytes, 0)?;
    check_form(t)?;
    Ok(log_shard(t, cluster))
}

/// Shards, times and log shards: of 3 shards 1 and 2 are involved, and of 1 shard the only one.
const LOG_SHARDS: &[(u8, u64, u8)] = &[
    // The log shard is the lower of the two at an even time, and the higher at an odd one.
    (3, 1, 2),
    (3, 2, 1),
    (3, 10, 1),
    (3, 11, 2),
    // So it is at the greatest times.
    (3, u64::MAX - 1, 1),
    (3, u64::MAX, 2),
    // Of one shard it is that one at every time.
    (1, u64::MAX, 0),
];

#[test]
fn log_shards_go_round_the_involved_ones(rt: HostRuntime) -> Result<(), Fail> {
    for &(shards, time, shard) in LOG_SHARDS {
        let cluster = Cluster::new(0, shards, 1, 100)?;
        assert!(rt;
            log_shard_at(time, &cluster)? == shard,
            "{shards} shards, time {time}"
        );
    }
    Ok(())
}

/// Faulty replicas, times, views and leaders.
const LEADERS: &[(u8, u64, u64, u8)] = &[
    // The only replica leads every view.
    (0, 10, 5, 0),
    (0, u64::MAX, u64::MAX, 0),
    // The leader is the sum of time and view modulo the number of replicas, six.
    (1, 0, 0, 0),
    (1, 13, 1, 2),
    (1, 10, 5, 3),
    // The sum doesn't overflow: 2^64 - 1 is 3 modulo 6.
    (1, u64::MAX, 0, 3),
    (1, 0, u64::MAX, 3),
    (1, u64::MAX, 1, 4),
    (1, u64::MAX, u64::MAX, 0),
    // The same of 31 replicas: 2^64 - 1 is 15 modulo 31.
    (6, 10, 5, 15),
    (6, u64::MAX, 1, 16),
    (6, u64::MAX, u64::MAX, 30),
];

#[test]
fn leaders_go_round_the_replicas(rt: HostRuntime) -> Result<(), Fail> {
    for &(f, time, view, leader) in LEADERS {
        let cluster = Cluster::new(f, 1, f.saturating_add(1), 100)?;
        assert!(rt;
            leader_of(time, view, &cluster) == leader,
            "f {f}, time {time}, view {view}"
        );
    }
    Ok(())
}

// Time 30, client 2, a read of a at the version of WRITES, no writes.
const READER: [u8; 56] = [
    1, 0, 0, 0, 0, 0, 0, 0, 30, 2, 1, 1, 0x61, 0, 0, 0, 0, 0, 0, 0, 10, 1, 0x2c, 0x05, 0xd5, 0x59,
    0x55, 0xa6, 0x7c, 0x7b, 0x2d, 0x55, 0x2c, 0x41, 0xc1, 0x83, 0xb8, 0x43, 0x3d, 0x6f, 0x2a, 0xea,
    0x37, 0x09, 0x64, 0x2b, 0xef, 0x3b, 0x72, 0x98, 0xbb, 0xcf, 0x71, 0x58, 0, 0,
];

// Time 20, client 1, no reads, a deletion of a.
const DELETES: [u8; 15] = [2, 0, 0, 0, 0, 0, 0, 0, 20, 1, 0, 1, 1, 0x61, 0];

fn writer_at(time: u64, client: u8, key: u8) -> [u8; 18] {
    let mut bytes = WRITES;
    bytes[1..9].copy_from_slice(&time.to_be_bytes());
    bytes[9] = client;
    bytes[13] = key;
    bytes
}

/// Times, clients and keys of writers, and whether they conflict with the reader, which is of time 30 and client 2 and
/// has read a of time 10 and client 1.
const WRITERS: &[(u64, u8, u8, bool)] = &[
    // The writer whose version was read.
    (10, 1, b'a', false),
    // One before that: its time is lower, though its client is higher.
    (9, 16, b'a', false),
    // Between the version that was read and the reader: by a higher client at its time, and later.
    (10, 2, b'a', true),
    (20, 1, b'a', true),
    // Between them, of another key.
    (20, 1, b'b', false),
    // Between them, by a lower client at the reader's time.
    (30, 1, b'a', true),
    // Behind the reader, by a higher client at its time, or later.
    (30, 3, b'a', false),
    (31, 1, b'a', false),
];

#[test]
fn conflicts_are_strictly_between(rt: HostRuntime) -> Result<(), Fail> {
    let cluster = Cluster::new(0, 2, 1, 100)?;
    let reader = TransactionView::read(&READER, 0)?;
    for &(time, client, key, wanted) in WRITERS {
        let bytes = writer_at(time, client, key);
        let writer = TransactionView::read(&bytes, 0)?;
        assert!(rt;
            conflict(writer, reader) == wanted,
            "time {time}, client {client}"
        );
        // The key a is of shard 1 of two.
        assert!(rt;
            conflict_in(writer, reader, &cluster, 1) == wanted,
            "time {time}, client {client}"
        );
        assert!(rt;
            !conflict_in(writer, reader, &cluster, 0),
            "time {time}, client {client}"
        );
    }
    Ok(())
}

/// Transactions, whether each conflicts with the reader, and whether it writes a.
const BESIDE_THE_READER: &[(&[u8], bool, bool)] = &[
    // The reader itself, which writes nothing.
    (&READER, false, false),
    // A deletion of a between the version that was read and the reader.
    (&DELETES, true, true),
];

#[test]
fn deletions_conflict_as_writes_do(rt: HostRuntime) -> Result<(), Fail> {
    let reader = TransactionView::read(&READER, 0)?;
    for &(bytes, conflicts, writes) in BESIDE_THE_READER {
        let other = TransactionView::read(bytes, 0)?;
        assert!(rt; conflict(other, reader) == conflicts);
        assert!(rt; conflict(reader, other) == conflicts);
        assert!(rt; writes_key(other, b"a") == writes);
        assert!(rt; !writes_key(other, b"b"));
    }
    Ok(())
}
