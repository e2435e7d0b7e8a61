//! What a good file gives.

use crate::clusters::support::{SMALL, WIDE, key, written};
use basil_types::cluster::Cluster;
use basil_types::party::Party;
use cluster_file::{ClusterFile, read_cluster};
use lms_sign::LmsSet;
use std::alloc::Global;
use std::test::Fail;

fn file_of(alloc: Global, text: &str) -> Result<ClusterFile, Fail> {
    let text = written(alloc, text)?;
    Ok(read_cluster(alloc, text.as_bytes())?)
}

fn numbers_of(cluster: &Cluster) -> (u8, u8, u8, u64) {
    (cluster.f, cluster.shards, cluster.reads, cluster.delta)
}

#[test]
fn a_file_gives_its_numbers(rt: HostRuntime) -> Result<(), Fail> {
    let small = file_of(rt.alloc(), SMALL)?;
    assert!(rt; numbers_of(&small.cluster) == (0, 1, 1, 1000));
    assert!(rt; small.set == LmsSet::W4H5);
    let wide = file_of(rt.alloc(), WIDE)?;
    assert!(rt; numbers_of(&wide.cluster) == (1, 1, 5, 18_446_744_073_709_551_615));
    assert!(rt; wide.set == LmsSet::W8H10);
    Ok(())
}

/// Whether these are the parties of a file in order, each with the key that begins with this byte.
fn has_publics(file: &ClusterFile, wanted: &[(Party, u8)]) -> bool {
    let publics = file.publics();
    if publics.len() != wanted.len() {
        return false;
    }
    for place in 0..wanted.len().min(publics.len()) {
        let (party, first) = wanted[place];
        if publics[place].0 != party || publics[place].1 != key(first) {
            return false;
        }
    }
    true
}

const OF_SMALL: &[(Party, u8)] = &[
    (Party::Replica { shard: 0, index: 0 }, 0xa0),
    (Party::Client { number: 1 }, 0xc1),
    (Party::Client { number: 16 }, 0xc2),
];

/// The replicas in the file's order, and then the clients in theirs, though they stand in front.
const OF_WIDE: &[(Party, u8)] = &[
    (Party::Replica { shard: 0, index: 3 }, 0xa3),
    (Party::Replica { shard: 0, index: 0 }, 0xa0),
    (Party::Replica { shard: 0, index: 5 }, 0xa5),
    (Party::Replica { shard: 0, index: 1 }, 0xa1),
    (Party::Replica { shard: 0, index: 4 }, 0xa4),
    (Party::Replica { shard: 0, index: 2 }, 0xa2),
    (Party::Client { number: 9 }, 0xc9),
    (Party::Client { number: 2 }, 0xc2),
];

#[test]
fn publics_stand_in_order(rt: HostRuntime) -> Result<(), Fail> {
    assert!(rt; has_publics(&file_of(rt.alloc(), SMALL)?, OF_SMALL));
    assert!(rt; has_publics(&file_of(rt.alloc(), WIDE)?, OF_WIDE));
    Ok(())
}

/// Where each party is.
const ADDRESSES: &[(Party, Option<&str>)] = &[
    (Party::Replica { shard: 0, index: 0 }, Some("host-0:7000")),
    (Party::Replica { shard: 0, index: 1 }, Some("host-1:7001")),
    (Party::Replica { shard: 0, index: 2 }, Some("host-2:7002")),
    (Party::Replica { shard: 0, index: 3 }, Some("host-3:7003")),
    (Party::Replica { shard: 0, index: 4 }, Some("")),
    (Party::Replica { shard: 0, index: 5 }, Some("host-5:7005")),
    (Party::Replica { shard: 0, index: 6 }, None),
    (Party::Replica { shard: 1, index: 0 }, None),
    (Party::Client { number: 2 }, None),
    (Party::Client { number: 9 }, None),
    (Party::Client { number: 1 }, None),
];

#[test]
fn replicas_have_their_addresses(rt: HostRuntime) -> Result<(), Fail> {
    let file = file_of(rt.alloc(), WIDE)?;
    for &(party, address) in ADDRESSES {
        assert!(rt; file.address(party) == address, "{party:?}");
    }
    Ok(())
}
