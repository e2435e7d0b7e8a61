//! Clusters: what is refused, and the sizes of quorums.

use basil_types::cluster::{Cluster, ClusterFault};
use std::test::Fail;

fn refusal(f: u8, shards: u8, reads: u8) -> Option<ClusterFault> {
    match Cluster::new(f, shards, reads, 100) {
        Ok(_cluster) => None,
        Err(fault) => Some(fault),
    }
}

/// Faulty replicas, shards and replies of a read, and what is refused.
const REFUSALS: &[(u8, u8, u8, Option<ClusterFault>)] = &[
    // The smallest cluster, and the largest.
    (0, 1, 1, None),
    (6, 8, 25, None),
    // f is above 6, and is named first, though shards and reads are out of range too.
    (7, 0, 0, Some(ClusterFault::FOutOfRange)),
    // There is no shard, which is named before reads, out of range too.
    (1, 0, 0, Some(ClusterFault::ShardsOutOfRange)),
    // shards is above 8.
    (1, 9, 2, Some(ClusterFault::ShardsOutOfRange)),
    // With f = 1 reads is 2 to 5.
    (1, 1, 1, Some(ClusterFault::ReadsOutOfRange)),
    (1, 1, 6, Some(ClusterFault::ReadsOutOfRange)),
    // With f = 0 reads is 1.
    (0, 1, 0, Some(ClusterFault::ReadsOutOfRange)),
];

#[test]
fn the_first_field_out_of_range_is_named(rt: HostRuntime) {
    for &(f, shards, reads, fault) in REFUSALS {
        assert!(rt;
            refusal(f, shards, reads) == fault,
            "f {f}, {shards} shards, {reads} reads"
        );
    }
}

/// Faulty replicas and replies of a read; then 5f+1, 5f+1, 3f+1, f+1, 3f+1, 4f+1 and 2f+1.
const SIZES: &[(u8, u8, [u8; 7])] = &[
    // One replica decides alone.
    (0, 1, [1, 1, 1, 1, 1, 1, 1]),
    // Six replicas, one of them faulty.
    (1, 5, [6, 6, 4, 2, 4, 5, 3]),
    // The most replicas that a shard has.
    (6, 25, [31, 31, 19, 7, 19, 25, 13]),
];

#[test]
fn clusters_have_their_sizes(rt: HostRuntime) -> Result<(), Fail> {
    for &(f, reads, sizes) in SIZES {
        let cluster = Cluster::new(f, 8, reads, 100)?;
        let found = [
            cluster.n(),
            cluster.fast_commit(),
            cluster.commit_tally(),
            cluster.abort_tally(),
            cluster.fast_abort(),
            cluster.log_quorum(),
            cluster.majority(),
        ];
        assert!(rt; found == sizes, "f {f}");
    }
    Ok(())
}
