//! Which version a client reads.

use basil_types::cluster::Cluster;
use basil_types::version::Version;
use client_reads::{Choice, ReplyVersions, choose};
use std::test::Fail;

/// The version of a time: client 1's of 3, client 2's of 5, and otherwise genesis.
fn version_at(time: u64) -> Version {
    match time {
        3 => Version {
            time,
            client: 1,
            id: [7; 32],
        },
        5 => Version {
            time,
            client: 2,
            id: [1; 32],
        },
        _ => Version::genesis(),
    }
}

/// The times of the versions that two replies carry, of the committed ones and of the prepared ones; that of the
/// version that is chosen with f = 1, and whether it is a dependency. Genesis has the time 0.
type Row = ([u64; 2], [u64; 2], u64, bool);

const CHOSEN: &[Row] = &[
    // Both prepared it: a dependency.
    ([0, 0], [5, 5], 5, true),
    // One prepared the greater, which doesn't count; the other one's committed version does.
    ([0, 3], [5, 0], 3, false),
    // Neither has any: none.
    ([0, 0], [0, 0], 0, false),
    // Both prepared what one has committed: no dependency.
    ([0, 5], [5, 5], 5, false),
    // One prepared it, which doesn't count: none.
    ([0, 0], [5, 0], 0, false),
    // Both prepared a greater one than one has committed: a dependency.
    ([3, 0], [5, 5], 5, true),
    // One has committed a greater one than both prepared: no dependency.
    ([5, 0], [3, 3], 5, false),
    // Each prepared another, and neither counts: none.
    ([0, 0], [5, 3], 0, false),
];

/// Whether the version of a row is chosen.
fn is_chosen(cluster: &Cluster, row: &Row) -> bool {
    let &(committed, prepared, version, dependency) = row;
    let replies = [
        ReplyVersions {
            committed: version_at(committed[0]),
            prepared: version_at(prepared[0]),
        },
        ReplyVersions {
            committed: version_at(committed[1]),
            prepared: version_at(prepared[1]),
        },
    ];
    choose(cluster, &replies)
        == Choice {
            version: version_at(version),
            dependency,
        }
}

#[test]
fn the_greatest_that_counts_is_chosen(rt: HostRuntime) -> Result<(), Fail> {
    let cluster = Cluster::new(1, 1, 2, 100)?;
    for (place, row) in CHOSEN.iter().enumerate() {
        assert!(rt; is_chosen(&cluster, row), "row {place}");
    }
    assert!(rt; choose(&cluster, &[]).version == Version::genesis());
    Ok(())
}
