//! Which parties may be faulty.

use basil_types::cluster::Cluster;
use basil_types::party::Party;
use premise_watch::faulty::Faulty;
use std::test::Fail;

const R00: Party = Party::Replica { shard: 0, index: 0 };

const R01: Party = Party::Replica { shard: 0, index: 1 };

const R05: Party = Party::Replica { shard: 0, index: 5 };

const R10: Party = Party::Replica { shard: 1, index: 0 };

const R15: Party = Party::Replica { shard: 1, index: 5 };

const C1: Party = Party::Client { number: 1 };

const C5: Party = Party::Client { number: 5 };

const C16: Party = Party::Client { number: 16 };

/// A cluster's f, and parties in the order in which they are added, each with the answer.
type Row = (u8, &'static [(Party, bool)]);

const ROWS: &[Row] = &[
    // nobody twice, and no second replica of a shard
    (
        1,
        &[
            (R00, true),
            (R00, false),
            (R01, false),
            (R15, true),
            (R10, false),
            (R00, false),
        ],
    ),
    // no third one
    (
        2,
        &[
            (R05, true),
            (R00, true),
            (R01, false),
            (R10, true),
            (R15, true),
            (R05, false),
        ],
    ),
    // no replica at all, and every client once
    (
        0,
        &[
            (R00, false),
            (C1, true),
            (C16, true),
            (C1, false),
            (C5, true),
            (R10, false),
            (C16, false),
        ],
    ),
    // clients don't count as replicas
    (
        1,
        &[
            (C1, true),
            (C5, true),
            (R05, true),
            (C5, false),
            (R15, true),
            (C16, true),
        ],
    ),
];

/// Adds parties up to the first answer that differs. How many come before it.
fn added(faulty: &mut Faulty, cluster: &Cluster, parties: &[(Party, bool)]) -> usize {
    let mut place = 0usize;
    for (party, answer) in parties {
        let was_there = faulty.has(*party);
        if faulty.add(*party, cluster) != *answer || faulty.has(*party) != (was_there || *answer) {
            return place;
        }
        place = place.wrapping_add(1);
    }
    place
}

fn are_added(row: &Row) -> Result<bool, Fail> {
    let cluster = Cluster::new(row.0, 2, row.0.wrapping_add(1), 100)?;
    let mut faulty = Faulty::new();
    Ok(added(&mut faulty, &cluster, row.1) == row.1.len())
}

#[test]
fn at_most_f_replicas_of_a_shard_are_faulty(rt: HostRuntime) -> Result<(), Fail> {
    for row in ROWS {
        assert!(rt; are_added(row)?);
    }
    Ok(())
}

/// Adds the clients from 1 on, so many. How many are taken.
fn clients_taken(faulty: &mut Faulty, cluster: &Cluster) -> u8 {
    let mut count = 0u8;
    for number in 1..17u8 {
        if faulty.add(Party::Client { number }, cluster) {
            count = count.wrapping_add(1);
        }
    }
    count
}

#[test]
fn every_client_may_be_faulty(rt: HostRuntime) -> Result<(), Fail> {
    let cluster = Cluster::new(1, 1, 2, 100)?;
    let mut faulty = Faulty::new();
    assert!(rt; clients_taken(&mut faulty, &cluster) == 16);
    assert!(rt; clients_taken(&mut faulty, &cluster) == 0);
    Ok(())
}
