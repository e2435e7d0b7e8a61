//! The votes of a shard, and what they amount to.

use basil_types::cluster::Cluster;
use basil_types::party::Decision;
use std::test::Fail;
use vote_tally::classes::Class;
use vote_tally::tally::Tally;

/// What these commits, by the lowest replicas, and these aborts, by the next ones, amount to.
fn class_of(f: u8, commits: u8, aborts: u8, proof: bool) -> Result<Class, Fail> {
    let cluster = Cluster::new(f, 1, f.saturating_add(1), 100)?;
    let mut tally = Tally::new(&cluster);
    for replica in 0..cluster.n() {
        if replica < commits {
            let _ = tally.add(replica, Decision::Commit, false);
        } else if replica - commits < aborts {
            let _ = tally.add(replica, Decision::Abort, proof);
        }
    }
    Ok(tally.class())
}

/// Faulty replicas, commits, aborts, whether the aborts have a proof, and what this amounts to.
const CLASSES: &[(u8, u8, u8, bool, Class)] = &[
    // All six commit: a fast commit.
    (1, 6, 0, false, Class::FastCommit),
    // Exactly enough for both tallies: four commits and two aborts.
    (1, 4, 2, false, Class::Both),
    // Four commits, exactly enough for a commit tally.
    (1, 4, 0, false, Class::CommitTally),
    // Two aborts, exactly enough for an abort tally.
    (1, 0, 2, false, Class::AbortTally),
    // Four aborts are a fast abort, which comes before their proof.
    (1, 2, 4, true, Class::FastAbort),
    // One abort with a proof is enough, though five commits would be a commit tally.
    (1, 5, 1, true, Class::ConflictAbort),
    // Three commits and one abort: each one too few for a tally.
    (1, 3, 1, false, Class::Open),
    // No vote, where one is enough: open.
    (0, 0, 0, false, Class::Open),
    // The only replica commits: a fast commit.
    (0, 1, 0, false, Class::FastCommit),
    // The only replica aborts: a fast abort.
    (0, 0, 1, false, Class::FastAbort),
    // With the greatest f all 31 commit: a fast commit.
    (6, 31, 0, false, Class::FastCommit),
    // With the greatest f 30 commits are one too few for a fast commit.
    (6, 30, 0, false, Class::CommitTally),
    // With the greatest f 19 commits and 7 aborts are exactly enough for both tallies.
    (6, 19, 7, false, Class::Both),
    // With the greatest f 18 commits are one too few for a commit tally; 7 aborts are enough.
    (6, 18, 7, false, Class::AbortTally),
    // With the greatest f 19 aborts are exactly enough for a fast abort.
    (6, 12, 19, false, Class::FastAbort),
    // With the greatest f 18 aborts are one too few for a fast abort.
    (6, 12, 18, false, Class::AbortTally),
    // With the greatest f 18 commits and 6 aborts are each one too few for a tally.
    (6, 18, 6, false, Class::Open),
];

#[test]
fn classes_are_told_apart(rt: HostRuntime) -> Result<(), Fail> {
    for &(f, commits, aborts, proof, class) in CLASSES {
        assert!(rt;
            class_of(f, commits, aborts, proof)? == class,
            "f {f}, {commits} commits, {aborts} aborts"
        );
    }
    Ok(())
}

#[test]
fn the_first_vote_of_a_replica_counts(rt: HostRuntime) -> Result<(), Fail> {
    let cluster = Cluster::new(0, 1, 1, 100)?;
    let mut tally = Tally::new(&cluster);
    assert!(rt; tally.add(0, Decision::Commit, true));
    assert!(rt; !tally.add(0, Decision::Abort, true));
    assert!(rt; tally.class() == Class::FastCommit);
    assert!(rt; tally.votes().len() == 1);
    assert!(rt; tally.votes()[0].vote == Decision::Commit);
    Ok(())
}

#[test]
fn a_number_that_is_no_replica_is_not_counted(rt: HostRuntime) -> Result<(), Fail> {
    let cluster = Cluster::new(1, 1, 2, 100)?;
    let mut tally = Tally::new(&cluster);
    for number in [6, 7, 30, 31, 255] {
        assert!(rt;
            !tally.add(number, Decision::Abort, true),
            "number {number}"
        );
    }
    assert!(rt; tally.votes().is_empty());
    assert!(rt; tally.class() == Class::Open);
    assert!(rt; tally.add(5, Decision::Commit, false));
    assert!(rt; tally.votes().len() == 1);
    Ok(())
}
