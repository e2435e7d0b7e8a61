//! What a client sends by the frames that it took: the second stage, and what invokes the fallback.

use crate::pursuing::{Asked, are_answered};
use std::test::Fail;

/// The shards of the cluster, the frames, and the second stage with its voters, with f = 1: a commit wants four votes
/// of each shard, an abort two of one.
const SECONDS: &[(u8, &str, &str)] = &[
    // Three votes to commit, one too few.
    (1, "c05 c03 c01", ""),
    // Four votes to commit, told by their replicas, ascending.
    (1, "c05 c03 c01 c04", "commit 0:1345"),
    // One vote to abort, one too few.
    (1, "a05", ""),
    // Two votes to abort, told the same way.
    (1, "a05 a03", "abort 0:35"),
    // The lowest voters, where there are more.
    (1, "c05 c04 c03 c02 c01", "commit 0:1234"),
    (1, "a05 a03 a01", "abort 0:13"),
    // Three votes to commit and one to abort: one too few of each.
    (1, "c00 c01 c02 a03", ""),
    // Two votes to abort, with three to commit: it aborts.
    (1, "a00 a01 c02 c03 c04", "abort 0:01"),
    // A commit comes before an abort: with a fourth vote to commit it commits.
    (1, "a00 a01 c02 c03 c04 c05", "commit 0:2345"),
    // The first vote of a replica counts: replica 0 voted abort first, so three votes to commit count.
    (1, "a00 c00 c01 c02 c03", ""),
    // Replica 0 voted commit first, so one vote to abort counts.
    (1, "c00 a00 a01", ""),
    // A commit wants a tally of each involved shard: shard 1 has three votes to commit, one too few.
    (2, "c00 c01 c02 c03 c13 c14 c15", ""),
    // Both shards have one, and the lower stands first, whichever came first.
    (2, "c13 c14 c15 c12 c00 c01 c02 c03", "commit 0:0123 1:2345"),
    // An abort wants a tally of one shard, though the other has one to commit.
    (2, "c00 c01 c02 c03 a14 a12", "abort 1:24"),
    // Shard 0 has one vote to abort, one too few, so the tally is that of shard 1.
    (2, "a14 a12 a05", "abort 1:24"),
    // Both shards have one to abort, and the lower is told.
    (2, "a14 a12 a05 a03", "abort 0:35"),
    // What was taken back doesn't count: the fourth vote to commit.
    (1, "c05 c03 c01 c04 u", ""),
    // Another vote comes in its place.
    (1, "c05 c03 c01 c04 u c02", "commit 0:1235"),
];

#[test]
fn second_stages_name_the_lowest_voters(rt: HostRuntime) -> Result<(), Fail> {
    are_answered(&rt, rt.alloc(), SECONDS, Asked::Second)
}

/// The shards of the cluster, the frames, and the invoke: the log shard, and the log reply of each replica.
const INVOKES: &[(u8, &str, &str)] = &[
    // Votes invoke nothing.
    (1, "c00 c01", ""),
    // One log reply is enough: that of replica 2, which logged commit, decided in view 0, with view 0 current.
    (1, "C0200", "0: 2@0 commit 0"),
    // With two shards the log shard is 0: replica 1 logged abort, decided in view 1, with view 3 current.
    (2, "A0113", "0: 1@3 abort 1"),
    // By their replicas, ascending.
    (
        1,
        "C0400 A0102 C0213",
        "0: 1@2 abort 0 2@3 commit 1 4@0 commit 0",
    ),
    // Of several of one replica the one with the greatest current view.
    (1, "C0203 C0205 C0204", "0: 2@5 commit 0"),
    // Among equals the earliest, whatever it decided.
    (1, "C0213 A0203", "0: 2@3 commit 1"),
    (1, "A0203 C0213", "0: 2@3 abort 0"),
    // The same of two replicas: replica 2 has two equals, and replica 3 the greatest first.
    (
        1,
        "A0325 C0200 C0314 C0312 A0200",
        "0: 2@0 commit 0 3@5 abort 2",
    ),
    // Nothing is taken after an outcome.
    (1, "C0203 w C0205 C0300", "0: 2@3 commit 0"),
    // What was taken back isn't held.
    (1, "C0203 u", ""),
    // What it replaced is held again.
    (1, "C0203 C0205 u", "0: 2@3 commit 0"),
    // What it didn't replace is still held.
    (1, "C0205 C0203 u", "0: 2@5 commit 0"),
    // So is that of another replica.
    (1, "C0203 C0305 u", "0: 2@3 commit 0"),
];

#[test]
fn invokes_have_the_latest_log_replies(rt: HostRuntime) -> Result<(), Fail> {
    are_answered(&rt, rt.alloc(), INVOKES, Asked::Invoke)
}
