//! When a client decides, by which of the five rules, and whom it tells.

use crate::stages::{Scene, plays};
use std::test::Fail;

/// Client 1 in a cluster of one shard with f = 1: a fast commit wants six votes of each shard, a fast abort four of
/// one, and a logged decision five log replies.
const ONE: Scene = Scene {
    f: 1,
    shards: 1,
    reads: 2,
    leaf: 0,
    cast: &["A 10 1 +a"],
    steps: &[],
};

/// The same with two shards: a, c and e are in shard 1, b and d in shard 0.
const TWO: Scene = Scene {
    shards: 2,
    cast: &["B 20 1 +a +b"],
    ..ONE
};

/// A certificate that comes decides, whatever it is.
const TOLD_FAST: Scene = Scene {
    steps: &[
        ("begin 10", "slot 0"),
        ("write 0 a x1", ""),
        ("prepare 0", "st1 A #0 to 0:012345"),
        ("vote 0:0 A abort", ""),
        ("outcome 0", "none"),
        (
            "writeback A fast 0:012345",
            "writeback A fast 0:012345 to 0:012345",
        ),
        ("outcome 0", "commit fast 0:012345"),
        ("held 0", "1"),
    ],
    ..ONE
};

const TOLD_ABORT: Scene = Scene {
    steps: &[
        ("begin 10", "slot 0"),
        ("write 0 a x1", ""),
        ("prepare 0", "st1 A #0 to 0:012345"),
        (
            "writeback A abort 0:01234",
            "writeback A abort 0:01234 to 0:012345",
        ),
        ("outcome 0", "abort abort 0:01234"),
    ],
    ..ONE
};

const TOLD_LOGGED: Scene = Scene {
    steps: &[
        ("begin 10", "slot 0"),
        ("write 0 a x1", ""),
        ("prepare 0", "st1 A #0 to 0:012345"),
        (
            "writeback A logged abort 3 0:012345",
            "writeback A logged abort 3 0:012345 to 0:012345",
        ),
        ("outcome 0", "abort logged abort 3 0:012345"),
    ],
    ..ONE
};

const TOLD_CONFLICT: Scene = Scene {
    cast: &["A 10 1 +a", "R 30 2 a=-"],
    steps: &[
        ("begin 10", "slot 0"),
        ("write 0 a x1", ""),
        ("prepare 0", "st1 A #0 to 0:012345"),
        (
            "writeback A conflict 0:4 R logged commit 1 0:01235",
            "writeback A conflict 0:4 R logged commit 1 0:01235 to 0:012345",
        ),
        ("outcome 0", "abort conflict 0:4 R"),
        ("held 0", "0"),
    ],
    ..ONE
};

const CERTIFICATES: &[Scene] = &[TOLD_FAST, TOLD_ABORT, TOLD_LOGGED, TOLD_CONFLICT];

#[test]
fn a_certificate_decides(rt: HostRuntime) -> Result<(), Fail> {
    plays(&rt, rt.alloc(), 1, CERTIFICATES)
}

/// Every replica of each involved shard commits.
const FAST_COMMIT: Scene = Scene {
    steps: &[
        ("begin 20", "slot 0"),
        ("write 0 a x1", ""),
        ("write 0 b x1", ""),
        ("prepare 0", "st1 B #0 to 0:012345 1:012345"),
        ("vote 1:543210 B commit", ""),
        ("vote 0:54321 B commit", ""),
        ("outcome 0", "none"),
        ("held 0", "11"),
        // The first vote of a replica counts.
        ("vote 0:5 B commit", "same"),
        (
            "vote 0:0 B commit",
            "writeback B fast 0:012345 1:012345 to 0:012345 1:012345",
        ),
        ("outcome 0", "commit fast 0:012345 1:012345"),
        ("held 0", "12"),
    ],
    ..TWO
};

/// 3f + 1 replicas of one shard abort, whatever the other shard votes.
const FAST_ABORT: Scene = Scene {
    steps: &[
        ("begin 20", "slot 0"),
        ("write 0 a x1", ""),
        ("write 0 b x1", ""),
        ("prepare 0", "st1 B #0 to 0:012345 1:012345"),
        ("vote 0:012345 B commit", ""),
        ("vote 1:5 B abort", ""),
        ("vote 1:0 B commit", ""),
        ("vote 1:31 B abort", ""),
        // Replica 0 voted before.
        ("vote 1:0 B abort", "same"),
        ("outcome 0", "none"),
        (
            "vote 1:2 B abort",
            "writeback B abort 1:1235 to 0:012345 1:012345",
        ),
        ("outcome 0", "abort abort 1:1235"),
    ],
    ..TWO
};

/// The first shard with so many aborts.
const ONE_SHARD_ABORTS: Scene = Scene {
    steps: &[
        ("begin 20", "slot 0"),
        ("write 0 a x1", ""),
        ("write 0 b x1", ""),
        ("prepare 0", "st1 B #0 to 0:012345 1:012345"),
        ("vote 1:012 B abort", ""),
        ("vote 0:012 B abort", ""),
        (
            "vote 0:4 B abort",
            "writeback B abort 0:0124 to 0:012345 1:012345",
        ),
        ("vote 1:4 B abort", "same"),
    ],
    ..TWO
};

/// One vote to abort with a committed rival.
const CONFLICT: Scene = Scene {
    cast: &["B 20 1 +a +b", "R 30 2 b=-"],
    steps: &[
        ("begin 20", "slot 0"),
        ("write 0 a x1", ""),
        ("write 0 b x1", ""),
        ("prepare 0", "st1 B #0 to 0:012345 1:012345"),
        ("vote 0:01 B commit", ""),
        ("vote 0:5 B abort", ""),
        (
            "vote 0:3 B abort by R fast 0:012345",
            "writeback B conflict 0:3 R fast 0:012345 to 0:012345 1:012345",
        ),
        ("outcome 0", "abort conflict 0:3 R"),
        ("held 0", "4"),
    ],
    ..TWO
};

/// A second vote's proof doesn't count.
const SECOND_PROOF: Scene = Scene {
    cast: &["A 10 1 +a", "R 30 2 a=-", "S 31 2 a=-"],
    steps: &[
        ("begin 10", "slot 0"),
        ("write 0 a x1", ""),
        ("prepare 0", "st1 A #0 to 0:012345"),
        ("vote 0:3 A abort", ""),
        ("vote 0:3 A abort by R fast 0:012345", "same"),
        (
            "vote 0:2 A abort by S fast 0:012345",
            "writeback A conflict 0:2 S fast 0:012345 to 0:012345",
        ),
    ],
    ..ONE
};

/// 4f + 1 replicas logged one decision in one view; each gives its earliest such reply, and the lowest count.
const LOGGED: Scene = Scene {
    steps: &[
        ("begin 10", "slot 0"),
        ("write 0 a x1", ""),
        ("prepare 0", "st1 A #0 to 0:012345"),
        ("log 0:5432 A commit 0 0", ""),
        // Other views and decisions are counted apart.
        ("log 0:1 A commit 1 1", ""),
        ("log 0:0 A abort 0 0", ""),
        // A replica counts once.
        ("log 0:5 A commit 0 2", ""),
        ("held 0", "7"),
        ("outcome 0", "none"),
        (
            "log 0:1 A commit 0 3",
            "writeback A logged commit 0 0:12345 to 0:012345",
        ),
        ("outcome 0", "commit logged commit 0 0:12345"),
        ("held 0", "8"),
    ],
    ..ONE
};

/// An abort in a later view, whatever the votes say. Of two shards B is logged in shard 0.
const LOGGED_ABORT: Scene = Scene {
    steps: &[
        ("begin 20", "slot 0"),
        ("write 0 a x1", ""),
        ("write 0 b x1", ""),
        ("prepare 0", "st1 B #0 to 0:012345 1:012345"),
        ("vote 0:012345 B commit", ""),
        ("vote 1:01234 B commit", ""),
        ("log 0:0123 B abort 2 2", ""),
        (
            "log 0:5 B abort 2 4",
            "writeback B logged abort 2 0:01235 to 0:012345 1:012345",
        ),
        ("outcome 0", "abort logged abort 2 0:01235"),
    ],
    ..TWO
};

const RULES: &[Scene] = &[
    FAST_COMMIT,
    FAST_ABORT,
    ONE_SHARD_ABORTS,
    CONFLICT,
    SECOND_PROOF,
    LOGGED,
    LOGGED_ABORT,
];

#[test]
fn each_rule_decides_alone(rt: HostRuntime) -> Result<(), Fail> {
    plays(&rt, rt.alloc(), 1, RULES)
}

/// A vote that ends two ways: the fast abort comes before the conflict that it proves.
const ABORTS_AND_PROVES: Scene = Scene {
    cast: &["A 10 1 +a", "R 30 2 a=-"],
    steps: &[
        ("begin 10", "slot 0"),
        ("write 0 a x1", ""),
        ("prepare 0", "st1 A #0 to 0:012345"),
        ("vote 0:145 A abort", ""),
        (
            "vote 0:3 A abort by R fast 0:012345",
            "writeback A abort 0:1345 to 0:012345",
        ),
    ],
    ..ONE
};

/// Of what each single frame completes the first rule decides; what decided stays, whatever comes then and would have
/// decided before it. Frames that come later are tested still.
const LOG_FIRST: Scene = Scene {
    cast: &["A 10 1 +a", "R 30 2 a=-", "F 31 2 +a"],
    steps: &[
        ("begin 10", "slot 0"),
        ("write 0 a x1", ""),
        ("prepare 0", "st1 A #0 to 0:012345"),
        ("vote 0:012 A abort", ""),
        ("log 0:0123 A commit 0 0", ""),
        (
            "log 0:4 A commit 0 0",
            "writeback A logged commit 0 0:01234 to 0:012345",
        ),
        ("held 0", "8"),
        // A conflict, a fast abort, and certificates.
        ("vote 0:3 A abort by R fast 0:012345", "same"),
        ("vote 0:45 A abort", "same"),
        ("writeback A fast 0:012345", "same"),
        ("writeback A abort 0:0123", "same"),
        ("log 0:5 A commit 0 0", "same"),
        ("log 0:01234 A abort 1 1", "same"),
        ("outcome 0", "commit logged commit 0 0:01234"),
        ("held 0", "8"),
        // What is refused is refused still.
        ("vote 0:x4 A abort", "refused BadSignature"),
        ("log 0:x5 A commit 0 0", "refused BadSignature"),
        (
            "vote 0:5 A abort by F fast 0:012345",
            "refused BadCertificate(NoConflict)",
        ),
        (
            "writeback A fast 0:01234",
            "refused BadCertificate(Few { count: 5, needed: 6 })",
        ),
        ("vote 0:4 R commit", "refused NotMine"),
        // Nor do calls change anything.
        ("settle 0", "same"),
        ("invoke 0", "same"),
        ("recover A", "slot 0; recover A #0 to 0:012345"),
    ],
    ..ONE
};

const CONFLICT_FIRST: Scene = Scene {
    cast: &["A 10 1 +a", "R 30 2 a=-"],
    steps: &[
        ("begin 10", "slot 0"),
        ("write 0 a x1", ""),
        ("prepare 0", "st1 A #0 to 0:012345"),
        ("log 0:0123 A commit 0 0", ""),
        (
            "vote 0:5 A abort by R fast 0:012345",
            "writeback A conflict 0:5 R fast 0:012345 to 0:012345",
        ),
        ("log 0:4 A commit 0 0", "same"),
        ("vote 0:0123 A abort", "same"),
        ("writeback A fast 0:012345", "same"),
        ("outcome 0", "abort conflict 0:5 R"),
        ("settle 0", "same"),
        ("invoke 0", "same"),
    ],
    ..ONE
};

const ABORT_FIRST: Scene = Scene {
    cast: &["A 10 1 +a", "R 30 2 a=-"],
    steps: &[
        ("begin 10", "slot 0"),
        ("write 0 a x1", ""),
        ("prepare 0", "st1 A #0 to 0:012345"),
        ("log 0:0123 A commit 0 0", ""),
        (
            "vote 0:0235 A abort",
            "writeback A abort 0:0235 to 0:012345",
        ),
        ("log 0:4 A commit 0 0", "same"),
        ("vote 0:1 A abort by R fast 0:012345", "same"),
        ("writeback A fast 0:012345", "same"),
        ("outcome 0", "abort abort 0:0235"),
    ],
    ..ONE
};

const COMMIT_FIRST: Scene = Scene {
    steps: &[
        ("begin 10", "slot 0"),
        ("write 0 a x1", ""),
        ("prepare 0", "st1 A #0 to 0:012345"),
        ("log 0:0123 A abort 0 0", ""),
        (
            "vote 0:012345 A commit",
            "writeback A fast 0:012345 to 0:012345",
        ),
        ("log 0:4 A abort 0 0", "same"),
        ("vote 0:0 A abort", "same"),
        ("writeback A abort 0:0123", "same"),
        ("outcome 0", "commit fast 0:012345"),
        ("held 0", "10"),
    ],
    ..ONE
};

const TOLD_FIRST: Scene = Scene {
    steps: &[
        ("begin 10", "slot 0"),
        ("write 0 a x1", ""),
        ("prepare 0", "st1 A #0 to 0:012345"),
        ("vote 0:01234 A commit", ""),
        ("log 0:0123 A commit 0 0", ""),
        (
            "writeback A abort 0:2345",
            "writeback A abort 0:2345 to 0:012345",
        ),
        ("vote 0:5 A commit", "same"),
        ("log 0:4 A commit 0 0", "same"),
        ("writeback A fast 0:012345", "same"),
        ("outcome 0", "abort abort 0:2345"),
        ("held 0", "9"),
    ],
    ..ONE
};

const FIRST: &[Scene] = &[
    ABORTS_AND_PROVES,
    LOG_FIRST,
    CONFLICT_FIRST,
    ABORT_FIRST,
    COMMIT_FIRST,
    TOLD_FIRST,
];

#[test]
fn what_decides_first_stays(rt: HostRuntime) -> Result<(), Fail> {
    plays(&rt, rt.alloc(), 1, FIRST)
}

/// Frames find their transaction by its id, whichever slot it is in.
const APART: Scene = Scene {
    cast: &["A 10 1 +a", "B 11 1 +b", "C 5 2 +c"],
    steps: &[
        ("begin 10", "slot 0"),
        ("write 0 a x1", ""),
        ("begin 11", "slot 1"),
        ("write 1 b x1", ""),
        ("recover C", "slot 2; recover C to 0:012345"),
        ("prepare 1", "st1 B #0 to 0:012345"),
        ("prepare 0", "st1 A #1 to 0:012345"),
        ("vote 0:01234 B commit", ""),
        ("vote 0:012 C abort", ""),
        ("vote 0:5 A commit", ""),
        ("held 0", "1"),
        ("held 1", "5"),
        ("held 2", "3"),
        ("vote 0:5 B commit", "writeback B fast 0:012345 to 0:012345"),
        ("vote 0:3 C abort", "writeback C abort 0:0123 to 0:012345"),
        ("outcome 0", "none"),
        ("outcome 1", "commit fast 0:012345"),
        ("outcome 2", "abort abort 0:0123"),
        ("signed", "B A"),
    ],
    ..ONE
};

/// With f = 0 one replica decides each way alone.
const ALONE: Scene = Scene {
    f: 0,
    shards: 2,
    reads: 1,
    cast: &["A 10 1 +a", "B 20 1 +a +b", "C 30 1 +b", "E 40 1 +b"],
    steps: &[
        ("begin 10", "slot 0"),
        ("write 0 a x1", ""),
        ("prepare 0", "st1 A #0 to 1:0"),
        ("vote 1:0 A commit", "writeback A fast 1:0 to 1:0"),
        ("begin 20", "slot 1"),
        ("write 1 a x1", ""),
        ("write 1 b x1", ""),
        ("prepare 1", "st1 B #1 to 0:0 1:0"),
        ("vote 1:0 B commit", ""),
        ("vote 0:0 B commit", "writeback B fast 0:0 1:0 to 0:0 1:0"),
        ("begin 30", "slot 2"),
        ("write 2 b x1", ""),
        ("prepare 2", "st1 C #2 to 0:0"),
        ("vote 0:0 C abort", "writeback C abort 0:0 to 0:0"),
        ("begin 40", "slot 3"),
        ("write 3 b x1", ""),
        ("prepare 3", "st1 E #3 to 0:0"),
        (
            "log 0:0 E commit 7 9",
            "writeback E logged commit 7 0:0 to 0:0",
        ),
    ],
    ..ONE
};

const TRANSACTIONS: &[Scene] = &[APART, ALONE];

#[test]
fn each_transaction_is_decided_for_itself(rt: HostRuntime) -> Result<(), Fail> {
    plays(&rt, rt.alloc(), 1, TRANSACTIONS)
}
