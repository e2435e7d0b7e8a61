//! The second stage: when it starts, by which votes, and that it starts once.

use crate::stages::{Scene, plays};
use std::test::Fail;

/// Client 1 in a cluster of one shard with f = 1: a commit is logged by four votes of each shard, an abort by two of
/// one.
const ONE: Scene = Scene {
    f: 1,
    shards: 1,
    reads: 2,
    leaf: 0,
    cast: &["A 10 1 +a"],
    steps: &[],
};

/// The same with two shards: a, c and e are in shard 1, b and d in shard 0. B is logged in shard 0, C in shard 1.
const TWO: Scene = Scene {
    shards: 2,
    cast: &["B 20 1 +a +b", "C 21 1 +a +b"],
    ..ONE
};

/// Every replica voted, and nothing is decided.
const ALL_VOTED: Scene = Scene {
    steps: &[
        ("begin 10", "slot 0"),
        ("write 0 a x1", ""),
        ("prepare 0", "st1 A #0 to 0:012345"),
        ("vote 0:0 A abort", ""),
        (
            "vote 0:54321 A commit",
            "st2 A commit 0:1234 #0 to 0:012345",
        ),
        ("outcome 0", "none"),
        // Once.
        ("settle 0", "same"),
        ("vote 0:0 A commit", "same"),
        (
            "log 0:01234 A commit 0 0",
            "writeback A logged commit 0 0:01234 to 0:012345",
        ),
    ],
    ..ONE
};

/// With fewer than four commits an abort is logged, by the lowest voters.
const ALL_VOTED_ABORT: Scene = Scene {
    steps: &[
        ("begin 10", "slot 0"),
        ("write 0 a x1", ""),
        ("prepare 0", "st1 A #0 to 0:012345"),
        ("vote 0:531 A abort", ""),
        ("vote 0:024 A commit", "st2 A abort 0:13 #0 to 0:012345"),
        (
            "log 0:12345 A abort 0 0",
            "writeback A logged abort 0 0:12345 to 0:012345",
        ),
    ],
    ..ONE
};

/// A commit comes before an abort where both could be logged.
const ALL_VOTED_BOTH: Scene = Scene {
    steps: &[
        ("begin 10", "slot 0"),
        ("write 0 a x1", ""),
        ("prepare 0", "st1 A #0 to 0:012345"),
        ("vote 0:01 A abort", ""),
        ("vote 0:2345 A commit", "st2 A commit 0:2345 #0 to 0:012345"),
    ],
    ..ONE
};

/// Every replica of every involved shard: one shard's alone don't start it. C is logged in shard 1.
const ALL_SHARDS: Scene = Scene {
    steps: &[
        ("begin 21", "slot 0"),
        ("write 0 a x1", ""),
        ("write 0 b x1", ""),
        ("prepare 0", "st1 C #0 to 0:012345 1:012345"),
        ("vote 0:012345 C commit", ""),
        ("vote 1:01 C abort", ""),
        ("vote 1:234 C commit", ""),
        (
            "vote 1:5 C commit",
            "st2 C commit 0:0123 1:2345 #0 to 1:012345",
        ),
    ],
    ..TWO
};

const ONE_SHARD_ABORTS: Scene = Scene {
    steps: &[
        ("begin 20", "slot 0"),
        ("write 0 a x1", ""),
        ("write 0 b x1", ""),
        ("prepare 0", "st1 B #0 to 0:012345 1:012345"),
        ("vote 1:420 B abort", ""),
        ("vote 1:135 B commit", ""),
        ("vote 0:01234 B commit", ""),
        ("vote 0:5 B commit", "st2 B abort 1:02 #0 to 0:012345"),
    ],
    ..TWO
};

const STARTS: &[Scene] = &[
    ALL_VOTED,
    ALL_VOTED_ABORT,
    ALL_VOTED_BOTH,
    ALL_SHARDS,
    ONE_SHARD_ABORTS,
];

#[test]
fn it_starts_by_itself_once_all_voted(rt: HostRuntime) -> Result<(), Fail> {
    plays(&rt, rt.alloc(), 1, STARTS)
}

/// Where neither could be logged nothing is sent, and a later settle may find more votes.
const SETTLED: Scene = Scene {
    steps: &[
        ("begin 10", "slot 0"),
        ("write 0 a x1", ""),
        ("prepare 0", "st1 A #0 to 0:012345"),
        ("settle 0", "same"),
        ("vote 0:0 A abort", ""),
        ("vote 0:542 A commit", ""),
        ("settle 0", "same"),
        ("vote 0:3 A commit", ""),
        ("settle 0", "st2 A commit 0:2345 #0 to 0:012345"),
        ("settle 0", "same"),
        // With the last vote it doesn't start again.
        ("vote 0:1 A commit", ""),
        ("held 0", "6"),
        ("settle 0", "same"),
    ],
    ..ONE
};

const SETTLED_ABORT: Scene = Scene {
    steps: &[
        ("begin 10", "slot 0"),
        ("write 0 a x1", ""),
        ("prepare 0", "st1 A #0 to 0:012345"),
        ("vote 0:5 A abort", ""),
        ("settle 0", "same"),
        ("vote 0:4 A abort", ""),
        ("settle 0", "st2 A abort 0:45 #0 to 0:012345"),
        // It stays, whatever could be logged now.
        ("vote 0:0123 A commit", ""),
        ("settle 0", "same"),
    ],
    ..ONE
};

/// The lowest shard with an abort tally.
const LOWEST_SHARD: Scene = Scene {
    steps: &[
        ("begin 20", "slot 0"),
        ("write 0 a x1", ""),
        ("write 0 b x1", ""),
        ("prepare 0", "st1 B #0 to 0:012345 1:012345"),
        ("vote 1:012 B abort", ""),
        ("vote 0:5 B abort", ""),
        ("vote 0:3 B abort", ""),
        ("settle 0", "st2 B abort 0:35 #0 to 0:012345"),
        ("begin 21", "slot 1"),
        ("write 1 a x1", ""),
        ("write 1 b x1", ""),
        ("prepare 1", "st1 C #1 to 0:012345 1:012345"),
        ("vote 1:054 C abort", ""),
        ("vote 0:5 C abort", ""),
        ("settle 1", "st2 C abort 1:04 #1 to 1:012345"),
    ],
    ..TWO
};

/// A commit wants a tally of each shard; one shard's abort tally is enough.
const EACH_SHARD: Scene = Scene {
    steps: &[
        ("begin 20", "slot 0"),
        ("write 0 a x1", ""),
        ("write 0 b x1", ""),
        ("prepare 0", "st1 B #0 to 0:012345 1:012345"),
        ("vote 0:012345 B commit", ""),
        ("vote 1:345 B commit", ""),
        ("settle 0", "same"),
        ("vote 1:0 B commit", ""),
        ("settle 0", "st2 B commit 0:0123 1:0345 #0 to 0:012345"),
        ("begin 21", "slot 1"),
        ("write 1 a x1", ""),
        ("write 1 b x1", ""),
        ("prepare 1", "st1 C #1 to 0:012345 1:012345"),
        ("vote 0:012345 C commit", ""),
        ("vote 1:345 C commit", ""),
        ("vote 1:12 C abort", ""),
        ("settle 1", "st2 C abort 1:12 #1 to 1:012345"),
    ],
    ..TWO
};

/// Once decided nothing settles.
const DECIDED: Scene = Scene {
    steps: &[
        ("begin 10", "slot 0"),
        ("write 0 a x1", ""),
        ("prepare 0", "st1 A #0 to 0:012345"),
        ("vote 0:01234 A commit", ""),
        (
            "writeback A fast 0:012345",
            "writeback A fast 0:012345 to 0:012345",
        ),
        ("settle 0", "same"),
    ],
    ..ONE
};

const SETTLES: &[Scene] = &[SETTLED, SETTLED_ABORT, LOWEST_SHARD, EACH_SHARD, DECIDED];

#[test]
fn settle_starts_it_where_votes_allow_it(rt: HostRuntime) -> Result<(), Fail> {
    plays(&rt, rt.alloc(), 1, SETTLES)
}
