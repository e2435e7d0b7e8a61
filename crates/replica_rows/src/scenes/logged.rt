//! Log replies: what the first second stage logs, the stored reply, and a new one where what is logged has changed.

use crate::scenes::stages::{Scene, play_all, plays};
use std::test::Fail;

/// Replica 5 leads view 1 of A.
const LOGGED: Scene = Scene {
    shards: 1,
    shard: 0,
    index: 0,
    leaf: 0,
    cast: &["A 10 1 +a", "B 20 2 +b"],
    steps: &[
        ("the cell A", "none"),
        ("c9 st2 A commit 0:0123", "log A commit 0 0 #0 to c9"),
        ("the cell A", "commit 0 0"),
        ("the table", "1"),
        ("c2 st2 A commit 0:2345", "log A commit 0 0 #0 to c2"),
        ("c2 st2 A abort 0:45", "log A commit 0 0 #0 to c2"),
        ("r3 st2 A abort 0:01", "log A commit 0 0 #0 to r3"),
        ("c4 recover A", "log A commit 0 0 #0 to c4"),
        ("r1 recover A", "log A commit 0 0 #0 to r1"),
        ("c1 st1 A", "vote A commit #1 to c1"),
        ("c3 invoke A 0:0 1:0 2:0 3:0", "elect A commit 1 #2 to r5"),
        ("the cell A", "commit 0 1"),
        ("c2 st2 A commit 0:0123", "log A commit 0 1 #3 to c2"),
        ("c2 recover A", "log A commit 0 1 #3 to c2"),
        // All clients that asked by a second stage, a recovery or an invoke.
        (
            "r5 decide A abort 1 0a 1a 2a 3c 4c",
            "log A abort 1 1 #4 to c2 c3 c4 c9",
        ),
        ("the cell A", "abort 1 1"),
        ("c9 st2 A commit 0:0123", "log A abort 1 1 #4 to c9"),
        ("c1 st1 A", "vote A commit #1 to c1"),
        // Where nothing is logged a recovery is a first stage.
        ("c5 recover B", "vote B commit #5 to c5"),
        ("c5 st2 B abort 0:23", "log B abort 0 0 #6 to c5"),
        ("c5 recover B", "log B abort 0 0 #6 to c5"),
    ],
};

#[test]
fn log_replies_are_stored(rt: HostRuntime) -> Result<(), Fail> {
    plays(&rt, rt.alloc(), &LOGGED)
}

/// Of two shards a is in shard 1 and b in shard 0: shard 1 logs A, whose time is odd.
const APART: &[&str] = &["A 11 1 +a +b"];

const OTHER_SHARD: Scene = Scene {
    shards: 2,
    shard: 0,
    index: 0,
    leaf: 0,
    cast: APART,
    steps: &[
        ("c1 st2 A commit 0:0123 1:0123", "refused NotMine"),
        ("c1 recover A", "vote A commit #0 to c1"),
    ],
};

const LOG_SHARD: Scene = Scene {
    shards: 2,
    shard: 1,
    index: 3,
    leaf: 0,
    cast: APART,
    steps: &[
        ("c1 st2 A commit 0:0123 1:0123", "log A commit 0 0 #0 to c1"),
        ("c2 recover A", "log A commit 0 0 #0 to c2"),
    ],
};

#[test]
fn the_log_shard_logs(rt: HostRuntime) -> Result<(), Fail> {
    play_all(&rt, rt.alloc(), &[OTHER_SHARD, LOG_SHARD])
}
