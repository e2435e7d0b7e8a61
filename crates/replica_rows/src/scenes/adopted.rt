//! Leaders' decisions: which are adopted, and whom that is told.

use crate::scenes::stages::{Scene, plays};
use std::test::Fail;

/// View v of A is led by replica 10 + v modulo 6.
const ADOPTED: Scene = Scene {
    shards: 1,
    shard: 0,
    index: 0,
    leaf: 0,
    cast: &["A 10 1 +a"],
    steps: &[
        // Where nothing is logged, and nobody asked: the reply is signed all the same.
        ("r5 decide A commit 1 0c 1c 2c 3a 4a", ""),
        ("the cell A", "commit 1 1"),
        ("the table", "1"),
        ("c2 st2 A abort 0:01", "log A commit 1 1 #0 to c2"),
        (
            "r5 decide A commit 1 0c 1c 2c 3a 4a",
            "refused AlreadyDecidedIn(1)",
        ),
        ("c1 invoke A 0:3 1:3", "elect A commit 3 #1 to r1"),
        ("the cell A", "commit 1 3"),
        ("r0 decide A abort 2 0a 1a 2a 3a 4c", "refused StaleView(3)"),
        // Into the current view.
        (
            "r1 decide A abort 3 0a 1a 2a 3c 4c",
            "log A abort 3 3 #2 to c1 c2",
        ),
        (
            "r1 decide A abort 3 0a 1a 2a 3c 4c",
            "refused AlreadyDecidedIn(3)",
        ),
        ("r0 decide A abort 2 0a 1a 2a 3a 4c", "refused StaleView(3)"),
        // Five words, of which three name the decision.
        (
            "r2 decide A commit 4 0c 1c 2c 3c",
            "refused BadElection { words: 4, agreeing: 4 }",
        ),
        (
            "r2 decide A commit 4 0c 1c 2a 3a 4a",
            "refused BadElection { words: 5, agreeing: 2 }",
        ),
        (
            "r2 decide A commit 4 0c 1c 2c 3c 4c 5c",
            "refused BadElection { words: 6, agreeing: 6 }",
        ),
        (
            "r2 decide A commit 4",
            "refused BadElection { words: 0, agreeing: 0 }",
        ),
        ("r3 decide A commit 4 0c 1c 2c 3c 4c", "refused NotLeader"),
        ("the cell A", "abort 3 3"),
        (
            "r2 decide A commit 4 0c 1c 2c 3a 5a",
            "log A commit 4 4 #3 to c1 c2",
        ),
        ("c9 recover A", "log A commit 4 4 #3 to c9"),
        // Into a view above the current one.
        (
            "r4 decide A abort 6 1a 2a 3a 4a 5a",
            "log A abort 6 6 #4 to c1 c2 c9",
        ),
        // After an outcome too.
        ("c1 writeback A fast 0:012345", ""),
        ("c1 invoke A 0:8 1:8", "writeback A fast 0:012345 to c1"),
        (
            "r5 decide A commit 7 0c 1c 2c 3c 4c",
            "log A commit 7 7 #5 to c1 c2 c9",
        ),
    ],
};

#[test]
fn decisions_are_adopted(rt: HostRuntime) -> Result<(), Fail> {
    plays(&rt, rt.alloc(), &ADOPTED)
}
