//! Elections at a leader, with f = 1: five words make a proposal, of the decision that three of them name.

use crate::scenes::stages::{Scene, plays};
use std::test::Fail;

/// Replica 5 leads the views 1 and 7 of A and view 1 of B.
const ELECTED: Scene = Scene {
    shards: 1,
    shard: 0,
    index: 5,
    leaf: 0,
    cast: &["A 10 1 +a", "B 4 2 +b"],
    steps: &[
        ("r3 elect A abort 1", ""),
        ("r0 elect A commit 1", ""),
        ("r3 elect A commit 1", ""),
        ("r0 elect A abort 7", ""),
        ("r0 elect B commit 1", ""),
        ("r4 elect A commit 1", ""),
        ("r1 elect A commit 1", ""),
        // The decision of most, and not of the last.
        (
            "r2 elect A abort 1",
            "decide A commit 1 0c 1c 2a 3a 4c #0 to r0 r1 r2 r3 r4 r5",
        ),
        // What comes after the proposal changes nothing.
        ("r5 elect A abort 1", ""),
        ("r1 elect A commit 1", ""),
        // Views and transactions stand apart.
        ("r5 elect A commit 7", ""),
        ("r1 elect A abort 7", ""),
        ("r2 elect A commit 7", ""),
        (
            "r4 elect A abort 7",
            "decide A abort 7 0a 1a 2c 4a 5c #1 to r0 r1 r2 r3 r4 r5",
        ),
        ("r3 elect A commit 7", ""),
        ("r5 elect B commit 1", ""),
        ("r3 elect B commit 1", ""),
        ("r2 elect B commit 1", ""),
        (
            "r1 elect B commit 1",
            "decide B commit 1 0c 1c 2c 3c 5c #2 to r0 r1 r2 r3 r4 r5",
        ),
        ("r0 elect A commit 2", "refused NotLeader"),
        // Words make nothing known.
        ("the table", "0"),
        ("the cell A", "none"),
        // The leader's own word goes to itself.
        ("c1 st2 A commit 0:0123", "log A commit 0 0 #3 to c1"),
        ("c1 invoke A 0:0 1:0 2:0 3:0", "elect A commit 1 #4 to r5"),
        ("r5 elect A commit 1", ""),
    ],
};

#[test]
fn five_words_make_a_proposal(rt: HostRuntime) -> Result<(), Fail> {
    plays(&rt, rt.alloc(), &ELECTED)
}
