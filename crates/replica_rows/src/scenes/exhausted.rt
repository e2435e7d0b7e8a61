//! Pens with few leaves left: what needs more is refused whole.

use crate::scenes::stages::{Scene, play_all};
use std::test::Fail;

/// The leaves 30 and 31 are left.
const RELEASES: Scene = Scene {
    shards: 1,
    shard: 0,
    index: 0,
    leaf: 30,
    cast: &["A 10 1 +a", "B 20 2 +b", "D 30 3 a?A +c", "E 40 4 a?A +d"],
    steps: &[
        ("c1 st1 A", "vote A commit #30 to c1"),
        ("c3 st1 D", ""),
        ("c4 st1 E", ""),
        // Two votes and one leaf.
        ("c1 writeback A fast 0:012345", "refused Exhausted(1)"),
        ("c1 writeback A abort 0:0123", "refused Exhausted(1)"),
        ("c2 st1 A", "vote A commit #30 to c2"),
        ("c5 st1 D", ""),
        ("c3 writeback D abort 0:0123", ""),
        ("c1 writeback A fast 0:012345", "vote E commit #31 to c4"),
        // No leaf.
        ("c2 st1 B", "refused Exhausted(0)"),
        ("c2 recover B", "refused Exhausted(0)"),
        ("c2 read b 40 2", "refused Exhausted(0)"),
        ("c2 st2 B commit 0:0123", "refused Exhausted(0)"),
        (
            "r3 decide B commit 1 0c 1c 2c 3c 4c",
            "refused Exhausted(0)",
        ),
        ("the table", "3"),
        ("the cell B", "none"),
        // What is stored needs none.
        ("c4 st1 E", "vote E commit #31 to c4"),
        ("c1 st1 A", "writeback A fast 0:012345 to c1"),
        ("c2 writeback B abort 0:0123", ""),
    ],
};

/// Leaf 31 is left. Replica 3 leads view 1 of B.
const WORDS: Scene = Scene {
    shards: 1,
    shard: 0,
    index: 3,
    leaf: 31,
    cast: &["B 20 2 +b"],
    steps: &[
        ("c2 st2 B commit 0:0123", "log B commit 0 0 #31 to c2"),
        ("c3 st2 B abort 0:01", "log B commit 0 0 #31 to c3"),
        ("c2 invoke B 0:0 1:0 2:0 3:0", "refused Exhausted(0)"),
        ("r0 elect B commit 1", ""),
        ("r1 elect B commit 1", ""),
        ("r2 elect B commit 1", ""),
        ("r3 elect B commit 1", ""),
        // The fifth word isn't kept.
        ("r4 elect B commit 1", "refused Exhausted(0)"),
        ("r4 elect B commit 1", "refused Exhausted(0)"),
        ("r0 elect B abort 1", ""),
        ("r5 elect B commit 1", "refused Exhausted(0)"),
        ("r3 decide B abort 1 0a 1a 2a 3c 4c", "refused Exhausted(0)"),
        // What else is refused comes first.
        ("c2 invoke B 0:0", "refused StaleView(0)"),
        (
            "r3 decide B abort 1 0a",
            "refused BadElection { words: 1, agreeing: 1 }",
        ),
        ("c2 read b 151 2", "refused FromFuture(50)"),
        ("the cell B", "commit 0 0"),
    ],
};

/// None is left.
const NONE: Scene = Scene {
    shards: 1,
    shard: 0,
    index: 0,
    leaf: 32,
    cast: &["A 10 1 +a", "B 20 2 a?A +b"],
    steps: &[
        ("c1 st1 A", "refused Exhausted(0)"),
        ("the table", "0"),
        ("c2 st1 B", "refused Exhausted(0)"),
        ("c1 writeback A fast 0:012345", ""),
        ("c2 st1 B", "refused Exhausted(0)"),
        ("the table", "1"),
    ],
};

#[test]
fn too_few_leaves_change_nothing(rt: HostRuntime) -> Result<(), Fail> {
    play_all(&rt, rt.alloc(), &[RELEASES, WORDS, NONE])
}
