//! Reads: what they see, and that they are noted.

use crate::scenes::stages::{Scene, plays};
use std::test::Fail;

const SEEN: Scene = Scene {
    shards: 1,
    shard: 0,
    index: 0,
    leaf: 0,
    cast: &[
        "B 30 2 +a",
        "C 50 2 +a",
        "A 10 1 +a",
        "E 65 6 +b",
        "D 70 5 b?E +a",
        "F 100 6 +g",
        "G 149 6 +g",
        "X 55 9 +a",
        "H 20 7 +h",
        "I 25 8 +h",
    ],
    steps: &[
        (
            "c3 read a 40 3",
            "read a 40 3 committed - prepared - #0 to c3",
        ),
        ("c2 st1 B", "vote B abort #1 to c2"),
        ("c2 st1 C", "vote C commit #2 to c2"),
        (
            "c4 read a 60 4",
            "read a 60 4 committed - prepared C #3 to c4",
        ),
        ("c1 writeback A fast 0:012345", ""),
        (
            "c4 read a 60 4",
            "read a 60 4 committed A fast 0:012345 prepared C #4 to c4",
        ),
        // Below the read's time and client.
        (
            "c4 read a 50 2",
            "read a 50 2 committed A fast 0:012345 prepared - #5 to c4",
        ),
        (
            "c4 read a 50 3",
            "read a 50 3 committed A fast 0:012345 prepared C #6 to c4",
        ),
        (
            "c4 read a 10 1",
            "read a 10 1 committed - prepared - #7 to c4",
        ),
        // The latest one.
        ("c2 writeback C fast 0:012345", ""),
        (
            "c9 read a 60 4",
            "read a 60 4 committed C fast 0:012345 prepared - #8 to c9",
        ),
        (
            "r5 read a 45 4",
            "read a 45 4 committed A fast 0:012345 prepared - #9 to r5",
        ),
        // What waits is prepared, until it votes abort.
        ("c6 st1 E", "vote E commit #10 to c6"),
        ("c5 st1 D", ""),
        (
            "c8 read a 80 8",
            "read a 80 8 committed C fast 0:012345 prepared D #11 to c8",
        ),
        ("c6 writeback E abort 0:0123", "vote D abort #12 to c5"),
        (
            "c8 read a 80 8",
            "read a 80 8 committed C fast 0:012345 prepared - #13 to c8",
        ),
        // A read from the future isn't noted.
        ("c4 read g 151 4", "refused FromFuture(50)"),
        ("c6 st1 F", "vote F commit #14 to c6"),
        (
            "c4 read g 150 4",
            "read g 150 4 committed - prepared F #15 to c4",
        ),
        ("c6 st1 G", "vote G abort #16 to c6"),
        // Of the noted reads the greatest counts.
        (
            "c8 read a 20 8",
            "read a 20 8 committed A fast 0:012345 prepared - #17 to c8",
        ),
        ("c9 st1 X", "vote X abort #18 to c9"),
        // Of two that are prepared, and of two that are committed, the latest, whichever came first.
        ("c7 st1 H", "vote H commit #19 to c7"),
        ("c8 st1 I", "vote I commit #20 to c8"),
        (
            "c9 read h 40 9",
            "read h 40 9 committed - prepared I #21 to c9",
        ),
        (
            "c9 read h 22 9",
            "read h 22 9 committed - prepared H #22 to c9",
        ),
        ("c7 writeback H fast 0:012345", ""),
        ("c8 writeback I fast 0:012345", ""),
        (
            "c9 read h 40 9",
            "read h 40 9 committed I fast 0:012345 prepared - #23 to c9",
        ),
    ],
};

#[test]
fn reads_see_what_is_below(rt: HostRuntime) -> Result<(), Fail> {
    plays(&rt, rt.alloc(), &SEEN)
}
