//! First votes, by the rules of the verdict in their order.

use crate::scenes::stages::{Scene, play_all, plays};
use std::test::Fail;

const RULED: Scene = Scene {
    shards: 1,
    shard: 0,
    index: 0,
    leaf: 0,
    cast: &[
        "A 10 1 +a",
        "B 20 2 +b",
        "C 60 3 c=- +d",
        "D 150 4 +e",
        "E 151 4 +e",
        "Z 5 9 +g",
        "F 30 5 g?Z",
        "G 31 5 b?B",
        "H 32 5 h?A",
        "I 33 5 a~A",
        "J 34 5 a=-",
        "K 35 5 a?A +k",
        "Y 38 5 k=-",
        "L 70 5 a?A d=-",
        "M 50 6 +c",
        "N 51 6 a?A +c",
        "V 61 6 +c",
        "O 80 6 +f",
        "P 90 6 +f",
        "Q 90 7 +f",
        "R 90 8 +f",
        "S 81 6 a?A +f",
        "T 151 6 a?A",
        "W 9 5 a=-",
        "X 37 5 a=A",
        "U 36 5 a?A",
    ],
    steps: &[
        ("c1 st1 A", "vote A commit #0 to c1"),
        ("c2 writeback B abort 0:0123", ""),
        ("c3 st1 C", "vote C commit #1 to c3"),
        (
            "c7 read f 90 7",
            "read f 90 7 committed - prepared - #2 to c7",
        ),
        // The time, at most delta above the replica's.
        ("c4 st1 D", "vote D commit #3 to c4"),
        ("c4 st1 E", "vote E abort #4 to c4"),
        // A dependency that isn't known, is aborted, writes another key, or has another version.
        ("c5 st1 F", "vote F abort #5 to c5"),
        ("c5 st1 G", "vote G abort #6 to c5"),
        ("c5 st1 H", "vote H abort #7 to c5"),
        ("c5 st1 I", "vote I abort #8 to c5"),
        // A read that is overtaken by a vote to commit and by one that waits, and before one that waits itself.
        ("c5 st1 J", "vote J abort #9 to c5"),
        ("c5 st1 K", ""),
        ("c5 st1 Y", "vote Y abort #10 to c5"),
        ("c5 st1 L", "vote L abort #11 to c5"),
        // A write under a read, and above it.
        ("c6 st1 M", "vote M abort #12 to c6"),
        ("c6 st1 N", "vote N abort #13 to c6"),
        ("c6 st1 V", "vote V commit #14 to c6"),
        // A write under the noted read, by its time and by its client, at it and above.
        ("c6 st1 O", "vote O abort #15 to c6"),
        ("c6 st1 P", "vote P abort #16 to c6"),
        ("c7 st1 Q", "vote Q commit #17 to c7"),
        ("c8 st1 R", "vote R commit #18 to c8"),
        ("c6 st1 S", "vote S abort #19 to c6"),
        // A dependency without outcome doesn't save a late time.
        ("c6 st1 T", "vote T abort #20 to c6"),
        // A read below the write, and one of it.
        ("c5 st1 W", "vote W commit #21 to c5"),
        ("c5 st1 X", "vote X commit #22 to c5"),
        ("c1 writeback A fast 0:012345", "vote K commit #23 to c5"),
        ("c5 st1 U", "vote U commit #24 to c5"),
    ],
};

#[test]
fn first_votes_follow_the_verdict(rt: HostRuntime) -> Result<(), Fail> {
    plays(&rt, rt.alloc(), &RULED)
}

/// Of two shards a is in shard 1, and b and d in shard 0. Z is never sent.
const APART: &[&str] = &["Z 5 9 +a", "A 10 1 a?Z +b", "U 20 2 +a +d", "T 30 3 a=- +d"];

const OTHER_SHARD: Scene = Scene {
    shards: 2,
    shard: 0,
    index: 0,
    leaf: 0,
    cast: APART,
    steps: &[
        ("c1 st1 A", "vote A commit #0 to c1"),
        ("c2 st1 U", "vote U commit #1 to c2"),
        ("c3 st1 T", "vote T commit #2 to c3"),
    ],
};

const OWN_SHARD: Scene = Scene {
    shards: 2,
    shard: 1,
    index: 0,
    leaf: 0,
    cast: APART,
    steps: &[
        ("c1 st1 A", "vote A abort #0 to c1"),
        ("c2 st1 U", "vote U commit #1 to c2"),
        ("c3 st1 T", "vote T abort #2 to c3"),
    ],
};

#[test]
fn the_own_shards_keys_decide(rt: HostRuntime) -> Result<(), Fail> {
    play_all(&rt, rt.alloc(), &[OTHER_SHARD, OWN_SHARD])
}
