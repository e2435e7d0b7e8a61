//! Votes to abort and their proofs: committed transactions that conflict, the earliest known.

use crate::scenes::stages::{Scene, play_all, plays};
use std::test::Fail;

const PROVEN: Scene = Scene {
    shards: 1,
    shard: 0,
    index: 0,
    leaf: 0,
    cast: &[
        "A 25 1 +a",
        "B 20 2 +a",
        "C 60 3 b=- +c",
        "D 40 4 a=-",
        "E 41 4 a=-",
        "F 50 5 +b",
        "G 151 5 a=-",
        "H 151 6 +d",
        "Z 5 9 +e",
        "I 70 6 a=- e?Z",
        "J 80 6 a=- +f",
        "P 30 8 +g",
        "L 45 5 g=-",
        "M 46 5 g=-",
    ],
    steps: &[
        ("c1 st1 A", "vote A commit #0 to c1"),
        ("c2 st1 B", "vote B commit #1 to c2"),
        ("c2 writeback B fast 0:012345", ""),
        // A read is overtaken by A, which is prepared, and B.
        ("c4 st1 D", "vote D abort by B fast 0:012345 #2 to c4"),
        ("c1 writeback A fast 0:012345", ""),
        ("c4 st1 E", "vote E abort by A fast 0:012345 #3 to c4"),
        ("c9 st1 D", "vote D abort by B fast 0:012345 #2 to c9"),
        // A write under a read.
        ("c3 writeback C logged commit 1 0:12345", ""),
        (
            "c5 st1 F",
            "vote F abort by C logged commit 1 0:12345 #4 to c5",
        ),
        // Too late a time, with and without a conflict.
        ("c5 st1 G", "vote G abort by A fast 0:012345 #5 to c5"),
        ("c6 st1 H", "vote H abort #6 to c6"),
        // An unknown dependency.
        ("c6 st1 I", "vote I abort by A fast 0:012345 #7 to c6"),
        // A write under a noted read.
        (
            "c7 read f 90 7",
            "read f 90 7 committed - prepared - #8 to c7",
        ),
        ("c6 st1 J", "vote J abort by A fast 0:012345 #9 to c6"),
        // What is only prepared is no proof, and what is aborted no conflict.
        ("c8 st1 P", "vote P commit #10 to c8"),
        ("c5 st1 L", "vote L abort #11 to c5"),
        ("c8 writeback P abort 0:0123", ""),
        ("c5 st1 M", "vote M commit #12 to c5"),
    ],
};

#[test]
fn each_rule_gives_its_proof(rt: HostRuntime) -> Result<(), Fail> {
    plays(&rt, rt.alloc(), &PROVEN)
}

const CAST: &[&str] = &["A 25 1 +a", "X 26 8 +a", "K 30 2 a=-", "E 41 4 a=-"];

/// A second stage makes X known before A.
const LOGGED_FIRST: Scene = Scene {
    shards: 1,
    shard: 0,
    index: 0,
    leaf: 0,
    cast: CAST,
    steps: &[
        ("c8 st2 X commit 0:0123", "log X commit 0 0 #0 to c8"),
        ("c1 st1 A", "vote A commit #1 to c1"),
        ("c1 writeback A fast 0:012345", ""),
        ("c8 writeback X fast 0:012345", ""),
        ("c4 st1 E", "vote E abort by X fast 0:012345 #2 to c4"),
    ],
};

/// So does a leader's decision: replica 3 leads view 1 of X.
const DECIDED_FIRST: Scene = Scene {
    shards: 1,
    shard: 0,
    index: 0,
    leaf: 0,
    cast: CAST,
    steps: &[
        ("r3 decide X commit 1 0c 1c 2c 3c 4c", ""),
        ("c1 st1 A", "vote A commit #1 to c1"),
        ("c1 writeback A fast 0:012345", ""),
        ("c8 writeback X fast 0:012345", ""),
        ("c4 st1 E", "vote E abort by X fast 0:012345 #2 to c4"),
    ],
};

/// An election word doesn't: replica 0 leads view 4 of X.
const ELECTED_FIRST: Scene = Scene {
    shards: 1,
    shard: 0,
    index: 0,
    leaf: 0,
    cast: CAST,
    steps: &[
        ("r3 elect X commit 4", ""),
        ("the table", "0"),
        ("c1 st1 A", "vote A commit #0 to c1"),
        ("c1 writeback A fast 0:012345", ""),
        ("c8 writeback X fast 0:012345", ""),
        ("c4 st1 E", "vote E abort by A fast 0:012345 #1 to c4"),
    ],
};

/// Nor does the certificate of another.
const INSIDE: Scene = Scene {
    shards: 1,
    shard: 0,
    index: 0,
    leaf: 0,
    cast: CAST,
    steps: &[
        ("c2 writeback K conflict 0:3 A fast 0:012345", ""),
        ("the table", "1"),
        ("c4 st1 E", "vote E commit #0 to c4"),
    ],
};

#[test]
fn the_earliest_known_is_the_proof(rt: HostRuntime) -> Result<(), Fail> {
    play_all(
        &rt,
        rt.alloc(),
        &[LOGGED_FIRST, DECIDED_FIRST, ELECTED_FIRST, INSIDE],
    )
}

/// Of two shards a is in shard 1, and b and d in shard 0.
const APART: &[&str] = &["A 25 1 +a +b", "T 151 5 a=- +d"];

const OTHER_SHARD: Scene = Scene {
    shards: 2,
    shard: 0,
    index: 0,
    leaf: 0,
    cast: APART,
    steps: &[
        ("c1 writeback A fast 0:012345 1:012345", ""),
        ("c5 st1 T", "vote T abort #0 to c5"),
    ],
};

const OWN_SHARD: Scene = Scene {
    shards: 2,
    shard: 1,
    index: 0,
    leaf: 0,
    cast: APART,
    steps: &[
        ("c1 writeback A fast 0:012345 1:012345", ""),
        (
            "c5 st1 T",
            "vote T abort by A fast 0:012345 1:012345 #0 to c5",
        ),
    ],
};

#[test]
fn conflicts_of_another_shard_are_no_proof(rt: HostRuntime) -> Result<(), Fail> {
    play_all(&rt, rt.alloc(), &[OTHER_SHARD, OWN_SHARD])
}
