//! Transactions that wait for others, and the votes that are released.

use crate::scenes::stages::{Scene, plays};
use std::test::Fail;

const CAST: &[&str] = &[
    "A 10 1 +a",
    "B 20 2 +b",
    "D 30 3 a?A b?B +c",
    "E 40 4 a?A +d",
    "F 41 6 a?A +e",
    "G 45 5 c=-",
    "H 46 5 c=-",
    "N 50 7 c?D +n",
];

const COMMITTED: Scene = Scene {
    shards: 1,
    shard: 0,
    index: 0,
    leaf: 0,
    cast: CAST,
    steps: &[
        ("c1 st1 A", "vote A commit #0 to c1"),
        ("c2 st1 B", "vote B commit #1 to c2"),
        // Who asks twice is answered once.
        ("c3 st1 D", ""),
        ("c5 recover D", ""),
        ("c3 st1 D", ""),
        ("r4 st1 D", ""),
        ("c4 st1 E", ""),
        ("c1 writeback A fast 0:012345", "vote E commit #2 to c4"),
        // D waits for B still.
        ("c1 st1 D", ""),
        (
            "c2 writeback B fast 0:012345",
            "vote D commit #3 to c3 c5 r4 c1",
        ),
        ("c6 st1 D", "vote D commit #3 to c6"),
    ],
};

#[test]
fn the_last_commit_releases(rt: HostRuntime) -> Result<(), Fail> {
    plays(&rt, rt.alloc(), &COMMITTED)
}

const ABORTED: Scene = Scene {
    shards: 1,
    shard: 0,
    index: 0,
    leaf: 0,
    cast: CAST,
    steps: &[
        ("c1 st1 A", "vote A commit #0 to c1"),
        ("c2 st1 B", "vote B commit #1 to c2"),
        ("c3 st1 D", ""),
        ("c4 st1 E", ""),
        ("c7 st1 N", ""),
        ("c5 st1 D", ""),
        // While D waits its write counts.
        ("c6 st1 G", "vote G abort #2 to c6"),
        (
            "c1 writeback A abort 0:0123",
            "vote D abort #3 to c3 c5; vote E abort #4 to c4",
        ),
        ("c6 st1 H", "vote H commit #5 to c6"),
        ("c2 writeback B fast 0:012345", ""),
        ("c7 st1 D", "vote D abort #3 to c7"),
        // A vote to abort is no outcome: N waits for that.
        ("c7 st1 N", ""),
        ("c3 writeback D abort 0:2345", "vote N abort #6 to c7"),
    ],
};

#[test]
fn the_first_abort_releases(rt: HostRuntime) -> Result<(), Fail> {
    plays(&rt, rt.alloc(), &ABORTED)
}

const DECIDED: Scene = Scene {
    shards: 1,
    shard: 0,
    index: 0,
    leaf: 0,
    cast: CAST,
    steps: &[
        ("c1 st1 A", "vote A commit #0 to c1"),
        ("c2 st1 B", "vote B commit #1 to c2"),
        ("c3 st1 D", ""),
        ("c4 st1 E", ""),
        ("c6 st1 F", ""),
        ("c3 writeback D abort 0:1234", ""),
        ("c4 writeback E fast 0:012345", ""),
        ("c1 writeback A fast 0:012345", "vote F commit #2 to c6"),
        ("c2 writeback B abort 0:0123", ""),
        ("c3 st1 D", "writeback D abort 0:1234 to c3"),
        ("c4 st1 E", "writeback E fast 0:012345 to c4"),
    ],
};

#[test]
fn an_outcome_ends_the_waiting(rt: HostRuntime) -> Result<(), Fail> {
    plays(&rt, rt.alloc(), &DECIDED)
}

/// X writes c under the reads of D and E, and is committed while these wait.
const UNPROVEN: Scene = Scene {
    shards: 1,
    shard: 0,
    index: 0,
    leaf: 0,
    cast: &[
        "A 10 1 +a",
        "B 20 2 +b",
        "X 25 8 +c",
        "D 31 3 a?A c=-",
        "E 32 4 b?B c=-",
        "F 33 5 c=-",
    ],
    steps: &[
        ("c1 st1 A", "vote A commit #0 to c1"),
        ("c2 st1 B", "vote B commit #1 to c2"),
        ("c3 st1 D", ""),
        ("c4 st1 E", ""),
        ("c8 writeback X fast 0:012345", ""),
        ("c1 writeback A abort 0:0123", "vote D abort #2 to c3"),
        ("c2 writeback B fast 0:012345", "vote E commit #3 to c4"),
        ("c5 st1 F", "vote F abort by X fast 0:012345 #4 to c5"),
        ("c3 st1 D", "vote D abort #2 to c3"),
    ],
};

#[test]
fn released_votes_have_no_proof(rt: HostRuntime) -> Result<(), Fail> {
    plays(&rt, rt.alloc(), &UNPROVEN)
}
