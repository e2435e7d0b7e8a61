//! Votes and outcomes that are asked for again.

use crate::scenes::stages::{Scene, plays};
use std::test::Fail;

const VOTED: Scene = Scene {
    shards: 1,
    shard: 0,
    index: 2,
    leaf: 0,
    cast: &["A 10 1 +a", "B 151 2 +a"],
    steps: &[
        ("c1 st1 A", "vote A commit #0 to c1"),
        ("c1 st1 A", "vote A commit #0 to c1"),
        ("c7 st1 A", "vote A commit #0 to c7"),
        ("r3 st1 A", "vote A commit #0 to r3"),
        ("c2 recover A", "vote A commit #0 to c2"),
        ("c2 recover B", "vote B abort #1 to c2"),
        ("c1 st1 B", "vote B abort #1 to c1"),
        ("the table", "2"),
    ],
};

#[test]
fn a_vote_is_given_again(rt: HostRuntime) -> Result<(), Fail> {
    plays(&rt, rt.alloc(), &VOTED)
}

const ENDED: Scene = Scene {
    shards: 1,
    shard: 0,
    index: 0,
    leaf: 0,
    cast: &["A 10 1 +a", "B 20 2 +b", "C 15 3 a=-"],
    steps: &[
        ("c1 st1 A", "vote A commit #0 to c1"),
        ("c1 writeback A fast 0:012345", ""),
        ("c1 st1 A", "writeback A fast 0:012345 to c1"),
        ("c2 st2 A commit 0:0123", "writeback A fast 0:012345 to c2"),
        ("c2 st2 A abort 0:01", "writeback A fast 0:012345 to c2"),
        ("c3 recover A", "writeback A fast 0:012345 to c3"),
        (
            "c4 invoke A 0:0 1:0 2:0 3:0",
            "writeback A fast 0:012345 to c4",
        ),
        ("r2 invoke A", "writeback A fast 0:012345 to r2"),
        ("the cell A", "none"),
        // The first certificate stays.
        ("c5 writeback A logged commit 0 0:01234", ""),
        ("c5 writeback A abort 0:0123", ""),
        ("c5 st1 A", "writeback A fast 0:012345 to c5"),
        // It's told only where nothing is refused.
        ("c1 st1 A x", "refused BadSignature(0)"),
        ("c1 recover A x", "refused BadSignature(0)"),
        (
            "c2 st2 A commit 0:012",
            "refused BadTally(Few { count: 3, needed: 4 })",
        ),
        ("c4 invoke A 0:0x", "refused BadSignature(0)"),
        // What a writeback brings is known.
        ("c6 writeback B logged abort 2 0:12345", ""),
        ("the table", "2"),
        ("c6 st1 B", "writeback B logged abort 2 0:12345 to c6"),
        ("c6 writeback B fast 0:012345", ""),
        ("c7 recover B", "writeback B logged abort 2 0:12345 to c7"),
        ("c3 writeback C conflict 0:3 A fast 0:012345", ""),
        ("c3 st1 C", "writeback C conflict 0:3 A fast 0:012345 to c3"),
    ],
};

#[test]
fn an_outcome_answers_all(rt: HostRuntime) -> Result<(), Fail> {
    plays(&rt, rt.alloc(), &ENDED)
}
