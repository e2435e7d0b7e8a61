//! The two roads of an answer: in one step, or planned and then committed or given up.

use crate::scenes::stages::{Scene, Way, played};
use std::alloc::Global;
use std::process::Abort;
use std::test::Fail;

/// Replica 5 leads view 1 of A.
const MIXED: Scene = Scene {
    shards: 1,
    shard: 0,
    index: 5,
    leaf: 0,
    cast: &["A 10 1 +a", "B 20 2 a?A +b", "C 30 3 a?A +c"],
    steps: &[
        ("c1 st1 A", "vote A commit #0 to c1"),
        ("c2 st1 B", ""),
        ("c3 st1 C", ""),
        ("c4 st1 C", ""),
        (
            "c5 read a 15 5",
            "read a 15 5 committed - prepared A #1 to c5",
        ),
        ("c1 st2 A commit 0:0123", "log A commit 0 0 #2 to c1"),
        ("c2 st2 A abort 0:01", "log A commit 0 0 #2 to c2"),
        ("c1 invoke A 0:0 1:0 2:0 3:0", "elect A commit 1 #3 to r5"),
        ("r0 elect A commit 1", ""),
        ("r1 elect A commit 1", ""),
        ("r2 elect A abort 1", ""),
        ("r3 elect A abort 1", ""),
        (
            "r4 elect A abort 1",
            "decide A abort 1 0c 1c 2a 3a 4a #4 to r0 r1 r2 r3 r4 r5",
        ),
        ("r5 elect A abort 1", ""),
        (
            "r5 decide A abort 1 0c 1c 2a 3a 4a",
            "log A abort 1 1 #5 to c1 c2",
        ),
        ("c1 st1 A x", "refused BadSignature(0)"),
        (
            "c1 writeback A abort 0:0123",
            "vote B abort #6 to c2; vote C abort #7 to c3 c4",
        ),
        ("c1 st1 A", "writeback A abort 0:0123 to c1"),
        ("c1 writeback A fast 0:012345", ""),
        ("c3 recover C", "vote C abort #7 to c3"),
        ("the table", "3"),
        ("the cell A", "abort 1 1"),
    ],
};

/// Whether the replica sends the same bytes this way.
fn is_alike(rt: &impl Abort, alloc: Global, way: Way, whole: &[u8]) -> Result<bool, Fail> {
    let sent = played(rt, alloc, &MIXED, way)?;
    Ok(sent.as_slice() == whole)
}

/// Whether it does so both ways in two halves.
fn are_alike(rt: &impl Abort, alloc: Global) -> Result<bool, Fail> {
    let whole = played(rt, alloc, &MIXED, Way::Whole)?;
    Ok(is_alike(rt, alloc, Way::Halves, &whole)? && is_alike(rt, alloc, Way::Again, &whole)?)
}

#[test]
fn both_roads_answer_alike(rt: HostRuntime) -> Result<(), Fail> {
    assert!(rt; are_alike(&rt, rt.alloc())?);
    Ok(())
}
