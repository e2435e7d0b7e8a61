//! Views that invokes raise, with f = 1: by four reports of a view, or by two of one above the current view.

use crate::scenes::stages::{Scene, plays};
use std::test::Fail;

/// View v of A is led by replica 10 + v modulo 6.
const RAISED: Scene = Scene {
    shards: 1,
    shard: 0,
    index: 0,
    leaf: 0,
    cast: &["A 10 1 +a"],
    steps: &[
        ("c1 invoke A 0:0 1:0 2:0 3:0", "refused NotLogged"),
        ("c1 st1 A", "vote A commit #0 to c1"),
        ("c1 invoke A 0:0 1:0 2:0 3:0", "refused NotLogged"),
        ("c1 st2 A abort 0:01", "log A abort 0 0 #1 to c1"),
        ("c1 invoke A", "refused StaleView(0)"),
        ("c1 invoke A 0:0 1:0 2:0", "refused StaleView(0)"),
        ("c1 invoke A 0:7", "refused StaleView(0)"),
        // Four reports of a view: the next one.
        ("c1 invoke A 0:0 1:0 2:0 3:0", "elect A abort 1 #2 to r5"),
        (
            "c1 invoke A 0:0 1:0 2:0 3:0 4:0 5:0",
            "refused StaleView(1)",
        ),
        // Two reports of a view above the current one: that view. The replica leads it itself.
        ("c2 invoke A 0:2 1:2", "elect A abort 2 #3 to r0"),
        ("c2 invoke A 0:2 1:2", "refused StaleView(2)"),
        // The greatest view that two report, or a greater one.
        ("r3 invoke A 0:5 1:3 2:9", "elect A abort 5 #4 to r3"),
        // Four reports of a view come before two of a greater one.
        ("c2 invoke A 0:9 1:9 2:6 3:6", "elect A abort 7 #5 to r5"),
        ("c2 invoke A 0:3 1:3 2:9 3:9", "refused StaleView(7)"),
        ("the cell A", "abort 0 7"),
        // The last views.
        (
            "c2 invoke A 4:18446744073709551614 5:18446744073709551614",
            "elect A abort 18446744073709551614 #6 to r0",
        ),
        (
            "c2 invoke A 0:18446744073709551615 1:18446744073709551615 2:18446744073709551615 3:18446744073709551615",
            "elect A abort 18446744073709551615 #7 to r1",
        ),
        (
            "c2 invoke A 0:18446744073709551615 1:18446744073709551615 2:18446744073709551615 3:18446744073709551615",
            "refused StaleView(18446744073709551615)",
        ),
        (
            "r1 decide A commit 18446744073709551615 0c 1c 2c 3a 4a",
            "log A commit 18446744073709551615 18446744073709551615 #8 to c1 c2",
        ),
    ],
};

#[test]
fn reports_raise_views(rt: HostRuntime) -> Result<(), Fail> {
    plays(&rt, rt.alloc(), &RAISED)
}
