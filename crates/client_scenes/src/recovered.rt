//! Transactions that are recovered, and the fallback.

use crate::stages::{Scene, plays};
use std::test::Fail;

/// Client 1 in a cluster of two shards with f = 1: a, c and e are in shard 1, b and d in shard 0. B and E are logged in
/// shard 0, C in shard 1.
const TWO: Scene = Scene {
    f: 1,
    shards: 2,
    reads: 2,
    leaf: 0,
    cast: &["B 20 2 +a +b", "C 21 2 +a +b", "E 10 1 +b", "R 30 3 b=-"],
    steps: &[],
};

/// Each new transaction has a slot of its own, and a held one keeps its slot, one's own too.
const SLOTS: Scene = Scene {
    steps: &[
        ("recover B", "slot 0; recover B to 0:012345 1:012345"),
        ("recover B", "slot 0; recover B to 0:012345 1:012345"),
        ("begin 10", "slot 1"),
        ("write 1 b x1", ""),
        ("recover C", "slot 2; recover C to 0:012345 1:012345"),
        ("prepare 1", "st1 E #0 to 0:012345"),
        ("recover E", "slot 1; recover E #0 to 0:012345"),
        ("recover B", "slot 0; recover B to 0:012345 1:012345"),
        ("recover C", "slot 2; recover C to 0:012345 1:012345"),
        ("formed 0", "B plain"),
        ("formed 1", "E #0"),
        ("formed 2", "C plain"),
        ("value 0 a", "not read"),
        // Begun times rise by themselves.
        ("begin 11", "slot 3"),
        ("signed", "E"),
    ],
    ..TWO
};

/// A recovered transaction is handled as one's own: it's decided, and everybody is told.
const HANDLED: Scene = Scene {
    steps: &[
        ("recover B", "slot 0; recover B to 0:012345 1:012345"),
        ("settle 0", "same"),
        ("invoke 0", "refused NothingLogged"),
        ("vote 0:012345 B commit", ""),
        ("vote 1:01 B abort", ""),
        ("vote 1:234 B commit", ""),
        ("held 0", "11"),
        (
            "vote 1:5 B commit",
            "st2 B commit 0:0123 1:2345 to 0:012345",
        ),
        ("settle 0", "same"),
        ("log 0:0123 B commit 0 0", ""),
        (
            "log 0:5 B commit 0 1",
            "writeback B logged commit 0 0:01235 to 0:012345 1:012345",
        ),
        ("outcome 0", "commit logged commit 0 0:01235"),
        // Also once it is decided.
        ("recover B", "slot 0; recover B to 0:012345 1:012345"),
        ("settle 0", "same"),
        ("invoke 0", "same"),
        ("recover C", "slot 1; recover C to 0:012345 1:012345"),
        ("vote 0:35 C abort", ""),
        ("settle 1", "st2 C abort 0:35 to 1:012345"),
        (
            "vote 0:1 C abort by R fast 0:012345",
            "writeback C conflict 0:1 R fast 0:012345 to 0:012345 1:012345",
        ),
        ("recover E", "slot 2; recover E to 0:012345"),
        (
            "writeback E abort 0:0123",
            "writeback E abort 0:0123 to 0:012345",
        ),
        ("signed", ""),
    ],
    ..TWO
};

const RECOVERED: &[Scene] = &[SLOTS, HANDLED];

#[test]
fn a_recovered_transaction_is_pursued(rt: HostRuntime) -> Result<(), Fail> {
    plays(&rt, rt.alloc(), 1, RECOVERED)
}

/// The log replies that are held go to the log shard: of each replica the one with the greatest current view, the
/// earliest among equals.
const INVOKED: Scene = Scene {
    steps: &[
        ("recover C", "slot 0; recover C to 0:012345 1:012345"),
        ("log 1:4 C commit 0 0", ""),
        ("invoke 0", "invoke C 1 4c0/0 to 1:012345"),
        // By their replicas, ascending.
        ("log 1:1 C abort 0 2", ""),
        ("log 1:2 C commit 1 3", ""),
        ("invoke 0", "invoke C 1 1a0/2 2c1/3 4c0/0 to 1:012345"),
        // Again, and nothing changed.
        ("invoke 0", "invoke C 1 1a0/2 2c1/3 4c0/0 to 1:012345"),
        // A greater current view, a smaller and an equal one.
        ("log 1:1 C commit 3 5", ""),
        ("log 1:1 C commit 2 4", ""),
        ("log 1:1 C abort 5 5", ""),
        ("log 1:4 C abort 0 0", ""),
        ("log 1:2 C abort 0 3", ""),
        ("invoke 0", "invoke C 1 1c3/5 2c1/3 4c0/0 to 1:012345"),
        ("log 1:1 C abort 0 18446744073709551615", ""),
        (
            "invoke 0",
            "invoke C 1 1a0/18446744073709551615 2c1/3 4c0/0 to 1:012345",
        ),
        ("held 0", "9"),
        // Votes don't count as logged.
        ("vote 1:0 C commit", ""),
        (
            "invoke 0",
            "invoke C 1 1a0/18446744073709551615 2c1/3 4c0/0 to 1:012345",
        ),
        (
            "writeback C logged abort 5 1:01234",
            "writeback C logged abort 5 1:01234 to 0:012345 1:012345",
        ),
        ("invoke 0", "same"),
    ],
    ..TWO
};

/// One's own too. An outcome without a log reply invokes nothing, and refuses nothing.
const OWN: Scene = Scene {
    cast: &["E 10 1 +b", "B 20 2 +a +b"],
    steps: &[
        ("begin 10", "slot 0"),
        ("write 0 b x1", ""),
        ("prepare 0", "st1 E #0 to 0:012345"),
        ("log 0:23 E commit 0 1", ""),
        ("invoke 0", "invoke E 0 2c0/1 3c0/1 to 0:012345"),
        ("log 0:45 E commit 0 0", ""),
        (
            "log 0:0 E commit 0 0",
            "writeback E logged commit 0 0:02345 to 0:012345",
        ),
        ("invoke 0", "same"),
        ("recover B", "slot 1; recover B to 0:012345 1:012345"),
        ("invoke 1", "refused NothingLogged"),
        (
            "writeback B abort 1:0123",
            "writeback B abort 1:0123 to 0:012345 1:012345",
        ),
        ("invoke 1", "same"),
        ("settle 1", "same"),
    ],
    ..TWO
};

const INVOKES: &[Scene] = &[INVOKED, OWN];

#[test]
fn an_invoke_has_the_latest_log_replies(rt: HostRuntime) -> Result<(), Fail> {
    plays(&rt, rt.alloc(), 1, INVOKES)
}
