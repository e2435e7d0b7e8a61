//! What a client refuses of its calls, the first refusal of each. That nothing changes by it each scene tests by
//! itself.

use crate::stages::{Scene, plays};
use std::test::Fail;

/// Client 1 in a cluster of one shard with f = 1, whose reads wait for two replies.
const ONE: Scene = Scene {
    f: 1,
    shards: 1,
    reads: 2,
    leaf: 0,
    cast: &[],
    steps: &[],
};

const TIMES: Scene = Scene {
    steps: &[
        ("begin 0", "refused TimeNotAbove(0)"),
        ("begin 10", "slot 0"),
        ("begin 10", "refused TimeNotAbove(10)"),
        ("begin 9", "refused TimeNotAbove(10)"),
        ("begin 11", "slot 1"),
        ("begin 18446744073709551615", "slot 2"),
        (
            "begin 18446744073709551615",
            "refused TimeNotAbove(18446744073709551615)",
        ),
    ],
    ..ONE
};

/// The longest key.
const SIZES: Scene = Scene {
    cast: &["A 10 1 +a"],
    steps: &[
        ("begin 10", "slot 0"),
        ("read 0 a*0", "refused SizeOut"),
        ("read 0 a*65", "refused SizeOut"),
        ("write 0 a*0 x1", "refused SizeOut"),
        ("write 0 a*65 x1", "refused SizeOut"),
        ("write 0 a x*257", "refused SizeOut"),
        ("delete 0 a*0", "refused SizeOut"),
        ("delete 0 a*65", "refused SizeOut"),
        ("value 0 a", "not read"),
        ("write 0 a x1", ""),
        ("write 0 a x*257", "refused SizeOut"),
        ("value 0 a", "own x1"),
        ("prepare 0", "st1 A #0 to 0:012345"),
        // The largest sizes.
        ("begin 11", "slot 1"),
        (
            "read 1 a*64",
            "read aaaaaaaaaaaaaaaaaaaaaaaaaaaaaaaaaaaaaaaaaaaaaaaaaaaaaaaaaaaaaaaa 11 1 to 0:012345",
        ),
        ("write 1 b x*256", ""),
        ("write 1 c x*0", ""),
        ("value 1 c", "own "),
    ],
    ..ONE
};

const THE_33RD: Scene = Scene {
    steps: &[
        ("begin 10", "slot 0"),
        ("writes 0 32", "same"),
        ("write 0 a x1", "refused TooMany"),
        ("delete 0 a", "refused TooMany"),
        ("value 0 a", "not read"),
        // A key of the list is no further one.
        ("write 0 w7 x2", "same"),
        ("value 0 w7", "own x2"),
        ("delete 0 w31", "same"),
        ("value 0 w31", "own deleted"),
        ("reads 0 32", "same"),
        ("read 0 a", "refused TooMany"),
        ("value 0 a", "not read"),
        ("read 0 r31", "same"),
        ("read 0 w7", "same"),
        // Of one call the first refusal.
        ("read 0 a*65", "refused TooMany"),
        ("write 0 a*0 x1", "refused TooMany"),
        ("write 0 w7 x*257", "refused SizeOut"),
        ("prepare 0", "refused ReadPending of r0"),
    ],
    ..ONE
};

const PENDING: Scene = Scene {
    cast: &["A 10 1 a=- b=- c=-", "D 11 1 d=- +a"],
    steps: &[
        ("begin 10", "slot 0"),
        ("prepare 0", "refused Empty"),
        ("read 0 c", "read c 10 1 to 0:012345"),
        ("read 0 a", "read a 10 1 to 0:012345"),
        ("read 0 b", "read b 10 1 to 0:012345"),
        ("prepare 0", "refused ReadPending of a"),
        ("reply 0:0 a 10 1", "same"),
        ("prepare 0", "refused ReadPending of a"),
        ("reply 0:1 a 10 1", ""),
        ("prepare 0", "refused ReadPending of b"),
        ("reply 0:23 c 10 1", ""),
        ("prepare 0", "refused ReadPending of b"),
        ("reply 0:45 b 10 1", ""),
        ("prepare 0", "st1 A #0 to 0:012345"),
        // A read that waits, beside a write.
        ("begin 11", "slot 1"),
        ("write 1 a x1", ""),
        ("read 1 d", "read d 11 1 to 0:012345"),
        ("prepare 1", "refused ReadPending of d"),
        ("reply 0:05 d 11 1", ""),
        ("prepare 1", "st1 D #1 to 0:012345"),
    ],
    ..ONE
};

const CLOSED: Scene = Scene {
    cast: &["A 10 1 +a", "B 5 2 +b", "C 11 1 +c"],
    steps: &[
        ("begin 10", "slot 0"),
        ("write 0 a x1", ""),
        ("settle 0", "refused NotPrepared"),
        ("invoke 0", "refused NotPrepared"),
        ("prepare 0", "st1 A #0 to 0:012345"),
        ("read 0 b", "refused NotOpen"),
        ("read 0 a", "refused NotOpen"),
        ("write 0 a x2", "refused NotOpen"),
        ("delete 0 a", "refused NotOpen"),
        ("prepare 0", "refused NotOpen"),
        ("invoke 0", "refused NothingLogged"),
        // A recovered one isn't open either.
        ("recover B", "slot 1; recover B to 0:012345"),
        ("read 1 c", "refused NotOpen"),
        ("write 1 c x1", "refused NotOpen"),
        ("delete 1 c", "refused NotOpen"),
        ("prepare 1", "refused NotOpen"),
        ("invoke 1", "refused NothingLogged"),
        // Votes log nothing.
        ("vote 0:012 A commit", ""),
        ("invoke 0", "refused NothingLogged"),
        // Of one call the first refusal.
        ("read 0 b*65", "refused NotOpen"),
        ("write 0 b*0 x1", "refused NotOpen"),
        ("begin 11", "slot 2"),
        ("write 2 c x1", ""),
        ("prepare 2", "st1 C #1 to 0:012345"),
        ("signed", "A C"),
    ],
    ..ONE
};

const FORMLESS: Scene = Scene {
    cast: &[
        "A 30 2 +a",
        "E 14 5",
        "F 0 6 +b",
        "G 11 7 +b c=- d=A",
        "H 0 6",
    ],
    steps: &[
        ("recover E", "refused BadTransaction(Empty)"),
        ("recover F", "refused BadTransaction(ZeroTime)"),
        ("recover G", "refused BadTransaction(ReadNotBelow(1))"),
        ("recover H", "refused BadTransaction(Empty)"),
        ("recover A", "slot 0; recover A to 0:012345"),
    ],
    ..ONE
};

const CALLS: &[Scene] = &[TIMES, SIZES, THE_33RD, PENDING, CLOSED, FORMLESS];

#[test]
fn the_first_fault_of_a_call_is_told(rt: HostRuntime) -> Result<(), Fail> {
    plays(&rt, rt.alloc(), 1, CALLS)
}

/// Leaf 31 is left.
const LAST_LEAF: Scene = Scene {
    leaf: 31,
    cast: &["A 10 1 +a", "B 11 1 b=- +c", "D 5 2 +d"],
    steps: &[
        ("begin 10", "slot 0"),
        ("write 0 a x1", ""),
        ("begin 11", "slot 1"),
        ("prepare 1", "refused Empty"),
        ("prepare 0", "st1 A #31 to 0:012345"),
        ("prepare 0", "refused NotOpen"),
        ("prepare 1", "refused Empty"),
        ("read 1 b", "read b 11 1 to 0:012345"),
        ("write 1 c x1", ""),
        ("prepare 1", "refused ReadPending of b"),
        ("reply 0:01 b 11 1", ""),
        ("prepare 1", "refused Exhausted"),
        // It stays open.
        ("formed 1", "none"),
        ("write 1 c x2", ""),
        ("prepare 1", "refused Exhausted"),
        // What signs nothing goes on.
        ("recover D", "slot 2; recover D to 0:012345"),
        ("vote 0:0123 D commit", ""),
        ("settle 2", "st2 D commit 0:0123 to 0:012345"),
        ("log 0:0 D commit 0 0", ""),
        ("invoke 2", "invoke D 0 0c0/0 to 0:012345"),
        ("vote 0:01234 A commit", ""),
        ("vote 0:5 A commit", "writeback A fast 0:012345 to 0:012345"),
        ("signed", "A"),
    ],
    ..ONE
};

const NO_LEAF: Scene = Scene {
    leaf: 32,
    cast: &["A 10 1 +a"],
    steps: &[
        ("begin 10", "slot 0"),
        ("prepare 0", "refused Empty"),
        ("write 0 a x1", ""),
        ("prepare 0", "refused Exhausted"),
        ("signed", ""),
    ],
    ..ONE
};

const LEAVES: &[Scene] = &[LAST_LEAF, NO_LEAF];

#[test]
fn without_a_leaf_nothing_is_formed(rt: HostRuntime) -> Result<(), Fail> {
    plays(&rt, rt.alloc(), 1, LEAVES)
}
