//! What a transaction reads: what is chosen among replies, and what it wrote itself.

use crate::stages::{Scene, plays};
use std::test::Fail;

/// Client 1 in a cluster of one shard with f = 1, whose reads wait for three replies.
const THREE: Scene = Scene {
    f: 1,
    shards: 1,
    reads: 3,
    leaf: 0,
    cast: &[],
    steps: &[],
};

const CAST: &[&str] = &[
    "E 20 2 +a=e1",
    "P 30 3 +a=p1",
    "Q 31 4 +a=q1 +b=q2",
    "D 25 2 /a",
    "S 20 3 +a=s1",
];

/// Nothing, or a version that one replica alone prepared: genesis is read.
const GENESIS: Scene = Scene {
    cast: &["P 30 3 +a", "Q 31 4 +a", "T 40 1 a=- b=- c=-"],
    steps: &[
        ("begin 40", "slot 0"),
        ("value 0 a", "not read"),
        ("read 0 a", "read a 40 1 to 0:012345"),
        ("value 0 a", "pending"),
        ("reply 0:024 a 40 1", ""),
        ("value 0 a", "absent"),
        ("read 0 b", "read b 40 1 to 0:012345"),
        ("reply 0:12 b 40 1", "same"),
        ("value 0 b", "pending"),
        ("reply 0:5 b 40 1", ""),
        ("value 0 b", "absent"),
        ("read 0 c", "read c 40 1 to 0:012345"),
        ("reply 0:012 c 40 1", ""),
        ("prepare 0", "st1 T #0 to 0:012345"),
        ("formed 0", "T #0"),
    ],
    ..THREE
};

/// What f replicas prepared isn't read, and what f + 1 did is, as a dependency.
const PREPARED: Scene = Scene {
    cast: &[
        "P 30 3 +a=p1 +b=p2 +c=p3",
        "Q 31 4 +a +b +c",
        "T 40 1 a=- b?P c?P +d",
    ],
    steps: &[
        ("begin 40", "slot 0"),
        ("read 0 a", "read a 40 1 to 0:012345"),
        ("reply 0:0 a 40 1 prepared P", "same"),
        ("reply 0:1 a 40 1 prepared Q", "same"),
        ("reply 0:2 a 40 1", ""),
        ("value 0 a", "absent"),
        ("read 0 b", "read b 40 1 to 0:012345"),
        ("reply 0:0 b 40 1 prepared P", "same"),
        ("reply 0:3 b 40 1", "same"),
        ("reply 0:5 b 40 1 prepared P", ""),
        ("value 0 b", "P gave p2"),
        // The greater one doesn't count.
        ("read 0 c", "read c 40 1 to 0:012345"),
        ("reply 0:0 c 40 1 prepared Q", "same"),
        ("reply 0:34 c 40 1 prepared P", ""),
        ("value 0 c", "P gave p3"),
        ("write 0 d x1", ""),
        ("prepare 0", "st1 T #0 to 0:012345"),
    ],
    ..THREE
};

/// One reply with a committed version is enough.
const COMMITTED: Scene = Scene {
    cast: &[
        "E 20 2 +a=e1 +b=e2 +c=e3 +d=e4",
        "P 30 3 +b +c=p3",
        "L 35 4 +d=l4",
        "T 40 1 a=E b=E c?P d=L",
    ],
    steps: &[
        ("begin 40", "slot 0"),
        ("read 0 a", "read a 40 1 to 0:012345"),
        ("reply 0:12 a 40 1", "same"),
        ("reply 0:3 a 40 1 committed E fast 0:012345", ""),
        ("value 0 a", "E gave e1"),
        // Above it what one replica prepared doesn't count, and what two did does.
        ("read 0 b", "read b 40 1 to 0:012345"),
        ("reply 0:12 b 40 1", "same"),
        ("reply 0:3 b 40 1 committed E fast 0:012345 prepared P", ""),
        ("value 0 b", "E gave e2"),
        ("read 0 c", "read c 40 1 to 0:012345"),
        (
            "reply 0:12 c 40 1 committed E fast 0:012345 prepared P",
            "same",
        ),
        ("reply 0:3 c 40 1 committed E fast 0:012345", ""),
        ("value 0 c", "P gave p3"),
        // The greater of two, whatever comes first.
        ("read 0 d", "read d 40 1 to 0:012345"),
        ("reply 0:0 d 40 1 committed L fast 0:012345", "same"),
        ("reply 0:45 d 40 1 committed E fast 0:012345", ""),
        ("value 0 d", "L gave l4"),
        ("prepare 0", "st1 T #0 to 0:012345"),
    ],
    ..THREE
};

/// What is committed by one reply is no dependency, whoever prepared it.
const BOTH: Scene = Scene {
    cast: &[
        "E 20 2 +a=e1 +b=e2",
        "O 10 2 +a +b",
        "P 30 3 +b=p2",
        "T 40 1 a=E b?P",
    ],
    steps: &[
        ("begin 40", "slot 0"),
        ("read 0 a", "read a 40 1 to 0:012345"),
        (
            "reply 0:12 a 40 1 committed O fast 0:012345 prepared E",
            "same",
        ),
        ("reply 0:3 a 40 1 committed E fast 0:012345", ""),
        ("value 0 a", "E gave e1"),
        // A prepared one that stands above a committed one.
        ("read 0 b", "read b 40 1 to 0:012345"),
        ("reply 0:12 b 40 1 prepared P", "same"),
        ("reply 0:3 b 40 1 committed E fast 0:012345", ""),
        ("value 0 b", "P gave p2"),
        ("prepare 0", "st1 T #0 to 0:012345"),
    ],
    ..THREE
};

/// Versions of one time stand in the order of their clients, and a version may delete.
const ORDERED: Scene = Scene {
    cast: &[
        "E 20 2 +a=e1",
        "S 20 3 +a=s1",
        "D 25 2 /b +c=d3",
        "F 24 2 +b=f2",
        "T 40 1 a=S b=D c=D",
    ],
    steps: &[
        ("begin 40", "slot 0"),
        ("read 0 a", "read a 40 1 to 0:012345"),
        ("reply 0:0 a 40 1 committed E fast 0:012345", "same"),
        ("reply 0:1 a 40 1 committed S fast 0:012345", "same"),
        ("reply 0:2 a 40 1 committed E fast 0:012345", ""),
        ("value 0 a", "S gave s1"),
        ("read 0 b", "read b 40 1 to 0:012345"),
        ("reply 0:0 b 40 1 committed D fast 0:012345", "same"),
        ("reply 0:12 b 40 1 committed F fast 0:012345", ""),
        ("value 0 b", "D deleted"),
        ("read 0 c", "read c 40 1 to 0:012345"),
        ("reply 0:012 c 40 1 committed D logged commit 2 0:01234", ""),
        ("value 0 c", "D gave d3"),
        ("prepare 0", "st1 T #0 to 0:012345"),
    ],
    ..THREE
};

const CHOICES: &[Scene] = &[GENESIS, PREPARED, COMMITTED, BOTH, ORDERED];

#[test]
fn the_greatest_version_that_counts_is_read(rt: HostRuntime) -> Result<(), Fail> {
    plays(&rt, rt.alloc(), 1, CHOICES)
}

/// The first reply of each replica counts, until the choice is made.
const ONCE_EACH: Scene = Scene {
    cast: CAST,
    steps: &[
        ("begin 40", "slot 0"),
        ("read 0 a", "read a 40 1 to 0:012345"),
        ("reply 0:3 a 40 1", "same"),
        ("reply 0:3 a 40 1 committed E fast 0:012345", "same"),
        ("reply 0:3333 a 40 1 prepared P", "same"),
        ("value 0 a", "pending"),
        ("reply 0:1 a 40 1 prepared P", "same"),
        ("reply 0:31 a 40 1", "same"),
        ("value 0 a", "pending"),
        // One that is refused isn't the first.
        (
            "reply 0:0 a 40 1 committed E fast 0:01234",
            "refused BadCertificate(Few { count: 5, needed: 6 })",
        ),
        ("reply 0:0 a 40 1 prepared P", ""),
        ("value 0 a", "P gave p1"),
        // Too late.
        (
            "reply 0:4 a 40 1 committed E fast 0:012345",
            "refused NotMine",
        ),
        ("reply 0:5 a 40 1 prepared Q", "refused NotMine"),
        ("value 0 a", "P gave p1"),
    ],
    ..THREE
};

/// A second read sends nothing, neither while the first waits nor after its choice.
const ONCE: Scene = Scene {
    cast: CAST,
    steps: &[
        ("begin 40", "slot 0"),
        ("read 0 a", "read a 40 1 to 0:012345"),
        ("read 0 a", "same"),
        ("reply 0:0 a 40 1", "same"),
        ("read 0 a", "same"),
        ("reply 0:12 a 40 1 prepared P", ""),
        ("read 0 a", "same"),
        ("value 0 a", "P gave p1"),
        // Each transaction reads for itself.
        ("begin 41", "slot 1"),
        ("value 1 a", "not read"),
        ("read 1 a", "read a 41 1 to 0:012345"),
        ("reply 0:012 a 41 1", ""),
        ("value 1 a", "absent"),
        ("value 0 a", "P gave p1"),
    ],
    ..THREE
};

const ASKED: &[Scene] = &[ONCE_EACH, ONCE];

#[test]
fn each_key_is_asked_for_once(rt: HostRuntime) -> Result<(), Fail> {
    plays(&rt, rt.alloc(), 1, ASKED)
}

/// What is written is read back without a question, and is no read of the transaction.
const OWN: Scene = Scene {
    cast: &["T 40 1 +a=x3 /b +c=x1"],
    steps: &[
        ("begin 40", "slot 0"),
        ("write 0 c x1", ""),
        ("write 0 a x2", ""),
        ("value 0 a", "own x2"),
        ("read 0 a", "same"),
        ("value 0 a", "own x2"),
        // A second write replaces the first.
        ("write 0 a x3", ""),
        ("value 0 a", "own x3"),
        ("delete 0 b", ""),
        ("value 0 b", "own deleted"),
        ("read 0 b", "same"),
        ("write 0 b x1", ""),
        ("value 0 b", "own x1"),
        ("delete 0 b", ""),
        ("delete 0 b", "same"),
        ("prepare 0", "st1 T #0 to 0:012345"),
        ("value 0 a", "own x3"),
        ("value 0 b", "own deleted"),
        ("value 0 d", "not read"),
    ],
    ..THREE
};

/// A key that was read first and written then tells what was read, and stands in both lists.
const READ_FIRST: Scene = Scene {
    cast: &["E 20 2 +a=e1 +b=e2", "T 40 1 a=E b=- +a=x9 /b"],
    steps: &[
        ("begin 40", "slot 0"),
        ("read 0 b", "read b 40 1 to 0:012345"),
        ("read 0 a", "read a 40 1 to 0:012345"),
        ("write 0 a x9", "same"),
        ("value 0 a", "pending"),
        ("reply 0:012 a 40 1 committed E fast 0:012345", ""),
        ("value 0 a", "E gave e1"),
        ("reply 0:012 b 40 1", ""),
        ("delete 0 b", "same"),
        ("value 0 b", "absent"),
        ("prepare 0", "st1 T #0 to 0:012345"),
        ("value 0 a", "E gave e1"),
    ],
    ..THREE
};

const WRITTEN: &[Scene] = &[OWN, READ_FIRST];

#[test]
fn own_writes_are_read_back(rt: HostRuntime) -> Result<(), Fail> {
    plays(&rt, rt.alloc(), 1, WRITTEN)
}

/// Of two shards a is in shard 1 and b in shard 0. A read goes to its key's shard, and the first stage to all involved.
const SHARDS: Scene = Scene {
    shards: 2,
    cast: &["E 20 2 +a=e1 +b=e2", "T 40 1 a=E b?E", "U 41 1 c=-"],
    steps: &[
        ("begin 40", "slot 0"),
        ("read 0 a", "read a 40 1 to 1:012345"),
        ("read 0 b", "read b 40 1 to 0:012345"),
        (
            "reply 1:0 a 40 1 committed E fast 0:012345 1:012345",
            "same",
        ),
        ("reply 1:12 a 40 1", ""),
        ("value 0 a", "E gave e1"),
        ("reply 0:12 b 40 1 prepared E", "same"),
        ("reply 0:0 b 40 1", ""),
        ("value 0 b", "E gave e2"),
        ("prepare 0", "st1 T #0 to 0:012345 1:012345"),
        ("begin 41", "slot 1"),
        ("read 1 c", "read c 41 1 to 1:012345"),
        ("reply 1:012 c 41 1", ""),
        ("prepare 1", "st1 U #1 to 1:012345"),
        ("signed", "T U"),
    ],
    ..THREE
};

const SHARDED: &[Scene] = &[SHARDS];

#[test]
fn a_read_goes_to_its_keys_shard(rt: HostRuntime) -> Result<(), Fail> {
    plays(&rt, rt.alloc(), 1, SHARDED)
}
