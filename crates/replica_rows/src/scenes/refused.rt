//! What a replica refuses, the first refusal of each frame. That nothing changes by it each scene tests by itself: how
//! many transactions are known, what is logged of the frame's transaction, what was sent and signed, and, by the next
//! signature, the pen.

use crate::scenes::stages::{Scene, plays_each_way};
use std::test::Fail;

/// Of two shards a is in shard 1 and b in shard 0. Shard 0 logs A and C, shard 1 logs B and D, whose times are odd.
const CAST: &[&str] = &[
    "A 10 1 +b",
    "B 11 2 +a",
    "C 12 3 +a +b",
    "D 13 4 +a +b",
    "E 14 5",
    "F 0 6 +b",
    "G 11 7 b=C",
    "W 20 8 +b",
];

/// View v of A is led by replica 10 + v modulo 6, and of C by replica 12 + v modulo 6.
const UNFIT: Scene = Scene {
    shards: 2,
    shard: 0,
    index: 0,
    leaf: 0,
    cast: CAST,
    steps: &[
        ("c1 st1 A", "vote A commit #0 to c1"),
        ("c1 st2 A commit 0:0123", "log A commit 0 0 #1 to c1"),
        // No frames.
        ("c1 bytes", "refused BadFrame(Short(0))"),
        ("c1 bytes 3", "refused BadFrame(Short(1))"),
        ("c1 bytes 12", "refused BadFrame(Kind)"),
        ("r0 elect A commit 0", "refused BadFrame(Range(22))"),
        // No good form.
        ("c5 st1 E", "refused BadTransaction(Empty)"),
        ("c6 recover F", "refused BadTransaction(ZeroTime)"),
        (
            "c7 st2 G commit 0:0123",
            "refused BadTransaction(ReadNotBelow(0))",
        ),
        (
            "c6 writeback F fast 0:012345",
            "refused BadTransaction(ZeroTime)",
        ),
        ("r1 elect F commit 1", "refused BadTransaction(ZeroTime)"),
        (
            "r1 decide F commit 1 0c 1c 2c 3c 4c",
            "refused BadTransaction(ZeroTime)",
        ),
        // Kinds that go to clients.
        ("r1 reply b 20 1", "refused NotMine"),
        ("r1 vote A commit", "refused NotMine"),
        ("r1 log A commit 0 0", "refused NotMine"),
        // A key of another shard, and transactions of another shard alone.
        ("c1 read a 20 1", "refused NotMine"),
        ("c2 st1 B", "refused NotMine"),
        ("c2 recover B", "refused NotMine"),
        ("c2 writeback B fast 1:012345", "refused NotMine"),
        // Another log shard.
        ("c4 st2 D commit 0:0123 1:0123", "refused NotMine"),
        ("r1 elect D commit 5", "refused NotMine"),
        ("r2 decide D commit 1 0c 1c 2c 3c 4c", "refused NotMine"),
        // Another shard in the frame.
        ("r1 elect A commit 2 @1", "refused NotMine"),
        ("r5 decide A commit 1 0c 1c 2c 3c 4c @1", "refused NotMine"),
        ("c1 invoke A 0:3 1:3 @1", "refused NotMine"),
        // Of one frame the first refusal.
        ("c5 st1 E x", "refused BadTransaction(Empty)"),
        ("c2 st1 B x", "refused NotMine"),
        ("the table", "1"),
        ("the cell A", "commit 0 0"),
        ("c8 st1 W", "vote W commit #2 to c8"),
    ],
};

#[test]
fn unfit_frames_are_refused(rt: HostRuntime) -> Result<(), Fail> {
    plays_each_way(&rt, rt.alloc(), &UNFIT)
}

const UNSIGNED: Scene = Scene {
    shards: 2,
    shard: 0,
    index: 0,
    leaf: 0,
    cast: CAST,
    steps: &[
        ("c1 st1 A", "vote A commit #0 to c1"),
        ("c1 st2 A commit 0:0123", "log A commit 0 0 #1 to c1"),
        ("c1 st1 A x", "refused BadSignature(0)"),
        ("c1 st2 A commit 0:0123 x", "refused BadSignature(0)"),
        ("c1 recover A x", "refused BadSignature(0)"),
        ("c1 invoke A 0:3 1:3x 2:3", "refused BadSignature(1)"),
        ("r1 elect A commit 2 x", "refused BadSignature(0)"),
        (
            "r5 decide A commit 1 0c 1c 2cx 3c 4c",
            "refused BadSignature(2)",
        ),
        (
            "r5 decide A commit 1 0c 1c 2c 3c 4c x",
            "refused BadSignature(5)",
        ),
        // Certificates.
        (
            "c1 writeback A fast 0:01234",
            "refused BadCertificate(Few { count: 5, needed: 6 })",
        ),
        (
            "c1 writeback A fast 0:01234x5",
            "refused BadCertificate(BadSignature(5))",
        ),
        (
            "c1 writeback A abort 0:012",
            "refused BadCertificate(Few { count: 3, needed: 4 })",
        ),
        (
            "c1 writeback A logged abort 1 0:0123",
            "refused BadCertificate(Few { count: 4, needed: 5 })",
        ),
        (
            "c1 writeback A logged commit 1 1:01234",
            "refused BadCertificate(NotInvolved(1))",
        ),
        (
            "c1 writeback A conflict 0:3 C fast 0:012345 1:012345",
            "refused BadCertificate(NoConflict)",
        ),
        // Tallies.
        (
            "c1 st2 A commit 0:012",
            "refused BadTally(Few { count: 3, needed: 4 })",
        ),
        (
            "c1 st2 A abort 0:0",
            "refused BadTally(Few { count: 1, needed: 2 })",
        ),
        (
            "c1 st2 A commit 0:0x123",
            "refused BadTally(BadSignature(1))",
        ),
        ("c1 st2 A abort 1:01", "refused BadTally(NotInvolved(1))"),
        ("c1 st2 C commit 0:0123", "refused BadTally(NotInvolved(1))"),
        // Of one frame the first refusal.
        ("c1 st2 A commit 0:012 x", "refused BadSignature(0)"),
        ("c8 invoke W 0:1x", "refused BadSignature(0)"),
        ("r1 elect A commit 1 x", "refused BadSignature(0)"),
        ("the table", "1"),
        ("the cell A", "commit 0 0"),
        ("c8 st1 W", "vote W commit #2 to c8"),
    ],
};

#[test]
fn what_is_not_proved_is_refused(rt: HostRuntime) -> Result<(), Fail> {
    plays_each_way(&rt, rt.alloc(), &UNSIGNED)
}

const UNTIMELY: Scene = Scene {
    shards: 2,
    shard: 0,
    index: 0,
    leaf: 0,
    cast: CAST,
    steps: &[
        ("c1 st2 A commit 0:0123", "log A commit 0 0 #0 to c1"),
        ("c1 invoke A 0:2 1:2", "elect A commit 2 #1 to r0"),
        ("r1 decide C commit 1 0c 1c 2c 3c 4c", ""),
        ("c1 read b 151 1", "refused FromFuture(50)"),
        ("c8 invoke W 0:1 1:1", "refused NotLogged"),
        ("r1 elect A commit 1", "refused NotLeader"),
        ("r4 decide A commit 3 0c 1c 2c 3c 4c", "refused NotLeader"),
        ("c1 invoke A 0:2 1:2", "refused StaleView(2)"),
        (
            "r5 decide A commit 1 0c 1c 2c 3c 4c",
            "refused StaleView(2)",
        ),
        (
            "r1 decide C commit 1 0c 1c 2c 3c 4c",
            "refused AlreadyDecidedIn(1)",
        ),
        (
            "r2 decide C commit 2 0c 1c 2c 3c",
            "refused BadElection { words: 4, agreeing: 4 }",
        ),
        // Of one frame the first refusal.
        ("r4 decide A commit 1 0c", "refused NotLeader"),
        ("r5 decide A commit 1 0c", "refused StaleView(2)"),
        ("r1 decide C commit 1 0c", "refused AlreadyDecidedIn(1)"),
        ("the table", "2"),
        ("the cell A", "commit 0 2"),
        ("the cell C", "commit 1 1"),
        ("c8 st1 W", "vote W commit #3 to c8"),
    ],
};

#[test]
fn what_comes_too_early_or_late_is_refused(rt: HostRuntime) -> Result<(), Fail> {
    plays_each_way(&rt, rt.alloc(), &UNTIMELY)
}
