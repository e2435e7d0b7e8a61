//! The two roads of a call or a frame: at once, or planned and then committed or given up.

use crate::stages::{Scene, plays, plays_alike};
use std::test::Fail;

/// Of two shards a, c and e are in shard 1, b and d in shard 0.
const MIXED: Scene = Scene {
    f: 1,
    shards: 2,
    reads: 2,
    leaf: 30,
    cast: &[
        "E 5 2 +a=e1",
        "A 10 1 a=E d=- +b",
        "B 11 1 +a +b",
        "C 7 3 +a +b",
        "D 12 1 +d",
        "R 30 3 b=-",
        "F 0 3 +b",
    ],
    steps: &[
        ("begin 10", "slot 0"),
        ("read 0 a*65", "refused SizeOut"),
        ("prepare 0", "refused Empty"),
        ("read 0 a", "read a 10 1 to 1:012345"),
        ("read 0 a", "same"),
        ("write 0 b x1", ""),
        ("read 0 b", "same"),
        ("read 0 d", "read d 10 1 to 0:012345"),
        ("reply 1:x0 a 10 1", "refused BadSignature"),
        ("reply 1:0 a 10 1 committed E fast 1:012345", "same"),
        ("reply 1:0 a 10 1", "same"),
        ("prepare 0", "refused ReadPending of a"),
        ("reply 1:3 a 10 1", ""),
        ("reply 1:4 a 10 1", "refused NotMine"),
        ("prepare 0", "refused ReadPending of d"),
        ("reply 0:15 d 10 1", ""),
        ("value 0 a", "E gave e1"),
        ("settle 0", "refused NotPrepared"),
        ("invoke 0", "refused NotPrepared"),
        ("prepare 0", "st1 A #30 to 0:012345 1:012345"),
        ("prepare 0", "refused NotOpen"),
        ("begin 11", "slot 1"),
        ("write 1 a x1", ""),
        ("write 1 b x1", ""),
        ("prepare 1", "st1 B #31 to 0:012345 1:012345"),
        ("begin 12", "slot 2"),
        ("write 2 d x1", ""),
        ("prepare 2", "refused Exhausted"),
        // Votes one after the other, which are decided.
        ("vote 0:012345 A commit", ""),
        ("settle 0", "same"),
        ("vote 1:x0 A commit", "refused BadSignature"),
        ("vote 1:01234 A commit", ""),
        (
            "vote 1:5 A commit",
            "writeback A fast 0:012345 1:012345 to 0:012345 1:012345",
        ),
        ("vote 1:5 A commit", "same"),
        ("settle 0", "same"),
        ("invoke 0", "same"),
        // A second stage.
        ("vote 0:01 B abort", ""),
        ("settle 1", "st2 B abort 0:01 #31 to 1:012345"),
        ("settle 1", "same"),
        ("invoke 1", "refused NothingLogged"),
        ("log 1:0 B abort 0 0", ""),
        ("log 1:1 B abort 0 2", ""),
        ("log 1:1 B commit 1 1", ""),
        ("invoke 1", "invoke B 1 0a0/0 1a0/2 to 1:012345"),
        ("log 0:1 B commit 1 1", "refused NotMine"),
        (
            "log 1:234 B abort 0 1",
            "writeback B logged abort 0 1:01234 to 0:012345 1:012345",
        ),
        ("held 1", "8"),
        // What is recovered, anew and again.
        ("recover F", "refused BadTransaction(ZeroTime)"),
        ("recover C", "slot 3; recover C to 0:012345 1:012345"),
        ("recover C", "slot 3; recover C to 0:012345 1:012345"),
        ("recover A", "slot 0; recover A #30 to 0:012345 1:012345"),
        ("vote 0:01234 C commit", ""),
        ("vote 1:5432 C commit", ""),
        ("vote 1:01 C abort", ""),
        (
            "vote 0:5 C commit",
            "st2 C commit 0:0123 1:2345 to 1:012345",
        ),
        (
            "writeback C conflict 0:2 R fast 0:012345",
            "writeback C conflict 0:2 R fast 0:012345 to 0:012345 1:012345",
        ),
        ("frame 03", "refused BadFrame(Short(1))"),
        ("outcome 0", "commit fast 0:012345 1:012345"),
        ("outcome 1", "abort logged abort 0 1:01234"),
        ("outcome 2", "none"),
        ("outcome 3", "abort conflict 0:2 R"),
    ],
};

#[test]
fn both_roads_answer_alike(rt: HostRuntime) -> Result<(), Fail> {
    plays_alike(&rt, rt.alloc(), 1, &MIXED)
}

/// What is planned and given up leaves nothing behind: no slot, no read, no leaf that is spent, no vote that counts.
const DROPPED: Scene = Scene {
    f: 1,
    shards: 1,
    reads: 2,
    leaf: 0,
    cast: &[
        "E 5 2 +b=e1",
        "A 10 1 +a",
        "B 11 1 b=E",
        "C 7 3 +c",
        "D 8 3 +c",
        "R 30 3 a=-",
    ],
    steps: &[
        ("begin 10", "slot 0"),
        ("write 0 a x1", ""),
        ("drop prepare 0", "same"),
        ("formed 0", "none"),
        ("drop prepare 0", "same"),
        ("prepare 0", "st1 A #0 to 0:012345"),
        ("begin 11", "slot 1"),
        ("drop read 1 b", "same"),
        ("value 1 b", "not read"),
        ("drop prepare 1", "refused Empty"),
        ("read 1 b", "read b 11 1 to 0:012345"),
        ("drop reply 0:01 b 11 1", "same"),
        ("value 1 b", "pending"),
        ("drop reply 0:x0 b 11 1", "refused BadSignature"),
        ("reply 0:1 b 11 1", "same"),
        ("drop reply 0:0 b 11 1", "same"),
        ("value 1 b", "pending"),
        ("reply 0:0 b 11 1 committed E fast 0:012345", ""),
        ("value 1 b", "E gave e1"),
        ("prepare 1", "st1 B #1 to 0:012345"),
        // A dropped recovery holds no slot.
        ("drop recover C", "same"),
        ("recover D", "slot 2; recover D to 0:012345"),
        ("drop recover D", "same"),
        ("recover C", "slot 3; recover C to 0:012345"),
        // A dropped vote isn't the replica's first.
        ("vote 0:0123 A commit", ""),
        ("drop vote 0:4 A commit", "same"),
        ("drop vote 0:45 A commit", "same"),
        ("held 0", "4"),
        ("vote 0:4 A abort", ""),
        ("drop vote 0:5 A commit", "same"),
        ("drop vote 0:5 A abort by R fast 0:012345", "same"),
        ("outcome 0", "none"),
        ("drop settle 0", "same"),
        ("settle 0", "st2 A commit 0:0123 #0 to 0:012345"),
        ("drop settle 0", "same"),
        ("drop invoke 0", "refused NothingLogged"),
        ("log 0:0123 A commit 0 0", ""),
        ("drop log 0:4 A commit 0 0", "same"),
        ("outcome 0", "none"),
        ("drop log 0:0 A commit 2 2", "same"),
        ("drop invoke 0", "same"),
        ("log 0:4 A abort 1 1", ""),
        (
            "invoke 0",
            "invoke A 0 0c0/0 1c0/0 2c0/0 3c0/0 4a1/1 to 0:012345",
        ),
        ("drop writeback A abort 0:0123", "same"),
        ("outcome 0", "none"),
        ("held 0", "10"),
        (
            "vote 0:5 A abort by R fast 0:012345",
            "writeback A conflict 0:5 R fast 0:012345 to 0:012345",
        ),
        ("drop writeback A fast 0:012345", "same"),
        ("outcome 0", "abort conflict 0:5 R"),
        // In another slot the last vote, which starts the second stage by itself.
        ("vote 0:01 B abort", ""),
        ("vote 0:234 B commit", ""),
        ("drop vote 0:5 B commit", "same"),
        ("vote 0:5 B commit", "st2 B commit 0:2345 #1 to 0:012345"),
        ("signed", "A B"),
    ],
};

const GIVEN_UP: &[Scene] = &[DROPPED];

#[test]
fn what_is_given_up_leaves_nothing(rt: HostRuntime) -> Result<(), Fail> {
    plays(&rt, rt.alloc(), 1, GIVEN_UP)
}
