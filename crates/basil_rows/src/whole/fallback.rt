//! Runs in which replicas elect who decides.

use crate::whole::{Whole, are_carried, are_replayed};
use basil_cli::status::Status;
use std::test::Fail;

const ROWS: &[Whole] = &[
    (
        "a faulty client logs two decisions; another calls for an election, which leaves one",
        b"\
        basil 1 f=1 shards=1 reads=2 delta=10 clock=50 keys=plain\n\
        faulty replica 0 5\n\
        faulty client 1\n\
        clock 0 4 0\n\
        begin t1 1 13\n\
        write t1 a x1\n\
        prepare t1\n\
        round\n\
        vote 0 5 t1 abort 1\n\
        second t1 commit 0\n\
        second t1 commit 1\n\
        second t1 commit 2\n\
        second t1 abort 3\n\
        second t1 abort 4\n\
        round\n\
        recover t1 2\n\
        round\n\
        round\n\
        invoke t1 2\n\
        round\n\
        round\n\
        round\n\
        round\n\
        round\n",
        Status::Done,
        b"tx t1 commit\nkey a x1\nend 66\n",
    ),
    (
        "the leader of view 1 lies, and no certificate arises; replica 3 leads view 2, by three aborts of five",
        b"\
        basil 1 f=1 shards=1 reads=2 delta=10 clock=50 keys=plain\n\
        faulty replica 0 2\n\
        faulty client 1\n\
        clock 0 3 0\n\
        clock 0 4 0\n\
        begin t1 1 13\n\
        write t1 a x1\n\
        prepare t1\n\
        round\n\
        vote 0 2 t1 commit 1\n\
        second t1 commit 0\n\
        second t1 commit 1\n\
        second t1 abort 3\n\
        second t1 abort 4\n\
        second t1 commit 5\n\
        round\n\
        recover t1 2\n\
        round\n\
        round\n\
        invoke t1 2\n\
        round\n\
        elect 0 2 t1 abort 1\n\
        decide 0 2 t1 commit 1 0\n\
        decide 0 2 t1 commit 1 1\n\
        decide 0 2 t1 abort 1 3\n\
        decide 0 2 t1 abort 1 4\n\
        decide 0 2 t1 abort 1 5\n\
        round\n\
        round\n\
        invoke t1 2\n\
        round\n\
        round\n\
        round\n\
        round\n\
        round\n",
        Status::Done,
        b"tx t1 abort\nend 93\n",
    ),
];

#[test]
fn each_is_replayed(rt: HostRuntime) -> Result<(), Fail> {
    are_replayed(&rt, rt.alloc(), ROWS)
}

#[test]
fn each_is_carried(rt: HostRuntime) -> Result<(), Fail> {
    are_carried(&rt, rt.alloc(), ROWS)
}
