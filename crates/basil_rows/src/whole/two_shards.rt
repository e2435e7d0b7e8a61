//! Runs of two shards.

use crate::whole::{Whole, are_carried, are_replayed};
use basil_cli::status::Status;
use std::test::Fail;

const ROWS: &[Whole] = &[
    (
        "shard 1 prepares what shard 0 aborts: its reader waits, and is then aborted",
        b"\
        basil 1 f=0 shards=2 reads=1 delta=100 clock=50 keys=plain\n\
        begin t3 3 40\n\
        read t3 b\n\
        round\n\
        begin t1 1 10\n\
        write t1 a x1\n\
        write t1 b y1\n\
        prepare t1\n\
        round\n\
        begin t2 2 20\n\
        read t2 a\n\
        deliver 7\n\
        deliver 8\n\
        prepare t2\n\
        deliver 9\n\
        round\n\
        round\n\
        round\n\
        round\n",
        Status::Done,
        b"tx t3 open\nread t3 b -\ntx t1 abort\ntx t2 abort\nread t2 a t1 x1\nend 13\n",
    ),
    (
        "shard 1 holds t1 as prepared until message 8 brings its abort: t4 reads nothing there",
        b"\
        basil 1 f=0 shards=2 reads=1 delta=100 clock=50 keys=plain\n\
        begin t3 3 40\n\
        read t3 b\n\
        round\n\
        begin t1 1 10\n\
        write t1 a x1\n\
        write t1 b y1\n\
        prepare t1\n\
        round\n\
        round\n\
        round\n\
        begin t4 4 30\n\
        read t4 a\n\
        round\n\
        round\n\
        prepare t4\n\
        round\n\
        round\n\
        round\n",
        Status::Done,
        b"tx t3 open\nread t3 b -\ntx t1 abort\ntx t4 commit\nread t4 a -\nend 13\n",
    ),
    (
        "a transfer: shard 0 decides fast, shard 1 by five votes and the log, which shard 0 keeps",
        b"\
        basil 1 f=1 shards=2 reads=2 delta=100 clock=50 keys=plain\n\
        begin t0 1 10\n\
        write t0 a 100\n\
        write t0 b 50\n\
        prepare t0\n\
        round\n\
        round\n\
        round\n\
        begin t1 2 20\n\
        read t1 a\n\
        read t1 b\n\
        round\n\
        round\n\
        write t1 a 70\n\
        write t1 b 80\n\
        prepare t1\n\
        round\n\
        lose 84\n\
        round\n\
        settle t1 2\n\
        round\n\
        round\n\
        round\n",
        Status::Done,
        b"tx t0 commit\ntx t1 commit\nread t1 a t0 100\nread t1 b t0 50\nkey a 70\nkey b 80\nend 108\n",
    ),
];

#[test]
fn each_is_replayed(rt: HostRuntime) -> Result<(), Fail> {
    are_replayed(&rt, rt.alloc(), ROWS)
}

#[test]
fn each_is_carried(rt: HostRuntime) -> Result<(), Fail> {
    are_carried(&rt, rt.alloc(), ROWS)
}
