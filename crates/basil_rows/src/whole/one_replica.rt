//! Runs of one shard with one replica.

use crate::whole::{Whole, are_carried, are_replayed};
use basil_cli::status::Status;
use line_fields::reason::Reason;
use std::test::Fail;

const ROWS: &[Whole] = &[
    (
        "one write: message 1 is the first stage, 2 the vote, 3 the writeback",
        b"\
        basil 1 f=0 shards=1 reads=1 delta=100 clock=50 keys=plain\n\
        begin t1 1 10\n\
        write t1 a x1\n\
        prepare t1\n\
        round\n\
        round\n\
        round\n",
        Status::Done,
        b"tx t1 commit\nkey a x1\nend 3\n",
    ),
    (
        "a header alone",
        b"basil 1 f=0 shards=1 reads=1 delta=100 clock=50 keys=plain\n",
        Status::Done,
        b"end 0\n",
    ),
    (
        "a read of nothing, a write, and a read of that write by a later client",
        b"\
        basil 1 f=0 shards=1 reads=1 delta=100 clock=50 keys=plain\n\
        begin t1 1 10\n\
        read t1 a\n\
        round\n\
        round\n\
        write t1 a x1\n\
        prepare t1\n\
        round\n\
        round\n\
        round\n\
        begin t2 2 20\n\
        read t2 a\n\
        round\n\
        round\n\
        prepare t2\n\
        round\n\
        round\n",
        Status::Done,
        b"tx t1 commit\nread t1 a -\ntx t2 commit\nread t2 a t1 x1\nkey a x1\nend 10\n",
    ),
    (
        "a noted read is later than the write, so the vote is to abort",
        b"\
        basil 1 f=0 shards=1 reads=1 delta=100 clock=50 keys=plain\n\
        begin t2 2 30\n\
        read t2 a\n\
        round\n\
        begin t1 1 20\n\
        write t1 a x1\n\
        prepare t1\n\
        round\n\
        round\n\
        round\n",
        Status::Done,
        b"tx t2 open\nread t2 a -\ntx t1 abort\nend 5\n",
    ),
    (
        "two transactions of one time and client: the greater id is that of x2, by sha256sum",
        b"\
        basil 1 f=0 shards=1 reads=1 delta=100 clock=50 keys=plain\n\
        faulty client 1\n\
        begin t1 1 10\n\
        write t1 a x1\n\
        begin t2 1 10\n\
        write t2 a x2\n\
        prepare t1\n\
        prepare t2\n\
        round\n\
        recover t1 2\n\
        recover t2 2\n\
        round\n\
        round\n",
        Status::Done,
        b"tx t1 commit\ntx t2 commit\nkey a x2\nend 10\n",
    ),
    (
        "message 1 is a byte that is no frame: it is refused, and the rest goes on",
        b"\
        basil 1 f=0 shards=1 reads=1 delta=100 clock=50 keys=plain\n\
        raw client 1 replica 0 0 03\n\
        begin t1 1 10\n\
        write t1 a x1\n\
        prepare t1\n\
        round\n\
        round\n\
        round\n",
        Status::Done,
        b"tx t1 commit\nkey a x1\nend 4\n",
    ),
    (
        "message 1 is delivered twice: the second time gives the stored vote",
        b"\
        basil 1 f=0 shards=1 reads=1 delta=100 clock=50 keys=plain\n\
        begin t1 1 10\n\
        write t1 a x1\n\
        prepare t1\n\
        round\n\
        deliver 1\n\
        round\n\
        round\n",
        Status::Done,
        b"tx t1 commit\nkey a x1\nend 4\n",
    ),
    (
        "a round passes a lost message by, and it may still be delivered",
        b"\
        basil 1 f=0 shards=1 reads=1 delta=100 clock=50 keys=plain\n\
        begin t1 1 10\n\
        write t1 a x1\n\
        prepare t1\n\
        lose 1\n\
        round\n\
        deliver 1\n\
        round\n\
        round\n",
        Status::Done,
        b"tx t1 commit\nkey a x1\nend 3\n",
    ),
    (
        "message 1 is handed to a client, who refuses it, and then to its replica",
        b"\
        basil 1 f=0 shards=1 reads=1 delta=100 clock=50 keys=plain\n\
        begin t1 1 10\n\
        write t1 a x1\n\
        prepare t1\n\
        divert 1 client 2\n\
        round\n\
        round\n\
        round\n",
        Status::Done,
        b"tx t1 commit\nkey a x1\nend 3\n",
    ),
    (
        "a first stage whose signature is 32 zero bytes is refused",
        b"\
        basil 1 f=0 shards=1 reads=1 delta=100 clock=50 keys=plain\n\
        raw client 1 replica 0 0 \
        0301000000000000000a0100010161000278310020\
        0000000000000000000000000000000000000000000000000000000000000000\n\
        round\n",
        Status::Done,
        b"end 1\n",
    ),
    (
        "a prepared write is read: its reader waits, and its vote, message 7, is released",
        b"\
        basil 1 f=0 shards=1 reads=1 delta=100 clock=50 keys=plain\n\
        begin t1 1 10\n\
        write t1 a x1\n\
        prepare t1\n\
        round\n\
        begin t2 2 20\n\
        read t2 a\n\
        deliver 3\n\
        deliver 4\n\
        prepare t2\n\
        deliver 5\n\
        round\n\
        round\n\
        round\n\
        round\n",
        Status::Done,
        b"tx t1 commit\ntx t2 commit\nread t2 a t1 x1\nkey a x1\nend 8\n",
    ),
    (
        "the own write answers a read, and nothing is sent for it",
        b"\
        basil 1 f=0 shards=1 reads=1 delta=100 clock=50 keys=plain\n\
        begin t1 1 10\n\
        write t1 a x1\n\
        read t1 a\n\
        prepare t1\n\
        round\n\
        round\n\
        round\n",
        Status::Done,
        b"tx t1 commit\nkey a x1\nend 3\n",
    ),
    (
        "what was read stays right: the earlier write that comes later is aborted",
        b"\
        basil 1 f=0 shards=1 reads=1 delta=100 clock=50 keys=plain\n\
        begin t2 2 30\n\
        read t2 a\n\
        round\n\
        round\n\
        begin t1 1 20\n\
        write t1 a x1\n\
        prepare t1\n\
        round\n\
        round\n\
        round\n\
        prepare t2\n\
        round\n\
        round\n\
        round\n",
        Status::Done,
        b"tx t2 commit\nread t2 a -\ntx t1 abort\nend 8\n",
    ),
    (
        "a read finds a deletion, whose line has no value",
        b"\
        basil 1 f=0 shards=1 reads=1 delta=100 clock=50 keys=plain\n\
        begin t1 1 10\n\
        write t1 a x1\n\
        prepare t1\n\
        round\n\
        round\n\
        round\n\
        begin t2 2 20\n\
        delete t2 a\n\
        prepare t2\n\
        round\n\
        round\n\
        round\n\
        begin t3 3 30\n\
        read t3 a\n\
        round\n\
        round\n\
        prepare t3\n\
        round\n\
        round\n\
        round\n",
        Status::Done,
        b"tx t1 commit\ntx t2 commit\ntx t3 commit\nread t3 a t2\nend 11\n",
    ),
    (
        "only a faulty replica votes because a line says so",
        b"\
        basil 1 f=0 shards=1 reads=1 delta=100 clock=50 keys=plain\n\
        begin t1 1 10\n\
        write t1 a x1\n\
        prepare t1\n\
        vote 0 0 t1 commit 1\n",
        Status::BadInput {
            line: 5,
            reason: Reason::WrongParty,
        },
        b"line 5 reason 6\n",
    ),
    (
        "there is no second message yet",
        b"\
        basil 1 f=0 shards=1 reads=1 delta=100 clock=50 keys=plain\n\
        begin t1 1 10\n\
        write t1 a x1\n\
        prepare t1\n\
        deliver 2\n",
        Status::BadInput {
            line: 5,
            reason: Reason::NoMessage,
        },
        b"line 5 reason 7\n",
    ),
    (
        "nothing is begun that could be settled",
        b"\
        basil 1 f=0 shards=1 reads=1 delta=100 clock=50 keys=plain\n\
        settle t1 1\n",
        Status::BadInput {
            line: 2,
            reason: Reason::WrongName,
        },
        b"line 2 reason 4\n",
    ),
    (
        "nothing is written that could be formed",
        b"\
        basil 1 f=0 shards=1 reads=1 delta=100 clock=50 keys=plain\n\
        begin t1 1 10\n\
        prepare t1\n",
        Status::BadInput {
            line: 3,
            reason: Reason::RefusedCall,
        },
        b"line 3 reason 9\n",
    ),
    (
        "the reply to a read hasn't come",
        b"\
        basil 1 f=0 shards=1 reads=1 delta=100 clock=50 keys=plain\n\
        begin t1 1 10\n\
        read t1 a\n\
        prepare t1\n",
        Status::BadInput {
            line: 4,
            reason: Reason::RefusedCall,
        },
        b"line 4 reason 9\n",
    ),
    (
        "there is no journal whose disk could stop",
        b"\
        basil 1 f=0 shards=1 reads=1 delta=100 clock=50 keys=plain\n\
        begin t1 1 10\n\
        write t1 a x1\n\
        prepare t1\n\
        stop 0 0 1 2 01\n",
        Status::BadInput {
            line: 5,
            reason: Reason::NoJournal,
        },
        b"line 5 reason 11\n",
    ),
    (
        "no input at all",
        b"",
        Status::BadInput {
            line: 1,
            reason: Reason::NoHeader,
        },
        b"line 1 reason 1\n",
    ),
    (
        "a vote to abort that the correct replica 0 never made, with its seed's signature, by another program",
        b"\
        basil 1 f=0 shards=1 reads=1 delta=100 clock=50 keys=plain\n\
        raw replica 0 0 client 1 \
        0400002c05d55955a67c7b2d552c41c183b8433d6f2aea3709642bef3b7298bbcf715801000020\
        ad12ea957f1e9aee7e67083728064be79c2ca76eb623338ae824759e2f3d1e81\n",
        Status::Broken,
        b"\
        broken forged replica 0 0 \
        0200002c05d55955a67c7b2d552c41c183b8433d6f2aea3709642bef3b7298bbcf715801 \
        ad12ea957f1e9aee7e67083728064be79c2ca76eb623338ae824759e2f3d1e81\n",
    ),
];

#[test]
fn each_is_replayed(rt: HostRuntime) -> Result<(), Fail> {
    are_replayed(&rt, rt.alloc(), ROWS)
}

#[test]
fn each_is_carried(rt: HostRuntime) -> Result<(), Fail> {
    are_carried(&rt, rt.alloc(), ROWS)
}
