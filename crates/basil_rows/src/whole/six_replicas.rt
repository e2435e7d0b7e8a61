//! Runs of one shard with six replicas, and with the most.

use crate::whole::{Whole, are_carried, are_replayed};
use basil_cli::status::Status;
use line_fields::reason::Reason;
use std::test::Fail;

const ROWS: &[Whole] = &[
    (
        "f is 6 at most",
        b"\
        basil 1 f=7 shards=1 reads=2 delta=100 clock=50 keys=plain\n\
        begin t1 1 10\n",
        Status::BadInput {
            line: 1,
            reason: Reason::NoHeader,
        },
        b"line 1 reason 1\n",
    ),
    (
        "six first stages, six votes, and six writebacks",
        b"\
        basil 1 f=1 shards=1 reads=2 delta=100 clock=50 keys=plain\n\
        begin t1 1 10\n\
        write t1 a x1\n\
        prepare t1\n\
        round\n\
        round\n\
        round\n",
        Status::Done,
        b"tx t1 commit\nkey a x1\nend 18\n",
    ),
    (
        "one vote is lost, so the decision is logged: the fifth log reply decides",
        b"\
        basil 1 f=1 shards=1 reads=2 delta=100 clock=50 keys=plain\n\
        begin t1 1 10\n\
        write t1 a x1\n\
        prepare t1\n\
        round\n\
        lose 12\n\
        round\n\
        settle t1 1\n\
        round\n\
        round\n\
        round\n",
        Status::Done,
        b"tx t1 commit\nkey a x1\nend 30\n",
    ),
    (
        "two votes are lost, and four don't decide",
        b"\
        basil 1 f=1 shards=1 reads=2 delta=100 clock=50 keys=plain\n\
        begin t1 1 10\n\
        write t1 a x1\n\
        prepare t1\n\
        round\n\
        lose 12\n\
        lose 11\n\
        round\n\
        round\n",
        Status::Done,
        b"tx t1 open\nend 12\n",
    ),
    (
        "votes to abort, each with the certificate of the reader in the way: one of them decides",
        b"\
        basil 1 f=1 shards=1 reads=2 delta=100 clock=50 keys=plain\n\
        begin t1 1 30\n\
        read t1 a\n\
        round\n\
        round\n\
        prepare t1\n\
        round\n\
        round\n\
        round\n\
        begin t2 2 20\n\
        write t2 a x2\n\
        prepare t2\n\
        round\n\
        deliver 37\n",
        Status::Done,
        b"tx t1 commit\nread t1 a -\ntx t2 abort\nend 48\n",
    ),
    (
        "with f = 1 a second replica of a shard can't be faulty",
        b"\
        basil 1 f=1 shards=1 reads=2 delta=100 clock=50 keys=plain\n\
        faulty replica 0 1\n\
        faulty replica 0 2\n",
        Status::BadInput {
            line: 3,
            reason: Reason::CannotBeFaulty,
        },
        b"line 3 reason 5\n",
    ),
    (
        "a repeated first stage gives the stored vote, as message 13",
        b"\
        basil 1 f=1 shards=1 reads=2 delta=100 clock=50 keys=plain\n\
        begin t1 1 10\n\
        write t1 a x1\n\
        prepare t1\n\
        round\n\
        deliver 1\n\
        round\n\
        round\n\
        deliver 7\n",
        Status::Done,
        b"tx t1 commit\nkey a x1\nend 19\n",
    ),
    (
        "a writeback of six votes, put together by another program, is shown to nobody",
        b"\
        basil 1 f=1 shards=1 reads=2 delta=100 clock=50 keys=plain\n\
        begin t1 1 10\n\
        write t1 a x1\n\
        prepare t1\n\
        round\n\
        show \
        0701000000000000000a010001016100027831012c05d55955a67c7b2d552c41c183b8433d6f2aea3709642bef3b7298\
        bbcf7158010006000020d17ba9b479b2c2cf6b13b608f7eff5dd627ef785fc88c830f762e3d4189f33440100208fffcd\
        9a0830cbe7417deca3c67cfb2d550eb186e3cfdb2c75ceb401f70f99390200201ea23e4ccbfac176c12d38c211f73953\
        544665a9f4bf5cf76b51d2a1ba74eeed0300208bb8436a07a1d40487f041f09314f8a3e755aa1acd037a1cb195980158\
        2fde9f0400209b11cfeb86b29f8297cc192e5ce0377d819d2ab0b5d560041cc4b9cb456d07ad050020c2552ee979575e\
        3502104849863f295fca5f346a5c2e03b5c1e428b33abcea06\n",
        Status::Done,
        b"tx t1 commit\nkey a x1\nend 12\n",
    ),
    (
        "a faulty client claims to have read of its own, which isn't formed",
        b"\
        basil 1 f=1 shards=1 reads=2 delta=100 clock=50 keys=plain\n\
        faulty client 1\n\
        begin t1 1 10\n\
        claim t1 a t1\n\
        prepare t1\n",
        Status::BadInput {
            line: 4,
            reason: Reason::WrongName,
        },
        b"line 4 reason 4\n",
    ),
    (
        "five votes are in the pool and none is held at `settle`; the faulty replica gives none",
        b"\
        basil 1 f=1 shards=1 reads=2 delta=100 clock=50 keys=plain\n\
        faulty replica 0 5\n\
        begin t1 1 10\n\
        write t1 a x1\n\
        prepare t1\n\
        round\n\
        settle t1 1\n\
        round\n\
        round\n",
        Status::Done,
        b"tx t1 open\nend 11\n",
    ),
    (
        "replica 0 misses its writeback, and the certificate was seen all the same",
        b"\
        basil 1 f=1 shards=1 reads=2 delta=100 clock=50 keys=plain\n\
        begin t1 1 10\n\
        write t1 a x1\n\
        prepare t1\n\
        round\n\
        round\n\
        lose 13\n\
        round\n",
        Status::Done,
        b"tx t1 commit\nkey a x1\nend 18\n",
    ),
    (
        "each signature is a batch of one",
        b"\
        basil 1 f=1 shards=1 reads=2 delta=100 clock=50 keys=batch\n\
        begin t1 1 10\n\
        write t1 a x1\n\
        prepare t1\n\
        round\n\
        round\n\
        round\n",
        Status::Done,
        b"tx t1 commit\nkey a x1\nend 18\n",
    ),
    (
        "the largest shard: f = 6, so 31 replicas",
        b"\
        basil 1 f=6 shards=1 reads=7 delta=100 clock=50 keys=plain\n\
        begin t1 1 10\n\
        write t1 a x1\n\
        prepare t1\n\
        round\n\
        round\n\
        round\n",
        Status::Done,
        b"tx t1 commit\nkey a x1\nend 93\n",
    ),
];

#[test]
fn each_is_replayed(rt: HostRuntime) -> Result<(), Fail> {
    are_replayed(&rt, rt.alloc(), ROWS)
}

#[test]
fn each_is_carried(rt: HostRuntime) -> Result<(), Fail> {
    are_carried(&rt, rt.alloc(), ROWS)
}
