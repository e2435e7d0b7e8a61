//! Lines that would stop a disk.

use crate::refused::{Refused, are_refused};
use crate::support::HEADER;
use std::test::Fail;

/// Six replicas with journals, of which one is faulty, and one first stage for each.
const BEFORE: &[u8] = b"\
    basil 1 f=1 shards=1 reads=2 delta=100 clock=50 keys=plain journal\n\
    faulty replica 0 5\n\
    begin t1 1 10\n\
    write t1 a x1\n\
    prepare t1\n";

const REFUSED: &[Refused] = &[
    ("a record has two writes", b"stop 0 0 1 3 01\n", 6, 3),
    (
        "the cluster has no such replica",
        b"stop 0 6 1 2 01\n",
        6,
        3,
    ),
    ("a faulty replica has no disk", b"stop 0 5 1 2 01\n", 6, 6),
    (
        "a faulty replica comes before a message that isn't there",
        b"stop 0 5 7 2 01\n",
        6,
        6,
    ),
    ("there are six messages", b"stop 0 0 7 2 01\n", 6, 7),
    ("messages are numbered from 1", b"stop 0 0 0 2 01\n", 6, 7),
    ("a disk is left with some bytes", b"stop 0 0 1 2 \n", 6, 2),
];

/// Without journals.
const UNWRITTEN: &[Refused] = &[
    (
        "the replica keeps no journal",
        b"begin t1 1 10\nwrite t1 a x1\nprepare t1\nstop 0 0 1 2 01\n",
        5,
        11,
    ),
    (
        "that is tested last",
        b"begin t1 1 10\nwrite t1 a x1\nprepare t1\nstop 0 0 2 2 01\n",
        5,
        7,
    ),
];

#[test]
fn each_stop_is_refused_for_its_reason(rt: HostRuntime) -> Result<(), Fail> {
    are_refused(&rt, rt.alloc(), BEFORE, REFUSED, b"")?;
    are_refused(&rt, rt.alloc(), HEADER, UNWRITTEN, b"")
}
