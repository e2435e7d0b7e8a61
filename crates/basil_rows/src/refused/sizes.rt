//! Names, numbers and calls that are out of their bounds. A 33rd key stands with the other causes of its reason.

use crate::refused::{Refused, are_refused};
use crate::support::HEADER;
use std::test::Fail;

/// Numbers out of range: reason 3. Names that aren't begun, or are begun twice: reason 4.
const NUMBERS_AND_NAMES: &[Refused] = &[
    ("there is no client 17", b"begin t1 17 10\n", 2, 3),
    ("there is no client 0", b"begin t1 0 10\n", 2, 3),
    ("a client has a leading zero", b"begin t1 01 10\n", 2, 3),
    ("a time has a leading zero", b"begin t1 1 010\n", 2, 3),
    ("a time is 2^64", b"begin t1 1 18446744073709551616\n", 2, 3),
    ("client 17 settles", b"settle t1 17\n", 2, 3),
    ("no cluster has a shard 8", b"vote 8 0 t1 commit 1\n", 2, 3),
    ("the view 0 has no leader", b"elect 0 0 t1 commit 0\n", 2, 3),
    ("nothing is begun to write", b"write t1 a x\n", 2, 4),
    ("nothing is begun to delete", b"delete t1 a\n", 2, 4),
    ("nothing is begun to form", b"prepare t1\n", 2, 4),
    (
        "a name is begun twice",
        b"\
        begin t1 1 10\n\
        begin t1 2 20\n",
        3,
        4,
    ),
    (
        "another name is begun",
        b"\
        begin t1 1 10\n\
        write t2 a x\n",
        3,
        4,
    ),
];

/// Keys of 65 bytes, and a value of 257: reason 8.
const SIZES: &[Refused] = &[
    (
        "a key that is written has 65 bytes",
        b"\
        begin t1 1 10\n\
        write t1 k\
        kkkkkkkkkkkkkkkkkkkkkkkkkkkkkkkkkkkkkkkkkkkkkkkkkkkkkkkkkkkkkkkk \
        x\n",
        3,
        8,
    ),
    (
        "a value has 257 bytes",
        b"\
        begin t1 1 10\n\
        write t1 a v\
        vvvvvvvvvvvvvvvvvvvvvvvvvvvvvvvvvvvvvvvvvvvvvvvvvvvvvvvvvvvvvvvv\
        vvvvvvvvvvvvvvvvvvvvvvvvvvvvvvvvvvvvvvvvvvvvvvvvvvvvvvvvvvvvvvvv\
        vvvvvvvvvvvvvvvvvvvvvvvvvvvvvvvvvvvvvvvvvvvvvvvvvvvvvvvvvvvvvvvv\
        vvvvvvvvvvvvvvvvvvvvvvvvvvvvvvvvvvvvvvvvvvvvvvvvvvvvvvvvvvvvvvvv\n",
        3,
        8,
    ),
    (
        "a size comes before a name that isn't begun",
        b"\
        write zz k\
        kkkkkkkkkkkkkkkkkkkkkkkkkkkkkkkkkkkkkkkkkkkkkkkkkkkkkkkkkkkkkkkk \
        v\n",
        2,
        8,
    ),
    (
        "a key that is deleted has 65 bytes",
        b"\
        delete t1 k\
        kkkkkkkkkkkkkkkkkkkkkkkkkkkkkkkkkkkkkkkkkkkkkkkkkkkkkkkkkkkkkkkk\n",
        2,
        8,
    ),
];

/// Calls that a client refuses: reason 9.
const CALLS: &[Refused] = &[
    ("a client's first time is 0", b"begin t1 1 0\n", 2, 9),
    (
        "a client's time is the one before",
        b"\
        begin t1 1 10\n\
        begin t2 1 10\n",
        3,
        9,
    ),
    (
        "a client's time is below the one before",
        b"\
        begin t1 1 10\n\
        begin t2 1 9\n",
        3,
        9,
    ),
    (
        "an empty transaction isn't formed",
        b"\
        begin t1 1 10\n\
        prepare t1\n",
        3,
        9,
    ),
    (
        "a transaction isn't formed twice",
        b"\
        begin t1 1 10\n\
        write t1 a x\n\
        prepare t1\n\
        prepare t1\n",
        5,
        9,
    ),
    (
        "a formed transaction takes no write",
        b"\
        begin t1 1 10\n\
        write t1 a x\n\
        prepare t1\n\
        write t1 b y\n",
        5,
        9,
    ),
    (
        "a formed transaction takes no deletion",
        b"\
        begin t1 1 10\n\
        write t1 a x\n\
        prepare t1\n\
        delete t1 a\n",
        5,
        9,
    ),
];

#[test]
fn each_number_and_name_is_refused(rt: HostRuntime) -> Result<(), Fail> {
    are_refused(&rt, rt.alloc(), HEADER, NUMBERS_AND_NAMES, b"")
}

#[test]
fn each_size_is_refused(rt: HostRuntime) -> Result<(), Fail> {
    are_refused(&rt, rt.alloc(), HEADER, SIZES, b"")
}

#[test]
fn each_call_is_refused(rt: HostRuntime) -> Result<(), Fail> {
    are_refused(&rt, rt.alloc(), HEADER, CALLS, b"")
}
