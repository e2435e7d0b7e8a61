//! No header first, or one that is none.

use crate::refused::{Refused, are_refused};
use std::test::Fail;

/// Headers that are refused for their first numbers, which stand here.
const NUMBERS: &[Refused] = &[
    ("f is 7", b"f=7 shards=1 reads=8", 1, 1),
    ("there is no shard", b"f=0 shards=0 reads=1", 1, 1),
    ("there are nine shards", b"f=0 shards=9 reads=1", 1, 1),
    ("reads is 0", b"f=0 shards=1 reads=0", 1, 1),
    (
        "reads is above 4f + 1, with f 0",
        b"f=0 shards=1 reads=2",
        1,
        1,
    ),
    ("reads is below f + 1", b"f=1 shards=1 reads=1", 1, 1),
    ("reads is above 4f + 1", b"f=1 shards=1 reads=6", 1, 1),
];

const REFUSED: &[Refused] = &[
    ("there is no line", b"", 1, 1),
    ("each line is skipped", b"\n\n# x\n", 1, 1),
    ("the first line is another one", b"begin t1 1 10\n", 1, 1),
    ("a skipped line counts", b"# note\nround\n", 2, 1),
    ("a byte isn't ASCII", b"\xff\n", 1, 1),
    (
        "the first token is misspelt",
        b"\n\
        basin 1 f=0 shards=1 reads=1 delta=100 clock=50 keys=plain\n",
        2,
        1,
    ),
    (
        "the second token isn't 1",
        b"basil 2 f=0 shards=1 reads=1 delta=100 clock=50 keys=plain\n",
        1,
        1,
    ),
    (
        "the header ends with a space",
        b"basil 1 f=0 shards=1 reads=1 delta=100 clock=50 keys=plain \n",
        1,
        1,
    ),
    (
        "the clock has a leading zero, and the reason is 1 still",
        b"basil 1 f=0 shards=1 reads=1 delta=100 clock=050 keys=plain\n",
        1,
        1,
    ),
    (
        "there is no such set of LMS",
        b"basil 1 f=0 shards=1 reads=1 delta=100 clock=50 keys=w8h6\n",
        1,
        1,
    ),
];

#[test]
fn each_schedule_is_refused_at_its_line(rt: HostRuntime) -> Result<(), Fail> {
    are_refused(&rt, rt.alloc(), b"", REFUSED, b"")
}

#[test]
fn each_number_out_of_range_is_refused(rt: HostRuntime) -> Result<(), Fail> {
    are_refused(
        &rt,
        rt.alloc(),
        b"basil 1 ",
        NUMBERS,
        b" delta=100 clock=50 keys=plain\n",
    )
}
