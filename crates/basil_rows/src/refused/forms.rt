//! Lines that have no form.

use crate::refused::{Refused, are_refused};
use crate::support::HEADER;
use std::test::Fail;

const REFUSED: &[Refused] = &[
    ("no line begins with this token", b"frob\n", 2, 2),
    ("a first token has a capital letter", b"Round\n", 2, 2),
    ("a line begins with a space", b" round\n", 2, 2),
    ("a line ends with a space", b"begin t1 1 10 \n", 2, 2),
    ("two spaces part two tokens", b"begin t1  1 10\n", 2, 2),
    ("a tab parts two tokens", b"begin\tt1 1 10\n", 2, 2),
    ("begin lacks the time", b"begin t1 1\n", 2, 2),
    ("begin has a token too many", b"begin t1 1 10 10\n", 2, 2),
    ("prepare lacks the name", b"prepare\n", 2, 2),
    ("round has a token too many", b"round 1\n", 2, 2),
    ("write lacks the value", b"write t1 a\n", 2, 2),
    ("delete lacks the key", b"delete t1\n", 2, 2),
    ("delete has a value", b"delete t1 a b\n", 2, 2),
    ("a name has a capital letter", b"begin T1 1 10\n", 2, 2),
    ("a name begins with a digit", b"begin 1t 1 10\n", 2, 2),
    ("a client is no number", b"begin t1 x 10\n", 2, 2),
    ("a number has a sign", b"begin t1 +1 10\n", 2, 2),
    ("a key has no byte", b"write t1 % v\n", 2, 2),
    ("an escape has no digits", b"write t1 %% v\n", 2, 2),
    ("an escape has one digit", b"write t1 %6 v\n", 2, 2),
    ("a letter is escaped", b"write t1 %61 v\n", 2, 2),
    ("a colon isn't escaped", b"write t1 a:b v\n", 2, 2),
    ("a byte isn't ASCII", b"write t1 \xc3\xa9 v\n", 2, 2),
    ("a second header has one token", b"basil\n", 2, 2),
    (
        "a second header is misspelt, though it is the same as the first",
        b"basil 1 f=0 shards=1 reads=1 delta=100 clock=50 keys=plain\n",
        2,
        2,
    ),
    (
        "and so is one that is out of range",
        b"basil 1 f=7 shards=1 reads=1 delta=100 clock=50 keys=plain\n",
        2,
        2,
    ),
    (
        "of two misspelt lines the first is told",
        b"frob\nfrob\n",
        2,
        2,
    ),
];

#[test]
fn each_schedule_is_refused_at_its_line(rt: HostRuntime) -> Result<(), Fail> {
    are_refused(&rt, rt.alloc(), HEADER, REFUSED, b"")
}
