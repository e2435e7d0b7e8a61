//! Each reason why a line of an audit is refused, with its causes.

use crate::audited::{Audited, are_audited, says};
use crate::texts::laid_out;
use std::alloc::Global;
use std::test::Fail;

const REASONS: &[Audited] = &[
    ("an unknown first token", b"frob\n", "line 1 reason 2"),
    (
        "a token of a schedule",
        b"begin t1 1 10\n",
        "line 1 reason 2",
    ),
    (
        "a header",
        b"basil 1 f=0 shards=1 reads=1 delta=100 clock=50 keys=plain\n",
        "line 1 reason 2",
    ),
    ("a token too few", b"tx t1 10\n", "line 1 reason 2"),
    ("a token too many", b"tx t1 10 1 1\n", "line 1 reason 2"),
    ("two spaces", b"tx t1  10 1\n", "line 1 reason 2"),
    (
        "a name with a capital letter",
        b"tx T1 10 1\n",
        "line 1 reason 2",
    ),
    (
        "a time that is no number",
        b"tx t1 x 1\n",
        "line 1 reason 2",
    ),
    (
        "a key without a byte",
        b"\
        tx t1 10 1\n\
        write t1 a x1\n\
        write t1 % x\n",
        "line 3 reason 2",
    ),
    (
        "an escape of a byte that stands for itself",
        b"\
        tx t1 10 1\n\
        write t1 a x1\n\
        write t1 %61 x\n",
        "line 3 reason 2",
    ),
    (
        "a writer that is no name",
        b"\
        tx t1 10 1\n\
        write t1 a x1\n\
        read t1 a T1\n",
        "line 3 reason 2",
    ),
    (
        "a deletion with a value",
        b"\
        tx t1 10 1\n\
        write t1 a x1\n\
        delete t1 a x\n",
        "line 3 reason 2",
    ),
    (
        "a time with a leading zero",
        b"tx t1 010 1\n",
        "line 1 reason 3",
    ),
    (
        "a time of 2^64",
        b"tx t1 18446744073709551616 1\n",
        "line 1 reason 3",
    ),
    (
        "the last time",
        b"\
        tx t1 18446744073709551615 1\n\
        write t1 a x\n",
        "serial",
    ),
    ("client 0", b"tx t1 10 0\n", "line 1 reason 3"),
    ("client 17", b"tx t1 10 17\n", "line 1 reason 3"),
    (
        "the last client",
        b"\
        tx t1 10 16\n\
        write t1 a x\n",
        "serial",
    ),
    (
        "a misspelt token before a number out of range",
        b"tx T1 10 17\n",
        "line 1 reason 2",
    ),
    ("no tx line yet", b"write t1 a x1\n", "line 1 reason 4"),
    (
        "another name than that of the last tx line",
        b"\
        tx t1 10 1\n\
        write t1 a x1\n\
        tx t2 20 2\n\
        read t2 a t1\n\
        write t1 b y\n",
        "line 5 reason 4",
    ),
    (
        "a name begun twice",
        b"\
        tx t1 10 1\n\
        write t1 a x1\n\
        tx t1 20 2\n",
        "line 3 reason 4",
    ),
    (
        "a writer that isn't begun",
        b"\
        tx t1 10 1\n\
        write t1 a x1\n\
        read t1 a t2\n",
        "line 3 reason 4",
    ),
    (
        "a writer that is the reader",
        b"\
        tx t1 10 1\n\
        read t1 a t1\n",
        "line 2 reason 4",
    ),
    (
        "a writer that is a later one",
        b"\
        tx t1 10 1\n\
        write t1 a x1\n\
        tx t2 20 2\n\
        read t2 a t3\n\
        tx t3 5 1\n\
        write t3 a x\n",
        "line 4 reason 4",
    ),
    (
        "a size before a name that isn't begun",
        b"\
        tx t1 10 1\n\
        write t1 a x1\n\
        write t2 kkkkkkkkkkkkkkkkkkkkkkkkkkkkkkkkkkkkkkkkkkkkkkkkkkkkkkkkkkkkkkkkk x\n",
        "line 3 reason 8",
    ),
    (
        "a key of 65 bytes",
        b"\
        tx t1 10 1\n\
        write t1 a x1\n\
        delete t1 kkkkkkkkkkkkkkkkkkkkkkkkkkkkkkkkkkkkkkkkkkkkkkkkkkkkkkkkkkkkkkkkk\n",
        "line 3 reason 8",
    ),
    (
        "a key of 64 bytes",
        b"\
        tx t1 10 1\n\
        write t1 a x1\n\
        delete t1 kkkkkkkkkkkkkkkkkkkkkkkkkkkkkkkkkkkkkkkkkkkkkkkkkkkkkkkkkkkkkkkk\n",
        "serial",
    ),
    (
        "an empty transaction at the end",
        b"\
        # one\n\
        tx t1 10 1\n",
        "line 2 reason 9",
    ),
    (
        "an empty transaction before another",
        b"\
        tx t1 10 1\n\
        # two\n\
        tx t2 20 2\n\
        write t2 a x\n",
        "line 1 reason 9",
    ),
    (
        "an empty transaction before a tx line that is refused itself",
        b"\
        tx t1 10 1\n\
        tx\n",
        "line 1 reason 9",
    ),
    (
        "another line that is refused before an empty transaction ends",
        b"\
        tx t1 10 1\n\
        frob\n",
        "line 2 reason 2",
    ),
    (
        "two reads of one key",
        b"\
        tx t1 10 1\n\
        read t1 a -\n\
        write t1 b x\n\
        read t1 a -\n",
        "line 1 reason 9",
    ),
    (
        "a read of a later version",
        b"\
        tx t1 10 1\n\
        write t1 a x1\n\
        tx t2 9 2\n\
        write t2 b y\n\
        read t2 a t1\n",
        "line 3 reason 9",
    ),
    (
        "a read at its own time and client above its own version",
        b"\
        tx t1 10 2\n\
        write t1 a x1\n\
        tx t2 10 1\n\
        read t2 a t1\n",
        "line 3 reason 9",
    ),
    (
        "a read of genesis at time 0",
        b"\
        tx t1 0 1\n\
        read t1 a -\n",
        "serial",
    ),
];

#[test]
fn each_reason_is_told(rt: HostRuntime) -> Result<(), Fail> {
    are_audited(&rt, rt.alloc(), REASONS)
}

/// What a row shows, its lines, and the line that is written of them.
const MANY: &[(&str, &str, &str)] = &[
    (
        "a 33rd written key",
        "\
        tx t1 10 1; \
        33 * write t1 k# v",
        "line 1 reason 9",
    ),
    (
        "a 33rd read",
        "\
        tx t1 10 1; \
        33 * read t1 k# -",
        "line 1 reason 9",
    ),
    (
        "32 written keys, one of them twice",
        "\
        tx t1 10 1; \
        32 * write t1 k# v; \
        write t1 k31 v",
        "serial",
    ),
];

/// Whether this is written of these lines.
fn lines_say(alloc: Global, lines: &str, output: &str) -> Result<bool, Fail> {
    let input = laid_out(alloc, "", lines)?;
    Ok(says(alloc, &input, output)?)
}

#[test]
fn a_33rd_key_is_refused(rt: HostRuntime) -> Result<(), Fail> {
    for &(shows, lines, output) in MANY {
        assert!(rt; lines_say(rt.alloc(), lines, output)?, "{shows}");
    }
    Ok(())
}
