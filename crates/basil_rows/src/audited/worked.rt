//! Inputs that are audited to their end.

use crate::audited::{Audited, are_audited};
use std::test::Fail;

const WORKED: &[Audited] = &[
    (
        "genesis in the place of a writer below",
        b"\
        tx t1 10 1\n\
        write t1 a x1\n\
        tx t2 20 2\n\
        read t2 a -\n",
        "stray t2 a - t1",
    ),
    (
        "the writer below",
        b"\
        tx t1 10 1\n\
        write t1 a x1\n\
        tx t2 20 2\n\
        read t2 a t1\n",
        "serial",
    ),
    (
        "a writer that isn't the latest",
        b"\
        tx t1 10 1\n\
        write t1 a x1\n\
        tx t2 20 2\n\
        write t2 a x2\n\
        tx t3 30 3\n\
        read t3 a t1\n",
        "stray t3 a t1 t2",
    ),
    ("no line", b"", "serial"),
    (
        "a deletion that is read",
        b"\
        tx t1 10 1\n\
        write t1 a x1\n\
        tx t2 20 2\n\
        delete t2 a\n\
        tx t3 30 3\n\
        read t3 a t2\n",
        "serial",
    ),
    (
        "a deletion that isn't",
        b"\
        tx t1 10 1\n\
        write t1 a x1\n\
        tx t2 20 2\n\
        delete t2 a\n\
        tx t3 30 3\n\
        read t3 a -\n",
        "stray t3 a - t2",
    ),
    (
        "skipped lines alone",
        b"\
        # a line\n\
        \n\
        #\n",
        "serial",
    ),
    (
        "no newline at the end",
        b"\
        tx t1 10 1\n\
        write t1 a x1",
        "serial",
    ),
    (
        "a time of 0, and a second write of a key",
        b"\
        tx t1 0 1\n\
        write t1 a x1\n\
        write t1 a x2\n\
        tx t2 20 2\n\
        read t2 a t1\n",
        "serial",
    ),
    (
        "a key and a value that are escaped",
        b"\
        tx t1 10 1\n\
        write t1 %20 %\n\
        tx t2 20 2\n\
        read t2 %20 -\n",
        "stray t2 %20 - t1",
    ),
    (
        "the lower version comes before the lower line",
        b"\
        tx t1 10 1\n\
        write t1 a x1\n\
        tx t3 30 3\n\
        read t3 a -\n\
        tx t2 20 2\n\
        read t2 a -\n",
        "stray t2 a - t1",
    ),
    (
        "the lower key comes first",
        b"\
        tx t1 10 1\n\
        write t1 a x1\n\
        write t1 b y1\n\
        tx t2 20 2\n\
        read t2 b -\n\
        read t2 a -\n",
        "stray t2 a - t1",
    ),
    (
        "of one version the first name",
        b"\
        tx t1 10 1\n\
        write t1 a x1\n\
        tx t2 10 1\n\
        write t2 a x1\n\
        tx t3 20 2\n\
        read t3 a -\n\
        tx t4 20 2\n\
        read t4 a -\n",
        "stray t3 a - t1",
    ),
    (
        "a read of a second name of one version",
        b"\
        tx t1 10 1\n\
        write t1 a x1\n\
        tx t2 10 1\n\
        write t2 a x1\n\
        tx t3 20 2\n\
        read t3 a t2\n",
        "serial",
    ),
];

#[test]
fn worked_inputs_are_audited(rt: HostRuntime) -> Result<(), Fail> {
    are_audited(&rt, rt.alloc(), WORKED)
}
