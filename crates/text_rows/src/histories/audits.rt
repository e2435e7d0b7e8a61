//! Which reads of a list are the first that aren't of the version that the serial order gives them.

use crate::histories::listed::{Listed, list_of, version_at};
use basil_types::transaction::Transaction;
use serial_audit::audit::{Verdict, audit};
use std::alloc::Global;
use std::test::Fail;

/// The first stray: its reader's place, its key, and the places of the writers whose versions it has and should have.
type Stray = (u32, &'static [u8], Option<usize>, Option<usize>);

/// A list, and its first stray.
struct Row {
    what: &'static str,
    list: &'static [Listed],
    stray: Option<Stray>,
}

/// Time 10, client 1, a write of x1 to a.
const FIRST: Listed = Listed {
    time: 10,
    client: 1,
    reads: &[],
    writes: &[(b"a", Some(b"x1"))],
};

/// Time 20, client 2, a write of x2 to a.
const SECOND: Listed = Listed {
    time: 20,
    client: 2,
    reads: &[],
    writes: &[(b"a", Some(b"x2"))],
};

/// Time 20, client 2, the deletion of a.
const DELETION: Listed = Listed {
    time: 20,
    client: 2,
    reads: &[],
    writes: &[(b"a", None)],
};

const ROWS: &[Row] = &[
    Row {
        what: "no transaction",
        list: &[],
        stray: None,
    },
    Row {
        what: "genesis in the place of a writer below",
        list: &[
            FIRST,
            Listed {
                time: 20,
                client: 3,
                reads: &[(b"a", None)],
                writes: &[],
            },
        ],
        stray: Some((1, b"a", None, Some(0))),
    },
    Row {
        what: "the writer below",
        list: &[
            FIRST,
            Listed {
                time: 20,
                client: 3,
                reads: &[(b"a", Some(0))],
                writes: &[],
            },
        ],
        stray: None,
    },
    Row {
        what: "a writer that isn't the latest",
        list: &[
            FIRST,
            SECOND,
            Listed {
                time: 30,
                client: 3,
                reads: &[(b"a", Some(0))],
                writes: &[],
            },
        ],
        stray: Some((2, b"a", Some(0), Some(1))),
    },
    Row {
        what: "the latest below, though a later one is listed",
        list: &[
            FIRST,
            SECOND,
            Listed {
                time: 15,
                client: 3,
                reads: &[(b"a", Some(0))],
                writes: &[],
            },
        ],
        stray: None,
    },
    Row {
        what: "a deletion",
        list: &[
            FIRST,
            DELETION,
            Listed {
                time: 30,
                client: 3,
                reads: &[(b"a", Some(1))],
                writes: &[],
            },
        ],
        stray: None,
    },
    Row {
        what: "genesis in the place of a deletion",
        list: &[
            FIRST,
            DELETION,
            Listed {
                time: 30,
                client: 3,
                reads: &[(b"a", None)],
                writes: &[],
            },
        ],
        stray: Some((2, b"a", None, Some(1))),
    },
    Row {
        what: "a transaction that wrote another key",
        list: &[
            FIRST,
            SECOND,
            Listed {
                time: 30,
                client: 3,
                reads: &[(b"b", Some(0))],
                writes: &[],
            },
        ],
        stray: Some((2, b"b", Some(0), None)),
    },
    Row {
        what: "the lower version comes before the lower place",
        list: &[
            FIRST,
            Listed {
                time: 40,
                client: 3,
                reads: &[(b"a", None)],
                writes: &[],
            },
            Listed {
                time: 30,
                client: 3,
                reads: &[(b"b", Some(0))],
                writes: &[],
            },
        ],
        stray: Some((2, b"b", Some(0), None)),
    },
    Row {
        what: "the lower key comes first in one transaction",
        list: &[
            FIRST,
            Listed {
                time: 20,
                client: 3,
                reads: &[(b"a", None), (b"b", Some(0))],
                writes: &[],
            },
        ],
        stray: Some((1, b"a", None, Some(0))),
    },
    Row {
        what: "of two transactions of one version the lower place",
        list: &[
            FIRST,
            Listed {
                time: 20,
                client: 3,
                reads: &[(b"a", None)],
                writes: &[],
            },
            Listed {
                time: 20,
                client: 3,
                reads: &[(b"a", None)],
                writes: &[],
            },
        ],
        stray: Some((1, b"a", None, Some(0))),
    },
    Row {
        what: "a transaction that is listed twice and reads what it writes",
        list: &[FIRST, READS_AND_WRITES, READS_AND_WRITES],
        stray: None,
    },
];

/// Time 20, client 2, a read of a and a write of it.
const READS_AND_WRITES: Listed = Listed {
    time: 20,
    client: 2,
    reads: &[(b"a", Some(0))],
    writes: &[(b"a", Some(b"x2"))],
};

fn is_stray(list: &[Transaction], verdict: &Verdict, wanted: Option<Stray>) -> bool {
    match (verdict, wanted) {
        (Verdict::Serial, None) => true,
        (
            Verdict::Stray {
                place,
                key,
                found,
                expected,
            },
            Some((at, name, read, latest)),
        ) => {
            *place == at
                && key.as_slice() == name
                && *found == version_at(list, read)
                && *expected == version_at(list, latest)
        }
        _ => false,
    }
}

fn agrees(alloc: Global, row: &Row) -> Result<bool, Fail> {
    let list = list_of(alloc, row.list)?;
    if 4_294_967_295 < list.len() {
        return Err(Fail::new("more transactions than an audit takes"));
    }
    let verdict = audit(alloc, &list)?;
    Ok(is_stray(&list, &verdict, row.stray))
}

#[test]
fn the_first_stray_is_found(rt: HostRuntime) -> Result<(), Fail> {
    for row in ROWS {
        assert!(rt; agrees(rt.alloc(), row)?, "{}", row.what);
    }
    Ok(())
}
