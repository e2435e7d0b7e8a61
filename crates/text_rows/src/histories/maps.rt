//! The map that listed transactions leave.

use crate::histories::listed::{Listed, list_of, version_at};
use basil_types::transaction::Transaction;
use serial_audit::maps::{Pair, replay_map};
use std::alloc::Global;
use std::test::Fail;

/// A key, its writer's place, and its value; none where it is deleted.
type Wanted = (&'static [u8], usize, Option<&'static [u8]>);

/// A bound by the version of a place of the list, and the pairs of the transactions below it.
struct Row {
    below: Option<usize>,
    pairs: &'static [Wanted],
}

/// Not in the order of their versions.
const LIST: &[Listed] = &[
    Listed {
        time: 30,
        client: 1,
        reads: &[],
        writes: &[(b"a", None), (b"c", Some(b"z3"))],
    },
    Listed {
        time: 10,
        client: 1,
        reads: &[],
        writes: &[(b"b", Some(b"")), (b"d", Some(b"w1"))],
    },
    Listed {
        time: 20,
        client: 2,
        reads: &[],
        writes: &[(b"a", Some(b"x2")), (b"b", Some(b"y2"))],
    },
    Listed {
        time: 20,
        client: 1,
        reads: &[],
        writes: &[(b"b", Some(b"y1"))],
    },
];

const ROWS: &[Row] = &[
    Row {
        below: None,
        pairs: &[
            (b"a", 0, None),
            (b"b", 2, Some(b"y2")),
            (b"c", 0, Some(b"z3")),
            (b"d", 1, Some(b"w1")),
        ],
    },
    Row {
        below: Some(0),
        pairs: &[
            (b"a", 2, Some(b"x2")),
            (b"b", 2, Some(b"y2")),
            (b"d", 1, Some(b"w1")),
        ],
    },
    Row {
        below: Some(2),
        pairs: &[(b"b", 3, Some(b"y1")), (b"d", 1, Some(b"w1"))],
    },
    Row {
        below: Some(3),
        pairs: &[(b"b", 1, Some(b"")), (b"d", 1, Some(b"w1"))],
    },
    Row {
        below: Some(1),
        pairs: &[],
    },
];

fn is_pair(list: &[Transaction], pair: &Pair, wanted: Wanted) -> bool {
    let (key, writer, value) = wanted;
    pair.key.as_slice() == key
        && pair.writer == version_at(list, Some(writer))
        && pair.value.as_slice() == value.unwrap_or(b"")
        && pair.deleted == value.is_none()
}

fn are_pairs(list: &[Transaction], pairs: &[Pair], wanted: &[Wanted]) -> bool {
    if pairs.len() != wanted.len() {
        return false;
    }
    for (pair, &one) in pairs.iter().zip(wanted) {
        if !is_pair(list, pair, one) {
            return false;
        }
    }
    true
}

fn agrees(alloc: Global, row: &Row) -> Result<bool, Fail> {
    let list = list_of(alloc, LIST)?;
    let pairs = match row.below {
        Some(place) => replay_map(alloc, &list, Some(&version_at(&list, Some(place))))?,
        None => replay_map(alloc, &list, None)?,
    };
    Ok(are_pairs(&list, &pairs, row.pairs))
}

#[test]
fn the_latest_writes_below_a_version_are_left(rt: HostRuntime) -> Result<(), Fail> {
    for row in ROWS {
        assert!(rt; agrees(rt.alloc(), row)?, "{} pairs", row.pairs.len());
    }
    Ok(())
}
