//! Two transactions of one time and one client: of two ids the greater one is the later, in whichever order they come.

use crate::support::{HEADER, is_answer, joined, replay};
use basil_cli::status::Status;
use basil_types::memory::NoMemory;
use sha2::{Digest, Sha256};
use std::alloc::Global;
use std::test::Fail;

/// A transaction up to the two bytes of the value that it writes: format 1, time 10, client 1, no read, and one write,
/// of `a`.
const FRONT: &[u8] = b"\x01\x00\x00\x00\x00\x00\x00\x00\x0a\x01\x00\x01\x01a\x00\x02";

/// The first value stands behind this, the second between the two parts below.
const FIRST: &[u8] = b"\
    faulty client 1\n\
    begin t1 1 10\n\
    write t1 a ";

const SECOND: &[u8] = b"\n\
    begin t2 1 10\n\
    write t2 a ";

const REST: &[u8] = b"\n\
    prepare t1\n\
    prepare t2\n\
    round\n\
    recover t1 2\n\
    recover t2 2\n\
    round\n\
    round\n";

/// The values of t1 and t2.
const PAIRS: &[(&[u8], &[u8])] = &[
    (b"x1", b"x2"),
    (b"x2", b"x1"),
    (b"y1", b"y2"),
    (b"y2", b"y1"),
];

/// The id of the transaction that writes this value.
fn id_of(alloc: Global, value: &[u8]) -> Result<[u8; 32], NoMemory> {
    let bytes = joined(alloc, &[FRONT, value])?;
    Ok(Sha256::digest(&bytes))
}

/// Whether the first transaction has the lesser id.
fn is_below(alloc: Global, first: &[u8], second: &[u8]) -> Result<bool, NoMemory> {
    let one = id_of(alloc, first)?;
    let other = id_of(alloc, second)?;
    Ok(one.as_slice().cmp(other.as_slice()).is_lt())
}

/// Whether both commit, and this value is left.
fn is_left(alloc: Global, first: &[u8], second: &[u8], left: &[u8]) -> Result<bool, NoMemory> {
    let schedule = joined(alloc, &[HEADER, FIRST, first, SECOND, second, REST])?;
    let report = joined(
        alloc,
        &[b"tx t1 commit\ntx t2 commit\nkey a ", left, b"\nend 10\n"],
    )?;
    let given = replay(alloc, &schedule)?;
    Ok(is_answer(&given, Status::Done, &report))
}

/// Whether the value is left whose transaction has the greater id.
fn is_by_id(alloc: Global, first: &[u8], second: &[u8]) -> Result<bool, NoMemory> {
    if is_below(alloc, first, second)? {
        is_left(alloc, first, second, second)
    } else {
        is_left(alloc, first, second, first)
    }
}

#[test]
fn the_greater_id_is_later(rt: HostRuntime) -> Result<(), Fail> {
    for &(first, second) in PAIRS {
        assert!(rt;
            is_by_id(rt.alloc(), first, second)?,
            "{first:?} {second:?}"
        );
    }
    Ok(())
}
