//! What is built of parts, and what is refused.

use super::{DELETES, WRITES};
use basil_types::bytes::Bytes;
use basil_types::transaction::parts::{ReadPart, WritePart};
use basil_types::transaction::{BuildFault, Transaction};
use basil_types::version::Version;
use std::alloc::Global;
use std::test::Fail;

/// A write: key, value, whether it deletes.
type Written = (&'static [u8], &'static [u8], bool);

/// What `build` answers for reads of genesis at these keys, and for these writes.
fn build(
    alloc: Global,
    time: u64,
    client: u8,
    keys: &[&[u8]],
    items: &[Written],
) -> Result<Transaction, BuildFault> {
    let mut reads = Vec::new(alloc);
    for key in keys {
        reads.push(ReadPart {
            key: Bytes::copy_of(alloc, key)?,
            version: Version::genesis(),
            dependency: false,
        })?;
    }
    let mut writes = Vec::new(alloc);
    for (key, value, deletes) in items {
        writes.push(WritePart {
            key: Bytes::copy_of(alloc, key)?,
            value: Bytes::copy_of(alloc, value)?,
            deletes: *deletes,
        })?;
    }
    Transaction::build(alloc, time, client, &reads, &writes)
}

#[test]
fn examples_have_their_bytes(rt: HostRuntime) -> Result<(), Fail> {
    let alloc = rt.alloc();
    let writes = build(alloc, 10, 1, &[], &[(b"a", b"x1", false)])?;
    assert!(rt; writes.view().bytes() == WRITES.as_slice());
    let deletes = build(alloc, 20, 2, &[], &[(b"a", b"", true)])?;
    assert!(rt; deletes.view().bytes() == DELETES.as_slice());
    let copy = deletes.try_copy(alloc)?;
    assert!(rt; copy.view().bytes() == DELETES.as_slice());
    Ok(())
}

/// Parts of a transaction, and why it is refused.
struct Refusal {
    client: u8,
    reads: &'static [&'static [u8]],
    writes: &'static [Written],
    fault: Option<BuildFault>,
}

/// A write of nothing to the key b.
const PLAIN: Written = (b"b", b"", false);

const REFUSALS: &[Refusal] = &[
    Refusal {
        client: 16,
        reads: &[b"a", b"b"],
        writes: &[PLAIN],
        fault: None,
    },
    Refusal {
        client: 16,
        reads: &[b"a", b"b"],
        writes: &[(b"b", b"", true)],
        fault: None,
    },
    Refusal {
        client: 0,
        reads: &[],
        writes: &[],
        fault: Some(BuildFault::ClientOut),
    },
    Refusal {
        client: 17,
        reads: &[],
        writes: &[],
        fault: Some(BuildFault::ClientOut),
    },
    Refusal {
        client: 1,
        reads: &[],
        writes: &[PLAIN; 33],
        fault: Some(BuildFault::TooMany),
    },
    Refusal {
        client: 1,
        reads: &[b"a", b"b"],
        writes: &[PLAIN, (b"", b"", false)],
        fault: Some(BuildFault::SizeOut(3)),
    },
    Refusal {
        client: 1,
        reads: &[b"a", b"b"],
        writes: &[(b"b", b"x", true)],
        fault: Some(BuildFault::SizeOut(2)),
    },
    Refusal {
        client: 1,
        reads: &[b"b", b"a"],
        writes: &[PLAIN, (b"", b"", false)],
        fault: Some(BuildFault::SizeOut(3)),
    },
    Refusal {
        client: 1,
        reads: &[b"a", b"b"],
        writes: &[PLAIN, PLAIN],
        fault: Some(BuildFault::KeyOrder(3)),
    },
    Refusal {
        client: 1,
        reads: &[b"b", b"a"],
        writes: &[PLAIN, PLAIN],
        fault: Some(BuildFault::KeyOrder(1)),
    },
];

fn fault_of(alloc: Global, row: &Refusal) -> Option<BuildFault> {
    match build(alloc, 1, row.client, row.reads, row.writes) {
        Ok(_built) => None,
        Err(fault) => Some(fault),
    }
}

#[test]
fn build_refuses(rt: HostRuntime) {
    for (place, row) in REFUSALS.iter().enumerate() {
        assert!(rt; fault_of(rt.alloc(), row) == row.fault, "row {place}");
    }
}
