//! Transactions: one that breaks a rule isn't built, and the first stage of any other one fits.

use super::is_fit;
use super::parts::some;
use basil_codec::{Message, St1Message};
use basil_types::bytes::Bytes;
use basil_types::transaction::parts::{ReadPart, WritePart};
use basil_types::transaction::{BuildFault, Transaction};
use basil_types::version::Version;
use std::alloc::Global;
use std::test::Fail;

/// The client, the length of the read's key, those of the write's key and of its value, and whether such a transaction
/// is built and fits.
const SIZES: &[(u8, usize, usize, usize, bool)] = &[
    (1, 1, 1, 0, true),
    (16, 64, 64, 256, true),
    (0, 1, 1, 0, false),
    (17, 64, 64, 256, false),
    (1, 0, 1, 0, false),
    (16, 65, 64, 256, false),
    (1, 1, 0, 0, false),
    (16, 64, 65, 256, false),
    (16, 64, 64, 257, false),
];

/// A version of the highest numbers, which needs to be no transaction's.
const VERSION: Version = Version {
    time: u64::MAX,
    client: 255,
    id: [255; 32],
};

/// A read of that version.
fn reads(alloc: Global, key: usize) -> Result<Vec<ReadPart>, Fail> {
    let key = some(alloc, key)?;
    let mut reads = Vec::new(alloc);
    reads.push(ReadPart {
        key,
        version: VERSION,
        dependency: true,
    })?;
    Ok(reads)
}

fn writes(alloc: Global, key: usize, value: usize) -> Result<Vec<WritePart>, Fail> {
    let key = some(alloc, key)?;
    let value = some(alloc, value)?;
    let mut writes = Vec::new(alloc);
    writes.push(WritePart {
        key,
        value,
        deletes: false,
    })?;
    Ok(writes)
}

/// Whether what was built fits. Fails where memory was wanting.
fn is_built_fit(built: Result<Transaction, BuildFault>, signature: Bytes) -> Result<bool, Fail> {
    match built {
        Ok(transaction) => Ok(is_fit(Message::St1(St1Message {
            transaction,
            signature,
        }))),
        Err(BuildFault::NoMemory) => Err(Fail::from("no memory")),
        Err(_) => Ok(false),
    }
}

/// Whether the first stage of such a transaction fits.
fn is_size_fit(
    alloc: Global,
    client: u8,
    read: usize,
    write: usize,
    value: usize,
) -> Result<bool, Fail> {
    let signature = some(alloc, 1)?;
    let reads = reads(alloc, read)?;
    let writes = writes(alloc, write, value)?;
    is_built_fit(
        Transaction::build(alloc, 10, client, &reads, &writes),
        signature,
    )
}

#[test]
fn transactions_are_built_within_their_sizes(rt: HostRuntime) -> Result<(), Fail> {
    for &(client, read, write, value, fit) in SIZES {
        assert!(rt; is_size_fit(rt.alloc(), client, read, write, value)? == fit);
    }
    Ok(())
}
