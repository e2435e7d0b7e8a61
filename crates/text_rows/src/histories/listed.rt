//! Lists of transactions, written down as tables.

use basil_types::bytes::Bytes;
use basil_types::memory::NoMemory;
use basil_types::transaction::parts::{ReadPart, WritePart};
use basil_types::transaction::{BuildFault, Transaction};
use basil_types::version::Version;
use std::alloc::Global;
use txn_meta::form::version_of;

/// A key that is read, and the place of the writer whose version is read; none for genesis.
pub(crate) type Read = (&'static [u8], Option<usize>);

/// A key that is written, and its value; none deletes it.
pub(crate) type Write = (&'static [u8], Option<&'static [u8]>);

/// A transaction: its time and client, and the keys that it reads and writes, ascending.
pub(crate) struct Listed {
    pub time: u64,
    pub client: u8,
    pub reads: &'static [Read],
    pub writes: &'static [Write],
}

/// The version of the transaction at a place of a list, or genesis.
pub(crate) fn version_at(list: &[Transaction], place: Option<usize>) -> Version {
    match place {
        Some(place) => match list.get(place) {
            Some(t) => version_of(t.view()),
            None => Version::genesis(),
        },
        None => Version::genesis(),
    }
}

fn reads_of(
    alloc: Global,
    listed: &Listed,
    earlier: &[Transaction],
) -> Result<Vec<ReadPart>, NoMemory> {
    let mut reads = Vec::new(alloc);
    for &(key, writer) in listed.reads {
        reads.push(ReadPart {
            key: Bytes::copy_of(alloc, key)?,
            version: version_at(earlier, writer),
            dependency: false,
        })?;
    }
    Ok(reads)
}

fn writes_of(alloc: Global, listed: &Listed) -> Result<Vec<WritePart>, NoMemory> {
    let mut writes = Vec::new(alloc);
    for &(key, value) in listed.writes {
        writes.push(WritePart {
            key: Bytes::copy_of(alloc, key)?,
            value: Bytes::copy_of(alloc, value.unwrap_or(b""))?,
            deletes: value.is_none(),
        })?;
    }
    Ok(writes)
}

fn add(alloc: Global, list: &mut Vec<Transaction>, listed: &Listed) -> Result<(), BuildFault> {
    let reads = reads_of(alloc, listed, list)?;
    let writes = writes_of(alloc, listed)?;
    let t = Transaction::build(alloc, listed.time, listed.client, &reads, &writes)?;
    list.push(t)?;
    Ok(())
}

/// The transactions of a table.
pub(crate) fn list_of(alloc: Global, table: &[Listed]) -> Result<Vec<Transaction>, BuildFault> {
    let mut list = Vec::new(alloc);
    for listed in table {
        add(alloc, &mut list, listed)?;
    }
    Ok(list)
}
