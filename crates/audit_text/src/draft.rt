//! A transaction whose lines are read.

ghost use Rattle.std.specs.Prelude.{◌≡◌, ◌++◌, List, ℕ, Some, None, IfOk, OnOk, option_copied};
ghost use Rattle.std.specs.List.{list_all};
ghost use Rattle.audit_text.specs.Drafts as drafts;
ghost use Rattle.audit_text.specs.Drafts.{begun_at, read_parts, write_parts, write_part, ended};
ghost use Rattle.basil_types.specs.Built.{built};
ghost use Rattle.basil_types.specs.Shown.{transaction_of};

use basil_types::bytes::Bytes;
use basil_types::memory::NoMemory;
use basil_types::transaction::parts::{ReadPart, WritePart};
use basil_types::transaction::{BuildFault, Transaction, TransactionView};
use basil_types::version::Version;
use std::alloc::Global;
use std::collections::BTreeMap;
use std::marker::Model;
use txn_meta::form::version_of;

/// A transaction whose lines are read: the number of its `tx` line, what that line says, and its reads and writes by
/// their keys. A write without a value deletes its key.
#[derive(Drop)]
pub(crate) struct Draft {
    pub(crate) line: u64,
    pub(crate) name: Bytes,
    time: u64,
    client: u8,
    reads: BTreeMap<Bytes, Version>,
    /// Whether two reads are of one key.
    twice: bool,
    writes: BTreeMap<Bytes, Option<Bytes>>,
}

impl Model for Draft {
    ghost use Rattle.audit_text.specs.Drafts.{DraftValue};

    ghost Value = { DraftValue };

    ghost view = { λ o. record {
      line = o.line;
      name = o.name;
      time = o.time;
      client = o.client;
      reads = o.reads.entries;
      twice = o.twice;
      writes = o.writes.entries;
    } };
}

impl Draft {
    /// Its `tx` line was read.
    pub(crate) fn new(alloc: Global, line: u64, name: Bytes, time: u64, client: u8) -> Draft
        ensures { result ≡ begun_at line name time client }
    {
        Draft {
            line,
            name,
            time,
            client,
            reads: BTreeMap::new(alloc),
            twice: false,
            writes: BTreeMap::new(alloc),
        }
    }

    /// Adds a read of a version of a key.
    pub(crate) fn add_read(
        &mut self,
        alloc: Global,
        key: &[u8],
        version: Version,
    ) -> Result<(), NoMemory>
        ensures { OnOk result (self.new ≡ drafts.add_read key.now version self.old) }
    {
        let key = Bytes::copy_of(alloc, key)?;
        let before = self.reads.insert(key, version)?;
        self.twice = self.twice || before.is_some();
        Ok(())
    }

    /// Adds a write of a value to a key, or a deletion of it, in the place of an earlier one.
    pub(crate) fn add_write(
        &mut self,
        alloc: Global,
        key: &[u8],
        value: Option<Bytes>,
    ) -> Result<(), NoMemory>
        ensures { OnOk result (self.new ≡ drafts.add_write key.now value self.old) }
    {
        let key = Bytes::copy_of(alloc, key)?;
        self.writes.insert(key, value)?;
        Ok(())
    }

    /// Its name, and the transaction that it is at its end, unless it can't stand: it is empty, has two reads of one
    /// key or a 33rd read or write, or reads a version that isn't below its own.
    pub(crate) fn end(self, alloc: Global) -> Result<(Bytes, Option<Transaction>), NoMemory>
        ensures { IfOk result (λ r. r ≡ (self.name, ended self)) }
    {
        let Draft {
            line: _,
            name,
            time,
            client,
            reads,
            twice,
            writes,
        } = self;
        if twice || reads.is_empty() && writes.is_empty() {
            return Ok((name, None));
        }
        let reads = read_parts(alloc, reads)?;
        let writes = write_parts(alloc, writes)?;
        let t = build(alloc, time, client, &reads, &writes)?;
        Ok((name, t))
    }
}

/// The transaction of these parts, unless they make none or it reads a version that isn't below its own.
fn build(
    alloc: Global,
    time: u64,
    client: u8,
    reads: &[ReadPart],
    writes: &[WritePart],
) -> Result<Option<Transaction>, NoMemory>
    ensures { IfOk result (λ t. t ≡ drafts.made time client reads.now writes.now) }
{
    match Transaction::build(alloc, time, client, reads, writes) {
        Ok(t) => Ok(unless_above(t)),
        Err(fault) => {
            if fault == BuildFault::NoMemory {
                return Err(NoMemory);
            }
            Ok(None)
        }
    }
}

/// The reads of a map, ascending by key; none is a dependency.
fn read_parts(alloc: Global, map: BTreeMap<Bytes, Version>) -> Result<Vec<ReadPart>, NoMemory>
    ensures { IfOk result (λ parts. parts.items ≡ drafts.read_parts map.entries) }
{
    let mut parts = Vec::new(alloc);
    let mut rest = map;
    'keys: while let Some((key, version)) = rest.pop_first() {
        parts.push(ReadPart {
            key,
            version,
            dependency: false,
        })?;
    }
    Ok(parts)
}

fn write_part(alloc: Global, key: Bytes, value: Option<Bytes>) -> WritePart
    ensures { result ≡ drafts.write_part key value }
{
    match value {
        Some(value) => WritePart {
            key,
            value,
            deletes: false,
        },
        None => WritePart {
            key,
            value: Bytes::from_vec(Vec::new(alloc)),
            deletes: true,
        },
    }
}

/// The writes of a map, ascending by key.
fn write_parts(
    alloc: Global,
    map: BTreeMap<Bytes, Option<Bytes>>,
) -> Result<Vec<WritePart>, NoMemory>
    ensures { IfOk result (λ parts. parts.items ≡ drafts.write_parts map.entries) }
{
    let mut parts = Vec::new(alloc);
    let mut rest = map;
    'keys: while let Some((key, value)) = rest.pop_first() {
        parts.push(write_part(alloc, key, value))?;
    }
    Ok(parts)
}

/// Whether each read is of a version below the transaction's own.
fn reads_below(t: TransactionView<'_>) -> bool
    ensures { result ≡ drafts.reads_below (transaction_of t.entry) }
{
    let version = version_of(t);
    for item in t.reads() {
        if !item.version.is_below(&version) {
            return false;
        }
    }
    true
}

/// The transaction, unless it reads a version that isn't below its own.
fn unless_above(t: Transaction) -> Option<Transaction>
    ensures { result ≡ drafts.unless_above t }
{
    if reads_below(t.view()) { Some(t) } else { None }
}
