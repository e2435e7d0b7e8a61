//! Transactions for tests, and a table's entries.

ghost use Rattle.std.specs.Prelude.{◌≡◌, ◌<◌, None, IsTrue, length, false};
ghost use Rattle.txn_table.specs.Tables.{is_voted_at, decision_at};

use basil_types::bytes::{Bytes, id_of};
use basil_types::cluster::Cluster;
use basil_types::party::{Decision, Party};
use basil_types::transaction::Transaction;
use basil_types::transaction::parts::{ReadPart, WritePart};
use basil_types::version::Version;
use std::alloc::Global;
use std::test::Fail;
use txn_table::entry::VoteState;
use txn_table::table::Table;

/// A read of a version of a key, and whether that version was only prepared.
pub(crate) type Read<'a> = (&'a [u8], Version, bool);

/// A transaction with these reads, that writes v to these keys.
pub(crate) fn transaction(
    alloc: Global,
    time: u64,
    client: u8,
    items: &[Read<'_>],
    keys: &[&[u8]],
) -> Result<Transaction, Fail> {
    let mut reads = Vec::new(alloc);
    for (key, version, dependency) in items {
        let key = Bytes::copy_of(alloc, key)?;
        reads.push(ReadPart {
            key,
            version: *version,
            dependency: *dependency,
        })?;
    }
    let writes = writes_of(alloc, keys)?;
    Ok(Transaction::build(alloc, time, client, &reads, &writes)?)
}

// Writes of v to these keys.
fn writes_of(alloc: Global, keys: &[&[u8]]) -> Result<Vec<WritePart>, Fail> {
    let mut writes = Vec::new(alloc);
    for key in keys {
        let key = Bytes::copy_of(alloc, key)?;
        writes.push(WritePart {
            key,
            value: Bytes::copy_of(alloc, b"v")?,
            deletes: false,
        })?;
    }
    Ok(writes)
}

/// Whether a held place isn't voted.
pub(crate) fn is_unvoted(table: &Table, place: u32) -> bool
    requires { place < length table.now.entries }
    ensures { IsTrue result → is_voted_at table.now.entries place ≡ false }
{
    match table.entry(place).vote() {
        VoteState::Unvoted | VoteState::Waiting => true,
        VoteState::Voted { .. } => false,
    }
}

/// Whether a held place has no outcome.
pub(crate) fn is_open(table: &Table, place: u32) -> bool
    requires { place < length table.now.entries }
    ensures { IsTrue result → decision_at table.now.entries place ≡ None }
{
    table.entry(place).outcome().is_none()
}

/// Takes a copy of a transaction, and answers its place; fails where it is held.
pub(crate) fn arrive(alloc: Global, table: &mut Table, t: &Transaction) -> Result<u32, Fail> {
    let copy = t.try_copy(alloc)?;
    table.make_room(copy.view())?;
    let id = id_of(copy.view().bytes());
    match table.place_of(&id) {
        Some(_) => Err(Fail::new("held already")),
        None => Ok(table.insert(copy)),
    }
}

/// Has somebody wait for the vote on a transaction; fails where it isn't held, or is voted.
pub(crate) fn ask(table: &mut Table, t: &Transaction, asker: Party) -> Result<(), Fail> {
    table.make_room(t.view())?;
    let id = id_of(t.view().bytes());
    match table.place_of(&id) {
        Some(place) => {
            if is_unvoted(table, place) {
                table.wait(place, asker);
                Ok(())
            } else {
                Err(Fail::new("voted"))
            }
        }
        None => Err(Fail::new("not held")),
    }
}

/// Votes commit at a place, without a proof; fails where it isn't held, or is voted.
pub(crate) fn vote(alloc: Global, table: &mut Table, place: u32) -> Result<(), Fail> {
    if place >= table.len() || !is_unvoted(table, place) {
        return Err(Fail::new("not held, or voted"));
    }
    table.set_vote(place, Decision::Commit, Vec::new(alloc), None);
    Ok(())
}

/// Gives a place an outcome; fails where it isn't held, or has one.
pub(crate) fn end(
    alloc: Global,
    table: &mut Table,
    place: u32,
    outcome: Decision,
) -> Result<(), Fail> {
    if place >= table.len() || !is_open(table, place) {
        return Err(Fail::new("not held, or ended"));
    }
    table.set_outcome(place, outcome, Vec::new(alloc));
    Ok(())
}

/// The votes that an outcome at a place releases; fails where the place isn't held, or has an outcome.
pub(crate) fn released(
    table: &Table,
    shards: u8,
    shard: u8,
    place: u32,
    outcome: Decision,
) -> Result<Vec<(u32, Decision)>, Fail> {
    let cluster = Cluster::new(0, shards, 1, 100)?;
    if place >= table.len() || !is_open(table, place) {
        return Err(Fail::new("not held, or ended"));
    }
    Ok(table.released(place, outcome, &cluster, shard)?)
}
