//! The table of transactions: their places, who waits for a vote, and which votes an outcome releases.

use crate::making::{Read, arrive, ask, end, released, transaction, vote};
use basil_types::bytes::id_of;
use basil_types::party::{Decision, Party};
use basil_types::transaction::Transaction;
use basil_types::version::Version;
use std::alloc::Global;
use std::test::Fail;
use txn_meta::form::version_of;
use txn_table::entry::VoteState;
use txn_table::table::Table;

const COMMIT: Decision = Decision::Commit;

const ABORT: Decision = Decision::Abort;

const FIRST: Party = Party::Client { number: 1 };

const SECOND: Party = Party::Client { number: 2 };

// A transaction of client 1 that writes a, at this time.
fn writer(alloc: Global, time: u64) -> Result<Transaction, Fail> {
    transaction(alloc, time, 1, &[], &[b"a"])
}

// Whether the writer of a time isn't held before it is taken, and then stands at the place before its time.
fn arrives_in_turn(alloc: Global, table: &mut Table, time: u64) -> Result<bool, Fail> {
    let t = writer(alloc, time)?;
    let id = id_of(t.view().bytes());
    let is_new = table.place_of(&id).is_none() && table.entry_with(&id).is_none();
    let place = arrive(alloc, table, &t)?;
    Ok(is_new && u64::from(place) + 1 == time && table.entry_with(&id).is_some())
}

fn arrive_in_turn(alloc: Global, table: &mut Table) -> Result<bool, Fail> {
    for time in 1..4u64 {
        if !arrives_in_turn(alloc, table, time)? {
            return Ok(false);
        }
    }
    Ok(table.len() == 3)
}

#[test]
fn places_follow_the_order_of_arrival(rt: HostRuntime) -> Result<(), Fail> {
    let mut table = Table::new(rt.alloc());
    let arrived = arrive_in_turn(rt.alloc(), &mut table);
    drop(table);
    assert!(rt; arrived?);
    Ok(())
}

// Takes a transaction for which two wait, one of them asking twice; answers its place.
fn wait_twice(alloc: Global, table: &mut Table, t: &Transaction) -> Result<u32, Fail> {
    let place = arrive(alloc, table, t)?;
    for asker in [FIRST, SECOND, FIRST] {
        ask(table, t, asker)?;
    }
    Ok(place)
}

fn vote_and_end(alloc: Global, table: &mut Table, place: u32) -> Result<(), Fail> {
    vote(alloc, table, place)?;
    end(alloc, table, place, ABORT)
}

// Whether both wait for the vote on a transaction of time 1.
fn both_wait(table: &Table, id: &[u8; 32]) -> bool {
    table.entry_with(id).is_some_and(|entry| {
        entry.view().time() == 1
            && entry.askers() == [FIRST, SECOND].as_slice()
            && matches!(entry.vote(), VoteState::Waiting)
    })
}

// Whether nobody waits any more for a transaction on which the vote was commit, and which is aborted.
fn has_ended(table: &Table, id: &[u8; 32]) -> bool {
    table.entry_with(id).is_some_and(|entry| {
        entry.askers().is_empty()
            && matches!(
                entry.vote(),
                VoteState::Voted {
                    vote: Decision::Commit,
                    ..
                }
            )
            && matches!(entry.outcome(), Some((Decision::Abort, _)))
    })
}

// Whether two wait for the vote on a transaction that a table takes, until it is given.
fn wait_until_the_vote(alloc: Global, table: &mut Table) -> Result<bool, Fail> {
    let t = writer(alloc, 1)?;
    let id = id_of(t.view().bytes());
    let place = wait_twice(alloc, table, &t)?;
    let waited = both_wait(table, &id);
    vote_and_end(alloc, table, place)?;
    Ok(waited && has_ended(table, &id))
}

#[test]
fn askers_wait_once_each_until_the_vote(rt: HostRuntime) -> Result<(), Fail> {
    let mut table = Table::new(rt.alloc());
    let waited = wait_until_the_vote(rt.alloc(), &mut table);
    drop(table);
    assert!(rt; waited?);
    Ok(())
}

/// A reader of b at the version of the writer at time 1.
struct Reader {
    time: u64,
    /// Whether that was only prepared.
    dependency: bool,
    /// The time of the writer whose version of c it has read too, as a dependency; 0 for none.
    other: u64,
    waits: bool,
}

/// The readers behind two writers, of times 1 and 2, at the places 0 and 1. That of time 7 is aborted. A writer of time
/// 3 isn't held.
const READERS: &[Reader] = &[
    // Place 2: depends on both writers.
    Reader {
        time: 4,
        dependency: true,
        other: 2,
        waits: true,
    },
    // Place 3: depends on the first writer alone.
    Reader {
        time: 5,
        dependency: true,
        other: 0,
        waits: true,
    },
    // Place 4: depends on the first writer, but nobody waits for its vote, so it is never released.
    Reader {
        time: 6,
        dependency: true,
        other: 0,
        waits: false,
    },
    // Place 5: waits and depends on the first writer, but is aborted, so it is never released.
    Reader {
        time: 7,
        dependency: true,
        other: 0,
        waits: true,
    },
    // Place 6: depends on the first writer and on the one that isn't held.
    Reader {
        time: 8,
        dependency: true,
        other: 3,
        waits: true,
    },
    // Place 7: waits, but what it read of the first writer is no dependency, so nothing releases it.
    Reader {
        time: 9,
        dependency: false,
        other: 0,
        waits: true,
    },
];

fn version_at(alloc: Global, time: u64) -> Result<Version, Fail> {
    let t = writer(alloc, time)?;
    Ok(version_of(t.view()))
}

fn made(alloc: Global, row: &Reader) -> Result<Transaction, Fail> {
    let b = version_at(alloc, 1)?;
    if row.other == 0 {
        return transaction(alloc, row.time, 2, &[(b"b", b, row.dependency)], &[]);
    }
    let c = version_at(alloc, row.other)?;
    let items: [Read<'_>; 2] = [(b"b", b, row.dependency), (b"c", c, true)];
    transaction(alloc, row.time, 2, &items, &[])
}

// Takes a reader, and has somebody wait for it.
fn take(alloc: Global, table: &mut Table, row: &Reader) -> Result<(), Fail> {
    let t = made(alloc, row)?;
    arrive(alloc, table, &t)?;
    if row.waits {
        ask(table, &t, FIRST)?;
    }
    Ok(())
}

// Takes the writers and the readers.
fn take_all(alloc: Global, table: &mut Table) -> Result<(), Fail> {
    for time in 1..3u64 {
        let t = writer(alloc, time)?;
        arrive(alloc, table, &t)?;
    }
    for row in READERS {
        take(alloc, table, row)?;
    }
    end(alloc, table, 5, ABORT)
}

/// Shards, a shard, a place, an outcome, and the votes that it releases. Of two shards b is of 0 and c of 1.
const RELEASED: &[(u8, u8, u32, Decision, &[(u32, Decision)])] = &[
    // The first writer commits: only place 3 needs no other; 2 waits for the second, 6 for the one that isn't held.
    (1, 0, 0, COMMIT, &[(3, COMMIT)]),
    // The first writer aborts: all that wait and depend on it abort, whatever else they depend on.
    (1, 0, 0, ABORT, &[(2, ABORT), (3, ABORT), (6, ABORT)]),
    // The second writer commits: place 2 still waits for the first.
    (1, 0, 1, COMMIT, &[]),
    // The second writer aborts: so does place 2, which alone depends on it.
    (1, 0, 1, ABORT, &[(2, ABORT)]),
    // A reader commits on which nobody depends: nothing is released.
    (1, 0, 3, COMMIT, &[]),
    // In shard 0 only the reads of b count: the first writer's commit is enough for places 2 and 6 too.
    (2, 0, 0, COMMIT, &[(2, COMMIT), (3, COMMIT), (6, COMMIT)]),
    // In shard 0 the first writer's abort aborts the same three.
    (2, 0, 0, ABORT, &[(2, ABORT), (3, ABORT), (6, ABORT)]),
    // In shard 0 place 2's read of c doesn't count: the second writer's abort releases nothing.
    (2, 0, 1, ABORT, &[]),
    // In shard 1 the reads of b don't count: the first writer's abort releases nothing.
    (2, 1, 0, ABORT, &[]),
    // In shard 1 place 2 depends by c alone: the second writer's commit is enough.
    (2, 1, 1, COMMIT, &[(2, COMMIT)]),
];

fn are_released(alloc: Global, table: &mut Table) -> Result<bool, Fail> {
    take_all(alloc, table)?;
    for &(shards, shard, place, outcome, votes) in RELEASED {
        if released(table, shards, shard, place, outcome)?.as_slice() != votes {
            return Ok(false);
        }
    }
    Ok(true)
}

#[test]
fn an_outcome_releases_these_votes(rt: HostRuntime) -> Result<(), Fail> {
    let mut table = Table::new(rt.alloc());
    let released = are_released(rt.alloc(), &mut table);
    drop(table);
    assert!(rt; released?);
    Ok(())
}

/// The outcomes of both writers, and the votes that the second releases.
type After = (Decision, Decision, &'static [(u32, Decision)]);

const AFTER: &[After] = &[
    // Both commit: place 2 commits.
    (COMMIT, COMMIT, &[(2, COMMIT)]),
    // The second aborts: place 2 aborts.
    (COMMIT, ABORT, &[(2, ABORT)]),
    // The first has aborted: the second's commit doesn't help place 2.
    (ABORT, COMMIT, &[(2, ABORT)]),
    // Both abort: place 2 aborts.
    (ABORT, ABORT, &[(2, ABORT)]),
];

fn is_released_after(alloc: Global, table: &mut Table, row: &After) -> Result<bool, Fail> {
    let &(before, outcome, votes) = row;
    take_all(alloc, table)?;
    end(alloc, table, 0, before)?;
    Ok(released(table, 1, 0, 1, outcome)?.as_slice() == votes)
}

// The same in a table of its own.
fn is_after(alloc: Global, row: &After) -> Result<bool, Fail> {
    let mut table = Table::new(alloc);
    is_released_after(alloc, &mut table, row)
}

#[test]
fn an_outcome_counts_with_those_before_it(rt: HostRuntime) -> Result<(), Fail> {
    for row in AFTER {
        assert!(rt; is_after(rt.alloc(), row)?);
    }
    Ok(())
}
