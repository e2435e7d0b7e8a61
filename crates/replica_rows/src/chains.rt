//! A long chain of dependencies: each outcome releases the next vote alone, and looks at no other entry.

use crate::making::{arrive, ask, end, released, transaction};
use basil_types::party::{Decision, Party};
use basil_types::version::Version;
use std::alloc::Global;
use std::test::Fail;
use txn_meta::form::version_of;
use txn_table::table::Table;

/// How many transactions stand in the chain. A look at every entry at each outcome would take hours.
const COUNT: u32 = 400_000;

const COMMIT: Decision = Decision::Commit;

// Takes a writer of b that depends on this version of b, and has somebody wait for it; answers its own version.
fn follow(alloc: Global, table: &mut Table, time: u64, before: Version) -> Result<Version, Fail> {
    let t = transaction(alloc, time, 2, &[(b"b", before, true)], &[b"b"])?;
    arrive(alloc, table, &t)?;
    ask(table, &t, Party::Client { number: 1 })?;
    Ok(version_of(t.view()))
}

// So many transactions, each of which but the first depends on the one before it and waits.
fn fill(alloc: Global, table: &mut Table, count: u32) -> Result<(), Fail> {
    let first = transaction(alloc, 1, 2, &[], &[b"b"])?;
    arrive(alloc, table, &first)?;
    let mut last = version_of(first.view());
    for place in 1..count {
        last = follow(alloc, table, u64::from(place) + 1, last)?;
    }
    Ok(())
}

// Whether the outcome at a place releases the vote behind it alone; the place ends.
fn releases_next(alloc: Global, table: &mut Table, next: u32) -> Result<bool, Fail> {
    let place = next.saturating_sub(1);
    let votes = released(table, 1, 0, place, COMMIT)?;
    end(alloc, table, place, COMMIT)?;
    Ok(votes.as_slice() == [(next, COMMIT)].as_slice())
}

// Whether each outcome of a chain does so, and the last one releases nothing.
fn release_one_another(alloc: Global, table: &mut Table) -> Result<bool, Fail> {
    fill(alloc, table, COUNT)?;
    for next in 1..COUNT {
        if !releases_next(alloc, table, next)? {
            return Ok(false);
        }
    }
    let last = COUNT - 1;
    let votes = released(table, 1, 0, last, COMMIT)?;
    end(alloc, table, last, COMMIT)?;
    Ok(votes.is_empty())
}

#[test]
fn each_of_400_000_outcomes_releases_the_next_vote(rt: HostRuntime) -> Result<(), Fail> {
    let mut table = Table::new(rt.alloc());
    let released = release_one_another(rt.alloc(), &mut table);
    drop(table);
    assert!(rt; released?);
    Ok(())
}
