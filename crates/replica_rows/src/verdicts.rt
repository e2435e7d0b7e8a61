//! The verdict of a replica on a transaction, by what it knows of others.

use crate::making::{is_open, is_unvoted, transaction};
use basil_types::bytes::id_of;
use basil_types::cluster::Cluster;
use basil_types::party::Decision;
use basil_types::transaction::Transaction;
use basil_types::version::Version;
use mv_store::store::Store;
use mvtso_check::check::check;
use mvtso_check::verdict::Verdict;
use std::alloc::Global;
use std::test::Fail;
use txn_meta::form::version_of;
use txn_table::table::Table;

// What a replica knows.
#[derive(Drop)]
struct Book {
    store: Store,
    table: Table,
}

impl Book {
    fn new(alloc: Global) -> Book {
        Book {
            store: Store::new(alloc),
            table: Table::new(alloc),
        }
    }

    // Takes a transaction as committed, or as prepared; fails where it is known.
    fn enter(&mut self, alloc: Global, t: &Transaction, committed: bool) -> Result<(), Fail> {
        let copy = t.try_copy(alloc)?;
        self.store.make_room(t.view())?;
        self.table.make_room(t.view())?;
        let id = id_of(t.view().bytes());
        match self.table.place_of(&id) {
            Some(_) => Err(Fail::new("known already")),
            None => {
                let place = self.table.insert(copy);
                self.store.set(t.view(), place, committed);
                settle(alloc, &mut self.table, place, committed)
            }
        }
    }
}

// Makes the transaction at a place committed, or votes commit on it; fails where it isn't held, is voted or has ended.
fn settle(alloc: Global, table: &mut Table, place: u32, committed: bool) -> Result<(), Fail> {
    if place >= table.len() || !is_open(table, place) || !is_unvoted(table, place) {
        return Err(Fail::new("not held, voted or ended"));
    }
    if committed {
        table.set_outcome(place, Decision::Commit, Vec::new(alloc));
    } else {
        table.set_vote(place, Decision::Commit, Vec::new(alloc), None);
    }
    Ok(())
}

/// Which version a row's transaction has read.
#[derive(Clone, Copy)]
enum Seen {
    Genesis,
    /// That of A.
    OfA,
    /// That of B.
    OfB,
    /// One of B's time and client, with another id.
    Another,
}

/// What a row's transaction does with its key.
#[derive(Clone, Copy)]
enum Asks {
    Writes,
    Reads { seen: Seen, dependency: bool },
}

fn a(alloc: Global) -> Result<Transaction, Fail> {
    transaction(alloc, 10, 1, &[], &[b"a"])
}

fn b(alloc: Global) -> Result<Transaction, Fail> {
    transaction(alloc, 20, 2, &[], &[b"b"])
}

fn version_seen(alloc: Global, seen: Seen) -> Result<Version, Fail> {
    match seen {
        Seen::Genesis => Ok(Version::genesis()),
        Seen::OfA => Ok(version_of(a(alloc)?.view())),
        Seen::OfB => Ok(version_of(b(alloc)?.view())),
        Seen::Another => Ok(Version {
            time: 20,
            client: 2,
            id: [7; 32],
        }),
    }
}

// A transaction of client 5.
fn asked(alloc: Global, time: u64, key: u8, asks: Asks) -> Result<Transaction, Fail> {
    match asks {
        Asks::Writes => transaction(alloc, time, 5, &[], &[&[key]]),
        Asks::Reads { seen, dependency } => {
            let version = version_seen(alloc, seen)?;
            transaction(alloc, time, 5, &[(&[key], version, dependency)], &[])
        }
    }
}

// A wrote a at 10 and is committed. B, at 20, wrote b and is prepared.
fn enter_writers(alloc: Global, book: &mut Book) -> Result<(), Fail> {
    let first = a(alloc)?;
    book.enter(alloc, &first, true)?;
    let second = b(alloc)?;
    book.enter(alloc, &second, false)
}

// C, at 40, read a of A and wrote c, and is committed.
fn enter_reader(alloc: Global, book: &mut Book) -> Result<(), Fail> {
    let read = version_seen(alloc, Seen::OfA)?;
    let t = transaction(alloc, 40, 3, &[(b"a", read, false)], &[b"c"])?;
    book.enter(alloc, &t, true)
}

// A read of b is noted at 60.
fn note(book: &mut Book) -> Result<(), Fail> {
    book.store.room_for_read(b"b")?;
    book.store.note_read(b"b", 60, 4);
    Ok(())
}

fn fill(alloc: Global, book: &mut Book) -> Result<(), Fail> {
    enter_writers(alloc, book)?;
    enter_reader(alloc, book)?;
    note(book)
}

const GENESIS: Asks = Asks::Reads {
    seen: Seen::Genesis,
    dependency: false,
};

/// Times, keys, what is done with them, and the verdicts, of a replica at moment 50 with a delta of 100.
const VERDICTS: &[(u64, u8, Asks, Verdict)] = &[
    // A time of 151 is more than delta above the moment: abort.
    (151, b'd', Asks::Writes, Verdict::Abort),
    // A time of exactly the moment plus delta is allowed, and nobody else uses d: commit.
    (150, b'd', Asks::Writes, Verdict::Commit),
    // A, which is committed, wrote a between the genesis that was read and 50: abort, with A as the proof.
    (50, b'a', GENESIS, Verdict::AbortBy { place: 0 }),
    // C, at 40, read a below this write at 30 and is committed: abort, with C as the proof.
    (30, b'a', Asks::Writes, Verdict::AbortBy { place: 2 }),
    // A read of b is noted at 60, above this write at 55: abort, and a noted read is no proof.
    (55, b'b', Asks::Writes, Verdict::Abort),
    // B, which is only prepared, wrote b between the genesis that was read and 25: abort without a proof.
    (25, b'b', GENESIS, Verdict::Abort),
    // A dependency on B, which has no outcome yet: wait.
    (
        50,
        b'b',
        Asks::Reads {
            seen: Seen::OfB,
            dependency: true,
        },
        Verdict::Wait,
    ),
    // A dependency on a version of B's time and client whose id isn't known: abort.
    (
        50,
        b'b',
        Asks::Reads {
            seen: Seen::Another,
            dependency: true,
        },
        Verdict::Abort,
    ),
    // A read of A's version, which is the latest of a: commit.
    (
        50,
        b'a',
        Asks::Reads {
            seen: Seen::OfA,
            dependency: false,
        },
        Verdict::Commit,
    ),
    // The same read as a dependency, on A, which is committed already: commit.
    (
        50,
        b'a',
        Asks::Reads {
            seen: Seen::OfA,
            dependency: true,
        },
        Verdict::Commit,
    ),
];

fn follow_the_rules(alloc: Global, book: &mut Book) -> Result<bool, Fail> {
    let cluster = Cluster::new(0, 1, 1, 100)?;
    fill(alloc, book)?;
    for &(time, key, asks, verdict) in VERDICTS {
        let t = asked(alloc, time, key, asks)?;
        if check(&book.store, &book.table, &cluster, 0, 50, t.view()) != verdict {
            return Ok(false);
        }
    }
    Ok(true)
}

#[test]
fn verdicts_follow_the_rules(rt: HostRuntime) -> Result<(), Fail> {
    let mut book = Book::new(rt.alloc());
    let followed = follow_the_rules(rt.alloc(), &mut book);
    drop(book);
    assert!(rt; followed?);
    Ok(())
}

// A writer of a, committed.
fn enter_one(alloc: Global, book: &mut Book) -> Result<(), Fail> {
    let a = transaction(alloc, 10, 1, &[], &[b"a"])?;
    book.enter(alloc, &a, true)
}

// The verdict on a reader of a that has not seen that writer, for a shard of two.
fn verdict_for(alloc: Global, book: &Book, shard: u8) -> Result<Verdict, Fail> {
    let cluster = Cluster::new(0, 2, 1, 100)?;
    let t = transaction(alloc, 50, 5, &[(b"a", Version::genesis(), false)], &[])?;
    Ok(check(&book.store, &book.table, &cluster, shard, 50, t.view()))
}

fn decides_in_its_shard(alloc: Global, book: &mut Book) -> Result<bool, Fail> {
    enter_one(alloc, book)?;
    let apart = verdict_for(alloc, book, 0)? == Verdict::Commit;
    Ok(apart && verdict_for(alloc, book, 1)? == Verdict::AbortBy { place: 0 })
}

// Of two shards key a is in shard 1.
#[test]
fn keys_of_another_shard_decide_nothing(rt: HostRuntime) -> Result<(), Fail> {
    let mut book = Book::new(rt.alloc());
    let decided = decides_in_its_shard(rt.alloc(), &mut book);
    drop(book);
    assert!(rt; decided?);
    Ok(())
}

// The key k with a number behind it, in decimal.
fn numbered(alloc: Global, number: u32) -> Result<Vec<u8>, Fail> {
    Ok(format!(in alloc; "k{number}")?.into_bytes())
}

const MANY: u32 = 400_000;

// The version of the writer of a numbered key, which is committed.
fn enter_numbered(alloc: Global, book: &mut Book, number: u32) -> Result<Version, Fail> {
    let key = numbered(alloc, number)?;
    let t = transaction(alloc, 1, 1, &[], &[&key])?;
    book.enter(alloc, &t, true)?;
    Ok(version_of(t.view()))
}

fn enter_many(alloc: Global, book: &mut Book) -> Result<Vec<Version>, Fail> {
    let mut versions = Vec::new(alloc);
    for number in 0..MANY {
        versions.push(enter_numbered(alloc, book, number)?)?;
    }
    Ok(versions)
}

// Whether a numbered key's writer is found, by its id and by its key.
fn is_found(alloc: Global, book: &Book, number: u32, version: Version) -> Result<bool, Fail> {
    let key = numbered(alloc, number)?;
    let bound = Version {
        time: 2,
        client: 1,
        id: [0; 32],
    };
    Ok(
        book.table.place_of(&version.id) == Some(number)
            && book.store.latest_committed(&key, &bound) == Some((version, number)),
    )
}

// The verdict on a later writer of a numbered key.
fn verdict_on(alloc: Global, book: &Book, number: u32) -> Result<Verdict, Fail> {
    let cluster = Cluster::new(0, 1, 1, 100)?;
    let key = numbered(alloc, number)?;
    let t = transaction(alloc, 2, 1, &[], &[&key])?;
    Ok(check(&book.store, &book.table, &cluster, 0, 10, t.view()))
}

fn are_found(alloc: Global, book: &mut Book) -> Result<bool, Fail> {
    let versions = enter_many(alloc, book)?;
    for (number, version) in (0..MANY).zip(&versions) {
        let found = is_found(alloc, book, number, *version)?;
        if !found || verdict_on(alloc, book, number)? != Verdict::Commit {
            return Ok(false);
        }
    }
    Ok(true)
}

// Searching lists, this would look at 160,000,000,000 entries.
#[test]
fn many_transactions_are_found_by_indexes(rt: HostRuntime) -> Result<(), Fail> {
    let mut book = Book::new(rt.alloc());
    let found = are_found(rt.alloc(), &mut book);
    drop(book);
    assert!(rt; found?);
    Ok(())
}
