//! The store of versions: what it tells of a key's writers and readers, also once some of them are taken out.

use crate::making::transaction;
use basil_types::memory::NoMemory;
use basil_types::transaction::Transaction;
use basil_types::version::Version;
use mv_store::hits::Hits;
use mv_store::store::Store;
use std::alloc::Global;
use std::test::Fail;
use txn_meta::form::version_of;

const NONE: Hits = Hits {
    any: false,
    committed: None,
};

const PREPARED: Hits = Hits {
    any: true,
    committed: None,
};

const FIRST: Hits = Hits {
    any: true,
    committed: Some(0),
};

const THIRD: Hits = Hits {
    any: true,
    committed: Some(2),
};

const FOURTH: Hits = Hits {
    any: true,
    committed: Some(3),
};

// A version of this time and client, with an id of zeros.
fn at(time: u64, client: u8) -> Version {
    Version {
        time,
        client,
        id: [0; 32],
    }
}

fn enter(store: &mut Store, t: &Transaction, place: u32, committed: bool) -> Result<(), NoMemory> {
    store.make_room(t.view())?;
    store.set(t.view(), place, committed);
    Ok(())
}

fn note(store: &mut Store, key: &[u8], time: u64, client: u8) -> Result<(), NoMemory> {
    store.room_for_read(key)?;
    store.note_read(key, time, client);
    Ok(())
}

// A writes a at time 10, B writes b at 20, C reads a from A and writes c at 40.
#[derive(Drop)]
struct Three {
    a: Transaction,
    b: Transaction,
    c: Transaction,
}

impl Three {
    fn new(alloc: Global) -> Result<Three, Fail> {
        let a = transaction(alloc, 10, 1, &[], &[b"a"])?;
        let b = transaction(alloc, 20, 2, &[], &[b"b"])?;
        let version = version_of(a.view());
        let c = transaction(alloc, 40, 3, &[(b"a", version, false)], &[b"c"])?;
        Ok(Three { a, b, c })
    }

    // A and C are committed, B is prepared, and a read of b is noted at 60.
    fn fill(&self, store: &mut Store) -> Result<(), NoMemory> {
        enter(store, &self.a, 0, true)?;
        enter(store, &self.b, 1, false)?;
        enter(store, &self.c, 2, true)?;
        note(store, b"b", 60, 4)
    }
}

/// A version: that of A or of B, or one of this time and client with an id of zeros.
#[derive(Clone, Copy)]
enum Spot {
    A,
    B,
    At(u64, u8),
}

use Spot::{A, At, B};

impl Three {
    fn version(&self, spot: Spot) -> Version {
        match spot {
            A => version_of(self.a.view()),
            B => version_of(self.b.view()),
            At(time, client) => at(time, client),
        }
    }

    // What is told of a writer at a place: A stands at 0, B at 1.
    fn told(&self, place: Option<u32>) -> Option<(Version, u32)> {
        let place = place?;
        let writer = if place == 0 { A } else { B };
        Some((self.version(writer), place))
    }
}

/// A key and a bound, and the places of the latest committed and the latest prepared writer below it.
const LATEST: &[(&str, Spot, Option<u32>, Option<u32>)] = &[
    // A has this time and client, but its id is above the zeros of the bound.
    ("a", At(10, 1), None, None),
    // A isn't below its own version.
    ("a", A, None, None),
    // A is below a later time: the latest committed writer.
    ("a", At(11, 0), Some(0), None),
    // B is below 30: the latest prepared writer, and no committed one.
    ("b", At(30, 1), None, Some(1)),
    // B has this time and client, but its id is above the zeros of the bound.
    ("b", At(20, 2), None, None),
    // C has this time and client, but its id is above the zeros of the bound.
    ("c", At(40, 3), None, None),
    // Nobody writes d.
    ("d", At(99, 1), None, None),
];

fn tell_the_latest(three: &Three, store: &Store) -> bool {
    LATEST.iter().all(|&(key, bound, committed, prepared)| {
        let below = three.version(bound);
        store.latest_committed(key.as_bytes(), &below) == three.told(committed)
            && store.latest_prepared(key.as_bytes(), &below) == three.told(prepared)
    })
}

/// A key, two bounds, and the writers between them.
const BETWEEN: &[(&str, Spot, Spot, Hits)] = &[
    // A is between, and is committed, at place 0.
    ("a", At(0, 0), At(30, 1), FIRST),
    // The lower bound is A's own version, which isn't between.
    ("a", A, At(30, 1), NONE),
    // The upper bound is A's own version, which isn't between.
    ("a", At(0, 0), A, NONE),
    // The lower bound is above the upper one: nothing is between.
    ("a", At(30, 1), At(0, 0), NONE),
    // B is between, and is only prepared.
    ("b", At(0, 0), At(30, 1), PREPARED),
    // C, at 40, is above both bounds.
    ("c", At(0, 0), At(30, 1), NONE),
    // C is between, and is committed, at place 2.
    ("c", At(30, 1), At(50, 1), THIRD),
    // Nobody writes d.
    ("d", At(0, 0), At(99, 1), NONE),
];

fn tell_writers(three: &Three, store: &Store) -> bool {
    BETWEEN.iter().all(|&(key, low, high, hits)| {
        let (low, high) = (three.version(low), three.version(high));
        store.writer_between(key.as_bytes(), &low, &high) == hits
    })
}

/// A key, a version, and the readers above it that read below it.
const ACROSS: &[(&str, Spot, Hits)] = &[
    // C, at 40 and place 2, read A's version, of 10: 20 stands between.
    ("a", At(20, 1), THIRD),
    // C read A's version itself, which isn't below it.
    ("a", A, NONE),
    // C read A's version, which is above client 0 at the same time.
    ("a", At(10, 0), NONE),
    // C, at 40, isn't above 50.
    ("a", At(50, 1), NONE),
    // C writes c, and nobody reads it.
    ("c", At(20, 1), NONE),
    // Nobody reads d.
    ("d", At(20, 1), NONE),
];

fn tell_readers(three: &Three, store: &Store) -> bool {
    ACROSS.iter().all(|&(key, version, hits)| {
        store.reader_across(key.as_bytes(), &three.version(version)) == hits
    })
}

/// The latest writers below a bound, the writers between two versions, and the readers across one, which a store tells.
fn are_told(alloc: Global, store: &mut Store) -> Result<(bool, bool, bool), Fail> {
    let three = Three::new(alloc)?;
    three.fill(store)?;
    Ok((
        tell_the_latest(&three, store),
        tell_writers(&three, store),
        tell_readers(&three, store),
    ))
}

#[test]
fn writers_and_readers_are_told(rt: HostRuntime) -> Result<(), Fail> {
    let mut store = Store::new(rt.alloc());
    let told = are_told(rt.alloc(), &mut store);
    drop(store);
    let (latest, between, across) = told?;
    assert!(rt; latest, "the latest writers");
    assert!(rt; between, "the writers between");
    assert!(rt; across, "the readers across");
    Ok(())
}

/// A key, a time and a client, and whether a read of b at 60 by client 4 was noted above them.
const ABOVE: &[(&str, u64, u8, bool)] = &[
    // The noted read is above a lower client at the same time.
    ("b", 60, 3, true),
    // The time comes first: the noted read is above an earlier one, though that has a higher client.
    ("b", 59, 16, true),
    // The noted read isn't above its own time and client.
    ("b", 60, 4, false),
    // The noted read is below a higher client at the same time.
    ("b", 60, 5, false),
    // The time comes first: the noted read is below a later one, though that has a lower client.
    ("b", 61, 1, false),
    // No read of a is noted.
    ("a", 1, 1, false),
];

fn tells_the_greatest_read(store: &mut Store) -> Result<bool, NoMemory> {
    note(store, b"b", 60, 4)?;
    note(store, b"b", 50, 9)?;
    let told = ABOVE.iter().all(|&(key, time, client, above)| {
        store.read_above(key.as_bytes(), time, client) == above
    });
    note(store, b"b", 60, 5)?;
    Ok(told && store.read_above(b"b", 60, 4))
}

#[test]
fn the_greatest_noted_read_answers(rt: HostRuntime) -> Result<(), Fail> {
    let mut store = Store::new(rt.alloc());
    let told = tells_the_greatest_read(&mut store);
    drop(store);
    assert!(rt; told?);
    Ok(())
}

/// Three writers and a reader of one key, which read the first of them, in the order in which they are taken out: the
/// place, the time, and whether it is the reader.
const TAKEN: &[(u32, u64, bool)] = &[
    // First the second writer.
    (1, 20, false),
    // Then the reader.
    (3, 40, true),
    // Then the third writer.
    (2, 30, false),
    // Last the first writer, which the reader had read.
    (0, 10, false),
];

/// One of them, where the first writer is this version.
fn one_of(alloc: Global, time: u64, reads: bool, first: Version) -> Result<Transaction, Fail> {
    if reads {
        transaction(alloc, time, 1, &[(b"a", first, false)], &[])
    } else {
        transaction(alloc, time, 1, &[], &[b"a"])
    }
}

/// The version of the writer at a time.
fn writer_at(alloc: Global, time: u64) -> Result<Version, Fail> {
    let writer = one_of(alloc, time, false, Version::genesis())?;
    Ok(version_of(writer.view()))
}

/// Enters one of them as committed, or takes it out.
fn change(
    alloc: Global,
    store: &mut Store,
    row: &(u32, u64, bool),
    first: Version,
    enters: bool,
) -> Result<(), Fail> {
    let &(place, time, reads) = row;
    let t = one_of(alloc, time, reads, first)?;
    if enters {
        enter(store, &t, place, true)?;
    } else {
        store.remove(t.view());
    }
    Ok(())
}

/// After each of them is taken out: the time and the place of the latest writer, the writers below 99, and the readers
/// across 25.
const LEFT: &[(Option<(u64, u32)>, Hits, Hits)] = &[
    // Without the second writer: the third is the latest, the first has the least place, and the reader is across 25.
    (Some((30, 2)), FIRST, FOURTH),
    // Without the reader: no reader is across 25.
    (Some((30, 2)), FIRST, NONE),
    // Without the third writer: only the first is left.
    (Some((10, 0)), FIRST, NONE),
    // Without the first writer: nothing is left to tell.
    (None, NONE, NONE),
];

/// Whether a store tells so of the key.
fn tells(
    alloc: Global,
    store: &Store,
    left: &(Option<(u64, u32)>, Hits, Hits),
) -> Result<bool, Fail> {
    let latest = match left.0 {
        Some((time, place)) => Some((writer_at(alloc, time)?, place)),
        None => None,
    };
    let (genesis, end) = (Version::genesis(), at(99, 1));
    Ok(
        store.latest_committed(b"a", &end) == latest
            && store.writer_between(b"a", &genesis, &end) == left.1
            && store.reader_across(b"a", &at(25, 1)) == left.2
            && store.latest_prepared(b"a", &end).is_none(),
    )
}

/// Whether what is taken out of a store tells nothing any more.
fn are_forgotten(alloc: Global, store: &mut Store) -> Result<bool, Fail> {
    let first = writer_at(alloc, 10)?;
    for row in TAKEN {
        change(alloc, store, row, first, true)?;
    }
    for (row, left) in TAKEN.iter().zip(LEFT) {
        change(alloc, store, row, first, false)?;
        if !tells(alloc, store, left)? {
            return Ok(false);
        }
    }
    Ok(true)
}

#[test]
fn what_is_removed_tells_nothing(rt: HostRuntime) -> Result<(), Fail> {
    let mut store = Store::new(rt.alloc());
    let forgotten = are_forgotten(rt.alloc(), &mut store);
    drop(store);
    assert!(rt; forgotten?);
    Ok(())
}

/// The latest committed and the latest prepared writer of a below 20.
fn latest(store: &Store) -> (Option<(Version, u32)>, Option<(Version, u32)>) {
    let below = at(20, 1);
    (
        store.latest_committed(b"a", &below),
        store.latest_prepared(b"a", &below),
    )
}

fn becomes_committed(alloc: Global, store: &mut Store) -> Result<bool, Fail> {
    let one = transaction(alloc, 10, 1, &[], &[b"a"])?;
    let told = Some((version_of(one.view()), 7));
    enter(store, &one, 7, false)?;
    let prepared = latest(store) == (None, told);
    enter(store, &one, 7, true)?;
    Ok(prepared && latest(store) == (told, None))
}

#[test]
fn a_prepared_one_becomes_committed(rt: HostRuntime) -> Result<(), Fail> {
    let mut store = Store::new(rt.alloc());
    let committed = becomes_committed(rt.alloc(), &mut store);
    drop(store);
    assert!(rt; committed?);
    Ok(())
}
