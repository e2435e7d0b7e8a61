//! Which transactions depend on an id.

ghost use Rattle.std.specs.Prelude.{◌≡◌, [], List, ℕ, IfSome, ◌&&◌, true};
ghost use Rattle.std.specs.Str.{bytes_eq};
ghost use Rattle.basil_types.specs.Shown.{transaction_of, read_of};
ghost use Rattle.txn_table.specs.Waiters.{listed, ends_with, with_place, waits_on, reads_on, SamePlaces, Adds};

use basil_types::memory::NoMemory;
use basil_types::transaction::TransactionView;
use basil_types::transaction::parts::ReadItem;
use id_maps::map::{IdMap, empty_map};
use std::alloc::Global;

/// For each id the places of the transactions that depend on it, ascending. An id may have an empty list.
#[derive(Drop)]
pub(crate) struct Waiters {
    lists: IdMap<[u8; 32], Vec<u32>>,
    // Whether each place is listed: cleared where memory was wanting for one.
    whole: bool,
    alloc: Global,
}

impl Waiters {
    /// No place. Takes no memory.
    pub(crate) fn new(alloc: Global) -> Waiters
        ensures { (id : List ℕ) → listed result id ≡ [] }
    {
        Waiters {
            lists: empty_map(alloc),
            whole: true,
            alloc,
        }
    }

    /// The places at an id, where each is listed.
    pub(crate) fn find(&self, id: &[u8; 32]) -> Option<&[u32]>
        ensures whole { IfSome result (λ places. self.now.whole ≡ true) }
        ensures places { IfSome result (λ places. places.now ≡ listed self.now id.now) }
    {
        if !self.whole {
            return None;
        }
        match self.lists.get(id) {
            Some(places) => Some(places.as_slice()),
            None => Some(&[]),
        }
    }

    /// Makes room for a place at each id that the transaction depends on.
    pub(crate) fn make_room(&mut self, t: TransactionView<'_>) -> Result<(), NoMemory>
        ensures { SamePlaces self.old self.new }
    {
        room_for_all(self, t)
    }

    /// Lists the place of a transaction that arrives.
    pub(crate) fn list(&mut self, t: TransactionView<'_>, place: u32)
        ensures { Adds (waits_on (transaction_of t.entry)) self.old self.new place }
    {
        list_all(self, t, place)
    }

    /// Gives an id a list, where it has none.
    fn add_id(&mut self, id: &[u8; 32]) -> Result<(), NoMemory>
        ensures { SamePlaces self.old self.new }
    {
        if self.lists.contains_key(id) {
            return Ok(());
        }
        self.lists.insert(*id, no_places(self.alloc))?;
        Ok(())
    }

    /// Makes room for a place at an id.
    fn room_at(&mut self, id: &[u8; 32]) -> Result<(), NoMemory>
        ensures { SamePlaces self.old self.new }
    {
        self.add_id(id)?;
        match self.lists.get_mut(id) {
            Some(places) => room_in(places),
            None => Ok(()),
        }
    }

    /// Makes room for a place at the id of a read, where it is a dependency.
    fn room_for_read(&mut self, item: &ReadItem<'_>) -> Result<(), NoMemory>
        ensures { SamePlaces self.old self.new }
    {
        if item.dependency {
            self.room_at(&item.version.id)
        } else {
            Ok(())
        }
    }

    /// Lists a place at an id.
    fn add(&mut self, id: &[u8; 32], place: u32)
        ensures { Adds (bytes_eq id.now) self.old self.new place }
    {
        match self.lists.get_mut(id) {
            Some(places) => {
                let added = add_place(places, place);
                self.whole = both(self.whole, added);
            }
            None => self.whole = false,
        }
    }

    /// Lists a place at the id of a read, where it is a dependency.
    fn add_read(&mut self, item: &ReadItem<'_>, place: u32)
        ensures { Adds (λ id. reads_on id (read_of item.now)) self.old self.new place }
    {
        if item.dependency {
            self.add(&item.version.id, place);
        }
    }
}

/// Makes room for a place at each id that the transaction depends on.
fn room_for_all(waiters: &mut Waiters, t: TransactionView<'_>) -> Result<(), NoMemory>
    ensures { SamePlaces waiters.old waiters.new }
{
    for item in t.reads() {
        waiters.room_for_read(&item)?;
    }
    Ok(())
}

/// Lists a place at each id that the transaction depends on.
fn list_all(waiters: &mut Waiters, t: TransactionView<'_>, place: u32)
    ensures { Adds (waits_on (transaction_of t.entry)) waiters.old waiters.new place }
{
    for item in t.reads() {
        waiters.add_read(&item, place);
    }
}

/// No places. Takes no memory.
fn no_places(alloc: Global) -> Vec<u32>
    ensures { result.items ≡ [] }
{
    Vec::new(alloc)
}

/// Makes room for one more place.
fn room_in(places: &mut Vec<u32>) -> Result<(), NoMemory>
    ensures { places.new.items ≡ places.old.items }
{
    places.reserve(1)?;
    Ok(())
}

/// Appends a place, unless it is the last already. False where memory is wanting.
fn add_place(places: &mut Vec<u32>, place: u32) -> bool
    ensures { result ≡ true → places.new.items ≡ with_place place places.old.items }
{
    if is_last(places.as_slice(), place) {
        return true;
    }
    match places.push(place) {
        Ok(()) => true,
        Err(_) => false,
    }
}

/// Whether a place is the last.
fn is_last(places: &[u32], place: u32) -> bool
    ensures { result ≡ ends_with place places.now }
{
    match places.get(places.len().saturating_sub(1)) {
        Some(last) => *last == place,
        None => false,
    }
}

/// Whether both are so.
fn both(one: bool, other: bool) -> bool
    ensures { result ≡ (one && other) }
{
    one && other
}
