//! Lists that ascend by key.

ghost use Rattle.std.specs.Prelude.{◌≡◌, ◌≤◌, ◌<◌, ℕ, List, OnOk, OnErr, length, vec_len, vec_capacity};
ghost use Rattle.node_steps.specs.Lists.{by_key, put};
ghost use Rattle.client_core.specs.Placing.{placed, IsWithin};

use crate::asking::Asking;
use basil_types::memory::NoMemory;
use basil_types::transaction::parts::{ReadPart, WritePart};
use std::cmp::Ordering;

/// What stands in a list that ascends by key.
pub trait Keyed {
    // The key.
    ghost key_of: { Self → List ℕ };

    /// The key, by which lists ascend.
    fn key(&self) -> &[u8]
        ensures { result.now ≡ key_of self.now };
}

impl Keyed for WritePart {
    ghost key_of = { λ w. w.key };

    fn key(&self) -> &[u8] {
        self.key.as_slice()
    }
}

impl Keyed for ReadPart {
    ghost key_of = { λ r. r.key };

    fn key(&self) -> &[u8] {
        self.key.as_slice()
    }
}

impl Keyed for Asking {
    ghost key_of = { λ a. a.key };

    fn key(&self) -> &[u8] {
        self.key.as_slice()
    }
}

/// Where an item goes: in the place of one of its key, or before a place.
#[derive(Clone, Copy)]
pub(crate) enum Place {
    At(usize),
    Before(usize),
}

/// Where an item of this key goes.
pub(crate) fn place_of<T: Keyed>(items: &[T], key: &[u8]) -> Place
    ensures placed { (item : T) → T.key_of item ≡ key.now →
        put (by_key T.key_of) item items.now ≡ placed result item items.now }
    ensures within { IsWithin result (length items.now) }
{
    for (i, item) in items.iter().enumerate() {
        match key.cmp(item.key()) {
            Ordering::Less => return Place::Before(i),
            Ordering::Equal => return Place::At(i),
            Ordering::Greater => {}
        }
    }
    Place::Before(items.len())
}

/// Puts an item into its place, in a list with room for one more. Takes no memory.
pub(crate) fn put_reserved<T: Keyed + Drop>(items: &mut Vec<T>, item: T)
    requires { vec_len items.old < vec_capacity items.old }
    ensures { items.new.items ≡ put (by_key T.key_of) item items.old.items }
{
    match place_of(items.as_slice(), item.key()) {
        Place::At(i) => items[i] = item,
        Place::Before(i) => {
            items.insert(i, item).unwrap();
        }
    }
}

/// Puts an item into its place, or finds memory wanting and leaves the list as it was.
pub fn put_in<T: Keyed + Drop>(items: &mut Vec<T>, item: T) -> Result<(), NoMemory>
    ensures put { OnOk result (items.new.items ≡ put (by_key T.key_of) item items.old.items) }
    ensures as_before { OnErr result (items.new.items ≡ items.old.items) }
{
    items.reserve(1)?;
    put_reserved(items, item);
    Ok(())
}
