//! Owned lists with spare room.

ghost use Rattle.std.specs.Prelude.{◌≡◌, ◌++◌, ◌∷◌, [], ◌+◌, ◌-◌, ◌≤◌, ◌<◌, length, OnOk, OnErr};

use crate::memory::NoMemory;
use std::alloc::Global;
use std::marker::Model;

/// An owned list. Contracts see its items, and beside them the number of items that it can take without memory.
#[derive(Drop)]
pub struct List<T> {
    vec: Vec<T>,
}

impl<T> Model for List<T> {
    ghost use Rattle.std.specs.Prelude.{◌-◌, vec_len, vec_capacity};
    ghost use Rattle.basil_types.specs.Spare.{Spare};

    ghost Value = { Spare T };

    ghost view = { λ l. record { items = l.vec.items; room = vec_capacity l.vec - vec_len l.vec } };
}

impl<T> List<T> {
    /// An empty list on this allocator. Takes no memory.
    pub fn new(alloc: Global) -> List<T>
        ensures { result.items ≡ [] }
    {
        List {
            vec: Vec::new(alloc),
        }
    }

    /// The items of a vector. Takes no memory.
    pub fn from_vec(vec: Vec<T>) -> List<T>
        ensures { result.items ≡ vec.items }
    {
        List { vec }
    }

    /// Makes the spare room at least `count`, or finds memory wanting and changes nothing.
    pub fn room_for(&mut self, count: usize) -> Result<(), NoMemory>
        ensures same_items { self.new.items ≡ self.old.items }
        ensures room { OnOk result (count ≤ self.new.room) }
        ensures as_before { OnErr result (self.new ≡ self.old) }
    {
        self.vec.reserve(count)?;
        Ok(())
    }

    /// Appends an item for which there is room.
    pub fn push(&mut self, item: T)
        requires { 0 < self.old.room }
        ensures items { self.new.items ≡ self.old.items ++ item ∷ [] }
        ensures room { self.new.room ≡ self.old.room - 1 }
    {
        self.vec.push_reserved(item);
    }

    /// The items, lent.
    pub fn as_slice(&self) -> &[T]
        ensures { result.now ≡ self.now.items }
    {
        self.vec.as_slice()
    }

    /// The items as a vector. Takes no memory.
    pub fn into_vec(self) -> Vec<T>
        ensures { result.items ≡ self.items }
    {
        self.vec
    }
}
