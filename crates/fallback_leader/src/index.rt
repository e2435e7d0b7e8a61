//! Where the words for a view of a transaction are kept.

ghost use Rattle.std.specs.Prelude.{◌≡◌, [], OnOk, OnErr};

use basil_types::memory::NoMemory;
use indexmap::IndexMap;
use std::alloc::Global;

/// For each view of each transaction, the places of its words among all that are kept, ascending.
#[derive(Drop)]
pub(crate) struct Index {
    groups: IndexMap<([u8; 32], u64), Vec<usize>>,
    alloc: Global,
}

impl Index {
    ghost use Rattle.std.specs.Prelude.{List, ℕ};
    ghost use Rattle.fallback_leader.specs.Index.{places_at, Adds, TakesBack, IsSame, HasGroup};

    /// No place. Takes no memory.
    pub(crate) fn new(alloc: Global) -> Index
        ensures { (id : List ℕ) (view : ℕ) → places_at result id view ≡ [] }
    {
        Index {
            groups: IndexMap::new(alloc),
            alloc,
        }
    }

    /// The places of the words for a view of a transaction.
    pub(crate) fn places(&self, id: &[u8; 32], view: u64) -> &[usize]
        ensures { result.now ≡ places_at self.now id.now view }
    {
        match self.groups.get(&(*id, view)) {
            Some(places) => places.as_slice(),
            None => &[],
        }
    }

    /// Adds the place of a word for a view of a transaction.
    pub(crate) fn add(&mut self, id: &[u8; 32], view: u64, place: usize) -> Result<(), NoMemory>
        ensures added { OnOk result (Adds self.old self.new id.now view place) }
        ensures as_before { OnErr result (IsSame self.old self.new) }
    {
        self.add_group(id, view)?;
        match self.groups.get_mut(&(*id, view)) {
            Some(places) => {
                places.push(place)?;
                Ok(())
            }
            None => unreachable!(),
        }
    }

    /// Takes the last place for a view of a transaction back.
    pub(crate) fn take_back(&mut self, id: &[u8; 32], view: u64)
        ensures { TakesBack self.old self.new id.now view }
    {
        if let Some(places) = self.groups.get_mut(&(*id, view)) {
            let _ = places.pop();
        }
    }

    /// Gives a view of a transaction a list of no place, where it has none.
    fn add_group(&mut self, id: &[u8; 32], view: u64) -> Result<(), NoMemory>
        ensures same { IsSame self.old self.new }
        ensures there { OnOk result (HasGroup self.new id.now view) }
    {
        let key = (*id, view);
        if self.groups.contains_key(&key) {
            return Ok(());
        }
        self.groups.insert(key, Vec::new(self.alloc))?;
        Ok(())
    }
}
