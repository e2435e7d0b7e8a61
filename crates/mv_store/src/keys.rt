//! The keys, each with its index.

ghost use Rattle.std.specs.Prelude.{◌≡◌, IsSome, OnOk, None, Some, option_map, is_some, true};

use crate::index::{Entered, KeyIndex, Reader};
use basil_types::memory::NoMemory;
use basil_types::version::Version;
use indexmap::IndexMap;
use std::alloc::Global;

/// The indexes of keys. A key that no transaction reads or writes may have one too.
#[derive(Drop)]
pub(crate) struct Keys {
    map: IndexMap<Vec<u8>, KeyIndex>,
    alloc: Global,
}

impl Keys {
    ghost use Rattle.std.specs.Prelude.{List, ℕ, IsNone, option_copied};
    ghost use Rattle.basil_types.specs.declared.version.Version.{Version};
    ghost use Rattle.mv_store.specs.Keys.{index_of, HasKey, writer_slot, reader_slot};
    ghost use Rattle.mv_store.specs.Keys.{noted_of, OnlyRoom, PutsWriter, PutsReader, Notes};

    /// No key.
    pub(crate) fn new(alloc: Global) -> Keys
        ensures { (key : List ℕ) → index_of result key ≡ None }
    {
        Keys {
            map: IndexMap::new(alloc),
            alloc,
        }
    }

    /// The index of a key.
    pub(crate) fn find(&self, key: &[u8]) -> Option<&KeyIndex>
        ensures { option_copied result ≡ index_of self.now key.now }
    {
        self.map.get(key)
    }

    /// Gives a key an index, where it has none.
    pub(crate) fn add_key(&mut self, key: &[u8]) -> Result<(), NoMemory>
        ensures as_before { OnlyRoom self.old self.new }
        ensures room { OnOk result (HasKey self.new key.now) }
    {
        if self.map.contains_key(key) {
            return Ok(());
        }
        let bytes = Vec::from_slice(self.alloc, key)?;
        self.map.insert(bytes, KeyIndex::new(self.alloc))?;
        Ok(())
    }

    /// Makes room for a writer of a key.
    pub(crate) fn room_for_writer(&mut self, key: &[u8], version: &Version) -> Result<(), NoMemory>
        ensures as_before { OnlyRoom self.old self.new }
        ensures room { OnOk result (IsSome (writer_slot self.new key.now version.now)) }
    {
        self.add_key(key)?;
        match self.map.get_mut(key) {
            Some(index) => index.writers.make_room(version),
            None => unreachable!(),
        }
    }

    /// Makes room for a reader of a key.
    pub(crate) fn room_for_reader(&mut self, key: &[u8], version: &Version) -> Result<(), NoMemory>
        ensures as_before { OnlyRoom self.old self.new }
        ensures room { OnOk result (IsSome (reader_slot self.new key.now version.now)) }
    {
        self.add_key(key)?;
        match self.map.get_mut(key) {
            Some(index) => index.readers.make_room(version),
            None => unreachable!(),
        }
    }

    /// Tells this of a writer of a key, or takes its slot out where nothing is told.
    pub(crate) fn put_writer(&mut self, key: &[u8], version: &Version, told: Option<Entered>)
        requires { IsSome told → IsSome (writer_slot self.old key.now version.now) }
        ensures { PutsWriter self.old self.new key.now version.now told }
    {
        if let Some(index) = self.map.get_mut(key) {
            index.writers.put(version, told);
        }
    }

    /// Tells this of a reader of a key, or takes its slot out where nothing is told.
    pub(crate) fn put_reader(&mut self, key: &[u8], version: &Version, told: Option<Reader>)
        requires { IsSome told → IsSome (reader_slot self.old key.now version.now) }
        ensures { PutsReader self.old self.new key.now version.now told }
    {
        if let Some(index) = self.map.get_mut(key) {
            index.readers.put(version, told);
        }
    }

    /// Notes a read of a key that has an index.
    pub(crate) fn note_read(&mut self, key: &[u8], time: u64, client: u8)
        requires { HasKey self.old key.now }
        ensures { Notes self.old self.new key.now (time, client) }
    {
        match self.map.get_mut(key) {
            Some(index) => index.note_read(time, client),
            None => unreachable!(),
        }
    }
}
