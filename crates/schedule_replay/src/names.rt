//! The names of a replay's transactions.

ghost use Rattle.std.specs.Prelude.{◌≡◌, ◌≤◌, ◌^◌, false, OnOk, find, length, option_map, slice_get};
ghost use Rattle.schedule_replay.specs.Names as naming;
ghost use Rattle.schedule_replay.specs.Names.{is_begun, is_named, with_key, with_name};
ghost use Rattle.schedule_replay.specs.Replays.{NamedValue, no_names};
ghost use Rattle.schedule_replay.specs.Naming.{name_at};

use basil_types::bytes::Bytes;
use basil_types::memory::NoMemory;
use indexmap::IndexMap;
use std::alloc::Global;
use std::collections::BTreeSet;
use std::marker::Model;

/// The most transactions: each is numbered by 32 bits.
const MOST: usize = 4_294_967_296;

/// A begun transaction: its client, and the keys that lines had it read, ascending.
#[derive(Drop)]
pub(crate) struct Begun {
    pub(crate) client: u8,
    pub(crate) keys: BTreeSet<Bytes>,
}

/// The begun transactions by their names, in the order of their beginning.
#[derive(Drop)]
pub(crate) struct Names {
    alloc: Global,
    begun: IndexMap<Vec<u8>, Begun>,
    ghost few: { length begun.entries ≤ 2 ^ 32 },
}

impl Model for Names {
    ghost use Rattle.schedule_replay.specs.Replays.{NamesValue};
    ghost use Rattle.schedule_replay.specs.Naming.{names_in};

    ghost Value = { NamesValue };

    ghost view = { λ n. names_in n.begun.entries };
}

impl Names {
    /// No transaction has begun.
    pub(crate) fn new(alloc: Global) -> Names
        ensures { result ≡ no_names }
    {
        Names {
            alloc,
            begun: IndexMap::new(alloc),
        }
    }

    /// The number of the transaction that a name began, from 0.
    pub(crate) fn number_of(&self, name: &Bytes) -> Option<u32>
        ensures { result ≡ naming.number_of name.now self.now }
    {
        match self.begun.get_index_of(name.as_slice()) {
            Some(place) => Some(place as u32),
            None => None,
        }
    }

    /// The client of the transaction that a name began.
    pub(crate) fn client_of(&self, name: &Bytes) -> Option<u8>
        ensures { result ≡ option_map (λ (n : NamedValue). n.client) (find (is_named name.now) self.now.begun) }
    {
        match self.begun.get(name.as_slice()) {
            Some(begun) => Some(begun.client),
            None => None,
        }
    }

    /// A transaction begins, under a name that is new.
    pub(crate) fn begin(&mut self, name: &Bytes, client: u8) -> Result<(), NoMemory>
        requires { is_begun self.old name.now ≡ false }
        ensures { OnOk result (self.new ≡ with_name name.now client self.old) }
    {
        if self.begun.len() == MOST {
            return Err(NoMemory);
        }
        let name = Vec::from_slice(self.alloc, name.as_slice())?;
        let keys = BTreeSet::new(self.alloc);
        self.begun.insert(name, Begun { client, keys })?;
        Ok(())
    }

    /// A transaction is to read a key.
    pub(crate) fn read(&mut self, name: &Bytes, key: &Bytes) -> Result<(), NoMemory>
        ensures { OnOk result (self.new ≡ with_key name.now key.now self.old) }
    {
        let key = Bytes::copy_of(self.alloc, key.as_slice())?;
        if let Some(begun) = self.begun.get_mut(name.as_slice()) {
            begun.keys.insert(key)?;
        }
        Ok(())
    }

    /// How many transactions have begun.
    pub(crate) fn len(&self) -> usize
        ensures begun { result ≡ length self.now.begun }
        ensures keys { result ≡ length self.now.keys }
        ensures few { result ≤ 2 ^ 32 }
    {
        self.begun.len()
    }

    /// The name at a place, from 0; the empty one past the end.
    pub(crate) fn at(&self, place: usize) -> &[u8]
        ensures { result.now ≡ name_at self.now place }
    {
        match self.begun.get_index(place) {
            Some((name, _)) => name.as_slice(),
            None => &[],
        }
    }

    /// The keys that the transaction at a place was to read, ascending; none past the end.
    pub(crate) fn keys_at(&self, place: usize) -> Option<&BTreeSet<Bytes>>
        ensures { option_map (λ keys. keys.now.keys) result ≡ slice_get self.now.keys place }
    {
        match self.begun.get_index(place) {
            Some((_, begun)) => Some(&begun.keys),
            None => None,
        }
    }
}
