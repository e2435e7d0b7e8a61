//! Which transactions read and wrote which versions of which keys.

ghost use Rattle.std.specs.Prelude.{◌≡◌, List, ℕ, [], ◌∷◌, IsSome, OnOk, All, option_map};
ghost use Rattle.basil_types.specs.Shown.{transaction_of};
ghost use Rattle.basil_types.specs.Transaction.{TransactionValue};
ghost use Rattle.mv_store.specs.Held;
ghost use Rattle.mv_store.specs.Held.{Held, NotedRead};

use crate::hits::Hits;
use crate::index::{Entered, Reader};
use crate::keys::Keys;
use basil_types::memory::NoMemory;
use basil_types::transaction::TransactionView;
use basil_types::version::Version;
use std::alloc::Global;
use txn_meta::form::version_of;

/// The transactions that are entered at a replica, prepared or committed, by the keys that they read and write, and the
/// noted reads. Contracts see the lists of these that the store stands for, in any order.
#[derive(Drop)]
pub struct Store {
    keys: Keys,
}

impl Store {
    ghost use Rattle.mv_store.specs.Keys.{HasKey, writer_slot, reader_slot, OnlyRoom};
    ghost use Rattle.mv_store.specs.Changes.{PutsWrites, PutsReads, Tells};
    ghost use Rattle.mv_store.specs.Store.{Stands, KeepsStanding, Enters, TakesOut, HasRoom, HasReadRoom};

    /// A store of no transaction and no read.
    pub fn new(alloc: Global) -> Store
        ensures { Stands result [] [] }
    {
        Store {
            keys: Keys::new(alloc),
        }
    }

    /// Makes room for a transaction, or finds memory wanting. Either way the store stands for what it stood for. Only
    /// the room of the last call counts.
    pub fn make_room(&mut self, t: TransactionView<'_>) -> Result<(), NoMemory>
        ensures room { OnOk result (HasRoom self.new (transaction_of t.entry)) }
        ensures as_before { KeepsStanding self.old self.new }
        ensures read_room { (key : List ℕ) → HasReadRoom self.old key → HasReadRoom self.new key }
    {
        let version = version_of(t);
        self.room_for_writes(t, &version)?;
        self.room_for_reads(t, &version)
    }

    /// Makes room for the note of a read of a key, or finds memory wanting. Either way the store stands for what it
    /// stood for. Only the room of the last call counts.
    pub fn room_for_read(&mut self, key: &[u8]) -> Result<(), NoMemory>
        ensures room { OnOk result (HasReadRoom self.new key.now) }
        ensures as_before { KeepsStanding self.old self.new }
        ensures other_room { (t : TransactionValue) → HasRoom self.old t → HasRoom self.new t }
    {
        self.keys.add_key(key)
    }

    /// Enters a transaction for which there is room, at this place, prepared or committed, where no other transaction
    /// of its version is entered. One that is entered already gets this place and state, and needs no room made.
    pub fn set(&mut self, t: TransactionView<'_>, place: u32, committed: bool)
        requires { HasRoom self.old (transaction_of t) }
        ensures entered { Enters self.old self.new (transaction_of t.entry) place committed }
        ensures room { HasRoom self.new (transaction_of t.entry) }
        ensures read_room { (key : List ℕ) → HasReadRoom self.old key → HasReadRoom self.new key }
    {
        self.tell(t, Some(Entered { place, committed }));
    }

    /// Takes an entered transaction out, where no other transaction of its version is entered.
    pub fn remove(&mut self, t: TransactionView<'_>)
        ensures removed { TakesOut self.old self.new (transaction_of t.entry) }
        ensures read_room { (key : List ℕ) → HasReadRoom self.old key → HasReadRoom self.new key }
    {
        self.tell(t, None);
    }

    /// Notes a read of a key for which there is room.
    pub fn note_read(&mut self, key: &[u8], time: u64, client: u8)
        requires { HasReadRoom self.old key.now }
        ensures noted { (held : List Held) (noted : List NotedRead) → Stands self.old held noted
            → Stands self.new held ((record { key = key.now; time = time; client = client }) ∷ noted) }
        ensures other_room { (t : TransactionValue) → HasRoom self.old t → HasRoom self.new t }
        ensures read_room { (key : List ℕ) → HasReadRoom self.old key → HasReadRoom self.new key }
    {
        self.keys.note_read(key, time, client);
    }

    /// The version and the place of the latest committed transaction that writes or deletes the key at a version below
    /// this one. None exactly where there is none.
    pub fn latest_committed(&self, key: &[u8], below: &Version) -> Option<(Version, u32)>
        ensures { (held : List Held) (noted : List NotedRead) → Stands self.now held noted
            → result ≡ Held.latest_committed key.now below.now held }
    {
        self.keys.find(key)?.latest(true, below)
    }

    /// The version and the place of the latest prepared transaction that writes or deletes the key at a version below
    /// this one. None exactly where there is none.
    pub fn latest_prepared(&self, key: &[u8], below: &Version) -> Option<(Version, u32)>
        ensures { (held : List Held) (noted : List NotedRead) → Stands self.now held noted
            → result ≡ Held.latest_prepared key.now below.now held }
    {
        self.keys.find(key)?.latest(false, below)
    }

    /// The entered transactions that write or delete the key at a version strictly between these.
    pub fn writer_between(&self, key: &[u8], low: &Version, high: &Version) -> Hits
        ensures { (held : List Held) (noted : List NotedRead) → Stands self.now held noted
            → result ≡ Held.writer_between key.now low.now high.now held }
    {
        match self.keys.find(key) {
            Some(index) => index.writers_between(low, high),
            None => Hits::none(),
        }
    }

    /// The entered transactions of a version above this one that read the key at a version below it.
    pub fn reader_across(&self, key: &[u8], at: &Version) -> Hits
        ensures { (held : List Held) (noted : List NotedRead) → Stands self.now held noted
            → result ≡ Held.reader_across key.now at.now held }
    {
        match self.keys.find(key) {
            Some(index) => index.readers_across(at),
            None => Hits::none(),
        }
    }

    /// Whether a read of the key is noted that comes behind this time and client.
    pub fn read_above(&self, key: &[u8], time: u64, client: u8) -> bool
        ensures { (held : List Held) (noted : List NotedRead) → Stands self.now held noted
            → result ≡ Held.read_above key.now time client noted }
    {
        match self.keys.find(key) {
            Some(index) => index.is_read_above(time, client),
            None => false,
        }
    }

    /// Tells this of a transaction at its keys, or takes it out of them where nothing is told.
    fn tell(&mut self, t: TransactionView<'_>, told: Option<Entered>)
        requires { IsSome told → HasRoom self.old (transaction_of t) }
        ensures { Tells self.old.keys self.new.keys (transaction_of t.entry) told }
    {
        let version = version_of(t);
        self.put_writes(t, &version, told);
        self.put_reads(t, &version, told);
    }

    /// Tells this of a version at the keys of the writes.
    fn put_writes(&mut self, t: TransactionView<'_>, version: &Version, told: Option<Entered>)
        requires { IsSome told
            → All (λ w. IsSome (writer_slot self.old.keys w.key version.now)) (transaction_of t).writes }
        ensures { PutsWrites self.old.keys self.new.keys (transaction_of t.entry).writes version.now told }
    {
        let _ = t.bytes();
        for place in 0..32usize {
            let Some(item) = t.write_at(place) else {
                return;
            };
            self.keys.put_writer(item.key, version, told);
        }
    }

    /// Tells this of a version at the keys of the reads.
    fn put_reads(&mut self, t: TransactionView<'_>, version: &Version, told: Option<Entered>)
        requires { IsSome told
            → All (λ r. IsSome (reader_slot self.old.keys r.key version.now)) (transaction_of t).reads }
        ensures { PutsReads self.old.keys self.new.keys (transaction_of t.entry).reads version.now told }
    {
        let _ = t.bytes();
        for place in 0..32usize {
            let Some(item) = t.read_at(place) else {
                return;
            };
            let reader = reader_of(item.version, told);
            self.keys.put_reader(item.key, version, reader);
        }
    }

    /// Makes room at the keys of the writes.
    fn room_for_writes(&mut self, t: TransactionView<'_>, version: &Version) -> Result<(), NoMemory>
        ensures room { OnOk result
            (All (λ w. IsSome (writer_slot self.new.keys w.key version.now)) (transaction_of t.entry).writes) }
        ensures as_before { OnlyRoom self.old.keys self.new.keys }
    {
        let _ = t.bytes();
        for place in 0..32usize {
            let Some(item) = t.write_at(place) else {
                return Ok(());
            };
            self.keys.room_for_writer(item.key, version)?;
        }
        Ok(())
    }

    /// Makes room at the keys of the reads.
    fn room_for_reads(&mut self, t: TransactionView<'_>, version: &Version) -> Result<(), NoMemory>
        ensures room { OnOk result
            (All (λ r. IsSome (reader_slot self.new.keys r.key version.now)) (transaction_of t.entry).reads) }
        ensures as_before { OnlyRoom self.old.keys self.new.keys }
    {
        let _ = t.bytes();
        for place in 0..32usize {
            let Some(item) = t.read_at(place) else {
                return Ok(());
            };
            self.keys.room_for_reader(item.key, version)?;
        }
        Ok(())
    }
}

/// What is told of a reader that read this version.
fn reader_of(read: Version, told: Option<Entered>) -> Option<Reader>
    ensures { result ≡ option_map (λ e. record { read = read; entered = e }) told }
{
    match told {
        Some(entered) => Some(Reader { read, entered }),
        None => None,
    }
}
