//! The table of the transactions that a replica knows.

ghost use Rattle.std.specs.Prelude.{◌≡◌, ◌<◌, ◌≤◌, ◌+◌, ◌-◌, ◌^◌, ◌++◌, ◌∷◌, [], None, Some, OnOk};
ghost use Rattle.std.specs.Prelude.{OnErr, IsErr, IfSome, length, option_map, slice_get, false};
ghost use Rattle.std.specs.Option.{ForSome};
ghost use Rattle.basil_types.specs.Shown.{transaction_of};
ghost use Rattle.basil_types.specs.Transaction as transactions;
ghost use Rattle.txn_table.specs.Entries.{arrived, asked, voted, decided};
ghost use Rattle.indexmap.specs.IndexMap.{IsUnchanged, spare};
ghost use Rattle.txn_table.specs.Kept.{CanInsert};
ghost use Rattle.txn_table.specs.Shown.{entry_of};
ghost use Rattle.txn_table.specs.Waiters as waiters;
ghost use Rattle.txn_table.specs.Tables as tables;
ghost use Rattle.txn_table.specs.Tables.{AreHeld, HasRoomAt, IsProofBelow, changed, is_voted_at, decision_at};

use crate::entry::Entry;
use crate::waiters::Waiters;
use basil_types::list::List;
use basil_types::memory::NoMemory;
use basil_types::party::{Decision, Party};
use basil_types::transaction::{Transaction, TransactionView};
use id_maps::map::{IdMap, empty_map};
use std::alloc::Global;
use std::marker::Model;
use std::mem;

/// The transactions that a replica knows, in order of arrival, each at a place from 0. Contracts see the list of
/// entries, and beside it the transaction for which room was made and not used since.
#[derive(Drop)]
pub struct Table {
    entries: IdMap<[u8; 32], Entry>,
    // The list of askers of the next entry.
    askers: List<Party>,
    room: Option<[u8; 32]>,
    waiters: Waiters,
    alloc: Global,
}

impl Model for Table {
    ghost use Rattle.txn_table.specs.Tables.{TableValue};
    ghost use Rattle.txn_table.specs.Kept.{IsKept, shown};

    ghost Value = { TableValue };

    ghost view = { λ t. record { entries = shown t.entries; room = t.room } };

    ghost invariant = { λ t. IsKept t.entries t.askers t.waiters t.room };
}

impl Table {
    /// A table of no transaction. Takes no memory.
    pub fn new(alloc: Global) -> Table
        ensures { result ≡ record { entries = []; room = None } }
    {
        Table {
            entries: empty_map(alloc),
            askers: List::new(alloc),
            room: None,
            waiters: Waiters::new(alloc),
            alloc,
        }
    }

    /// How many transactions are held. A place is held exactly where it is below.
    pub fn len(&self) -> u32
        ensures value { result ≡ length self.now.entries }
        ensures held { AreHeld self.now.entries }
    {
        self.entries.len() as u32
    }

    /// The allocator.
    pub(crate) fn alloc(&self) -> Global {
        self.alloc
    }

    /// The place of the transaction with this id. None exactly where it isn't held.
    pub fn place_of(&self, id: &[u8; 32]) -> Option<u32>
        ensures place { result ≡ tables.place_of self.now.entries id.now }
        ensures found { ForSome result (λ place. option_map tables.id_of (slice_get self.now.entries place)
            ≡ Some id.now) }
        ensures within { ForSome result (λ place. place < length self.now.entries) }
        ensures held { AreHeld self.now.entries }
    {
        match self.entries.get_index_of(id) {
            Some(place) => Some(place as u32),
            None => None,
        }
    }

    /// The entry of the transaction with this id. None exactly where it isn't held.
    pub fn entry_with(&self, id: &[u8; 32]) -> Option<&Entry>
        ensures { option_map (λ e. entry_of e.now) result ≡ tables.entry_with self.now.entries id.now }
    {
        match self.place_of(id) {
            Some(place) => Some(self.entry(place)),
            None => None,
        }
    }

    /// The entry at a held place.
    pub fn entry(&self, place: u32) -> &Entry
        requires { place < length self.now.entries }
        ensures entry { slice_get self.now.entries place ≡ Some (entry_of result.now) }
        ensures proof { IsProofBelow (length self.now.entries) (entry_of result.now) }
    {
        &self.entries[place as usize]
    }

    /// Makes room for one `insert` of this transaction, if it isn't held, and one `wait` of it. Room that was made
    /// before is void. Memory is wanting too where the table holds 4,294,967,295 transactions, and this one isn't held.
    pub fn make_room(&mut self, t: TransactionView<'_>) -> Result<(), NoMemory>
        ensures made { OnOk result (self.new
            ≡ record self.old { room = Some (transactions.id (transaction_of t.entry)) }) }
        ensures as_before { OnErr result (self.new ≡ self.old) }
        ensures full { length self.old.entries ≡ 2 ^ 32 - 1
            → tables.place_of self.old.entries (transactions.id (transaction_of t.entry)) ≡ None → IsErr result }
    {
        let id = t.id();
        match self.place_of(&id) {
            Some(place) => self.room_at(place, id),
            None => match self.room_for_waits(t) {
                Ok(()) => self.room_for_new(id),
                Err(refused) => Err(refused),
            },
        }
    }

    /// Appends the entry of a transaction that isn't held and for which there is room, and answers its place.
    /// Takes no memory.
    pub fn insert(&mut self, t: Transaction) -> u32
        requires arrives { tables.place_of self.old.entries (transactions.id t) ≡ None }
        requires room { self.old.room ≡ Some (transactions.id t) }
        ensures place { result ≡ length self.old.entries }
        ensures table { self.new ≡ record self.old { entries = self.old.entries ++ arrived t ∷ [] } }
        ensures room { HasRoomAt self.new result }
    {
        let place = self.len();
        // The room is for this transaction, so it knows the id.
        let Some(id) = self.room else {
            unreachable!();
        };
        self.waiters.list(t.view(), place);
        let askers = mem::replace(&mut self.askers, List::new(self.alloc));
        match self.entries.insert(id, Entry::new(t, askers)) {
            Ok(_) => {}
            Err(_) => unreachable!(),
        }
        place
    }

    /// Has somebody wait for the vote at a held place that isn't voted and for which there is room. Who waits already
    /// is not added again. Takes no memory.
    pub fn wait(&mut self, place: u32, asker: Party)
        requires held { place < length self.old.entries }
        requires not_voted { is_voted_at self.old.entries place ≡ false }
        requires room { HasRoomAt self.old place }
        ensures { self.new ≡ record { entries = changed (asked asker) place self.old.entries; room = None } }
    {
        let entry = &mut self.entries[place as usize];
        entry.wait(asker);
        self.room = None;
    }

    /// Gives the replica's vote at a held place that isn't voted; a proof's place is held too. Nobody waits for it any
    /// more. Takes no memory.
    pub fn set_vote(&mut self, place: u32, vote: Decision, signature: Vec<u8>, proof: Option<u32>)
        requires held { place < length self.old.entries }
        requires not_voted { is_voted_at self.old.entries place ≡ false }
        requires proof { ForSome proof (λ at. at < length self.old.entries) }
        ensures { self.new
            ≡ record self.old { entries = changed (voted vote signature.items proof) place self.old.entries } }
    {
        let entry = &mut self.entries[place as usize];
        entry.set_vote(vote, signature, proof);
    }

    /// Gives the outcome at a held place that has none, with the bytes of the certificate that proves it. Takes no
    /// memory.
    pub fn set_outcome(&mut self, place: u32, outcome: Decision, certificate: Vec<u8>)
        requires held { place < length self.old.entries }
        requires open { decision_at self.old.entries place ≡ None }
        ensures { self.new
            ≡ record self.old { entries = changed (decided outcome certificate.items) place self.old.entries } }
    {
        let entry = &mut self.entries[place as usize];
        entry.set_outcome(outcome, certificate);
    }

    /// Makes room for one more asker at the place of this id.
    fn room_at(&mut self, place: u32, id: [u8; 32]) -> Result<(), NoMemory>
        requires place { tables.place_of self.old.entries id ≡ Some place }
        requires held { AreHeld self.old.entries }
        ensures made { OnOk result (self.new ≡ record self.old { room = Some id }) }
        ensures as_before { OnErr result (self.new ≡ self.old) }
    {
        let entry = &mut self.entries[place as usize];
        match entry.make_room() {
            Ok(()) => {
                self.room = Some(id);
                Ok(())
            }
            Err(refused) => Err(refused),
        }
    }

    /// Makes room for a place at each id that the transaction depends on.
    fn room_for_waits(&mut self, t: TransactionView<'_>) -> Result<(), NoMemory>
        ensures { self.new ≡ self.old }
    {
        self.waiters.make_room(t)
    }

    /// The places of the transactions that depend on an id, where each is listed.
    pub(crate) fn places_on(&self, id: &[u8; 32]) -> Option<&[u32]>
        ensures { IfSome result (λ places. places.now ≡ waiters.places_on id.now self.now.entries) }
    {
        self.waiters.find(id)
    }

    /// Makes room for the entry of this id, which isn't held, and for one asker there.
    fn room_for_new(&mut self, id: [u8; 32]) -> Result<(), NoMemory>
        requires { tables.place_of self.old.entries id ≡ None }
        ensures made { OnOk result (self.new ≡ record self.old { room = Some id }) }
        ensures as_before { OnErr result (self.new ≡ self.old) }
        ensures full { length self.old.entries ≡ 2 ^ 32 - 1 → IsErr result }
    {
        match room_for_entry(&mut self.entries, &mut self.askers) {
            Ok(()) => {
                self.room = Some(id);
                Ok(())
            }
            Err(refused) => Err(refused),
        }
    }
}

/// Makes room for one more entry, and for one asker in the list of its askers.
fn room_for_entry(
    entries: &mut IdMap<[u8; 32], Entry>,
    askers: &mut List<Party>,
) -> Result<(), NoMemory>
    requires { length entries.old.entries < 2 ^ 32 }
    ensures same { IsUnchanged entries.old entries.new }
    ensures same_askers { askers.new.items ≡ askers.old.items }
    ensures room { OnOk result (CanInsert entries.new askers.new) }
    ensures spare { spare entries.old ≤ spare entries.new }
    ensures as_before { OnErr result (askers.new ≡ askers.old) }
    ensures full { length entries.old.entries ≡ 2 ^ 32 - 1 → IsErr result }
{
    if entries.len() == u32::MAX as usize {
        return Err(NoMemory);
    }
    entries.reserve(1)?;
    askers.room_for(1)
}
