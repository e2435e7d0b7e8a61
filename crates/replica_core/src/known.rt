//! The transactions that a replica knows, and the index of those that stand.

ghost use Rattle.std.specs.Prelude.{IsTrue};
ghost use Rattle.replica_core.specs.Whole.{are_whole};

use basil_types::memory::NoMemory;
use basil_types::party::{Decision, Party};
use basil_types::transaction::{Transaction, TransactionView};
use mv_store::store::Store;
use mvtso_check::laws::stores_follow_tables;
use std::alloc::Global;
use txn_table::laws::stored_ones_stay;
use txn_table::table::Table;

/// The transactions in order of arrival, and an index of the prepared and the committed ones.
#[derive(Drop)]
pub(crate) struct Known {
    pub(crate) table: Table,
    pub(crate) store: Store,
    ghost whole: { IsTrue (are_whole table.entries) },
}

impl Known {
    ghost use Rattle.std.specs.Prelude.{◌≡◌, ◌<◌, None, Some, OnOk, length, slice_get, false, true, IsTrue, []};
    ghost use Rattle.std.specs.Option.{ForSome};
    ghost use Rattle.basil_types.specs.Shown.{transaction_of};
    ghost use Rattle.basil_types.specs.Transaction as transactions;
    ghost use Rattle.frame_views.specs.Stored.{spells_certificate};
    ghost use Rattle.mv_store.specs.Store.{HasRoom};
    ghost use Rattle.mvtso_check.specs.Standing.{StandsFor};
    ghost use Rattle.txn_table.specs.Entries.{asked, voted, decided};
    ghost use Rattle.txn_table.specs.Tables as tables;
    ghost use Rattle.txn_table.specs.Tables.{HasRoomAt, changed, is_voted_at, decision_at};
    ghost use Rattle.replica_core.specs.Holding.{KeepsNoted, arrived_in, HasStoreRoom, IsUnvoted, IsWaiting};
    ghost use Rattle.replica_core.specs.Whole.{is_signature};

    /// Nothing is known.
    pub(crate) fn new(alloc: Global) -> Known
        ensures table { result.table ≡ record { entries = []; room = None } }
        ensures noted { StandsFor result.store [] [] }
    {
        Known {
            table: Table::new(alloc),
            store: Store::new(alloc),
        }
    }

    /// Makes room for a transaction, its waiting and its outcome.
    pub(crate) fn make_room(&mut self, t: TransactionView<'_>) -> Result<(), NoMemory>
        ensures entries { self.new.table.entries ≡ self.old.table.entries }
        ensures room { OnOk result (self.new.table.room ≡ Some (transactions.id (transaction_of t.entry))) }
        ensures store { OnOk result (HasRoom self.new.store (transaction_of t.entry)) }
        ensures noted { KeepsNoted self.old self.new }
    {
        self.store.make_room(t)?;
        self.table.make_room(t)
    }

    /// Makes room for what happens to the transaction at a place, which has the id of this one.
    pub(crate) fn make_room_at(
        &mut self,
        place: u32,
        t: TransactionView<'_>,
    ) -> Result<(), NoMemory>
        requires { place < length self.old.table.entries }
        ensures entries { self.new.table.entries ≡ self.old.table.entries }
        ensures room { OnOk result (self.new.table.room ≡ Some (transactions.id (transaction_of t.entry))) }
        ensures store { OnOk result (ForSome (slice_get self.new.table.entries place) (HasStoreRoom self.new.store)) }
        ensures noted { KeepsNoted self.old self.new }
    {
        let entry = self.table.entry(place);
        self.store.make_room(entry.view())?;
        self.table.make_room(t)
    }

    /// Takes a transaction that isn't known, if there is one. Takes no memory.
    pub(crate) fn arrive(&mut self, arrives: Option<Transaction>)
        requires { ForSome arrives (λ t. (tables.place_of self.old.table.entries (transactions.id t) ≡ None)
            × (self.old.table.room ≡ Some (transactions.id t))) }
        ensures table { self.new.table ≡ record self.old.table { entries = arrived_in self.old.table.entries arrives } }
        ensures store { self.new.store ≡ self.old.store }
        ensures noted { KeepsNoted self.old self.new }
    {
        stores_follow_tables();
        stored_ones_stay();
        if let Some(t) = arrives {
            let _ = self.table.insert(t);
        }
    }

    /// Has somebody wait for the vote at a place without vote and outcome. Takes no memory.
    pub(crate) fn wait(&mut self, place: u32, asker: Party)
        requires held { place < length self.old.table.entries }
        requires not_voted { is_voted_at self.old.table.entries place ≡ false }
        requires undecided { decision_at self.old.table.entries place ≡ None }
        requires room { HasRoomAt self.old.table place }
        requires store { ForSome (slice_get self.old.table.entries place) (HasStoreRoom self.old.store) }
        ensures table { self.new.table
            ≡ record { entries = changed (asked asker) place self.old.table.entries; room = None } }
        ensures noted { KeepsNoted self.old self.new }
    {
        stores_follow_tables();
        stored_ones_stay();
        let _ = self.table.len();
        let entry = self.table.entry(place);
        self.store.set(entry.view(), place, false);
        self.table.wait(place, asker);
    }

    /// Gives the vote at a place without vote, outcome or anybody waiting. Takes no memory.
    pub(crate) fn vote(
        &mut self,
        place: u32,
        decision: Decision,
        signature: Vec<u8>,
        proof: Option<u32>,
    )
        requires held { place < length self.old.table.entries }
        requires unvoted { ForSome (slice_get self.old.table.entries place) IsUnvoted }
        requires undecided { decision_at self.old.table.entries place ≡ None }
        requires proof { ForSome proof (λ at. at < length self.old.table.entries) }
        requires signature { is_signature signature.items ≡ true }
        requires store { ForSome (slice_get self.old.table.entries place) (HasStoreRoom self.old.store) }
        ensures table { self.new.table ≡ record self.old.table {
          entries = changed (voted decision signature.items proof) place self.old.table.entries;
        } }
        ensures noted { KeepsNoted self.old self.new }
    {
        stores_follow_tables();
        stored_ones_stay();
        let _ = self.table.len();
        let entry = self.table.entry(place);
        match decision {
            Decision::Commit => {
                self.store.set(entry.view(), place, false);
                self.table.set_vote(place, decision, signature, proof);
            }
            Decision::Abort => self.table.set_vote(place, decision, signature, proof),
        }
    }

    /// Gives the vote at a place where somebody waits for it, without outcome. Takes no memory.
    pub(crate) fn release(&mut self, place: u32, decision: Decision, signature: Vec<u8>)
        requires held { place < length self.old.table.entries }
        requires waiting { ForSome (slice_get self.old.table.entries place) IsWaiting }
        requires undecided { decision_at self.old.table.entries place ≡ None }
        requires signature { is_signature signature.items ≡ true }
        ensures table { self.new.table ≡ record self.old.table {
          entries = changed (voted decision signature.items None) place self.old.table.entries;
        } }
        ensures noted { KeepsNoted self.old self.new }
    {
        stores_follow_tables();
        stored_ones_stay();
        let _ = self.table.len();
        let entry = self.table.entry(place);
        match decision {
            Decision::Commit => self.table.set_vote(place, decision, signature, None),
            Decision::Abort => {
                self.store.remove(entry.view());
                self.table.set_vote(place, decision, signature, None);
            }
        }
    }

    /// Gives the outcome at a place that has none. Takes no memory.
    pub(crate) fn end(&mut self, place: u32, outcome: Decision, certificate: Vec<u8>)
        requires held { place < length self.old.table.entries }
        requires undecided { decision_at self.old.table.entries place ≡ None }
        requires spelled { IsTrue (spells_certificate certificate.items) }
        requires store { ForSome (slice_get self.old.table.entries place) (HasStoreRoom self.old.store) }
        ensures table { self.new.table ≡ record self.old.table {
          entries = changed (decided outcome certificate.items) place self.old.table.entries;
        } }
        ensures noted { KeepsNoted self.old self.new }
    {
        stores_follow_tables();
        stored_ones_stay();
        let _ = self.table.len();
        let entry = self.table.entry(place);
        match outcome {
            Decision::Commit => {
                self.store.set(entry.view(), place, true);
                self.table.set_outcome(place, outcome, certificate);
            }
            Decision::Abort => {
                self.store.remove(entry.view());
                self.table.set_outcome(place, outcome, certificate);
            }
        }
    }
}
