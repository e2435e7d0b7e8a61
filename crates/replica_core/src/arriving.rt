//! Where a transaction stands, or will stand once it arrives, with room for what happens to it.

ghost use Rattle.std.specs.Prelude.{◌≡◌, ◌<◌, None, Some, IfOk, length, slice_get, option_map};
ghost use Rattle.std.specs.Option.{ForSome};
ghost use Rattle.basil_types.specs.Shown.{transaction_of};
ghost use Rattle.basil_types.specs.Transaction as transactions;
ghost use Rattle.txn_table.specs.Tables as tables;
ghost use Rattle.txn_table.specs.Tables.{entry_with};
ghost use Rattle.replica_core.specs.Holding.{KeepsNoted, arrived_in};
ghost use Rattle.replica_core.specs.Known.{with_known};
ghost use Rattle.replica_core.specs.KnownWorks.{CanArrive};
ghost use Rattle.replica_core.specs.Placing.{IsOpen, IsPlace};

use crate::known::Known;
use basil_types::memory::NoMemory;
use basil_types::transaction::{Transaction, TransactionView};
use std::alloc::Global;
use txn_table::laws::ids_tell_places;

/// A place, and the transaction that arrives there, if it isn't known.
#[derive(Drop)]
pub(crate) struct Arrival {
    pub(crate) arrives: Option<Transaction>,
    pub(crate) place: u32,
}

/// Makes room for what happens to a known transaction without outcome.
fn arrival_known(known: &mut Known, place: u32, t: TransactionView<'_>) -> Result<Arrival, NoMemory>
    requires place { tables.place_of known.old.table.entries (transactions.id (transaction_of t)) ≡ Some place }
    requires held { place < length known.old.table.entries }
    requires found { option_map tables.id_of (slice_get known.old.table.entries place)
        ≡ Some (transactions.id (transaction_of t)) }
    requires undecided { ForSome (entry_with known.old.table.entries (transactions.id (transaction_of t))) IsOpen }
    ensures place { IfOk result (IsPlace known.old.table.entries (transaction_of t.entry) known.new) }
    ensures entries { known.new.table.entries ≡ known.old.table.entries }
    ensures noted { KeepsNoted known.old known.new }
{
    known.make_room_at(place, t)?;
    Ok(Arrival {
        arrives: None,
        place,
    })
}

/// Makes room for a transaction that isn't known.
fn arrival_new(
    known: &mut Known,
    alloc: Global,
    t: TransactionView<'_>,
) -> Result<Arrival, NoMemory>
    requires place { tables.place_of known.old.table.entries (transactions.id (transaction_of t)) ≡ None }
    ensures place { IfOk result (IsPlace known.old.table.entries (transaction_of t.entry) known.new) }
    ensures entries { known.new.table.entries ≡ known.old.table.entries }
    ensures noted { KeepsNoted known.old known.new }
{
    ids_tell_places();
    let owned = t.try_owned(alloc)?;
    known.make_room(t)?;
    let place = known.table.len();
    Ok(Arrival {
        arrives: Some(owned),
        place,
    })
}

/// Makes room for what happens to a transaction without outcome.
pub(crate) fn place_for(
    known: &mut Known,
    alloc: Global,
    t: TransactionView<'_>,
) -> Result<Arrival, NoMemory>
    requires { ForSome (entry_with known.old.table.entries (transactions.id (transaction_of t))) IsOpen }
    ensures place { IfOk result (IsPlace known.old.table.entries (transaction_of t.entry) known.new) }
    ensures entries { known.new.table.entries ≡ known.old.table.entries }
    ensures noted { KeepsNoted known.old known.new }
{
    let id = t.id();
    match known.table.place_of(&id) {
        Some(place) => arrival_known(known, place, t),
        None => arrival_new(known, alloc, t),
    }
}

/// A copy of a transaction that isn't known, with room for its arrival. None exactly where it is known.
pub(crate) fn newcomer(
    known: &mut Known,
    alloc: Global,
    t: TransactionView<'_>,
) -> Result<Option<Transaction>, NoMemory>
    ensures arrives { IfOk result (CanArrive known.new.table) }
    ensures with_it { IfOk result (λ a. with_known known.old.table.entries (transaction_of t.entry)
        ≡ arrived_in known.new.table.entries a) }
    ensures entries { known.new.table.entries ≡ known.old.table.entries }
    ensures noted { KeepsNoted known.old known.new }
{
    let id = t.id();
    match known.table.place_of(&id) {
        Some(_) => Ok(None),
        None => {
            let owned = t.try_owned(alloc)?;
            known.make_room(t)?;
            Ok(Some(owned))
        }
    }
}
