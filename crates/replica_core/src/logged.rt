//! What is logged of the transactions that this shard decides.

ghost use Rattle.std.specs.Prelude.{◌≡◌, ◌<◌, [], Some, IfOk, IfSome, OnOk, length, nat_le, option_map, position};
ghost use Rattle.std.specs.Prelude.{slice_get, true, false};
ghost use Rattle.replica_core.specs.Known.{logged_with, put_logged, asked_by};
ghost use Rattle.replica_core.specs.Logs.{logged_as};
ghost use Rattle.node_steps.specs.Lists.{put};
ghost use Rattle.std.specs.Ordering.{nat_cmp};

use crate::log::Log;
use basil_types::memory::NoMemory;
use basil_types::party::Party;
use id_maps::map::{IdMap, empty_map};
use std::alloc::Global;
use std::marker::Model;

/// What is logged, by the ids of the transactions. Contracts see it in the order in which they were logged first, and
/// beside it for how many more there is room.
#[derive(Drop)]
pub(crate) struct Logged {
    logs: IdMap<[u8; 32], Log>,
}

impl Model for Logged {
    ghost use Rattle.indexmap.specs.IndexMap.{spare};
    ghost use Rattle.replica_core.specs.Logs.{LoggedValue, logged_in};

    ghost Value = { LoggedValue };

    ghost view = { λ l. record { entries = logged_in l.logs; room = spare l.logs } };
}

impl Logged {
    /// Nothing is logged. Takes no memory.
    pub(crate) fn new(alloc: Global) -> Logged
        ensures { result.entries ≡ [] }
    {
        Logged {
            logs: empty_map(alloc),
        }
    }

    /// What is logged of the transaction with this id.
    pub(crate) fn find(&self, id: &[u8; 32]) -> Option<&Log>
        ensures { option_map (λ l. logged_as id.now l.now) result ≡ logged_with self.now.entries id.now }
    {
        self.logs.get(id)
    }

    /// Makes room for one `put`.
    pub(crate) fn make_room(&mut self) -> Result<(), NoMemory>
        ensures entries { self.new.entries ≡ self.old.entries }
        ensures room { OnOk result (0 < self.new.room) }
    {
        self.logs.reserve(1)?;
        Ok(())
    }

    /// Puts what is logged of a transaction in the place of what was. Takes no memory.
    pub(crate) fn put(&mut self, id: [u8; 32], log: Log)
        requires { 0 < self.old.room }
        ensures { self.new.entries ≡ put_logged (logged_as id log) self.old.entries }
    {
        match self.logs.insert(id, log) {
            Ok(_) => {}
            Err(_) => unreachable!(),
        }
    }
}

/// Those who wait, ascending, with this party if it is a client.
pub(crate) fn asked_by(alloc: Global, party: Party, askers: &[u8]) -> Result<Vec<u8>, NoMemory>
    ensures { IfOk result (λ asked. asked.items ≡ asked_by party askers.now) }
{
    match party {
        Party::Replica { .. } => copy_of(alloc, askers),
        Party::Client { number } => with_number(alloc, number, askers),
    }
}

/// A copy of these numbers.
pub(crate) fn copy_of(alloc: Global, numbers: &[u8]) -> Result<Vec<u8>, NoMemory>
    ensures { IfOk result (λ copy. copy.items ≡ numbers.now) }
{
    let copy = Vec::from_slice(alloc, numbers)?;
    Ok(copy)
}

/// The place of the first number that isn't below this one.
fn place_for(number: u8, numbers: &[u8]) -> Option<usize>
    ensures place { result ≡ position (λ known. nat_le number known) numbers.now }
    ensures within { IfSome result (λ place. place < length numbers.now) }
{
    numbers.iter().position(|known| number <= *known)
}

/// Whether this number is at a place.
fn is_at(number: u8, numbers: &[u8], place: usize) -> bool
    requires { place < length numbers.now }
    ensures there { result ≡ true → slice_get numbers.now place ≡ Some number }
    ensures missing { result ≡ false → slice_get numbers.now place ≡ Some number → ⊥ }
{
    numbers[place] == number
}

/// Ascending numbers with one more, once.
fn with_number(alloc: Global, number: u8, numbers: &[u8]) -> Result<Vec<u8>, NoMemory>
    ensures { IfOk result (λ more. more.items ≡ put nat_cmp number numbers.now) }
{
    let mut more = copy_of(alloc, numbers)?;
    match place_for(number, numbers) {
        Some(place) => {
            if is_at(number, numbers, place) {
                return Ok(more);
            }
            more.insert(place, number)?;
            Ok(more)
        }
        None => {
            more.push(number)?;
            Ok(more)
        }
    }
}
