//! An event of a run whose replicas write down what they take.

ghost use Rattle.std.specs.Prelude.{◌≡◌, false, None, OnOk};
ghost use Rattle.cluster_run.specs.Events.{EventValue};
ghost use Rattle.cluster_run.specs.States.{KitValue, Setup};
ghost use Rattle.cluster_world.specs.EventValues.{event_value};
ghost use Rattle.cluster_world.specs.Shows.{Shows};
ghost use Rattle.cluster_world.specs.Worlds.{is_end};
ghost use Rattle.delivery_laws.specs.Deliveries.{takes};
ghost use Rattle.journaled_runs.specs.Handing.{FindsRoom, Hands};
ghost use Rattle.journaled_runs.specs.Journaling.{JournaledState, full, happens_in, written};
ghost use Rattle.journaled_runs.specs.Shown.{ComesTo, Holds, KeepsAll};

use crate::letter::{Letter, letter_of};
use basil_types::memory::NoMemory;
use cluster_run::fault::WorldFault;
use cluster_world::event::Event;
use cluster_world::fault::StepFault;
use cluster_world::world::World;
use delivery_laws::laws::books_follow_deliveries;
use keyring::signer::Signer;
use keyring::verifier::Verifier;
use run_journals::Journals;
use run_kit::Kit;

/// Finds whether the journal of a replica would be too long with the record of what it is handed.
pub(crate) fn find_room<V: Verifier, S: Signer>(
    journals: &mut Journals<V, S>,
    letter: &Letter<'_>,
) -> Result<(), StepFault>
    ensures { (s : Setup) (kit : KitValue) (x : JournaledState) (e : EventValue) → KeepsAll s kit journals.old x →
        Hands s x e letter.now → FindsRoom s kit x (full x.journals (takes s x.state e)) journals.new result }
{
    match journals.finds_full(
        letter.shard,
        letter.index,
        letter.moment,
        letter.from,
        letter.frame,
    ) {
        Ok(None) => Ok(()),
        Ok(Some((messages, bytes))) => {
            Err(StepFault::World(WorldFault::PoolFull { messages, bytes }))
        }
        Err(NoMemory) => Err(StepFault::NoMemory),
    }
}

/// A replica writes down what it is handed, if it takes it.
fn write<V: Verifier, S: Signer>(
    journals: &mut Journals<V, S>,
    letter: &Letter<'_>,
) -> Result<(), NoMemory>
    ensures { (s : Setup) (x : JournaledState) (e : EventValue) → Holds s journals.old x.journals →
        Hands s x e letter.now → full x.journals (takes s x.state e) ≡ None →
        OnOk result (Holds s journals.new (written (takes s x.state e) x.journals)) }
{
    match journals.take(
        letter.shard,
        letter.index,
        letter.moment,
        letter.from,
        letter.frame,
    ) {
        Ok(_took) => Ok(()),
        Err(NoMemory) => Err(NoMemory),
    }
}

/// An event happens, as the rules of a run say, and a replica with a journal writes down what it takes then. A breach,
/// and want of memory, end the run; every other refusal leaves all as before, also that a journal would be too long.
pub fn step<K: Kit>(
    world: &mut World<K>,
    journals: &mut Journals<K::Keys, K::Pen>,
    event: Event<'_>,
) -> Result<(), StepFault>
    requires { world.old.ended ≡ false }
    ensures comes { (s : Setup) (x : JournaledState) → Shows s world.old.core x.state →
        KeepsAll s (K.value world.old.kit) journals.old x →
        ComesTo s (K.value world.old.kit) x (happens_in s (event_value event.entry) x) world.new.core journals.new
        result }
    ensures kit { world.new.kit ≡ world.old.kit }
    ensures going { is_end result ≡ false → world.new.ended ≡ false }
{
    books_follow_deliveries();
    let letter = match letter_of(world, journals, &event) {
        Some(letter) => letter,
        None => return world.step(event),
    };
    match find_room(journals, &letter) {
        Ok(()) => {}
        Err(fault) => return Err(fault),
    }
    match world.step(event) {
        Ok(()) => {}
        Err(fault) => return Err(fault),
    }
    write(journals, &letter)?;
    Ok(())
}
