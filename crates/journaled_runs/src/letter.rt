//! What a replica with a journal is handed.

ghost use Rattle.std.specs.Prelude.{◌≡◌, Some, option_map};
ghost use Rattle.cluster_run.specs.Events.{EventValue};
ghost use Rattle.cluster_run.specs.States.{Setup, State, posted_at};
ghost use Rattle.cluster_world.specs.EventValues.{event_value};
ghost use Rattle.cluster_world.specs.Shows.{Shows};
ghost use Rattle.delivery_laws.specs.Deliveries.{handed_by};
ghost use Rattle.message_pool.specs.declared.posted.Posted.{Posted};
ghost use Rattle.journaled_runs.specs.Handing.{Told, hand};
ghost use Rattle.journaled_runs.specs.Journaling.{JournaledState};
ghost use Rattle.journaled_runs.specs.Shown.{KeepsAll};

use basil_types::party::Party;
use cluster_world::event::Event;
use cluster_world::world::World;
use run_journals::Journals;
use run_kit::Kit;

/// A frame that a replica with a journal is handed, at this moment of its clock.
#[derive(Drop)]
pub(crate) struct Letter<'a> {
    pub(crate) shard: u8,
    pub(crate) index: u8,
    pub(crate) moment: u64,
    pub(crate) from: Party,
    pub(crate) frame: &'a [u8],
}

/// The sender and the receiver of a message.
fn parties_of<K: Kit>(world: &World<K>, message: u64) -> Option<(Party, Party)>
    ensures { (s : Setup) (st : State) → Shows s world.now.core st →
        result ≡ option_map (λ (p : Posted). (p.from, p.to)) (posted_at st message) }
{
    match world.frame(message) {
        Some((from, to, _)) => Some((from, to)),
        None => None,
    }
}

/// What a party that is handed a frame of this sender is handed, if it is a replica with a journal.
pub(crate) fn letter_to<'a, K: Kit>(
    world: &World<K>,
    journals: &Journals<K::Keys, K::Pen>,
    from: Party,
    to: Party,
    frame: &'a [u8],
) -> Option<Letter<'a>>
    ensures { (s : Setup) (x : JournaledState) (e : EventValue) → Shows s world.now.core x.state →
        KeepsAll s (K.value world.now.kit) journals.now x → handed_by x.state e ≡ Some (hand from to frame.now) →
        Told s x e result }
{
    match to {
        Party::Replica { shard, index } => {
            if !journals.has(shard, index) {
                return None;
            }
            match world.moment(shard, index) {
                Some(moment) => Some(Letter {
                    shard,
                    index,
                    moment,
                    from,
                    frame,
                }),
                None => None,
            }
        }
        Party::Client { .. } => None,
    }
}

/// What a replica with a journal is handed at an event.
pub(crate) fn letter_of<'a, K: Kit>(
    world: &World<K>,
    journals: &Journals<K::Keys, K::Pen>,
    event: &Event<'a>,
) -> Option<Letter<'a>>
    ensures { (s : Setup) (x : JournaledState) → Shows s world.now.core x.state →
        KeepsAll s (K.value world.now.kit) journals.now x → Told s x (event_value event.now) result }
{
    match event {
        Event::Deliver { message, given } => {
            match parties_of(world, *message) {
                Some((from, to)) => letter_to(world, journals, from, to, given),
                None => None,
            }
        }
        Event::Divert { message, to, given } => {
            match parties_of(world, *message) {
                Some((from, _)) => letter_to(world, journals, from, *to, given),
                None => None,
            }
        }
        _ => None,
    }
}
