//! A disk of a run stops within the write of what its replica takes.

ghost use Rattle.std.specs.Prelude.{◌≡◌, ◌<◌, ◌⊎◌, false, true, None, IfOk, is_some, length};
ghost use Rattle.std.specs.Option.{option_map_or};
ghost use Rattle.basil_types.specs.declared.party.Party.TheVariants as parties;
ghost use Rattle.cluster_run.specs.Events.{EventValue};
ghost use Rattle.cluster_run.specs.States.{Setup, State};
ghost use Rattle.cluster_world.specs.EventValues.{event_value};
ghost use Rattle.cluster_world.specs.Shows.{Shows};
ghost use Rattle.cluster_world.specs.Worlds.{is_end};
ghost use Rattle.delivery_laws.specs.Deliveries.{takes};
ghost use Rattle.txn_table.specs.Entries.{same_party};
ghost use Rattle.run_journals.specs.Journals as kept;
ghost use Rattle.run_journals.specs.Journals.{journal_at};
ghost use Rattle.journaled_runs.specs.Handing.{Hands};
ghost use Rattle.journaled_runs.specs.Journaling as runs;
ghost use Rattle.journaled_runs.specs.Journaling.{JournaledState, entered_since, full, happens_in, stopped, stops_in};
ghost use Rattle.journaled_runs.specs.Shown.{ComesTo, Holds, KeepsAll};
ghost use Rattle.journaled_runs.specs.Stopping.{HasStopped, LosesAll, has_taken};

use crate::letter::{Letter, letter_of};
use crate::stepping::find_room;
use basil_types::memory::NoMemory;
use basil_types::party::Party;
use cluster_world::event::Event;
use cluster_world::fault::StepFault;
use cluster_world::world::World;
use delivery_laws::laws::books_follow_deliveries;
use journal_disk::disk::Stop;
use run_journals::{Journals, Took, keeps_record};
use run_kit::{Kit, equip};

/// Whether a party is this replica.
fn is_replica(party: Party, shard: u8, index: u8) -> bool
    ensures { result ≡ same_party (parties.Replica shard index) party }
{
    match party {
        Party::Replica {
            shard: own,
            index: place,
        } => shard == own && index == place,
        Party::Client { .. } => false,
    }
}

/// Whether a message is sent to this replica.
fn is_to<K: Kit>(world: &World<K>, message: u64, shard: u8, index: u8) -> bool
    ensures { (s : Setup) (st : State) → Shows s world.now.core st →
        result ≡ runs.is_to st message (parties.Replica shard index) }
{
    match world.frame(message) {
        Some((_, to, _)) => is_replica(to, shard, index),
        None => false,
    }
}

/// The event by which a message is handed to a replica: it is delivered to its receiver, and diverted to another.
fn handing<'a, K: Kit>(
    world: &World<K>,
    message: u64,
    shard: u8,
    index: u8,
    given: &'a [u8],
) -> Event<'a>
    ensures { (s : Setup) (st : State) → Shows s world.now.core st →
        event_value result ≡ runs.handing st message shard index given.now }
{
    if is_to(world, message, shard, index) {
        Event::Deliver { message, given }
    } else {
        Event::Divert {
            message,
            to: Party::Replica { shard, index },
            given,
        }
    }
}

/// The disk of a replica stops within a write of the record of what it is handed, and starts again; of a frame that it
/// refuses nothing is written. Says whether the disk stopped.
fn stop_journal<K: Kit>(
    kit: &K,
    journals: &mut Journals<K::Keys, K::Pen>,
    letter: &Letter<'_>,
    stop: Stop,
) -> Result<bool, NoMemory>
    requires write { (stop.write ≡ 1) ⊎ (stop.write ≡ 2) }
    requires bytes { 0 < length stop.bytes }
    ensures { (s : Setup) (x : JournaledState) (e : EventValue) → s.kit ≡ K.value kit.now →
        Holds s journals.old x.journals → Hands s x e letter.now → full x.journals (takes s x.state e) ≡ None →
        IfOk result (λ took. HasStopped s (takes s x.state e) stop x.journals journals.new took) }
{
    let party = Party::Replica {
        shard: letter.shard,
        index: letter.index,
    };
    let own = equip(kit, party)?;
    let took = journals.stop(
        letter.shard,
        letter.index,
        stop,
        letter.moment,
        letter.from,
        letter.frame,
        own.keys,
        own.pen,
    )?;
    Ok(is_taken(took))
}

/// Whether a journal took.
fn is_taken(took: Took) -> bool
    ensures { result ≡ has_taken took }
{
    match took {
        Took::Taken => true,
        _ => false,
    }
}

/// Each message that entered the pool since it had so many is lost.
fn lose_since<K: Kit>(world: &mut World<K>, before: u64) -> Result<(), StepFault>
    requires { world.old.ended ≡ false }
    ensures lost { (s : Setup) (st : State) → Shows s world.old.core st →
        LosesAll s (entered_since before st) st world.new.core result }
    ensures kit { world.new.kit ≡ world.old.kit }
    ensures ended { world.new.ended ≡ is_end result }
{
    books_follow_deliveries();
    for earlier in before..world.messages() {
        let message = earlier + 1;
        match world.step(Event::Lose { message }) {
            Ok(()) => {}
            Err(fault) => return Err(fault),
        }
    }
    Ok(())
}

/// A disk stops and keeps the record: the event happens, and the messages that enter then are lost.
fn stop_behind<K: Kit>(
    world: &mut World<K>,
    journals: &mut Journals<K::Keys, K::Pen>,
    event: Event<'_>,
    letter: &Letter<'_>,
    stop: Stop,
) -> Result<(), StepFault>
    requires going { world.old.ended ≡ false }
    requires write { (stop.write ≡ 1) ⊎ (stop.write ≡ 2) }
    requires bytes { 0 < length stop.bytes }
    requires keeps { kept.keeps_record stop.write stop.bytes ≡ true }
    ensures comes { (s : Setup) (x : JournaledState) → Shows s world.old.core x.state →
        KeepsAll s (K.value world.old.kit) journals.old x → let e = event_value event.entry in
        Hands s x e letter.now → full x.journals (takes s x.state e) ≡ None →
        ComesTo s (K.value world.old.kit) x
        (option_map_or (λ t. stopped s stop e t x) (takes s x.state e) (happens_in s e x))
        world.new.core journals.new result }
    ensures kit { world.new.kit ≡ world.old.kit }
    ensures going { is_end result ≡ false → world.new.ended ≡ false }
{
    books_follow_deliveries();
    let before = world.messages();
    match world.step(event) {
        Ok(()) => {}
        Err(fault) => return Err(fault),
    }
    if stop_journal(world.kit(), journals, letter, stop)? {
        lose_since(world, before)
    } else {
        Ok(())
    }
}

/// A disk stops and doesn't keep the record: the event is left out, unless the replica refuses what it is handed.
fn stop_before<K: Kit>(
    world: &mut World<K>,
    journals: &mut Journals<K::Keys, K::Pen>,
    event: Event<'_>,
    letter: &Letter<'_>,
    stop: Stop,
) -> Result<(), StepFault>
    requires going { world.old.ended ≡ false }
    requires write { (stop.write ≡ 1) ⊎ (stop.write ≡ 2) }
    requires bytes { 0 < length stop.bytes }
    requires keeps { kept.keeps_record stop.write stop.bytes ≡ false }
    ensures comes { (s : Setup) (x : JournaledState) → Shows s world.old.core x.state →
        KeepsAll s (K.value world.old.kit) journals.old x → let e = event_value event.entry in
        Hands s x e letter.now → full x.journals (takes s x.state e) ≡ None →
        ComesTo s (K.value world.old.kit) x
        (option_map_or (λ t. stopped s stop e t x) (takes s x.state e) (happens_in s e x))
        world.new.core journals.new result }
    ensures kit { world.new.kit ≡ world.old.kit }
    ensures going { is_end result ≡ false → world.new.ended ≡ false }
{
    books_follow_deliveries();
    if stop_journal(world.kit(), journals, letter, stop)? {
        Ok(())
    } else {
        world.step(event)
    }
}

/// A message is handed to a replica with a journal, whose disk stops within a write of its record and starts again:
/// the first write is that of the record, the second that of the gate before it, of which these bytes are left. Where
/// the record is kept the replica took the frame, and what it would send is lost; else nothing was handed. Of a frame
/// that isn't taken nothing is written, and no disk stops. Faults are as of `step`.
pub fn stop<K: Kit>(
    world: &mut World<K>,
    journals: &mut Journals<K::Keys, K::Pen>,
    message: u64,
    shard: u8,
    index: u8,
    stop: Stop,
    given: &[u8],
) -> Result<(), StepFault>
    requires going { world.old.ended ≡ false }
    requires write { (stop.write ≡ 1) ⊎ (stop.write ≡ 2) }
    requires bytes { 0 < length stop.bytes }
    ensures comes { (s : Setup) (x : JournaledState) → Shows s world.old.core x.state →
        KeepsAll s (K.value world.old.kit) journals.old x →
        is_some (journal_at x.journals shard index) ≡ true →
        ComesTo s (K.value world.old.kit) x (stops_in s message shard index stop given.now x) world.new.core
        journals.new result }
    ensures kit { world.new.kit ≡ world.old.kit }
    ensures going { is_end result ≡ false → world.new.ended ≡ false }
{
    books_follow_deliveries();
    let event = handing(world, message, shard, index, given);
    let letter = match letter_of(world, journals, &event) {
        Some(letter) => letter,
        None => return world.step(event),
    };
    match find_room(journals, &letter) {
        Ok(()) => {}
        Err(fault) => return Err(fault),
    }
    if keeps_record(stop.write, stop.bytes.as_slice()) {
        stop_behind(world, journals, event, &letter, stop)
    } else {
        stop_before(world, journals, event, &letter, stop)
    }
}
