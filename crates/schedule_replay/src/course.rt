//! The course of a replay: what lines do to a world and to the names of its transactions.

ghost use Rattle.std.specs.Prelude.{◌≡◌, ◌<◌, ◌⊎◌, ◌++◌, [], ℕ, List, length, true, false};
ghost use Rattle.std.specs.Prelude.{IfErr, IfOk, IfSome, OnErr, OnOk, is_none, option_map};
ghost use Rattle.cluster_world.specs.EventValues.{event_value};
ghost use Rattle.cluster_world.specs.Worlds.{is_end};
ghost use Rattle.cluster_run.specs.States.{Setup, start};
ghost use Rattle.cluster_world.specs.Shows.{Shows};
ghost use Rattle.journaled_runs.specs.Journaling.{first_state, happens_in, stops_in};
ghost use Rattle.journaled_runs.specs.Shown.{KeepsAll};
ghost use Rattle.replay_kit.specs.Made.{kit_value};
ghost use Rattle.message_pool.specs.Posts as posts;
ghost use Rattle.schedule_replay.specs.Events as lines;
ghost use Rattle.schedule_replay.specs.Lines.{line_step, names_after};
ghost use Rattle.run_journals.specs.Journals.{journal_at};
ghost use Rattle.schedule_replay.specs.Reasons.{CanStop, lacks_journal};
ghost use Rattle.schedule_replay.specs.Replays.{ReplayValue, along, journaled};
ghost use Rattle.schedule_replay.specs.Roads.{Uses, carries_all, road_with};
ghost use Rattle.schedule_replay.specs.Shown.{ByRoads, CanName, Did, Does, Goes, IsOfRoad, Stands};
ghost use Rattle.report_lines.specs.Ending.{ends_by};
ghost use Rattle.schedule_replay.specs.Shown.{ends_world, failed_by_link, fault_by, is_link_fault};
ghost use Rattle.schedule_text.specs.declared.line.Line.{Line};

use crate::events::event_of;
use crate::fault::Halt;
use crate::names::Names;
use crate::road::hand_over;
use basil_types::bytes::Bytes;
use basil_types::cluster::Cluster;
use basil_types::links::Links;
use basil_types::memory::NoMemory;
use cluster_run::fault::WorldFault;
use cluster_world::event::Event;
use cluster_world::fault::StepFault;
use cluster_world::world::World;
use journal_disk::disk::Stop;
use journaled_runs::{begin_journals, no_journals};
use line_fields::reason::Reason;
use replay_kit::{ReplayKit, ReplayPen, ReplayRing};
use report_lines::fault::ReplayFault;
use run_journals::Journals;
use schedule_text::line::Line;
use std::alloc::Global;

/// A world, the journals of its replicas, and the names of its transactions.
#[derive(Drop)]
pub(crate) struct Course {
    pub(crate) alloc: Global,
    pub(crate) cluster: Cluster,
    pub(crate) world: World<ReplayKit>,
    pub(crate) journals: Journals<ReplayRing, ReplayPen>,
    pub(crate) names: Names,
}

/// Why a line goes no further: a call that is refused, and a faulty party without a leaf, are reason 9.
fn fault_of(halt: Halt, number: u64) -> ReplayFault
    ensures { result ≡ fault_by number halt }
{
    match halt {
        Halt::World(WorldFault::Broken(broken)) => ReplayFault::Broken(broken),
        Halt::World(WorldFault::PoolFull { messages, bytes }) => {
            ReplayFault::Full { messages, bytes }
        }
        Halt::World(WorldFault::Call(_)) => ReplayFault::BadInput {
            line: number,
            reason: Reason::RefusedCall,
        },
        Halt::World(WorldFault::Exhausted { .. }) => ReplayFault::BadInput {
            line: number,
            reason: Reason::RefusedCall,
        },
        Halt::Link => ReplayFault::LinkFault,
        Halt::NoMemory => ReplayFault::NoMemory,
    }
}

/// The journals of the correct replicas of a world before its first event, or none.
pub(crate) fn first_journals(
    alloc: Global,
    cluster: Cluster,
    world: &World<ReplayKit>,
    journal: bool,
) -> Result<Journals<ReplayRing, ReplayPen>, NoMemory>
    ensures { (s : Setup) → s.cluster ≡ cluster → s.kit ≡ kit_value world.now.kit → Shows s world.now.core (start s) →
        IfOk result (λ journals. KeepsAll s (kit_value world.now.kit) journals (first_state s journal)) }
{
    if journal {
        begin_journals(alloc, cluster, world)
    } else {
        Ok(no_journals(alloc))
    }
}

impl Course {
    /// The bytes of a message; none of one that hasn't entered the pool.
    fn frame_of(&self, message: u64) -> Result<Vec<u8>, NoMemory>
        ensures { IfOk result (λ frame. (r : ReplayValue) → Stands self.now r →
            frame.items ≡ lines.frame_at r.state message) }
    {
        match self.world.frame(message) {
            Some((_, _, frame)) => Ok(Vec::from_slice(self.alloc, frame)?),
            None => Ok(Vec::new(self.alloc)),
        }
    }

    /// What a line hands over of a message.
    fn given_to<L: Links>(&self, line: &Line, links: &mut L, carried: bool) -> Result<Vec<u8>, Halt>
        ensures given { IfOk result (λ given. (r : ReplayValue) (later : List (List ℕ)) → Stands self.now r →
            let road = road_with carried (lines.gifts carried line.now given.items ++ later) in
            given.items ≡ lines.given_to (along road r) line.now) }
        ensures told { IfOk result (λ given.
            L.told links.new ≡ option_map (carries_all (lines.gifts carried line.now given.items)) (L.told links.old)) }
        ensures as_before { OnErr result (L.told links.new ≡ L.told links.old) }
        ensures only { IfErr result IsOfRoad }
        ensures links { Uses carried links.old links.new (L.faults links.old) (L.faults links.new)
            (failed_by_link result) }
    {
        match line {
            Line::Deliver { message } => {
                let frame = self.frame_of(*message)?;
                hand_over(self.alloc, frame, links, carried)
            }
            Line::Divert { message, .. } => {
                let frame = self.frame_of(*message)?;
                hand_over(self.alloc, frame, links, carried)
            }
            Line::Stop { message, .. } => {
                let frame = self.frame_of(*message)?;
                hand_over(self.alloc, frame, links, carried)
            }
            _ => Ok(Vec::new(self.alloc)),
        }
    }

    /// An event happens, and what a replica takes then is written down.
    fn step(&mut self, event: Event<'_>) -> Result<(), StepFault>
        requires { self.old.world.ended ≡ false }
        ensures goes { (r : ReplayValue) → Stands self.old r →
            Goes (happens_in r.setup (event_value event.entry) (journaled r)) r self.new result }
        ensures names { self.new.names ≡ self.old.names }
        ensures going { is_end result ≡ false → self.new.world.ended ≡ false }
    {
        journaled_runs::step(&mut self.world, &mut self.journals, event)
    }

    /// A message is handed to a replica with a journal, whose disk stops within a write; these are its bytes.
    fn stop(
        &mut self,
        message: u64,
        shard: u8,
        replica: u8,
        stop: Stop,
        given: &[u8],
    ) -> Result<(), StepFault>
        requires going { self.old.world.ended ≡ false }
        requires write { (stop.write ≡ 1) ⊎ (stop.write ≡ 2) }
        requires bytes { 0 < length stop.bytes }
        ensures goes { (r : ReplayValue) → Stands self.old r → is_none (journal_at r.journals shard replica) ≡ false →
            Goes (stops_in r.setup message shard replica stop given.now (journaled r)) r self.new result }
        ensures names { self.new.names ≡ self.old.names }
        ensures going { is_end result ≡ false → self.new.world.ended ≡ false }
    {
        journaled_runs::stop(
            &mut self.world,
            &mut self.journals,
            message,
            shard,
            replica,
            stop,
            given,
        )
    }

    /// What a line but a round does; what it hands over are these bytes.
    fn one(&mut self, line: &Line, given: &[u8]) -> Result<(), StepFault>
        requires going { self.old.world.ended ≡ false }
        requires stop { CanStop line.now }
        ensures goes { (r : ReplayValue) → Stands self.old r → lacks_journal r.journals line.now ≡ false →
            Goes (lines.one_does r given.now line.now) r self.new result }
        ensures names { self.new.names ≡ self.old.names }
        ensures going { is_end result ≡ false → self.new.world.ended ≡ false }
    {
        match line {
            Line::Stop {
                shard,
                replica,
                message,
                write,
                bytes,
            } => {
                let bytes = Bytes::copy_of(self.alloc, bytes.as_slice())?;
                let stop = Stop {
                    write: *write,
                    bytes,
                };
                self.stop(*message, *shard, *replica, stop, given)
            }
            line => match event_of(&self.names, line, given) {
                Some(event) => self.step(event),
                None => Ok(()),
            },
        }
    }

    /// A line but a round is done.
    fn happen<L: Links>(&mut self, line: &Line, links: &mut L, carried: bool) -> Result<(), Halt>
        requires going { self.old.world.ended ≡ false }
        requires stop { CanStop line.now }
        requires single { line.now ≡ Line.Round → ⊥ }
        ensures does { ByRoads carried (L.told links.old) (L.told links.new) self.old (λ r road.
            lacks_journal r.journals line.now ≡ false →
            Does (lines.round_of r line.now) (lines.line_does r line.now) r self.new result road) }
        ensures links { Uses carried links.old links.new (L.faults links.old) (L.faults links.new)
            (failed_by_link result) }
        ensures names { self.new.names ≡ self.old.names }
        ensures going { ends_world result ≡ false → self.new.world.ended ≡ false }
    {
        let given = self.given_to(line, links, carried)?;
        self.one(line, &given)?;
        Ok(())
    }

    /// A message is delivered.
    fn deliver<L: Links>(&mut self, message: u64, links: &mut L, carried: bool) -> Result<(), Halt>
        requires { self.old.world.ended ≡ false }
        ensures does { ByRoads carried (L.told links.old) (L.told links.new) self.old (λ r road.
            Does [] (lines.deliver r message) r self.new result road) }
        ensures links { Uses carried links.old links.new (L.faults links.old) (L.faults links.new)
            (failed_by_link result) }
        ensures names { self.new.names ≡ self.old.names }
        ensures going { ends_world result ≡ false → self.new.world.ended ≡ false }
    {
        let frame = self.frame_of(message)?;
        let given = hand_over(self.alloc, frame, links, carried)?;
        let given = given.as_slice();
        self.step(Event::Deliver { message, given })?;
        Ok(())
    }

    /// The first message behind this one that waits.
    fn waiting_behind(&self, message: u64) -> Option<u64>
        requires { self.now.world.ended ≡ false }
        ensures behind { (r : ReplayValue) → Stands self.now r →
            result ≡ posts.waiting_behind message r.state.pool }
        ensures greater { IfSome result (λ next. message < next) }
    {
        if message < self.world.messages() {
            self.world.undelivered(message + 1)
        } else {
            None
        }
    }

    /// The messages that wait.
    fn waiting(&self) -> Result<Vec<u64>, NoMemory>
        requires { self.now.world.ended ≡ false }
        ensures { IfOk result (λ messages. (r : ReplayValue) → Stands self.now r →
            messages.items ≡ lines.waiting r.state) }
    {
        let mut messages = Vec::new(self.alloc);
        let mut next = self.waiting_behind(0);
        while let Some(message) = next {
            messages.push(message)?;
            next = self.waiting_behind(message);
        }
        Ok(messages)
    }

    /// Each message that waits is delivered, one after another.
    fn round<L: Links>(&mut self, links: &mut L, carried: bool) -> Result<(), Halt>
        requires { self.old.world.ended ≡ false }
        ensures does { ByRoads carried (L.told links.old) (L.told links.new) self.old (λ r road.
            Does (lines.waiting r.state) (lines.deliver_all (lines.waiting r.state) r) r self.new result road) }
        ensures links { Uses carried links.old links.new (L.faults links.old) (L.faults links.new)
            (failed_by_link result) }
        ensures names { self.new.names ≡ self.old.names }
        ensures going { ends_world result ≡ false → self.new.world.ended ≡ false }
    {
        let messages = self.waiting()?;
        for message in &messages {
            self.deliver(*message, links, carried)?;
        }
        Ok(())
    }

    /// The events of a line happen.
    fn does<L: Links>(&mut self, line: &Line, links: &mut L, carried: bool) -> Result<(), Halt>
        requires going { self.old.world.ended ≡ false }
        requires stop { CanStop line.now }
        ensures does { ByRoads carried (L.told links.old) (L.told links.new) self.old (λ r road.
            lacks_journal r.journals line.now ≡ false →
            Does (lines.round_of r line.now) (lines.line_does r line.now) r self.new result road) }
        ensures links { Uses carried links.old links.new (L.faults links.old) (L.faults links.new)
            (failed_by_link result) }
        ensures names { self.new.names ≡ self.old.names }
        ensures going { ends_world result ≡ false → self.new.world.ended ≡ false }
    {
        match line {
            Line::Round => self.round(links, carried),
            _ => self.happen(line, links, carried),
        }
    }

    /// A transaction that begins has its name, and one that reads its key.
    fn name(&mut self, line: &Line) -> Result<(), NoMemory>
        requires { CanName self.old.names line.now }
        ensures names { OnOk result (self.new.names ≡ names_after line.now self.old.names) }
        ensures world { self.new.world ≡ self.old.world }
        ensures journals { self.new.journals ≡ self.old.journals }
        ensures cluster { self.new.cluster ≡ self.old.cluster }
    {
        match line {
            Line::Begin { name, client, .. } => self.names.begin(name, *client),
            Line::Read { name, key } => self.names.read(name, key),
            _ => Ok(()),
        }
    }

    /// Does what a line says, which has this number in the schedule.
    pub(crate) fn line<L: Links>(
        &mut self,
        line: &Line,
        number: u64,
        links: &mut L,
        carried: bool,
    ) -> Result<(), ReplayFault>
        requires { self.old.world.ended ≡ false }
        ensures did { ByRoads carried (L.told links.old) (L.told links.new) self.old (λ r road.
            Did (lines.round_of r line.now) (line_step r line.now number) r self.new result road) }
        ensures links { Uses carried links.old links.new (L.faults links.old) (L.faults links.new)
            (is_link_fault result) }
        ensures going { ends_by result ≡ false → self.new.world.ended ≡ false }
    {
        if let Some(reason) = self.reason_of(line) {
            return Err(ReplayFault::BadInput {
                line: number,
                reason,
            });
        }
        match self.does(line, links, carried) {
            Ok(()) => {
                self.name(line)?;
                Ok(())
            }
            Err(halt) => Err(fault_of(halt, number)),
        }
    }
}
