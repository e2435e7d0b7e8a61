//! A replay: a run of a cluster by the lines of a schedule.

ghost use Rattle.std.specs.Prelude.{◌≡◌, ◌<◌, List, false, IfErr, IfOk, OnOk, is_some, option_map};
ghost use Rattle.std.specs.Result.{IsErrOf};
ghost use Rattle.basil_types.specs.Causes.{Rose, TookAll, TookPrefix};
ghost use Rattle.basil_types.specs.declared.party.Party.{Party};
ghost use Rattle.cluster_world.specs.Shows.{AreMembers};
ghost use Rattle.cluster_world.specs.Worlds.{RanSafely};
ghost use Rattle.journaled_runs.specs.Owners.{keeps_journal};
ghost use Rattle.premise_watch.specs.Parties.{AreCounted};
ghost use Rattle.run_journals.specs.Journals.{journal_at};
ghost use Rattle.run_journals.specs.Kept.{ShowsDisk};
ghost use Rattle.schedule_replay.specs.Events.{round_of};
ghost use Rattle.schedule_replay.specs.Leading.{IsLed};
ghost use Rattle.schedule_replay.specs.Lines.{line_step};
ghost use Rattle.schedule_replay.specs.Replays as replays;
ghost use Rattle.schedule_replay.specs.Replays.{ReplayValue, first_replay, most_bytes, most_messages, setup_of};
ghost use Rattle.schedule_replay.specs.Reports as reports;
ghost use Rattle.schedule_replay.specs.Roads.{Road, Uses};
ghost use Rattle.schedule_replay.specs.Totals.{totals};
ghost use Rattle.report_lines.specs.Ending.{ends_by};
ghost use Rattle.schedule_replay.specs.Shown.{ByRoads, Did, IsOfReport, Stands, is_link_fault, opening_of};

use crate::course::{Course, first_journals};
use crate::names::Names;
use crate::report::text_of;
use crate::totals::totals_of;
use basil_types::cluster::Cluster;
use basil_types::links::Links;
use basil_types::memory::NoMemory;
use basil_types::sink::Sink;
use cluster_world::building::Beginning;
use cluster_world::world::World;
use journal_disk::memory::MemDisk;
use journaled_runs::{owners_are_correct, owners_outlast_stops, owners_stay};
use message_pool::Room;
use premise_watch::faulty::Faulty;
use replay_kit::{KitKind, ReplayKit};
use report_lines::fault::{ReplayFault, ends};
use run_kit::Kit;
use schedule_text::line::Line;
use std::alloc::Global;

/// What a header opens.
#[derive(Clone, Copy)]
pub struct Opening {
    pub cluster: Cluster,
    /// The first moment of every replica.
    pub clock: u64,
    /// The keys of the parties.
    pub keys: KitKind,
    /// Whether each correct replica keeps a journal of what it takes, on a disk that lines may stop.
    pub journal: bool,
}

/// A run of a cluster by the lines of a schedule, with the names of its transactions. Contracts see by `Stands` which
/// values it shows.
#[derive(Drop)]
pub struct Replay {
    course: Box<Course>,
    ended: bool,
    ghost going: { ended ≡ false → course.value.world.ended ≡ false },
}

/// The limits of the pool: messages, and bytes of their frames.
fn limits() -> Room
    ensures messages { result.messages ≡ most_messages }
    ensures bytes { result.bytes ≡ most_bytes }
{
    Room {
        messages: 1_000_000,
        bytes: 1_073_741_824,
    }
}

impl Replay {
    /// The replay before its first line. The faulty parties are of the cluster, at most f replicas of each shard.
    pub fn new(alloc: Global, opening: &Opening, faulty: Faulty) -> Result<Replay, NoMemory>
        requires members { AreMembers opening.now.cluster faulty }
        requires few { AreCounted opening.now.cluster.f faulty }
        ensures stands { IfOk result (λ replay.
            (road : Road) → Stands replay.course.value (first_replay (opening_of opening.now) faulty road)) }
        ensures going { IfOk result (λ replay. replay.ended ≡ false) }
    {
        let cluster = opening.cluster;
        let kit = ReplayKit::new(alloc, cluster, opening.keys)?;
        let beginning = Beginning {
            cluster,
            clock: opening.clock,
            limits: limits(),
        };
        let world = World::new(alloc, beginning, faulty, kit)?;
        let journals = first_journals(alloc, cluster, &world, opening.journal)?;
        let names = Names::new(alloc);
        let course = Course {
            alloc,
            cluster,
            world,
            journals,
            names,
        };
        Ok(Replay {
            course: Box::new(alloc, course)?,
            ended: false,
        })
    }

    /// Does what a line says, which has this number in the schedule. Where deliveries are carried, each node is handed
    /// what the links give for a message, else its own bytes. A breach, and want of memory, end the replay; a line that
    /// is refused leaves it as before; where a link fails, the messages that a round delivered before stay delivered.
    pub fn line<L: Links>(
        &mut self,
        line: &Line,
        number: u64,
        links: &mut L,
        carried: bool,
    ) -> Result<(), ReplayFault>
        requires { self.old.ended ≡ false }
        ensures did { ByRoads carried (L.told links.old) (L.told links.new) self.old.course.value (λ r road.
            Did (round_of r line.now) (line_step r line.now number) r self.new.course.value result road) }
        ensures links { Uses carried links.old links.new (L.faults links.old) (L.faults links.new)
            (is_link_fault result) }
        ensures ended { self.new.ended ≡ ends_by result }
    {
        let done = self.course.line(line, number, links, carried);
        self.ended = ends(&done);
        done
    }

    /// Whether a breach, or want of memory, has ended it.
    pub fn ended(&self) -> bool
        ensures { result ≡ self.now.ended }
    {
        self.ended
    }

    /// A replay that hasn't ended is safe: what it shows is what a run comes to in which no transaction has both
    /// certificates, and each committed transaction of a correct client read, per key, what the latest committed writer
    /// before it wrote.
    pub fn is_safe(&self)
        requires { self.now.ended ≡ false }
        ensures { let world = self.now.course.value.world in
            ∥ RanSafely world.core (⟦<ReplayKit as Kit>⟧.value world.kit) ∥₁ }
    {
        self.course.world.is_safe();
    }

    /// The disk of a replica's journal, with its records and the stops that it had. There is none where the header has
    /// no `journal`, or where the numbers name no correct replica.
    pub fn disk(&self, shard: u8, index: u8) -> Option<&MemDisk>
        ensures shown { (r : ReplayValue) → Stands self.now.course.value r →
            ShowsDisk (option_map (λ disk. disk.now) result) (journal_at r.journals shard index) }
        ensures there { (o : replays.Opening) (faulty : List Party) (r : ReplayValue) → IsLed o faulty r →
            Stands self.now.course.value r →
            is_some result ≡ keeps_journal (setup_of o faulty) o.journal shard index }
    {
        owners_are_correct();
        owners_stay();
        owners_outlast_stops();
        self.course.journals.disk(shard, index)
    }

    /// The report.
    pub fn text(&self) -> Result<Vec<u8>, NoMemory>
        ensures { IfOk result (λ text. (r : ReplayValue) → Stands self.now.course.value r →
            text.items ≡ reports.report r) }
    {
        text_of(&self.course)
    }

    /// How many transactions committed, aborted and are open, and the number of messages, a line each.
    pub fn totals(&self) -> Result<Vec<u8>, NoMemory>
        ensures { IfOk result (λ text. (r : ReplayValue) → Stands self.now.course.value r → text.items ≡ totals r) }
    {
        totals_of(&self.course)
    }

    /// Writes the report. Where memory is wanting nothing was written, and where the sink failed some of it.
    pub fn report<K: Sink>(&self, sink: &mut K) -> Result<(), ReplayFault>
        ensures written { OnOk result ((r : ReplayValue) → Stands self.now.course.value r →
            TookAll (K.taken sink.old) (K.taken sink.new) (reports.report r)) }
        ensures prefix { (r : ReplayValue) → Stands self.now.course.value r →
            TookPrefix (K.taken sink.old) (K.taken sink.new) (reports.report r) }
        ensures cause { IsErrOf result ReplayFault.WriteFault → Rose (K.faults sink.old) (K.faults sink.new) }
        ensures told { K.faults sink.old < K.faults sink.new → IsErrOf result ReplayFault.WriteFault }
        ensures spared { IsErrOf result ReplayFault.NoMemory → sink.new ≡ sink.old }
        ensures only { IfErr result IsOfReport }
    {
        let text = self.text()?;
        match sink.write(&text) {
            Ok(()) => Ok(()),
            Err(_) => Err(ReplayFault::WriteFault),
        }
    }
}
