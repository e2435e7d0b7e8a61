//! The stages of a schedule: its header, its faulty parties, and its run.

ghost use Rattle.std.specs.Prelude.{◌≡◌, ◌≤◌, ◌++◌, ℕ, List, [], false, Err, IfOk, Ok, OnOk};
ghost use Rattle.premise_watch.specs.Parties.{AreCounted};
ghost use Rattle.line_fields.specs.Limits.{most_lines};
ghost use Rattle.schedule_replay.specs.Kits.{kit_of};
ghost use Rattle.schedule_replay.specs.Lines as lines;
ghost use Rattle.schedule_replay.specs.Roads.{Carries, Road, Uses, road_with};
ghost use Rattle.schedule_replay.specs.Shown.{Stands, is_link_fault, is_of_link, opening_of};
ghost use Rattle.schedule_replay.specs.Stages as stages;
ghost use Rattle.schedule_replay.specs.Stages.{AreParties, Stage};
ghost use Rattle.schedule_replay.specs.Replays.{first_replay};

use crate::replay::{Opening, Replay};
use basil_types::cluster::Cluster;
use basil_types::links::Links;
use basil_types::memory::NoMemory;
use basil_types::party::Party;
use keyring_lms::has_party;
use line_fields::keys_kind::KeysKind;
use line_fields::limits::LONGEST_LINE;
use line_fields::reason::Reason;
use premise_watch::faulty::Faulty;
use replay_kit::KitKind;
use report_lines::fault::ReplayFault;
use schedule_text::laws::grammar_is_read;
use schedule_text::line::{Line, LineFault};
use schedule_text::reading::{is_header, is_skipped, read_line};
use std::alloc::Global;

/// What a header opens, and the faulty parties that lines have named since: of the cluster, at most f replicas of each
/// shard.
#[derive(Drop)]
pub struct Opened {
    opening: Opening,
    faulty: Box<Faulty>,
    ghost members: { AreParties opening.cluster faulty.value },
    ghost few: { AreCounted opening.cluster.f faulty.value },
}

/// A schedule, run up to some line. Contracts see by `IsAt` at which stage it is.
#[derive(Drop)]
pub enum Schedule {
    /// No line came yet that isn't skipped.
    Begins,
    /// The header came, and lines that name faulty parties.
    Opens(Opened),
    /// Another line came.
    Runs(Replay),
}

/// Why a line is refused where no header came before it.
fn bad_first(line: &[u8], number: u64, fault: LineFault) -> ReplayFault
    ensures fault { result ≡ stages.bad_first line.now number fault }
    ensures unlinked { is_of_link result ≡ false }
{
    match fault {
        LineFault::BadLine { reason, .. } => ReplayFault::BadInput {
            line: number,
            reason: if is_skipped(line) {
                reason
            } else {
                Reason::NoHeader
            },
        },
        LineFault::NoMemory => ReplayFault::NoMemory,
    }
}

/// A later header is reason 2 for anything, unless it is too long.
fn later_reason(line: &[u8], reason: Reason) -> Reason
    ensures { result ≡ lines.later_reason line.now reason }
{
    if line.len() <= LONGEST_LINE && is_header(line) {
        Reason::Misspelt
    } else {
        reason
    }
}

/// Why a line behind the header is refused that says nothing.
fn bad_line(line: &[u8], number: u64, fault: LineFault) -> ReplayFault
    ensures fault { result ≡ lines.bad_line line.now number fault }
    ensures unlinked { is_of_link result ≡ false }
{
    match fault {
        LineFault::BadLine { reason, .. } => ReplayFault::BadInput {
            line: number,
            reason: later_reason(line, reason),
        },
        LineFault::NoMemory => ReplayFault::NoMemory,
    }
}

impl Opened {
    ghost use Rattle.schedule_replay.specs.Schedules.{Joins, Took};

    /// A line names a faulty party. Reason 3 for one that isn't of the cluster, and 5 for one that is named already or
    /// would be the (f + 1)th of its shard.
    fn join(&mut self, party: Party, number: u64) -> Result<(), ReplayFault>
        ensures { Joins self.old self.new number party result }
    {
        if !has_party(&self.opening.cluster, party) {
            return Err(ReplayFault::BadInput {
                line: number,
                reason: Reason::OutOfRange,
            });
        }
        if !self.faulty.add(party, &self.opening.cluster) {
            return Err(ReplayFault::BadInput {
                line: number,
                reason: Reason::CannotBeFaulty,
            });
        }
        Ok(())
    }

    /// The replay before its first line.
    fn run(self, alloc: Global) -> Result<Replay, NoMemory>
        ensures stands { IfOk result (λ replay. (road : Road) →
            Stands replay.course.value (first_replay (opening_of self.opening) self.faulty.value road)) }
        ensures going { IfOk result (λ replay. replay.ended ≡ false) }
    {
        let faulty = Box::into_inner(self.faulty);
        Replay::new(alloc, &self.opening, faulty)
    }

    /// What a line does behind the header and lines that name faulty parties.
    fn line<L: Links>(
        self,
        alloc: Global,
        line: &Line,
        number: u64,
        links: &mut L,
        carried: bool,
    ) -> Result<Schedule, ReplayFault>
        ensures took { Carries carried (L.told links.old) (L.told links.new) (λ gave. (later : List (List ℕ)) →
            Took result (stages.opening_line (opening_of self.opening) self.faulty.value
            (road_with carried (gave ++ later)) number line.now) (road_with carried later)) }
        ensures links { Uses carried links.old links.new (L.faults links.old) (L.faults links.new)
            (is_link_fault result) }
    {
        match line {
            Line::Faulty { party } => {
                let mut opened = self;
                opened.join(*party, number)?;
                Ok(Schedule::Opens(opened))
            }
            Line::Skipped => Ok(Schedule::Opens(self)),
            line => {
                let mut replay = self.run(alloc)?;
                replay.line(line, number, links, carried)?;
                Ok(Schedule::Runs(replay))
            }
        }
    }
}

impl Schedule {
    ghost use Rattle.schedule_replay.specs.Schedules.{ByRoads, Ends, IsAt, IsGoing, Took};

    /// A schedule before its first line.
    pub fn new() -> Schedule
        ensures { result ≡ Schedule.Begins }
    {
        Schedule::Begins
    }

    /// What a header opens.
    fn open(
        alloc: Global,
        cluster: Cluster,
        clock: u64,
        keys: KeysKind,
        journal: bool,
    ) -> Result<Schedule, ReplayFault>
        ensures took { (road : Road) →
            Took result (Ok (stages.opened road cluster clock journal (kit_of cluster keys))) road }
        ensures unlinked { is_link_fault result ≡ false }
    {
        let opening = Opening {
            cluster,
            clock,
            keys: KitKind::of(keys),
            journal,
        };
        let faulty = Box::new(alloc, Faulty::new())?;
        Ok(Schedule::Opens(Opened { opening, faulty }))
    }

    /// What a line does where no header came before it.
    fn first_line(alloc: Global, line: &Line, number: u64) -> Result<Schedule, ReplayFault>
        ensures took { (road : Road) → Took result (stages.first_line road number line.now) road }
        ensures unlinked { is_link_fault result ≡ false }
    {
        match line {
            Line::Header {
                cluster,
                clock,
                keys,
                journal,
            } => Schedule::open(alloc, *cluster, *clock, *keys, *journal),
            Line::Skipped => Ok(Schedule::Begins),
            _ => Err(ReplayFault::BadInput {
                line: number,
                reason: Reason::NoHeader,
            }),
        }
    }

    /// What a line of this value does.
    fn value<L: Links>(
        self,
        alloc: Global,
        line: &Line,
        number: u64,
        links: &mut L,
        carried: bool,
    ) -> Result<Schedule, ReplayFault>
        requires { IsGoing self }
        ensures took { ByRoads carried (L.told links.old) (L.told links.new) self (λ stage road.
            Took result (stages.read_line stage [] number (Ok line.now)) road) }
        ensures links { Uses carried links.old links.new (L.faults links.old) (L.faults links.new)
            (is_link_fault result) }
    {
        match self {
            Schedule::Begins => Schedule::first_line(alloc, line, number),
            Schedule::Opens(opened) => opened.line(alloc, line, number, links, carried),
            Schedule::Runs(replay) => {
                let mut replay = replay;
                replay.line(line, number, links, carried)?;
                Ok(Schedule::Runs(replay))
            }
        }
    }

    /// Why a line is refused that says nothing.
    fn fault_of(&self, line: &[u8], number: u64, fault: LineFault) -> ReplayFault
        ensures fault { (stage : Stage) → IsAt self.now stage →
            stages.read_line stage line.now number (Err fault) ≡ Err result }
        ensures unlinked { is_of_link result ≡ false }
    {
        match self {
            Schedule::Begins => bad_first(line, number, fault),
            Schedule::Opens(_) => bad_line(line, number, fault),
            Schedule::Runs(_) => bad_line(line, number, fault),
        }
    }

    /// Does what the line of this number does. Where deliveries are carried, each node is handed what the links give
    /// for a message, else its own bytes. Whatever refuses the line ends the schedule.
    pub fn line<L: Links>(
        self,
        alloc: Global,
        line: &[u8],
        number: u64,
        links: &mut L,
        carried: bool,
    ) -> Result<Schedule, ReplayFault>
        requires { IsGoing self }
        ensures took { ByRoads carried (L.told links.old) (L.told links.new) self (λ stage road.
            Took result (stages.stage_step stage line.now number) road) }
        ensures links { Uses carried links.old links.new (L.faults links.old) (L.faults links.new)
            (is_link_fault result) }
        ensures lines { OnOk result (number ≤ most_lines) }
    {
        grammar_is_read();
        match read_line(alloc, line, number) {
            Ok(value) => self.value(alloc, &value, number, links, carried),
            Err(fault) => Err(self.fault_of(line, number, fault)),
        }
    }

    /// The replay behind the last line. A schedule without a header is refused at line 1, for reason 1.
    pub fn end(self, alloc: Global) -> Result<Replay, ReplayFault>
        requires { IsGoing self }
        ensures ends { (stage : Stage) → IsAt self stage → Ends result (stages.ended stage) }
        ensures going { IfOk result (λ replay. replay.ended ≡ false) }
    {
        match self {
            Schedule::Begins => Err(ReplayFault::BadInput {
                line: 1,
                reason: Reason::NoHeader,
            }),
            Schedule::Opens(opened) => {
                let replay = opened.run(alloc)?;
                Ok(replay)
            }
            Schedule::Runs(replay) => Ok(replay),
        }
    }
}
