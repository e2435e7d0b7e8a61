//! A schedule is run as it is read, line by line.

ghost use Rattle.std.specs.Prelude.{◌≡◌, ◌<◌, ℕ, Bool, List, ◌++◌, ◌∷◌, [], false};
ghost use Rattle.std.specs.Prelude.{IfOk, IfSome, MatchOption, length, position, ◌==◌};
ghost use Rattle.std.specs.Result.{IsErrOf};
ghost use Rattle.basil_types.specs.Causes.{Rose};
ghost use Rattle.schedule_replay.specs.Outcomes.{outcome_on, replay_of, replay_on};
ghost use Rattle.schedule_replay.specs.Roads.{Carries, Uses, road_with};
ghost use Rattle.schedule_replay.specs.Schedules.{Ends};
ghost use Rattle.schedule_replay.specs.Shown.{is_link_fault, is_of_link};
ghost use Rattle.schedule_commands.specs.Behind.{CanDecide, CanEnd, Closes, HasRead, IsCut, IsOn, ReadsOn};
ghost use Rattle.schedule_commands.specs.Roads.{ByRoads};
ghost use Rattle.command_input.specs.Reading.{OfBytes, IsReadThrough, StopsSoon};
ghost use Rattle.command_ends.specs.Outcome.{Written};
ghost use Rattle.schedule_commands.specs.Schedules.{load_text, loaded, replayed};
ghost use Rattle.command_ends.specs.Endings.{outcome_is};
ghost use Rattle.command_input.specs.Inputs.{is_link_fail};
ghost use Rattle.schedule_commands.specs.TextLines.{has_newline, is_settled};

use basil_types::bytes::Bytes;
use basil_types::links::{Links, SureLinks};
use basil_types::memory::NoMemory;
use basil_types::source::Source;
use command_ends::ending::Ending;
use command_input::command::LoadSize;
use command_input::input::{InputFail, PIECE};
use line_fields::limits::LONGEST_LINE;
use load_maker::load::schedule_of;
use report_lines::fault::ReplayFault;
use schedule_replay::replay::Replay;
use schedule_replay::stages::Schedule;
use std::alloc::Global;

/// A schedule that is run as it is read.
#[derive(Drop)]
struct Reading {
    alloc: Global,
    schedule: Schedule,
    /// The number of the line that hasn't ended, from 1.
    number: u64,
    /// The bytes of that line so far.
    line: Vec<u8>,
}

/// Where the first newline stands.
fn newline(bytes: &[u8]) -> Option<usize>
    ensures first { result ≡ position (λ b. b == 10) bytes.now }
    ensures within { IfSome result (λ at. at < length bytes.now) }
{
    bytes.iter().position(|b| *b == b'\n')
}

/// The first line that a newline ends, and what follows that.
fn ended_line(bytes: &[u8]) -> Option<(&[u8], &[u8])>
    ensures { MatchOption result (has_newline bytes.now ≡ false) (λ t. IsCut bytes.now t.0.now t.1.now) }
{
    let Some(at) = newline(bytes) else {
        return None;
    };
    let (line, _) = bytes.split_at(at);
    let (_, rest) = bytes.split_at(at + 1);
    Some((line, rest))
}

impl Reading {
    /// No byte was read.
    fn new(alloc: Global) -> Reading
        ensures { (carried : Bool) → HasRead carried result [] [] }
    {
        Reading {
            alloc,
            schedule: Schedule::new(),
            number: 1,
            line: Vec::new(alloc),
        }
    }

    /// The line ends with these bytes, and is run.
    fn end_line<L: Links>(
        self,
        last: &[u8],
        links: &mut L,
        carried: bool,
    ) -> Result<Reading, ReplayFault>
        requires on { IsOn carried self }
        requires whole { has_newline last.now ≡ false }
        ensures reads { Carries carried (L.told links.old) (L.told links.new)
            (ReadsOn carried self (last.now ++ 10 ∷ []) result) }
        ensures links { Uses carried links.old links.new (L.faults links.old) (L.faults links.new)
            (is_link_fault result) }
    {
        let Reading {
            alloc,
            schedule,
            number,
            line,
        } = self;
        let mut line = line;
        if line.extend_from_slice(last).is_err() {
            return Err(ReplayFault::NoMemory);
        }
        match schedule.line(alloc, &line, number, links, carried) {
            Ok(schedule) => {
                line.clear();
                Ok(Reading {
                    alloc,
                    schedule,
                    number: number + 1,
                    line,
                })
            }
            Err(fault) => Err(fault),
        }
    }

    /// These bytes were read of the line, which hasn't ended. One that is too long is refused, whatever follows.
    fn hold<L: Links>(
        self,
        bytes: &[u8],
        links: &mut L,
        carried: bool,
    ) -> Result<Reading, ReplayFault>
        requires on { IsOn carried self }
        requires whole { has_newline bytes.now ≡ false }
        ensures reads { Carries carried (L.told links.old) (L.told links.new)
            (ReadsOn carried self bytes.now result) }
        ensures links { Uses carried links.old links.new (L.faults links.old) (L.faults links.new)
            (is_link_fault result) }
    {
        if bytes.len() > LONGEST_LINE - self.line.len() {
            return self.end_line(bytes, links, carried);
        }
        let mut reading = self;
        match reading.line.extend_from_slice(bytes) {
            Ok(()) => Ok(reading),
            Err(_) => Err(ReplayFault::NoMemory),
        }
    }

    /// A piece was read: its lines are run.
    fn take<L: Links>(
        self,
        piece: &[u8],
        links: &mut L,
        carried: bool,
    ) -> Result<Reading, ReplayFault>
        requires { IsOn carried self }
        ensures reads { Carries carried (L.told links.old) (L.told links.new)
            (ReadsOn carried self piece.now result) }
        ensures links { Uses carried links.old links.new (L.faults links.old) (L.faults links.new)
            (is_link_fault result) }
    {
        let mut reading = self;
        let mut rest = piece;
        'lines: while let Some((line, more)) = ended_line(rest) {
            match reading.end_line(line, links, carried) {
                Ok(next) => reading = next,
                Err(fault) => return Err(fault),
            }
            rest = more;
        }
        reading.hold(rest, links, carried)
    }

    /// All was read: a last line without a newline is run too.
    fn end<L: Links>(self, links: &mut L, carried: bool) -> Result<Replay, ReplayFault>
        requires { IsOn carried self }
        ensures ends { Carries carried (L.told links.old) (L.told links.new) (λ more.
            (gave later : List (List ℕ)) (read : List ℕ) → HasRead carried self gave read →
            Closes result (replay_on (road_with carried ((gave ++ more) ++ later)) read)) }
        ensures links { Uses carried links.old links.new (L.faults links.old) (L.faults links.new)
            (is_link_fault result) }
    {
        if self.line.is_empty() {
            return self.schedule.end(self.alloc);
        }
        match self.end_line(b"", links, carried) {
            Ok(reading) => reading.schedule.end(reading.alloc),
            Err(fault) => Err(fault),
        }
    }
}

/// What a fault of a replay leads to.
fn ending_of(fault: ReplayFault) -> Result<Ending, InputFail>
    requires { CanEnd fault }
    ensures outcome { IfOk result (λ e. outcome_is e ≡ replayed (Err fault)) }
    ensures decides { IfOk result (λ _. CanDecide fault) }
    ensures link { is_link_fail result ≡ is_of_link fault }
    ensures sure { IsErrOf result InputFail.Failed → ⊥ }
{
    match fault {
        ReplayFault::BadInput { line, reason } => Ok(Ending::BadLine { line, reason }),
        ReplayFault::Broken(broken) => Ok(Ending::Broken(broken)),
        ReplayFault::Full { messages, bytes } => Ok(Ending::Full { messages, bytes }),
        ReplayFault::LinkFault => Err(InputFail::Link),
        ReplayFault::WriteFault => unreachable!(),
        ReplayFault::NoMemory => Err(InputFail::NoMemory),
    }
}

/// What the whole of a schedule leads to.
fn ended<L: Links>(reading: Reading, links: &mut L, carried: bool) -> Result<Ending, InputFail>
    requires { IsOn carried reading }
    ensures outcome { Carries carried (L.told links.old) (L.told links.new) (λ more.
        (gave later : List (List ℕ)) (read : List ℕ) → HasRead carried reading gave read →
        IfOk result (λ e. outcome_is e ≡ replayed (outcome_on (road_with carried ((gave ++ more) ++ later)) read))) }
    ensures links { Uses carried links.old links.new (L.faults links.old) (L.faults links.new)
        (is_link_fail result) }
    ensures sure { IsErrOf result InputFail.Failed → ⊥ }
{
    match reading.end(links, carried) {
        Ok(replay) => {
            let text = replay.text()?;
            Ok(Ending::Written(Bytes::from_vec(text)))
        }
        Err(fault) => ending_of(fault),
    }
}

/// What a schedule leads to that is read whole, where each message is handed over as it is.
fn run_whole(alloc: Global, text: &[u8]) -> Result<Replay, ReplayFault>
    ensures { Ends result (replay_of text.now) }
{
    let mut links = SureLinks::new(alloc, Vec::new(alloc), Vec::new(alloc));
    let start = Reading::new(alloc);
    let reading = start.take(text, &mut links, false)?;
    reading.end(&mut links, false)
}

/// What becomes of the transactions of a load.
pub fn load(alloc: Global, size: LoadSize) -> Result<Ending, NoMemory>
    ensures { IfOk result (λ e. outcome_is e ≡ loaded (replay_of (load_text size))) }
{
    let text = schedule_of(alloc, size.seed, size.count)?;
    match run_whole(alloc, &text) {
        Ok(replay) => Ok(Ending::Written(Bytes::from_vec(replay.totals()?))),
        Err(fault) => match ending_of(fault) {
            Ok(ending) => Ok(ending),
            Err(_) => Err(NoMemory),
        },
    }
}

/// The schedule of a load.
pub fn generate(alloc: Global, size: LoadSize) -> Result<Ending, NoMemory>
    ensures { IfOk result (λ e. outcome_is e ≡ Written (load_text size)) }
{
    let text = schedule_of(alloc, size.seed, size.count)?;
    Ok(Ending::Written(Bytes::from_vec(text)))
}

/// What a schedule leads to. A line is run before the next is read, and let go. Where deliveries are carried, each node
/// is handed what links give for a message, else the message's own bytes.
pub fn replay<S: Source, L: Links>(
    alloc: Global,
    source: &mut S,
    links: &mut L,
    carried: bool,
) -> Result<Ending, InputFail>
    ensures outcome { OfBytes (S.left source.old) (λ bytes.
        ByRoads carried (L.told links.old) (L.told links.new) (λ road.
        IfOk result (λ e. outcome_is e ≡ replayed (outcome_on road bytes)))) }
    ensures through { IfSome (S.left source.old) (λ bytes.
        ByRoads carried (L.told links.old) (L.told links.new) (λ road.
        IfOk result (λ _. IsReadThrough (is_settled road) bytes (S.left source.new)))) }
    ensures soon { IfSome (S.left source.old) (λ bytes.
        ByRoads carried (L.told links.old) (L.told links.new) (λ road.
        StopsSoon (is_settled road) bytes (S.left source.new))) }
    ensures failed { IsErrOf result InputFail.Failed → Rose (S.faults source.old) (S.faults source.new) }
    ensures told { S.faults source.old < S.faults source.new → IsErrOf result InputFail.Failed }
    ensures links { Uses carried links.old links.new (L.faults links.old) (L.faults links.new)
        (is_link_fail result) }
{
    let mut reading = Reading::new(alloc);
    let mut buf = [0u8; PIECE];
    'turns: for _ in 0..u64::MAX {
        let count = match source.read(&mut buf) {
            Ok(0) => return ended(reading, links, carried),
            Ok(count) => count,
            Err(_) => return Err(InputFail::Failed),
        };
        match reading.take(&buf[..count], links, carried) {
            Ok(next) => reading = next,
            Err(fault) => return ending_of(fault),
        }
    }
    Err(InputFail::NoMemory)
}
