//! The top call over memory.

ghost use Rattle.std.specs.Prelude.{◌<◌};

use basil_cli::run::run;
use basil_cli::status::Status;
use basil_types::clock::MemClock;
use basil_types::links::{Links, MemLinks, SureLinks};
use basil_types::memory::NoMemory;
use basil_types::sink::MemSink;
use basil_types::source::MemSource;
use std::alloc::Global;

/// The header of one replica, the first line where a row begins with the second one.
pub(crate) const HEADER: &[u8] = b"basil 1 f=0 shards=1 reads=1 delta=100 clock=50 keys=plain\n";

/// How many bytes a read gives.
const PIECE: usize = 1000;

/// What a call ended with, and what it wrote.
#[derive(Drop)]
pub(crate) struct Answer {
    pub status: Status,
    pub text: Vec<u8>,
}

/// A status, and a copy of a text.
fn answer_of(alloc: Global, status: Status, text: &[u8]) -> Result<Answer, NoMemory> {
    let text = Vec::from_slice(alloc, text)?;
    Ok(Answer { status, text })
}

/// The arguments of a command.
fn given_arguments(alloc: Global, arguments: &[&str]) -> Result<Vec<String>, NoMemory> {
    let mut given = Vec::new(alloc);
    for argument in arguments {
        given.push(String::from_str(alloc, argument)?)?;
    }
    Ok(given)
}

/// Runs arguments over a source, a sink and links. All that is owned here is let go in one place.
fn run_owned<L: Links>(
    alloc: Global,
    given: &[String],
    mut source: MemSource,
    mut sink: MemSink,
    links: &mut L,
) -> Result<Answer, NoMemory> {
    let mut clock = MemClock::new(Vec::new(alloc));
    let status = run(alloc, given, &mut source, &mut sink, links, &mut clock);
    answer_of(alloc, status, sink.bytes())
}

/// A source of these bytes, in pieces of this length, of which these reads fail.
fn source_of(
    alloc: Global,
    input: &[u8],
    piece: usize,
    failing: &[u64],
) -> Result<MemSource, NoMemory>
    requires { 0 < piece }
{
    let bytes = Vec::from_slice(alloc, input)?;
    let failing = Vec::from_slice(alloc, failing)?;
    Ok(MemSource::new(bytes, piece, failing))
}

/// A sink of which these writes fail.
fn sink_of(alloc: Global, failing: &[u64]) -> Result<MemSink, NoMemory> {
    let failing = Vec::from_slice(alloc, failing)?;
    MemSink::new(alloc, 100_000, failing)
}

/// Runs one argument, and more where given, over a source that gives these bytes in pieces of this length, and over
/// these links; the listed reads and writes fail.
fn run_over<L: Links>(
    alloc: Global,
    arguments: &[&str],
    input: &[u8],
    piece: usize,
    failing_reads: &[u64],
    failing_writes: &[u64],
    links: &mut L,
) -> Result<Answer, NoMemory>
    requires { 0 < piece }
{
    let given = given_arguments(alloc, arguments)?;
    let source = source_of(alloc, input, piece, failing_reads)?;
    let sink = sink_of(alloc, failing_writes)?;
    run_owned(alloc, &given, source, sink, links)
}

/// The same over links that never fail.
pub(crate) fn run_arguments(
    alloc: Global,
    arguments: &[&str],
    input: &[u8],
    failing_reads: &[u64],
    failing_writes: &[u64],
) -> Result<Answer, NoMemory> {
    let mut links = SureLinks::new(alloc, Vec::new(alloc), Vec::new(alloc));
    run_over(
        alloc,
        arguments,
        input,
        PIECE,
        failing_reads,
        failing_writes,
        &mut links,
    )
}

/// Runs a schedule whose deliveries are carried; the listed carries change a bit of the last byte, or fail, and so do
/// the listed writes.
pub(crate) fn loopback(
    alloc: Global,
    schedule: &[u8],
    changed: &[u64],
    failing: &[u64],
    failing_writes: &[u64],
) -> Result<Answer, NoMemory> {
    let changed = Vec::from_slice(alloc, changed)?;
    let failing = Vec::from_slice(alloc, failing)?;
    let mut links = MemLinks::new(alloc, Vec::new(alloc), changed, failing);
    run_over(
        alloc,
        &["loopback"],
        schedule,
        PIECE,
        &[],
        failing_writes,
        &mut links,
    )
}

/// Replays a schedule that comes in pieces of this length; the listed reads fail.
pub(crate) fn replay_in_pieces(
    alloc: Global,
    schedule: &[u8],
    piece: usize,
    failing_reads: &[u64],
) -> Result<Answer, NoMemory>
    requires { 0 < piece }
{
    let mut links = SureLinks::new(alloc, Vec::new(alloc), Vec::new(alloc));
    run_over(
        alloc,
        &["replay"],
        schedule,
        piece,
        failing_reads,
        &[],
        &mut links,
    )
}

/// Replays a schedule.
pub(crate) fn replay(alloc: Global, schedule: &[u8]) -> Result<Answer, NoMemory> {
    run_arguments(alloc, &["replay"], schedule, &[], &[])
}

/// Whether a call ended so, and wrote this text.
pub(crate) fn is_answer(given: &Answer, status: Status, text: &[u8]) -> bool {
    given.status == status && given.text.as_slice() == text
}

/// Whether a call refused this line of its input for the reason of this number, and wrote that and nothing else.
pub(crate) fn is_bad_input(
    alloc: Global,
    given: &Answer,
    line: u64,
    reason: u8,
) -> Result<bool, NoMemory> {
    let text = format!(in alloc; "line {line} reason {reason}\n")?;
    let is_refused = match given.status {
        Status::BadInput {
            line: place,
            reason: why,
        } => place == line && why.number() == reason,
        _ => false,
    };
    Ok(is_refused && given.text.as_slice() == text.as_bytes())
}

/// Whether the replay of a schedule ends at this line, for this reason, and writes that and nothing else.
pub(crate) fn is_refused(
    alloc: Global,
    schedule: &[u8],
    line: u64,
    reason: u8,
) -> Result<bool, NoMemory> {
    let given = replay(alloc, schedule)?;
    is_bad_input(alloc, &given, line, reason)
}

/// One text behind the other.
pub(crate) fn joined(alloc: Global, texts: &[&[u8]]) -> Result<Vec<u8>, NoMemory> {
    let mut whole = Vec::new(alloc);
    for text in texts {
        whole.extend_from_slice(text)?;
    }
    Ok(whole)
}
