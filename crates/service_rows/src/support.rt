//! The top call over memory, whose links and clock tell what they give.

use crate::frames::{NONE, VOTE};
use basil_cli::run::run;
use basil_cli::status::Status;
use basil_types::clock::MemClock;
use basil_types::links::MemLinks;
use basil_types::memory::NoMemory;
use basil_types::sink::MemSink;
use basil_types::source::MemSource;
use std::alloc::Global;
use std::process::Abort;
use std::test::Fail;

/// Bytes that are given one after another, in hex.
pub(crate) type Hex = &'static [&'static str];

/// What the outside gives: the connections of links, and which of the calls of the source, the sink and the links fail,
/// counted from 1 for each.
#[derive(Clone, Copy)]
pub(crate) struct Given {
    pub connections: &'static [Hex],
    pub failing_reads: &'static [u64],
    pub failing_writes: &'static [u64],
    pub failing_links: &'static [u64],
}

impl Given {
    /// No connection, and nothing fails.
    pub const NOTHING: Given = Given {
        connections: &[],
        failing_reads: &[],
        failing_writes: &[],
        failing_links: &[],
    };

    /// The replica votes to commit, and takes the writeback.
    pub const VOTED: Given = Given {
        connections: &[VOTE, NONE],
        ..Given::NOTHING
    };

    /// No link is made: a client asks fewer times than there are calls.
    pub const SILENT: Given = Given {
        failing_links: &[1, 2, 3, 4, 5, 6, 7, 8, 9, 10, 11, 12, 13, 14, 15, 16],
        ..Given::VOTED
    };
}

/// The arguments, what the outside gives, how the call ends, and what it writes to its sink and to its links.
pub(crate) type Row = (
    &'static [&'static str],
    Given,
    Status,
    &'static str,
    &'static [Hex],
);

/// What a call ended with, and what it wrote to its sink and to its links.
#[derive(Drop)]
pub(crate) struct Answer {
    pub status: Status,
    pub text: Vec<u8>,
    pub sent: Vec<u8>,
}

/// The arguments of a command.
fn given_arguments(alloc: Global, arguments: &[&str]) -> Result<Vec<String>, NoMemory> {
    let mut given = Vec::new(alloc);
    for argument in arguments {
        given.push(String::from_str(alloc, argument)?)?;
    }
    Ok(given)
}

/// The bytes of texts in hex, one after another.
pub(crate) fn joined(alloc: Global, texts: &[&str]) -> Result<Vec<u8>, Fail> {
    let mut all = Vec::new(alloc);
    for text in texts {
        let bytes = hex::decode(alloc, *text)?;
        all.extend_from_slice(&bytes)?;
    }
    Ok(all)
}

/// The connections of links.
fn connections_of(alloc: Global, connections: &[Hex]) -> Result<Vec<Vec<u8>>, Fail> {
    let mut all = Vec::new(alloc);
    for connection in connections {
        all.push(joined(alloc, connection)?)?;
    }
    Ok(all)
}

/// A source of these bytes, in pieces of 100, of which these reads fail.
fn source_of(alloc: Global, input: &[u8], failing: &[u64]) -> Result<MemSource, Fail> {
    let input = Vec::from_slice(alloc, input)?;
    let failing = Vec::from_slice(alloc, failing)?;
    Ok(MemSource::new(input, 100, failing))
}

/// A sink of which these writes fail.
fn sink_of(alloc: Global, failing: &[u64]) -> Result<MemSink, Fail> {
    let failing = Vec::from_slice(alloc, failing)?;
    Ok(MemSink::new(alloc, 5000, failing)?)
}

/// The links that are given.
fn links_of(alloc: Global, given: &Given) -> Result<MemLinks, Fail> {
    let connections = connections_of(alloc, given.connections)?;
    let failing = Vec::from_slice(alloc, given.failing_links)?;
    Ok(MemLinks::new(alloc, connections, Vec::new(alloc), failing))
}

/// What a call ended with, and copies of what it wrote.
fn answer_of(alloc: Global, status: Status, text: &[u8], sent: &[u8]) -> Result<Answer, NoMemory> {
    let text = Vec::from_slice(alloc, text)?;
    let sent = Vec::from_slice(alloc, sent)?;
    Ok(Answer { status, text, sent })
}

/// Runs arguments over what is owned here, which is let go in one place.
fn run_owned(
    alloc: Global,
    arguments: &[String],
    mut source: MemSource,
    mut sink: MemSink,
    mut links: MemLinks,
    mut clock: MemClock,
) -> Result<Answer, NoMemory> {
    let status = run(
        alloc,
        arguments,
        &mut source,
        &mut sink,
        &mut links,
        &mut clock,
    );
    answer_of(alloc, status, sink.bytes(), links.written())
}

/// Runs arguments over an input and what the outside gives. The clock stands at 10, then at 11, and then at 0.
pub(crate) fn run_given(
    alloc: Global,
    arguments: &[&str],
    input: &[u8],
    given: &Given,
) -> Result<Answer, Fail> {
    let arguments = given_arguments(alloc, arguments)?;
    let clock = MemClock::new(Vec::from_slice(alloc, &[10u64, 11])?);
    let source = source_of(alloc, input, given.failing_reads)?;
    let sink = sink_of(alloc, given.failing_writes)?;
    let links = links_of(alloc, given)?;
    Ok(run_owned(alloc, &arguments, source, sink, links, clock)?)
}

/// What is written to links, in bytes.
fn sent_of(alloc: Global, sent: &[Hex]) -> Result<Vec<u8>, Fail> {
    let mut all = Vec::new(alloc);
    for texts in sent {
        let bytes = joined(alloc, texts)?;
        all.extend_from_slice(&bytes)?;
    }
    Ok(all)
}

/// Whether a row is answered, where the input is this file.
fn is_answered(alloc: Global, file: &str, row: &Row) -> Result<bool, Fail> {
    let (arguments, given, status, text, sent) = *row;
    let answer = run_given(alloc, arguments, file.as_bytes(), &given)?;
    let sent = sent_of(alloc, sent)?;
    Ok(
        answer.status == status
            && answer.text.as_slice() == text.as_bytes()
            && answer.sent.as_slice() == sent.as_slice(),
    )
}

/// So it is of each row.
pub(crate) fn are_answered(
    rt: &impl Abort,
    alloc: Global,
    file: &str,
    rows: &[Row],
) -> Result<(), Fail> {
    let mut place = 0usize;
    for row in rows {
        assert!(rt; is_answered(alloc, file, row)?, "row {place}");
        place = place.saturating_add(1);
    }
    Ok(())
}
