//! What a sink takes of a load.

use basil_types::sink::{MemSink, Sink, SureSink};
use load_maker::fault::MakeFault;
use load_maker::load::{make_lines, schedule_of};
use std::alloc::Global;
use std::test::Fail;

/// The seed and the count of a load, and the length of its text.
const SEED: u64 = 7;

const COUNT: u32 = 3;

const LEN: usize = 379;

/// What the first write to a sink is, the sink's room, the writes of it that fail, from 1, and whether the load, which
/// is the second write, is taken.
struct Row {
    before: &'static [u8],
    room: usize,
    failing: &'static [u64],
    taken: bool,
}

const ROWS: &[Row] = &[
    // room for all
    Row {
        before: b"",
        room: LEN,
        failing: &[],
        taken: true,
    },
    // room for all, behind what stands there
    Row {
        before: b"# load\n",
        room: LEN + 7,
        failing: &[],
        taken: true,
    },
    // room for all but the last newline
    Row {
        before: b"",
        room: LEN - 1,
        failing: &[],
        taken: false,
    },
    // room for all, and a write that fails
    Row {
        before: b"",
        room: LEN,
        failing: &[2],
        taken: false,
    },
    // a failing write before, and then none
    Row {
        before: b"# load\n",
        room: LEN,
        failing: &[1],
        taken: true,
    },
    // no room
    Row {
        before: b"",
        room: 0,
        failing: &[],
        taken: false,
    },
];

/// What a sink should have taken: what was written before a load, as far as it was taken, and some of the text from its
/// front.
fn is_front(taken: &[u8], before: &[u8], text: &[u8]) -> bool {
    match taken.strip_prefix(before) {
        Some(front) => text.starts_with(front),
        None => false,
    }
}

/// Whether a sink takes the load as it should.
fn agrees(alloc: Global, row: &Row) -> Result<bool, Fail> {
    let text = schedule_of(alloc, SEED, COUNT)?;
    let mut sink = MemSink::new(alloc, row.room, Vec::from_slice(alloc, row.failing)?)?;
    let before = match sink.write(row.before) {
        Ok(()) => row.before,
        Err(_) => b"".as_slice(),
    };
    let given = make_lines(alloc, SEED, COUNT, &mut sink);
    let told = match given {
        Ok(()) => row.taken && sink.bytes().len() == before.len() + text.len(),
        Err(MakeFault::WriteFault) => !row.taken,
        Err(MakeFault::NoMemory) => false,
    };
    Ok(told && is_front(sink.bytes(), before, &text))
}

#[test]
fn sinks_take_a_load_or_fail(rt: HostRuntime) -> Result<(), Fail> {
    for row in ROWS {
        assert!(rt; agrees(rt.alloc(), row)?, "room {}", row.room);
    }
    Ok(())
}

/// A sink that only counts takes all bytes.
#[test]
fn a_sure_sink_takes_a_load(rt: HostRuntime) -> Result<(), Fail> {
    let mut sink = SureSink::new();
    assert!(rt; make_lines(rt.alloc(), SEED, COUNT, &mut sink).is_ok());
    Ok(())
}
