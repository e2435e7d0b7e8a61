//! Schedules that break a premise, sources that fail in mid-schedule, and what is read of a refused one.

use crate::support::{HEADER, is_answer, replay, run_arguments};
use basil_cli::status::Status;
use basil_types::memory::NoMemory;
use line_fields::reason::Reason;
use std::alloc::Global;
use std::test::Fail;

/// A plain signature is made by anybody who knows the rule: here one of the correct replica 3 of shard 0, on an abort vote
/// that it never made (its digest by sha256sum).
const FORGED: &[u8] = b"\
    basil 1 f=1 shards=1 reads=2 delta=100 clock=50 keys=plain\n\
    begin t1 1 10\n\
    raw replica 0 3 client 1 \
    0400035d3ac7942bf5c0285bfdc742a2811231779bf3a7aeef8be8e03791f32248aa1d01000020\
    907baca45acab97605087827b59e1fcb73cf27e0b8f78e76e2b3ff329fb02bdc\n\
    nonsense\n";

const FORGED_TEXT: &[u8] = b"\
    broken forged replica 0 3 \
    0200035d3ac7942bf5c0285bfdc742a2811231779bf3a7aeef8be8e03791f32248aa1d01 \
    907baca45acab97605087827b59e1fcb73cf27e0b8f78e76e2b3ff329fb02bdc\n";

/// The forged vote ends the run, and the line behind it isn't looked at.
#[test]
fn a_forged_vote_is_shown(rt: HostRuntime) -> Result<(), Fail> {
    let given = replay(rt.alloc(), FORGED)?;
    assert!(rt; is_answer(&given, Status::Broken, FORGED_TEXT));
    Ok(())
}

/// A failing write leaves some of that text.
#[test]
fn a_breach_may_not_be_written(rt: HostRuntime) -> Result<(), Fail> {
    let given = run_arguments(rt.alloc(), &["replay"], FORGED, &[], &[1])?;
    assert!(rt; is_answer(&given, Status::WriteFault, b""));
    Ok(())
}

/// A header, and so many rounds.
fn rounds(alloc: Global, front: &[u8], count: u32) -> Result<Vec<u8>, NoMemory> {
    let mut text = Vec::from_slice(alloc, front)?;
    for _ in 0..count {
        text.extend_from_slice(b"round\n")?;
    }
    Ok(text)
}

/// A million lines, of which all but the header are rounds over an empty pool, are soon done.
#[test]
fn a_million_rounds(rt: HostRuntime) -> Result<(), Fail> {
    let text = rounds(rt.alloc(), HEADER, 999_999)?;
    let given = replay(rt.alloc(), &text)?;
    assert!(rt; is_answer(&given, Status::Done, b"end 0\n"));
    Ok(())
}

/// Refused at its second line.
const NO_MESSAGE: &[u8] = b"\
    basil 1 f=0 shards=1 reads=1 delta=100 clock=50 keys=plain\n\
    deliver 1\n";

/// A commit, once rounds follow.
const ONE_WRITE: &[u8] = b"\
    basil 1 f=0 shards=1 reads=1 delta=100 clock=50 keys=plain\n\
    begin t1 1 10\n\
    write t1 a x1\n\
    prepare t1\n";

/// What a row shows, the front of a schedule, how many rounds follow, the read of 1,000 bytes that fails, how the replay
/// ends, and what it writes.
type Read = (&'static str, &'static [u8], u32, u64, Status, &'static [u8]);

const READS: &[Read] = &[
    (
        "a line that is refused in the first piece is told, since no second one is asked for",
        NO_MESSAGE,
        2000,
        2,
        Status::BadInput {
            line: 2,
            reason: Reason::NoMessage,
        },
        b"line 2 reason 7\n",
    ),
    (
        "the first of four pieces fails",
        ONE_WRITE,
        600,
        1,
        Status::ReadFault,
        b"read fault\n",
    ),
    (
        "the second piece fails",
        ONE_WRITE,
        600,
        2,
        Status::ReadFault,
        b"read fault\n",
    ),
    (
        "the third piece fails",
        ONE_WRITE,
        600,
        3,
        Status::ReadFault,
        b"read fault\n",
    ),
    (
        "the last piece fails",
        ONE_WRITE,
        600,
        4,
        Status::ReadFault,
        b"read fault\n",
    ),
    (
        "no piece fails, and no read is numbered 0",
        ONE_WRITE,
        600,
        0,
        Status::Done,
        b"tx t1 commit\nkey a x1\nend 3\n",
    ),
];

/// Whether a replay ends as it is told.
fn ends_so(alloc: Global, row: &Read) -> Result<bool, NoMemory> {
    let (_shows, front, count, failing, status, text) = *row;
    let schedule = rounds(alloc, front, count)?;
    let given = run_arguments(alloc, &["replay"], &schedule, &[failing], &[])?;
    Ok(is_answer(&given, status, text))
}

#[test]
fn a_read_that_fails_in_mid_schedule(rt: HostRuntime) -> Result<(), Fail> {
    for row in READS {
        assert!(rt; ends_so(rt.alloc(), row)?, "{}", row.0);
    }
    Ok(())
}
