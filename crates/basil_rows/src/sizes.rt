//! The limits on lines and on their number, and on frames in them.

use crate::support::{HEADER, is_answer, joined, replay, run_arguments};
use basil_cli::status::Status;
use basil_types::memory::NoMemory;
use line_fields::reason::Reason;
use std::alloc::{AllocError, Global};
use std::process::Abort;
use std::test::Fail;

/// A front, and then so many of one byte.
fn followed(alloc: Global, front: &[u8], byte: u8, count: u32) -> Result<Vec<u8>, AllocError> {
    let mut bytes = Vec::from_slice(alloc, front)?;
    for _ in 0..count {
        bytes.push(byte)?;
    }
    Ok(bytes)
}

/// A schedule of so many transactions of sixteen clients in turn. Each of them writes an empty value to a key of each of
/// eight shards, and so sends 248 first stages: one to each of the 31 replicas of each shard.
fn crowd(alloc: Global, count: u32) -> Result<String, NoMemory> {
    let mut text = String::from_str(
        alloc,
        "basil 1 f=6 shards=8 reads=7 delta=100 clock=50 keys=plain\n",
    )?;
    for number in 0..count {
        let (client, time) = (number % 16 + 1, number + 1);
        text.push_str(&format!(in alloc; "begin t{number} {client} {time}\n")?)?;
        for key in "abcdefgh".chars() {
            text.push_str(&format!(in alloc; "write t{number} {key} %\n")?)?;
        }
        text.push_str(&format!(in alloc; "prepare t{number}\n")?)?;
    }
    Ok(text)
}

/// Whether a schedule's replay ends so.
fn ends_so(alloc: Global, schedule: &[u8], status: Status, text: &[u8]) -> Result<bool, NoMemory> {
    let given = replay(alloc, schedule)?;
    Ok(is_answer(&given, status, text))
}

#[test]
fn a_million_lines_and_one_more(rt: HostRuntime) -> Result<(), Fail> {
    let mut schedule = followed(rt.alloc(), HEADER, b'\n', 999_999)?;
    assert!(rt; ends_so(rt.alloc(), &schedule, Status::Done, b"end 0\n")?);
    let refused = Status::BadInput {
        line: 1_000_001,
        reason: Reason::OutOfSize,
    };
    for _ in 0..2 {
        schedule.push(b'\n')?;
        assert!(rt; ends_so(rt.alloc(), &schedule, refused, b"line 1000001 reason 8\n")?);
    }
    Ok(())
}

/// The pool takes a million messages. 4,032 transactions send 999,936 of them, of 79 bytes each, and the next one 248
/// more.
#[test]
fn one_transaction_more_than_a_pool_takes(rt: HostRuntime) -> Result<(), Fail> {
    let schedule = crowd(rt.alloc(), 4_033)?;
    let (messages, bytes) = (999_936, 78_994_944);
    let full = Status::Full { messages, bytes };
    assert!(rt;
        ends_so(
            rt.alloc(),
            schedule.as_bytes(),
            full,
            b"full 999936 78994944\n"
        )?
    );
    Ok(())
}

/// What a row shows, a front, how many zeros follow, how the replay ends, and what it writes.
type Long = (&'static str, &'static [u8], u32, Status, &'static [u8]);

const LONG: &[Long] = &[
    (
        "a comment of 2,200,000 bytes is skipped",
        b"basil 1 f=0 shards=1 reads=1 delta=100 clock=50 keys=plain\n#",
        2_199_999,
        Status::Done,
        b"end 0\n",
    ),
    (
        "one of a byte more is refused",
        b"basil 1 f=0 shards=1 reads=1 delta=100 clock=50 keys=plain\n#",
        2_200_000,
        Status::BadInput {
            line: 2,
            reason: Reason::OutOfSize,
        },
        b"line 2 reason 8\n",
    ),
    (
        "so it is before the header",
        b"#",
        2_200_000,
        Status::BadInput {
            line: 1,
            reason: Reason::OutOfSize,
        },
        b"line 1 reason 8\n",
    ),
    (
        "in the header's place another line of that length has reason 1",
        b"basil",
        2_200_000,
        Status::BadInput {
            line: 1,
            reason: Reason::NoHeader,
        },
        b"line 1 reason 1\n",
    ),
];

/// Lines behind a header, with a frame in hex. A frame has at most 1,048,576 bytes, which are 2,097,152 digits.
const FRAMES: &[Long] = &[
    (
        "the longest frame enters the pool",
        b"raw client 1 client 2 ",
        2_097_152,
        Status::Done,
        b"end 1\n",
    ),
    (
        "one of a byte more is refused",
        b"raw client 1 client 2 ",
        2_097_154,
        Status::BadInput {
            line: 2,
            reason: Reason::OutOfSize,
        },
        b"line 2 reason 8\n",
    ),
    (
        "client 17, who nobody is, comes first",
        b"raw client 1 client 17 ",
        2_097_154,
        Status::BadInput {
            line: 2,
            reason: Reason::OutOfRange,
        },
        b"line 2 reason 3\n",
    ),
    (
        "an odd number of digits comes first",
        b"raw client 1 client 2 ",
        2_097_153,
        Status::BadInput {
            line: 2,
            reason: Reason::Misspelt,
        },
        b"line 2 reason 2\n",
    ),
    (
        "the longest frame is shown",
        b"show ",
        2_097_152,
        Status::Done,
        b"end 0\n",
    ),
    (
        "one of a byte more is refused there too",
        b"show ",
        2_097_154,
        Status::BadInput {
            line: 2,
            reason: Reason::OutOfSize,
        },
        b"line 2 reason 8\n",
    ),
    (
        "what is left of a journal's write has no such limit, so that the message is missed first",
        b"stop 0 0 1 1 ",
        2_097_154,
        Status::BadInput {
            line: 2,
            reason: Reason::NoMessage,
        },
        b"line 2 reason 7\n",
    ),
];

/// Whether the replay of a header and a long line ends as it is told.
fn long_ends_so(alloc: Global, header: &'static [u8], row: &Long) -> Result<bool, NoMemory> {
    let (_shows, front, count, status, text) = *row;
    let before = joined(alloc, &[header, front])?;
    let schedule = followed(alloc, &before, b'0', count)?;
    ends_so(alloc, &schedule, status, text)
}

/// So it is of each row.
fn long_ones_end_so(
    rt: &impl Abort,
    alloc: Global,
    header: &'static [u8],
    rows: &[Long],
) -> Result<(), Fail> {
    for row in rows {
        assert!(rt; long_ends_so(alloc, header, row)?, "{}", row.0);
    }
    Ok(())
}

#[test]
fn a_line_above_the_limit(rt: HostRuntime) -> Result<(), Fail> {
    long_ones_end_so(&rt, rt.alloc(), b"", LONG)
}

#[test]
fn a_frame_above_the_limit(rt: HostRuntime) -> Result<(), Fail> {
    long_ones_end_so(&rt, rt.alloc(), HEADER, FRAMES)
}

/// Reads of 1,000 bytes each, the last of which is needed.
const NEEDED: u64 = 2_201;

/// How the replay of a line far above the limit ends, where one of the reads fails.
fn ended_by(alloc: Global, failing: u64) -> Result<Status, NoMemory> {
    let schedule = followed(alloc, HEADER, b'x', 2_300_000)?;
    let given = run_arguments(alloc, &["replay"], &schedule, &[failing], &[])?;
    Ok(given.status)
}

#[test]
fn a_line_past_its_length_is_read_no_further(rt: HostRuntime) -> Result<(), Fail> {
    assert!(rt;
        ended_by(rt.alloc(), NEEDED + 1)?
            == Status::BadInput {
                line: 2,
                reason: Reason::OutOfSize
            }
    );
    assert!(rt; ended_by(rt.alloc(), NEEDED)? == Status::ReadFault);
    Ok(())
}
