//! Lines of each kind, the long ones and the numbers behind the last.

use crate::lines::{spells, told};
use schedule_text::line::Line;
use std::test::Fail;

/// Lines that are read, each the one spelling of its value.
const TAKEN: &[&str] = &[
    // Headers: of the smallest cluster, of the largest with a journal, and with keys of batches.
    "basil 1 f=0 shards=1 reads=1 delta=100 clock=50 keys=plain",
    "basil 1 f=6 shards=8 reads=25 delta=18446744073709551615 clock=0 keys=w8h10 journal",
    "basil 1 f=4 shards=2 reads=5 delta=0 clock=1 keys=batch",
    // An empty line is skipped.
    "",
    // The last replica and the last client that a cluster may have.
    "faulty replica 7 30",
    "faulty client 16",
    // A time of 0, and the greatest time with a name of 16 characters.
    "begin a 1 0",
    "begin t234567890123456 16 18446744073709551615",
    // The key is a zero byte.
    "read t1 %00",
    // The value is empty.
    "write t1 a %",
    // The key is `a:b`; the value is `%`, a space and the byte ff, each spelled with hex digits.
    "write t1 a%3ab %25%20%ff",
    // The key is the first and the last byte that stand for themselves.
    "write t1 !~ x1",
    // A deletion.
    "delete t1 a",
    // Claims of a read of genesis and of the version of t2.
    "claim t1 a -",
    "claim t1 a t2",
    // A transaction is formed, settled, taken up, and has an election.
    "prepare t1",
    "settle t1 1",
    "recover t1 16",
    "invoke t1 2",
    // A round.
    "round",
    // Messages are delivered, lost, and diverted to a client and to a replica.
    "deliver 0",
    "lose 18446744073709551615",
    "divert 1 client 2",
    "divert 1 replica 0 5",
    // A replica's moment is 0.
    "clock 0 0 0",
    // A vote, a second stage, a log reply, an election word and a decide frame.
    "vote 7 30 t1 commit 1",
    "second t1 abort 30",
    "logged 0 0 t1 commit 5 5 1",
    "elect 0 0 t1 abort 1",
    "decide 0 0 t1 commit 18446744073709551615 30",
    // A frame of a zero byte, and one of eight bytes with every hex digit.
    "raw client 1 replica 0 0 00",
    "raw replica 7 30 client 16 0123456789abcdef",
    // A frame of the byte ff is shown.
    "show ff",
    // A journal is cut off in its second write; the byte 4d is M.
    "stop 0 0 1 2 4d",
];

/// Lines that are refused, with their reasons.
const REFUSED: &[(&str, u8)] = &[
    // The cluster is refused: f is above 6, shards above 8, and reads above 5 for f = 1 (reason 1).
    ("basil 1 f=7 shards=1 reads=8 delta=0 clock=0 keys=plain", 1),
    ("basil 1 f=0 shards=9 reads=1 delta=0 clock=0 keys=plain", 1),
    ("basil 1 f=1 shards=1 reads=6 delta=0 clock=0 keys=plain", 1),
    // f has a leading zero (reason 3).
    (
        "basil 1 f=01 shards=1 reads=2 delta=0 clock=0 keys=plain",
        3,
    ),
    // The second token isn't `1` (reason 2).
    ("basil 2 f=0 shards=1 reads=1 delta=0 clock=0 keys=plain", 2),
    // No set of LMS has this name (reason 2).
    ("basil 1 f=0 shards=1 reads=1 delta=0 clock=0 keys=w4h4", 2),
    // `journal` stands before the keys (reason 2).
    (
        "basil 1 f=0 shards=1 reads=1 delta=0 clock=0 journal keys=plain",
        2,
    ),
    // A capital letter (reason 2).
    ("Round", 2),
    // A space behind the last token (reason 2).
    ("round ", 2),
    // A token too many (reason 2).
    ("round 1", 2),
    // A space before the first token (reason 2).
    (" round", 2),
    // A token too few, and one too many (reason 2).
    ("begin t1 1", 2),
    ("begin t1 1 2 3", 2),
    // Two spaces, and a tab, stand where one space parts tokens (reason 2).
    ("begin  t1 1 2", 2),
    ("begin\tt1 1 2", 2),
    // Names that have a capital letter, begin with a digit, or have 17 characters (reason 2).
    ("begin T1 1 2", 2),
    ("begin 1t 1 2", 2),
    ("begin t2345678901234567 1 2", 2),
    // A number has no sign (reason 2).
    ("begin t1 +1 2", 2),
    // A number has no leading zero (reason 3).
    ("begin t1 01 2", 3),
    // A client is 1 to 16, and here 0 and 17 (reason 3).
    ("begin t1 0 2", 3),
    ("begin t1 17 2", 3),
    // A time is 2^64 (reason 3).
    ("begin t1 1 18446744073709551616", 3),
    // A misspelt name is told before a leading zero (reason 2).
    ("begin T1 01 2", 2),
    // A key has a byte at least, so `%` alone is misspelt (reason 2).
    ("read t1 %", 2),
    // `%61` is the letter a, which stands for itself (reason 2).
    ("read t1 %61", 2),
    // Hex digits are lower-case (reason 2).
    ("read t1 %3A", 2),
    // A colon is `%3a` (reason 2).
    ("read t1 a:b", 2),
    // Behind `%` stands one digit and not two (reason 2).
    ("read t1 %0", 2),
    // A key of 65 bytes (reason 8).
    (
        "write zz 12345678901234567890123456789012345678901234567890123456789012345 v",
        8,
    ),
    // A value that is misspelt, as a colon, is told before a key of 65 bytes (reason 2).
    (
        "write zz 12345678901234567890123456789012345678901234567890123456789012345 :",
        2,
    ),
    // No cluster has a replica 31 or a shard 8 (reason 3).
    ("faulty replica 0 31", 3),
    ("faulty replica 8 0", 3),
    // The view of an election isn't 0 (reason 3).
    ("elect 0 0 t1 commit 0", 3),
    // The current view is below the decided one (reason 3).
    ("logged 0 0 t1 commit 5 4 1", 3),
    // A decision that is neither is told before such views (reason 2).
    ("logged 0 0 t1 maybe 5 4 1", 2),
    // A byte has two digits (reason 2).
    ("show 0", 2),
    // Hex digits are lower-case (reason 2).
    ("show 0A", 2),
    // A write is 1 or 2, and here 3 (reason 3).
    ("stop 0 0 1 3 4d", 3),
    // The bytes are missing behind a space (reason 2).
    ("stop 0 0 1 2 ", 2),
];

#[test]
fn reads_and_writes(rt: HostRuntime) {
    for text in TAKEN {
        assert!(rt;
            told(rt.alloc(), text.as_bytes(), 1_000_000) == Ok(true),
            "{text}"
        );
    }
    assert!(rt; spells(rt.alloc(), &Line::Skipped, b""));
}

#[test]
fn refuses(rt: HostRuntime) {
    for &(text, reason) in REFUSED {
        assert!(rt;
            told(rt.alloc(), text.as_bytes(), 2) == Err(reason),
            "{text}"
        );
    }
}

/// Lines, their number, and what comes of them.
const COUNTED: &[(&[u8], u64, Result<bool, u8>)] = &[
    // The millionth line is read. A skipped line may hold any bytes.
    (b"#\xff\t anything", 1_000_000, Ok(true)),
    // A line behind the millionth is refused, a skipped one too (reason 8).
    (b"#", 1_000_001, Err(8)),
    (b"", 1_000_001, Err(8)),
    // A misspelt token is told before that (reason 2).
    (b"Round", 1_000_001, Err(2)),
];

#[test]
fn skips_and_counts(rt: HostRuntime) {
    for &(line, number, told_so) in COUNTED {
        assert!(rt; told(rt.alloc(), line, number) == told_so, "{line:?}");
    }
}

#[test]
fn the_longest_line_is_skipped(rt: HostRuntime) -> Result<(), Fail> {
    let mut long = vec![in rt.alloc(); b'#'; 2_200_000]?;
    assert!(rt; told(rt.alloc(), &long, 1) == Ok(true));
    long.push(b'#')?;
    assert!(rt; told(rt.alloc(), &long, 1) == Err(8));
    Ok(())
}
