//! Clocks, rounds, notes, and tokens that are none.

use crate::lines::{Row, are_told};

const ROWS: &[Row] = &[
    // Skipped lines: the empty one, and those that begin with `#`, whatever comes behind it.
    (b"", 0),
    (b"#", 0),
    (b"# anything at all: %% \x09", 0),
    // A round.
    (b"round", 0),
    // Clocks with the greatest numbers, and with the least.
    (b"clock 7 30 18446744073709551615", 0),
    (b"clock 0 0 0", 0),
    // A line that begins with a space isn't skipped (reason 2).
    (b" ", 2),
    (b" #", 2),
    // First tokens that no line has: a letter, and `round` in capital letters (reason 2).
    (b"x", 2),
    (b"ROUND", 2),
    // A space stands behind the last token, or before the first (reason 2).
    (b"round ", 2),
    (b" round", 2),
    (b"round  ", 2),
    // A token too many (reason 2).
    (b"round 1", 2),
    // No cluster has a shard 8 (reason 3).
    (b"clock 8 0 0", 3),
    // No cluster has a replica 31 (reason 3).
    (b"clock 0 31 0", 3),
    // A moment is 2^64 (reason 3).
    (b"clock 0 0 18446744073709551616", 3),
];

#[test]
fn each_line_is_read_or_refused(rt: HostRuntime) {
    are_told(&rt, rt.alloc(), ROWS);
}
