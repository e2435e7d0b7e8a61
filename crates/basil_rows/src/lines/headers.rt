//! Headers.

use crate::lines::{Row, are_told};

const ROWS: &[Row] = &[
    // One replica in one shard.
    (
        b"basil 1 f=0 shards=1 reads=1 delta=100 clock=50 keys=plain",
        0,
    ),
    // The least delta and clock, and the token `journal` at the end.
    (
        b"basil 1 f=0 shards=1 reads=1 delta=0 clock=0 keys=plain journal",
        0,
    ),
    // The greatest numbers, keys of batches, and a journal.
    (
        b"basil 1 f=6 shards=8 reads=25 delta=18446744073709551615 clock=18446744073709551615 keys=batch journal",
        0,
    ),
    // Each set of LMS. reads is f + 1 in the first two rows, and 4f + 1 in the others.
    (b"basil 1 f=6 shards=8 reads=7 delta=0 clock=0 keys=w4h5", 0),
    (
        b"basil 1 f=1 shards=2 reads=2 delta=1 clock=1 keys=w4h10",
        0,
    ),
    (b"basil 1 f=1 shards=2 reads=5 delta=1 clock=1 keys=w8h5", 0),
    (
        b"basil 1 f=1 shards=2 reads=5 delta=1 clock=1 keys=w8h10",
        0,
    ),
    // f is above 6: the next number, the first that takes two bytes, and the greatest of all (reason 1).
    (
        b"basil 1 f=7 shards=1 reads=8 delta=0 clock=0 keys=plain",
        1,
    ),
    (
        b"basil 1 f=256 shards=1 reads=1 delta=0 clock=0 keys=plain",
        1,
    ),
    (
        b"basil 1 f=18446744073709551615 shards=1 reads=1 delta=0 clock=0 keys=plain",
        1,
    ),
    // shards is 1 to 8, and here 0 and 9 (reason 1).
    (
        b"basil 1 f=0 shards=0 reads=1 delta=0 clock=0 keys=plain",
        1,
    ),
    (
        b"basil 1 f=0 shards=9 reads=1 delta=0 clock=0 keys=plain",
        1,
    ),
    // reads is f + 1 to 4f + 1, and here below and above 1 for f = 0, below 2 for f = 1, above 25 for f = 6 (reason 1).
    (
        b"basil 1 f=0 shards=1 reads=0 delta=0 clock=0 keys=plain",
        1,
    ),
    (
        b"basil 1 f=0 shards=1 reads=2 delta=0 clock=0 keys=plain",
        1,
    ),
    (
        b"basil 1 f=1 shards=1 reads=1 delta=0 clock=0 keys=plain",
        1,
    ),
    (
        b"basil 1 f=6 shards=1 reads=26 delta=0 clock=0 keys=plain journal",
        1,
    ),
    // Tokens are missing (reason 2).
    (b"basil", 2),
    (b"basil 1", 2),
    // The second token is `1`, and here `2` and `01` (reason 2).
    (
        b"basil 2 f=0 shards=1 reads=1 delta=0 clock=0 keys=plain",
        2,
    ),
    (
        b"basil 01 f=0 shards=1 reads=1 delta=0 clock=0 keys=plain",
        2,
    ),
    // f has no digit (reason 2).
    (b"basil 1 f= shards=1 reads=1 delta=0 clock=0 keys=plain", 2),
    // `shards=` is misspelt (reason 2).
    (b"basil 1 f=0 shard=1 reads=1 delta=0 clock=0 keys=plain", 2),
    // f and shards have changed places (reason 2).
    (
        b"basil 1 shards=1 f=0 reads=1 delta=0 clock=0 keys=plain",
        2,
    ),
    // No keys are named `Plain`, with a capital letter, or have no name (reason 2).
    (
        b"basil 1 f=0 shards=1 reads=1 delta=0 clock=0 keys=Plain",
        2,
    ),
    (b"basil 1 f=0 shards=1 reads=1 delta=0 clock=0 keys=", 2),
    // `journal` stands before the keys (reason 2).
    (
        b"basil 1 f=0 shards=1 reads=1 delta=0 clock=0 journal keys=plain",
        2,
    ),
    // `journal` stands there twice (reason 2).
    (
        b"basil 1 f=0 shards=1 reads=1 delta=0 clock=0 keys=plain journal journal",
        2,
    ),
    // `journal` has a capital letter (reason 2).
    (
        b"basil 1 f=0 shards=1 reads=1 delta=0 clock=0 keys=plain Journal",
        2,
    ),
    // A name that no keys have is told before the leading zero of f, which alone is reason 3 (reason 2).
    (
        b"basil 1 f=01 shards=1 reads=1 delta=0 clock=0 keys=none",
        2,
    ),
    // It is told before a cluster that is refused, which alone is reason 1 (reason 2).
    (b"basil 1 f=7 shards=1 reads=8 delta=0 clock=0 keys=none", 2),
    // `basil` has a capital letter (reason 2).
    (
        b"Basil 1 f=0 shards=1 reads=1 delta=0 clock=0 keys=plain",
        2,
    ),
    // f has a leading zero (reason 3).
    (
        b"basil 1 f=00 shards=1 reads=1 delta=0 clock=0 keys=plain",
        3,
    ),
    // The leading zero of shards is told before a cluster that is refused, as f = 7 is (reason 3).
    (
        b"basil 1 f=7 shards=01 reads=8 delta=0 clock=0 keys=plain",
        3,
    ),
    // delta is 2^64 (reason 3).
    (
        b"basil 1 f=0 shards=1 reads=1 delta=18446744073709551616 clock=0 keys=plain",
        3,
    ),
    // clock has a leading zero (reason 3).
    (
        b"basil 1 f=0 shards=1 reads=1 delta=0 clock=00 keys=plain",
        3,
    ),
];

#[test]
fn each_line_is_read_or_refused(rt: HostRuntime) {
    are_told(&rt, rt.alloc(), ROWS);
}
