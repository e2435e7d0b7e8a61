//! Numbers that aren't whole, and whole ones that are out of range.

use crate::clusters::support::{Row, SMALL, WIDE, is_answered};
use std::test::Fail;

/// A sign, a point or an exponent makes another number, also where its value is whole.
const NOT_WHOLE: &[Row] = &[
    // f: a sign, also before 0, a point and an exponent.
    (r#""f": 0"#, r#""f": -1"#, Some(2)),
    (r#""f": 0"#, r#""f": -0"#, Some(2)),
    (r#""f": 0"#, r#""f": 0.0"#, Some(2)),
    (r#""f": 0"#, r#""f": 0e0"#, Some(2)),
    // shards: the same, and the sign +, with which the text isn't even JSON.
    (r#""shards": 1"#, r#""shards": -1"#, Some(2)),
    (r#""shards": 1"#, r#""shards": 1.0"#, Some(2)),
    (r#""shards": 1"#, r#""shards": 1e0"#, Some(2)),
    (r#""shards": 1"#, r#""shards": +1"#, Some(2)),
    // reads: the same, with a capital E in the exponent.
    (r#""reads": 1"#, r#""reads": -1"#, Some(2)),
    (r#""reads": 1"#, r#""reads": 1.0"#, Some(2)),
    (r#""reads": 1"#, r#""reads": 1E0"#, Some(2)),
    // delta: the same; 1e3 is 1000.
    (r#""delta": 1000"#, r#""delta": -1"#, Some(2)),
    (r#""delta": 1000"#, r#""delta": 1000.0"#, Some(2)),
    (r#""delta": 1000"#, r#""delta": 1e3"#, Some(2)),
    // shard of a replica.
    (r#""shard": 0"#, r#""shard": -1"#, Some(2)),
    (r#""shard": 0"#, r#""shard": 0.0"#, Some(2)),
    (r#""shard": 0"#, r#""shard": 0e0"#, Some(2)),
    // index of a replica, also with a value between two whole ones.
    (r#""index": 0"#, r#""index": -1"#, Some(2)),
    (r#""index": 0"#, r#""index": 0.5"#, Some(2)),
    (r#""index": 0"#, r#""index": 0e5"#, Some(2)),
    // number of a client.
    (r#""number": 1"#, r#""number": -1"#, Some(2)),
    (r#""number": 1"#, r#""number": 1.0"#, Some(2)),
    (r#""number": 1"#, r#""number": 1e0"#, Some(2)),
];

#[test]
fn numbers_are_whole(rt: HostRuntime) -> Result<(), Fail> {
    for &row in NOT_WHOLE {
        assert!(rt; is_answered(rt.alloc(), SMALL, row)?, "with {}", row.1);
    }
    Ok(())
}

/// `f`, `shards` and `reads` of no cluster, however long they are: f is 0 to 6, shards 1 to 8, reads f + 1 to 4f + 1.
const NO_CLUSTER: &[Row] = &[
    // With f = 1 the file's reads, 1, is below f + 1.
    (r#""f": 0"#, r#""f": 1"#, Some(1)),
    // f is above 6: the next number, two whose last byte is 0, and one of 30 digits.
    (r#""f": 0"#, r#""f": 7"#, Some(1)),
    (r#""f": 0"#, r#""f": 256"#, Some(1)),
    (r#""f": 0"#, r#""f": 18446744073709551616"#, Some(1)),
    (
        r#""f": 0"#,
        r#""f": 100000000000000000000000000000"#,
        Some(1),
    ),
    // shards is below 1 and above 8, also where the last byte is 1, and with 30 digits.
    (r#""shards": 1"#, r#""shards": 0"#, Some(1)),
    (r#""shards": 1"#, r#""shards": 9"#, Some(1)),
    (r#""shards": 1"#, r#""shards": 257"#, Some(1)),
    (
        r#""shards": 1"#,
        r#""shards": 100000000000000000000000000001"#,
        Some(1),
    ),
    // With f = 0 reads is 1, and not 0 or 2, nor 257, whose last byte is 1, nor a number of 30 digits.
    (r#""reads": 1"#, r#""reads": 0"#, Some(1)),
    (r#""reads": 1"#, r#""reads": 2"#, Some(1)),
    (r#""reads": 1"#, r#""reads": 257"#, Some(1)),
    (
        r#""reads": 1"#,
        r#""reads": 100000000000000000000000000001"#,
        Some(1),
    ),
];

#[test]
fn the_cluster_is_in_range(rt: HostRuntime) -> Result<(), Fail> {
    for &row in NO_CLUSTER {
        assert!(rt; is_answered(rt.alloc(), SMALL, row)?, "with {}", row.1);
    }
    Ok(())
}

/// The same with f = 1, where reads is 2 to 5.
const READS: &[Row] = &[
    // Below f + 1.
    (r#""reads": 5"#, r#""reads": 1"#, Some(1)),
    // f + 1 itself is taken.
    (r#""reads": 5"#, r#""reads": 2"#, None),
    // Above 4f + 1.
    (r#""reads": 5"#, r#""reads": 6"#, Some(1)),
    // With f = 2 reads is 3 to 9, so the file's 5 may stay, but five replicas are missing (reason 3).
    (r#""f": 1"#, r#""f": 2"#, Some(3)),
];

#[test]
fn reads_go_with_f(rt: HostRuntime) -> Result<(), Fail> {
    for &row in READS {
        assert!(rt; is_answered(rt.alloc(), WIDE, row)?, "with {}", row.1);
    }
    Ok(())
}

/// `delta` is below 2^64, `shard` below `shards`, `index` below 5f + 1, `number` 1 to 16.
const OTHERS: &[Row] = &[
    // The least delta, and the greatest.
    (r#""delta": 1000"#, r#""delta": 0"#, None),
    (r#""delta": 1000"#, r#""delta": 18446744073709551615"#, None),
    // delta is 2^64, and a number of 30 digits (reason 3).
    (
        r#""delta": 1000"#,
        r#""delta": 18446744073709551616"#,
        Some(3),
    ),
    (
        r#""delta": 1000"#,
        r#""delta": 100000000000000000000000000000"#,
        Some(3),
    ),
    // The only shard is 0: there is none of the next number, nor of two whose last byte is 0 (reason 3).
    (r#""shard": 0"#, r#""shard": 1"#, Some(3)),
    (r#""shard": 0"#, r#""shard": 256"#, Some(3)),
    (r#""shard": 0"#, r#""shard": 18446744073709551616"#, Some(3)),
    // With f = 0 the only index is 0: there is none of the next number, nor of 256, nor of 30 digits (reason 3).
    (r#""index": 0"#, r#""index": 1"#, Some(3)),
    (r#""index": 0"#, r#""index": 256"#, Some(3)),
    (
        r#""index": 0"#,
        r#""index": 100000000000000000000000000000"#,
        Some(3),
    ),
    // No client has the number 0 (reason 3).
    (r#""number": 1"#, r#""number": 0"#, Some(3)),
    // Client 2 may take the place of client 1.
    (r#""number": 1"#, r#""number": 2"#, None),
    // A client's number is above 16: the next one, one whose last byte is 2, and one of 30 digits (reason 3).
    (r#""number": 16"#, r#""number": 17"#, Some(3)),
    (r#""number": 16"#, r#""number": 258"#, Some(3)),
    (
        r#""number": 16"#,
        r#""number": 100000000000000000000000000002"#,
        Some(3),
    ),
];

#[test]
fn the_other_numbers_are_in_range(rt: HostRuntime) -> Result<(), Fail> {
    for &row in OTHERS {
        assert!(rt; is_answered(rt.alloc(), SMALL, row)?, "with {}", row.1);
    }
    Ok(())
}
