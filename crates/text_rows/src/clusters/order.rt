//! Files with more than one fault: the first reason counts.

use crate::clusters::support::{Row, SMALL, is_answered};
use std::test::Fail;

const MANY_FAULTS: &[Row] = &[
    // no object of this form, and no cluster
    (r#""f": 0"#, r#""f": 7, "g": 0"#, Some(2)),
    (
        r#""f": 0, "shards": 1"#,
        r#""f": 7, "shards": 1.0"#,
        Some(2),
    ),
    (r#""reads": 1"#, r#""reads": 9, "reads": 9"#, Some(2)),
    // no object of this form, and a number out of range, or a bad key
    (
        r#""delta": 1000"#,
        r#""delta": 18446744073709551616, "x": 1"#,
        Some(2),
    ),
    (r#"{"shard": 0"#, r#"{"x": 0, "shard": 1"#, Some(2)),
    (
        r#""number": 16, "public": "c2..""#,
        r#""number": 17.0, "public": "X""#,
        Some(2),
    ),
    (r#""a0..""#, r#""X", "x": 0"#, Some(2)),
    // no cluster, and a number out of range, a party missing, or a bad key
    (
        r#""f": 0, "shards": 1, "reads": 1, "delta": 1000"#,
        r#""f": 7, "shards": 1, "reads": 1, "delta": 18446744073709551616"#,
        Some(1),
    ),
    (r#""f": 0"#, r#""f": 6"#, Some(1)),
    (
        r#""f": 0, "shards": 1, "reads": 1"#,
        r#""f": 6, "shards": 8, "reads": 26"#,
        Some(1),
    ),
    // a number out of range or a party missing or twice, and a bad key
    (
        r#""index": 0, "address": "127.0.0.1:7000", "public": "a0..""#,
        r#""index": 1, "address": "127.0.0.1:7000", "public": "A0..""#,
        Some(3),
    ),
    (
        r#""number": 16, "public": "c2..""#,
        r#""number": 17, "public": "C2..""#,
        Some(3),
    ),
    (
        r#""number": 16, "public": "c2..""#,
        r#""number": 1, "public": "C2..""#,
        Some(3),
    ),
    (
        r#""a0.."}
    ],
    "clients": ["#,
        r#""A0.."}
    ],
    "clients": [{"number": 16, "public": "c3.."}, "#,
        Some(3),
    ),
    (
        r#""f": 0, "shards": 1, "reads": 1"#,
        r#""f": 6, "shards": 8, "reads": 25"#,
        Some(3),
    ),
];

#[test]
fn the_first_reason_counts(rt: HostRuntime) -> Result<(), Fail> {
    for &row in MANY_FAULTS {
        assert!(rt; is_answered(rt.alloc(), SMALL, row)?, "with {}", row.1);
    }
    Ok(())
}
