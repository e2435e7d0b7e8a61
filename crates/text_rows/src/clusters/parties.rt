//! Parties that are missing or stand twice.

use crate::clusters::support::{Row, SMALL, WIDE, is_answered};
use std::test::Fail;

const OF_SMALL: &[Row] = &[
    // no replica, or it stands twice
    (
        r#"{"shard": 0, "index": 0, "address": "127.0.0.1:7000", "public": "a0.."}"#,
        "",
        Some(3),
    ),
    (
        r#""replicas": ["#,
        r#""replicas": [{"shard": 0, "index": 0, "address": "x", "public": "a1.."}, "#,
        Some(3),
    ),
    // a second shard without replicas, and with them
    (r#""shards": 1"#, r#""shards": 2"#, Some(3)),
    (
        r#""shards": 1, "reads": 1, "delta": 1000, "set": "w4h5",
    "replicas": ["#,
        r#""shards": 2, "reads": 1, "delta": 1000, "set": "w4h5",
    "replicas": [{"shard": 1, "index": 0, "address": "x", "public": "a1.."}, "#,
        None,
    ),
    // a client more, a client twice, and fewer
    (
        r#""clients": ["#,
        r#""clients": [{"number": 2, "public": "c3.."}, "#,
        None,
    ),
    (
        r#""clients": ["#,
        r#""clients": [{"number": 1, "public": "c1.."}, "#,
        Some(3),
    ),
    (r#""number": 16"#, r#""number": 1"#, Some(3)),
    (
        r#"{"number": 1, "public": "c1.."},
        {"number": 16, "public": "c2.."}"#,
        "",
        None,
    ),
];

#[test]
fn each_replica_of_one_stands_there_once(rt: HostRuntime) -> Result<(), Fail> {
    for &row in OF_SMALL {
        assert!(rt; is_answered(rt.alloc(), SMALL, row)?, "with {}", row.1);
    }
    Ok(())
}

const OF_WIDE: &[Row] = &[
    // five replicas
    (
        r#"{"shard": 0, "index": 3, "address": "host-3:7003", "public": "a3.."},"#,
        "",
        Some(3),
    ),
    (
        r#",
        {"shard": 0, "index": 2, "address": "host-2:7002", "public": "a2.."}"#,
        "",
        Some(3),
    ),
    // six of which two are one party
    (r#""index": 3"#, r#""index": 2"#, Some(3)),
    (r#""index": 5"#, r#""index": 4"#, Some(3)),
    (r#""index": 0"#, r#""index": 6"#, Some(3)),
    // seven
    (
        r#""replicas": ["#,
        r#""replicas": [{"shard": 0, "index": 4, "address": "x", "public": "a4.."},"#,
        Some(3),
    ),
    (r#""number": 9"#, r#""number": 2"#, Some(3)),
    (r#""number": 9"#, r#""number": 3"#, None),
];

#[test]
fn each_replica_of_six_stands_there_once(rt: HostRuntime) -> Result<(), Fail> {
    for &row in OF_WIDE {
        assert!(rt; is_answered(rt.alloc(), WIDE, row)?, "with {}", row.1);
    }
    Ok(())
}
