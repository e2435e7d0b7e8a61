//! Members that are missing, unknown, twice or of another type, and texts that are no object.

use crate::clusters::support::{Row, SMALL, is_answered, reason_of};
use std::test::Fail;

const MISSING: &[Row] = &[
    (r#""f": 0, "#, "", Some(2)),
    (r#""shards": 1, "#, "", Some(2)),
    (r#""reads": 1, "#, "", Some(2)),
    (r#""delta": 1000, "#, "", Some(2)),
    (r#", "set": "w4h5""#, "", Some(2)),
    (r#""replicas""#, r#""set""#, Some(2)),
    (r#""clients""#, r#""set""#, Some(2)),
    (r#""shard": 0, "#, "", Some(2)),
    (r#""index": 0, "#, "", Some(2)),
    (r#""address": "127.0.0.1:7000", "#, "", Some(2)),
    (r#", "public": "a0..""#, "", Some(2)),
    (r#""number": 1, "#, "", Some(2)),
    (r#", "public": "c1..""#, "", Some(2)),
];

const TWICE: &[Row] = &[
    (r#""f": 0"#, r#""f": 0, "f": 0"#, Some(2)),
    (r#""f": 0"#, r#""f": 0, "\u0066": 0"#, Some(2)),
    (r#""shards": 1"#, r#""shards": 1, "shards": 1"#, Some(2)),
    (r#""reads": 1"#, r#""reads": 1, "reads": 1"#, Some(2)),
    (
        r#""delta": 1000"#,
        r#""delta": 1000, "delta": 1000"#,
        Some(2),
    ),
    (
        r#""set": "w4h5""#,
        r#""set": "w4h5", "set": "w4h5""#,
        Some(2),
    ),
    (r#""replicas""#, r#""replicas": [], "replicas""#, Some(2)),
    (r#""clients""#, r#""clients": [], "clients""#, Some(2)),
    (r#""shard": 0"#, r#""shard": 0, "shard": 0"#, Some(2)),
    (r#""index": 0"#, r#""index": 0, "index": 0"#, Some(2)),
    (r#""address""#, r#""address": "", "address""#, Some(2)),
    (r#""public""#, r#""public": "", "public""#, Some(2)),
    (r#""number": 1"#, r#""number": 1, "number": 1"#, Some(2)),
    (
        r#""public": "c1..""#,
        r#""public": "c1..", "public": "c1..""#,
        Some(2),
    ),
    // one stands there in another's place
    (r#""reads": 1"#, r#""f": 0"#, Some(2)),
    (r#""index": 0"#, r#""shard": 0"#, Some(2)),
];

const UNKNOWN: &[Row] = &[
    (r#""f": 0"#, r#""f": 0, "g": 0"#, Some(2)),
    (r#""f": 0"#, r#""F": 0"#, Some(2)),
    (r#""index": 0"#, r#""index": 0, "name": "x""#, Some(2)),
    (r#""address""#, r#""Address""#, Some(2)),
    (r#""number": 1"#, r#""number": 1, "address": "x""#, Some(2)),
    (r#""number": 1"#, r#""numbers": 1"#, Some(2)),
];

const TYPES: &[Row] = &[
    (r#""f": 0"#, r#""f": "0""#, Some(2)),
    (r#""f": 0"#, r#""f": null"#, Some(2)),
    (r#""shards": 1"#, r#""shards": true"#, Some(2)),
    (r#""reads": 1"#, r#""reads": [1]"#, Some(2)),
    (r#""delta": 1000"#, r#""delta": {"d": 1000}"#, Some(2)),
    (r#""set": "w4h5""#, r#""set": 4"#, Some(2)),
    (r#""set": "w4h5""#, r#""set": null"#, Some(2)),
    ("w4h5", "w4h6", Some(2)),
    ("w4h5", "W4H5", Some(2)),
    ("w4h5", "", Some(2)),
    (r#""replicas": ["#, r#""replicas": [[], "#, Some(2)),
    (r#""replicas": ["#, r#""replicas": ["r", "#, Some(2)),
    (r#""clients": ["#, r#""clients": [7, "#, Some(2)),
    (r#""clients": ["#, r#""clients": [null, "#, Some(2)),
    (r#""shard": 0"#, r#""shard": "0""#, Some(2)),
    (r#""index": 0"#, r#""index": false"#, Some(2)),
    (r#""127.0.0.1:7000""#, "7000", Some(2)),
    (r#""127.0.0.1:7000""#, "null", Some(2)),
    (r#""a0..""#, "0", Some(2)),
    (r#""a0..""#, r#"["a0.."]"#, Some(2)),
    (r#""number": 1"#, r#""number": "1""#, Some(2)),
    (r#""c1..""#, "null", Some(2)),
];

/// Other ways to write the same file.
const SAME: &[Row] = &[
    ("w4h5", "w4h10", None),
    ("w4h5", "w8h5", None),
    ("w4h5", "w8h10", None),
    (r#""f": 0, "shards": 1"#, r#""shards": 1, "f": 0"#, None),
    (r#""f""#, r#""\u0066""#, None),
    ("{", "\r\n\t {", None),
    (r#""127.0.0.1:7000""#, r#""""#, None),
    (r#""127.0.0.1:7000""#, r#""caf\u00e9:7000""#, None),
];

#[test]
fn no_member_is_missing(rt: HostRuntime) -> Result<(), Fail> {
    for &row in MISSING {
        assert!(rt; is_answered(rt.alloc(), SMALL, row)?, "without {}", row.0);
    }
    Ok(())
}

#[test]
fn no_member_stands_twice(rt: HostRuntime) -> Result<(), Fail> {
    for &row in TWICE {
        assert!(rt; is_answered(rt.alloc(), SMALL, row)?, "with {}", row.1);
    }
    Ok(())
}

#[test]
fn no_member_is_unknown(rt: HostRuntime) -> Result<(), Fail> {
    for &row in UNKNOWN {
        assert!(rt; is_answered(rt.alloc(), SMALL, row)?, "with {}", row.1);
    }
    Ok(())
}

#[test]
fn each_member_has_its_type(rt: HostRuntime) -> Result<(), Fail> {
    for &row in TYPES {
        assert!(rt; is_answered(rt.alloc(), SMALL, row)?, "with {}", row.1);
    }
    Ok(())
}

#[test]
fn space_order_and_escapes_are_free(rt: HostRuntime) -> Result<(), Fail> {
    for &row in SAME {
        assert!(rt; is_answered(rt.alloc(), SMALL, row)?, "with {}", row.1);
    }
    Ok(())
}

/// Bytes that aren't one object.
const OTHER_BYTES: &[&[u8]] = &[
    b"",
    b" ",
    b"{}",
    b"[]",
    b"null",
    b"7",
    b"\"f\"",
    b"{",
    b"{\"f\": 0}}",
    b"{\"f\" 0}",
    b"{'f': 0}",
    b"{\"f\": 0,}",
    b"{\"\xff\": 0}",
    b"\xef\xbb\xbf{}",
];

#[test]
fn other_bytes_are_no_file(rt: HostRuntime) -> Result<(), Fail> {
    for &bytes in OTHER_BYTES {
        assert!(rt; reason_of(rt.alloc(), bytes)? == Some(2));
    }
    Ok(())
}

/// Changes that leave no JSON text.
const BROKEN: &[Row] = &[
    ("]\n}", "]\n}}", Some(2)),
    ("]\n}", "]\n} x", Some(2)),
    ("]\n}", "]\n", Some(2)),
    ("{", "[{", Some(2)),
    ("1000,", "1000", Some(2)),
    ("1000,", "1000,,", Some(2)),
    (r#""f": 0"#, r#""f": 00"#, Some(2)),
    (r#""f": 0"#, r#""f": 0x0"#, Some(2)),
    (r#""127.0.0.1:7000""#, r#""\ud800""#, Some(2)),
    ("127.0.0.1", "\n", Some(2)),
];

#[test]
fn text_that_is_no_json_is_no_file(rt: HostRuntime) -> Result<(), Fail> {
    for &row in BROKEN {
        assert!(rt; is_answered(rt.alloc(), SMALL, row)?, "with {}", row.1);
    }
    Ok(())
}
