//! Public keys that aren't 112 lower-case hex digits.

use crate::clusters::support::{Row, SMALL, is_answered};
use std::test::Fail;

const KEYS: &[Row] = &[
    ("a0..", "A0..", Some(8)),
    ("a0..", "aF..", Some(8)),
    ("a0..", "g0..", Some(8)),
    ("a0..", "`0..", Some(8)),
    ("a0..", "/0..", Some(8)),
    ("a0..", ":0..", Some(8)),
    ("a0..", "0xa0..", Some(8)),
    ("a0..", " a0..", Some(8)),
    ("a0..", "a0.. ", Some(8)),
    ("a0..", "..", Some(8)),
    ("a0..", "a..", Some(8)),
    ("a0..", "a00..", Some(8)),
    ("a0..", "a0a0..", Some(8)),
    ("a0..", "", Some(8)),
    ("a0..", "a0", Some(8)),
    ("a0..", r#"\u00e9.."#, Some(8)),
    ("c2..", "C2..", Some(8)),
    ("c2..", "c2", Some(8)),
    ("a0..", "ff..", None),
    ("a0..", "00..", None),
    ("a0..", "9f..", None),
    ("a0..", r#"\u00610.."#, None),
    ("a0..", "c1..", None),
];

#[test]
fn a_key_is_112_lower_case_hex_digits(rt: HostRuntime) -> Result<(), Fail> {
    for &row in KEYS {
        assert!(rt; is_answered(rt.alloc(), SMALL, row)?, "with {}", row.1);
    }
    Ok(())
}
