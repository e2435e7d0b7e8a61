//! Two good files, and how a file with a change is answered.

use cluster_file::{FileFault, read_cluster};
use std::alloc::Global;
use std::test::Fail;

/// A row of a table: what stands in a good file once or more, what stands in its first place instead, and the first
/// reason to refuse the changed file.
pub(crate) type Row = (&'static str, &'static str, Option<u8>);

/// A file of a cluster with f = 0 and one shard. In each file `..` stands for the last 110 digits of a public key.
pub(crate) const SMALL: &str = r#"{
    "f": 0, "shards": 1, "reads": 1, "delta": 1000, "set": "w4h5",
    "replicas": [
        {"shard": 0, "index": 0, "address": "127.0.0.1:7000", "public": "a0.."}
    ],
    "clients": [
        {"number": 1, "public": "c1.."},
        {"number": 16, "public": "c2.."}
    ]
}"#;

/// A file of a cluster with f = 1 and one shard, in another order.
pub(crate) const WIDE: &str = r#"{
    "clients": [
        {"number": 9, "public": "c9.."},
        {"public": "c2..", "number": 2}
    ],
    "replicas": [
        {"shard": 0, "index": 3, "address": "host-3:7003", "public": "a3.."},
        {"shard": 0, "index": 0, "address": "host-0:7000", "public": "a0.."},
        {"address": "host-5:7005", "public": "a5..", "shard": 0, "index": 5},
        {"shard": 0, "index": 1, "address": "host-1:7001", "public": "a1.."},
        {"shard": 0, "index": 4, "address": "", "public": "a4.."},
        {"shard": 0, "index": 2, "address": "host-2:7002", "public": "a2.."}
    ],
    "set": "w8h10", "delta": 18446744073709551615, "reads": 5, "shards": 1, "f": 1
}"#;

/// The public key of an LMS key that the authors of RFC 8554 made with their program, without its first byte.
const TAIL: &str =
    "000005000000030101010101010101010101010101010166bf6f5816eee4bbf33c50acb480e09b4169ebb533372959bc4315c388e501ac";

/// The same 55 bytes.
const TAIL_BYTES: [u8; 55] = [
    0x00, 0x00, 0x05, 0x00, 0x00, 0x00, 0x03, 0x01, 0x01, 0x01, 0x01, 0x01, 0x01, 0x01, 0x01, 0x01,
    0x01, 0x01, 0x01, 0x01, 0x01, 0x01, 0x01, 0x66, 0xbf, 0x6f, 0x58, 0x16, 0xee, 0xe4, 0xbb, 0xf3,
    0x3c, 0x50, 0xac, 0xb4, 0x80, 0xe0, 0x9b, 0x41, 0x69, 0xeb, 0xb5, 0x33, 0x37, 0x29, 0x59, 0xbc,
    0x43, 0x15, 0xc3, 0x88, 0xe5, 0x01, 0xac,
];

/// A public key of the files, by its first byte.
pub(crate) fn key(first: u8) -> [u8; 56] {
    let mut key = [first; 56];
    for place in 0..55 {
        key[place + 1] = TAIL_BYTES[place];
    }
    key
}

/// A file with its keys written out.
pub(crate) fn written(alloc: Global, file: &str) -> Result<String, Fail> {
    Ok(file.replace(alloc, "..", TAIL)?)
}

/// The reason to refuse these bytes, if there is one.
pub(crate) fn reason_of(alloc: Global, bytes: &[u8]) -> Result<Option<u8>, Fail> {
    match read_cluster(alloc, bytes) {
        Ok(_file) => Ok(None),
        Err(FileFault::BadFile { reason }) => Ok(Some(reason)),
        Err(fault) => Err(fault)?,
    }
}

/// Whether a good file with a change is refused for this reason, or not at all.
pub(crate) fn is_answered(alloc: Global, file: &str, row: Row) -> Result<bool, Fail> {
    let (old, new, reason) = row;
    let changed = file.replacen(alloc, old, new, 1)?;
    let text = written(alloc, changed.as_str())?;
    Ok(changed.as_str() != file && reason_of(alloc, text.as_bytes())? == reason)
}
