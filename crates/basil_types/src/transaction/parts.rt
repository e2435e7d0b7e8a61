//! The reads and writes of a transaction, owned and borrowed.

use crate::bytes::Bytes;
use crate::version::Version;

/// A read: the key, the version that was read, and whether that version was only prepared.
#[derive(Drop)]
pub struct ReadPart {
    /// 1 to 64 bytes.
    pub key: Bytes,
    pub version: Version,
    pub dependency: bool,
}

/// A write: it gives its key a value, or deletes it.
#[derive(Drop)]
pub struct WritePart {
    /// 1 to 64 bytes.
    pub key: Bytes,
    /// 0 to 256 bytes; empty where the write deletes.
    pub value: Bytes,
    pub deletes: bool,
}

/// A read of borrowed bytes.
#[derive(Clone, Copy)]
pub struct ReadItem<'a> {
    /// 1 to 64 bytes.
    pub key: &'a [u8],
    pub version: Version,
    pub dependency: bool,
}

/// A write of borrowed bytes.
#[derive(Clone, Copy)]
pub struct WriteItem<'a> {
    /// 1 to 64 bytes.
    pub key: &'a [u8],
    /// 0 to 256 bytes; empty where the write deletes.
    pub value: &'a [u8],
    pub deletes: bool,
}
