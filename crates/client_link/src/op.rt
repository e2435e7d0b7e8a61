//! What a transaction does to keys.

use basil_types::bytes::Bytes;

/// A read, or a write, of a key of 1 to 64 bytes.
#[derive(Drop)]
pub enum Op {
    /// The key is read.
    Read { key: Bytes },
    /// The key is given a value of at most 256 bytes.
    Write { key: Bytes, value: Bytes },
}
