//! How many clients and keys there may be, and how long ids, signatures and frames are.

/// Clients, which are numbered from 1.
pub const MOST_CLIENTS: u8 = 16;

/// Keys that a transaction reads, and keys that it writes.
pub const MOST_KEYS: usize = 32;

/// Bytes of the longest key.
pub const LONGEST_KEY: usize = 64;

/// Bytes of the longest value.
pub const LONGEST_VALUE: usize = 256;

/// Bytes of an id, which is a SHA-256 (FIPS 180-4).
pub const ID_SIZE: usize = 32;

/// Bytes of the longest signature.
pub const SIGNATURE_LIMIT: usize = 8192;

/// Bytes of the longest frame.
pub const FRAME_LIMIT: usize = 1_048_576;
