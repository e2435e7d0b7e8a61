//! How long records may be, and journals.

/// Bytes that the shortest record counts.
pub const LEAST_ENTRY: usize = 12;

/// Bytes that the longest record counts.
pub const GREATEST_ENTRY: usize = 1_048_587;

/// Where the last gate stands too far for one more record.
pub const JOURNAL_LIMIT: u64 = 1 << 63;

/// Bytes of a gate and of the length of a record.
pub const GATE_AND_LENGTH: u64 = 5;
