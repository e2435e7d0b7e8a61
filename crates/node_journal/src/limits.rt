//! How long journals of a replica may be.

/// Bytes of the longest journal: the first gate, and each record with the gate behind it.
pub const JOURNAL_BYTES: u64 = 1_073_741_824;

/// Bytes of an entry before its frame: the moment and the sender.
pub(crate) const BEFORE_FRAME: usize = 11;
