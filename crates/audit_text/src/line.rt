//! The lines of an audit's input.

use basil_types::bytes::Bytes;

/// What a line says. Names are a lower-case letter and up to 15 lower-case letters or digits, keys have 1 to 64 bytes,
/// values up to 256, and a client is 1 to 16.
#[derive(Drop)]
pub(crate) enum AuditLine {
    /// An empty line, or one that begins with `#`.
    Skipped,
    /// `tx NAME TIME C`
    Tx {
        name: Bytes,
        time: u64,
        client: u8,
    },
    /// `read NAME KEY WRITER`; no writer is genesis, spelled `-`.
    Read {
        name: Bytes,
        key: Bytes,
        writer: Option<Bytes>,
    },
    /// `write NAME KEY VALUE`
    Write {
        name: Bytes,
        key: Bytes,
        value: Bytes,
    },
    /// `delete NAME KEY`
    Delete {
        name: Bytes,
        key: Bytes,
    },
}
