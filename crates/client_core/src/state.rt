//! What a read of a key gives.

use basil_types::version::Version;

/// What a key gives to a transaction: what was read of it, also where it is written later, and otherwise what the
/// transaction wrote itself.
#[derive(Clone, Copy)]
pub enum ReadState<'a> {
    /// It is neither read nor written.
    NotRead,
    /// It was asked for, and there are too few replies.
    Pending,
    /// It was read, and nothing is there.
    Absent,
    /// It was read, and this version gave it this value.
    Found { writer: Version, value: &'a [u8] },
    /// It was read, and this version deleted it.
    Deleted { writer: Version },
    /// The transaction wrote it.
    Own { value: &'a [u8] },
    /// The transaction deleted it.
    OwnDeleted,
}
