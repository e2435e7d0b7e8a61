//! What a client writes.

/// What a client writes of a key.
#[derive(Clone, Copy)]
pub enum Written<'a> {
    /// The key has this value.
    Value { key: &'a [u8], value: &'a [u8] },
    /// The key is deleted.
    Deleted { key: &'a [u8] },
}
