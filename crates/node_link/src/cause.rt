//! Why the rules end a connection.

/// Why the rules end a connection, at the first place where they do.
#[derive(Clone, Copy, PartialEq, Eq)]
pub enum EndCause {
    /// The three bytes of a party name none of the cluster.
    Party,
    /// The length of a frame is 0.
    Empty,
    /// The length of a frame is this, which is above 1,048,576 bytes.
    TooLong(u32),
    /// A byte comes behind the 16,777,216th.
    Connection,
}
