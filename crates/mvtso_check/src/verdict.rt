//! Verdicts.

/// What a replica votes on a transaction, or that it waits for what the transaction depends on.
#[derive(Clone, Copy, PartialEq, Eq)]
pub enum Verdict {
    Commit,
    Abort,
    /// Abort, since it conflicts with the committed transaction at this place: the first that arrived of those.
    AbortBy { place: u32 },
    /// A dependency has no outcome yet.
    Wait,
}
