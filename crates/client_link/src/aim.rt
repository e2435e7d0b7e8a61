//! What a run is for.

/// What a run is for.
#[derive(Clone, Copy)]
pub enum Aim {
    /// A decision on the transaction.
    Decision,
    /// The transaction itself, formed and signed, of which nothing is asked yet.
    Form,
}
