//! What a run sees of its frames: the first breach of a premise, and the transactions that certificates prove to be
//! decided.
#![tactic(auto)]

mod certified;
pub mod laws;
mod ordered;
mod proven;
pub mod sight;

pub use sight::Sight;
