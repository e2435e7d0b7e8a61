//! Certificates and tallies: what proves a decision on a transaction to anybody (Basil, commit and abort certificates).
#![tactic(auto)]

mod check;
mod conflicts;
mod counts;
mod decisions;
pub mod fault;
mod ids;
pub mod laws;
mod pair;
mod proof;
pub mod refusal;
mod shards;
mod signatures;
mod tallies;

pub use check::{check_abort, check_commit};
pub use decisions::decision_of;
pub use fault::FrameFault;
pub use proof::check_proof;
pub use refusal::CertRefusal;
pub use tallies::check_tallies;
