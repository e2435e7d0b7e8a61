//! The votes of a shard's replicas on a transaction, and what they amount to (Basil, first stage).
#![tactic(auto)]

pub mod classes;
pub mod laws;
pub mod tally;
pub mod votes;
