//! What a replica votes on a transaction (Basil, multiversion timestamp ordering check).
#![tactic(auto)]

pub mod check;
mod crossings;
mod dependencies;
pub mod laws;
pub mod verdict;
