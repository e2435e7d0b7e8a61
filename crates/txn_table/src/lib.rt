//! The transactions that a replica knows, with its vote and the outcome of each (Basil, first stage and writeback).
#![tactic(auto)]

pub mod entry;
pub mod laws;
pub mod released;
pub mod table;
mod waiters;
