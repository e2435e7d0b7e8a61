//! The messages of a run, in the order in which they were sent.
#![tactic(auto)]

pub mod pool;
pub mod posted;

pub use pool::{Pool, Room};
pub use posted::{Fate, Posted};
