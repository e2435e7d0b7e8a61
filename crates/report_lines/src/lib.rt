//! The lines of a run's report, and why a schedule has none.
#![tactic(auto)]

pub mod fault;
pub mod lines;
