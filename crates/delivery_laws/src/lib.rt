//! What deliveries do to the books of a run's replicas.
//!
//! Each function here has an empty body: its contract is the law.
#![tactic(auto)]

pub mod laws;
