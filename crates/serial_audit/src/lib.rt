//! The map that listed transactions leave when they are replayed in the order of their versions, and the audit of their
//! reads against it.
#![tactic(auto)]

pub mod audit;
pub mod laws;
pub mod maps;
mod ordered;
mod strays;
mod writers;
