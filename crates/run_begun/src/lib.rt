//! What a run keeps of a transaction that an event began.
//!
//! A function with an empty body is a law: its contract is what is proved.
#![tactic(auto)]

pub mod begun;
pub mod formed;
pub mod laws;
mod parts;

pub use begun::Begun;
pub use formed::Formed;
