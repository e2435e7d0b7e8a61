//! Batches as text: messages in hex, a line each; the signatures of a sealed batch; and what is found of a message's
//! signature, with a kept batch or without one.
#![tactic(auto)]

pub mod finding;
mod hexed;
mod public;
pub mod reading;
pub mod writing;
