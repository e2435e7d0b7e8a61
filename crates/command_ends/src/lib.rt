//! How a command ends: what it leads to, the status that tells it, and the text that is written.
#![tactic(auto)]

pub mod ending;
pub mod status;
mod texts;
pub mod writing;
