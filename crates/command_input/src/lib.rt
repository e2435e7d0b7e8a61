//! What a command is given: its arguments, and the bytes of its source.
#![tactic(auto)]

pub mod command;
pub mod files;
pub mod input;
