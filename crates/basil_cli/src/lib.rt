//! The program without its edge: arguments in, bytes out.
#![tactic(auto)]

pub mod run;

pub use command_ends::status;
