//! The fields of a line, and why a line is refused.
#![tactic(auto)]

pub mod complaint;
pub mod fields;
pub mod keys_kind;
pub mod limits;
pub mod lines;
pub mod reason;
pub mod tokens;
