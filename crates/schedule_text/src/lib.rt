//! The schedule language: one line of bytes, read into a value or into the one reason why not, and written again.
#![tactic(auto)]

mod kinds;
pub mod laws;
pub mod line;
pub mod reading;
pub mod writing;
