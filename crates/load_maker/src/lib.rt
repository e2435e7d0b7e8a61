//! A large schedule from a number: ChaCha20 draws the clients, keys and rounds of the transactions.
//!
//! `specs/` has what the words of the key stream draw (`Draws`), the schedule as a list of lines and its text
//! (`Loads`), and what these are read as (`Laws`).
#![tactic(auto)]

mod draws;
pub mod fault;
pub mod laws;
mod lines;
pub mod load;
