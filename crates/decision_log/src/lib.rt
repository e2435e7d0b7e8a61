//! The decision that a replica has logged for a transaction, and the views in which it may change (Basil, fallback).
#![tactic(auto)]

pub mod cell;
pub mod laws;

pub use cell::{LogCell, LogFault, adopt, enter, log_first};
