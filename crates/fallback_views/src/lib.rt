//! The view that a replica moves to, by the views that the others report (Basil, fallback).
#![tactic(auto)]

pub mod laws;
pub mod reports;

pub use reports::raise;
