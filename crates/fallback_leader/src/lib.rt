//! The election words that the leader of a view collects, and what it proposes by them (Basil, fallback).
#![tactic(auto)]

pub mod collector;
pub mod deciding;
mod election;
mod index;
pub mod laws;
pub mod words;

pub use collector::Collector;
pub use deciding::Naming;
pub use words::{ElectWord, Proposal};
