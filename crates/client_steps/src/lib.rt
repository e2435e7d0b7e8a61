//! What a client decides and sends by what it holds (Basil, sections 4 and 5).
#![tactic(auto)]

pub mod address;
pub mod fault;
pub mod sending;
pub mod stages;
pub mod steps;
