//! A world: the nodes of a cluster, the messages between them, and what was seen of them.
#![tactic(auto)]

pub mod asking;
pub mod building;
pub mod calls;
pub mod engine;
pub mod event;
pub mod fault;
pub mod lying;
pub mod messages;
pub mod preparing;
pub mod sending;
pub mod step;
pub mod taking;
pub mod telling;
pub mod world;
pub mod written;
