//! `node`, and `client`, `form`, `recover` and `certify`: one party of a cluster's file does its work over links.
#![tactic(auto)]

pub mod client;
pub mod node;
pub mod parties;
