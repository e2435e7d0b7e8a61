//! What a transaction is about: its form, its version, the shards of its keys, where its decision is logged, and what
//! it conflicts with.
#![tactic(auto)]

pub mod conflicts;
pub mod form;
pub mod places;
pub mod shards;
