//! Which transactions read and wrote which versions of which keys, at one replica (Basil, multiversion timestamp
//! ordering check).
#![tactic(auto)]

pub mod hits;
mod index;
mod keys;
pub mod laws;
mod slots;
pub mod store;
