//! Frames and certificates as bytes: the grammar, views of borrowed bytes and every signature.
#![tactic(auto)]

mod bounds;
pub mod carried;
pub mod certificates;
pub mod fault;
mod fields;
pub mod frames;
pub mod items;
mod kind;
pub mod laws;
pub mod signed;
