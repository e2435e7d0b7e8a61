//! Where the keyrings and the pens of a run come from.
#![tactic(auto)]

mod equipping;
mod kit;

pub use equipping::{Equipment, equip};
pub use kit::Kit;
