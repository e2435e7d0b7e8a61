//! Disks that may stop, and what a stop leaves of them.
#![tactic(auto)]

pub mod disk;
pub mod memory;
