//! Maps whose keys are ids, or hold one.
#![tactic(auto)]

pub mod hasher;
pub mod map;
