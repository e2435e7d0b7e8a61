//! `replay`, `loopback`, `load` and `generate`: a schedule is run as it is read, line by line.
#![tactic(auto)]

pub mod replay;
