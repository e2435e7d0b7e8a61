//! Hash chains of SHA-256 side by side, eight at a time, each in a lane of the vector registers.
//!
//! Each step of an LM-OTS chain (RFC 8554, section 4.3) hashes 55 bytes, which fill one block of 64 bytes with their
//! padding. The values of the chains stay in the lanes from one step to the next.
//! Other section, operation and equation numbers in this crate are those of FIPS 180-4.
#![tactic(auto)]

mod compression;
mod constants;
mod functions;
mod lanes;
mod steps;
mod words;

pub use lanes::{Lane, run_chains};
