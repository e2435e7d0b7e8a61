//! Signatures: what accepts them and what makes them, and the plain keys of a replay.
#![tactic(auto)]

pub mod laws;
pub mod plain;
pub mod signer;
pub mod verifier;
