//! What a step of a replica or of a client is made of: the place of its pen, what it sends, the first refusal.
//!
//! Definitions which the rules of both cite, and the frames of both that wait for a signature.
#![tactic(auto)]

pub mod appending;
pub mod pending;
