//! The one-time signatures LM-OTS of RFC 8554, section 4, with SHA-256 and digits of 4 or 8 bits.
//!
//! A leaf of a tree is named by the tree's identifier I and its number q. Its key is made from a secret
//! SEED, signs one message and is then spent. A signature leads to the public key of the leaf that made it.
//! The chains of a leaf go side by side, eight at a time, each in a lane of the vector registers.
#![tactic(auto)]

mod bytes;
mod chains;
mod digits;
mod lanes;
mod sets;
mod signatures;
mod tables;

pub use bytes::put;
pub use sets::OtsSet;
pub use signatures::{OtsRefusal, ots_candidate, ots_public, ots_sign};
