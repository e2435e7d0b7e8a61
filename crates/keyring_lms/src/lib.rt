//! Keyrings and pens over LMS (RFC 8554).
//!
//! An [`LmsKeys`] holds a public key for each party that it lists, and an [`LmsPen`] signs for one party with the
//! leaves of its key, each once. Both may be those of a replay, where anybody can make the key of each party.
#![tactic(auto)]

mod keys;
mod laws;
mod listed;
mod pen;
mod replay;
mod replay_keys;

pub use keys::LmsKeys;
pub use laws::{
    accepted_is_valid, one_key_agrees_with_its_pen, pens_agree_with_keys,
    replay_pens_agree_with_keys, replay_pens_are_accepted,
};
pub use listed::has_party;
pub use pen::LmsPen;
pub use replay_keys::ReplayKeys;
