//! LMS signatures of RFC 8554, section 5, with SHA-256: trees of height 5 or 10 over the one-time
//! signatures with digits of 4 or 8 bits.
//!
//! An [`LmsKey`] signs once with each leaf of its tree, and an [`LmsTree`] gives keys. [`verify`] tells whether a
//! signature of a message is valid under a public key of 56 bytes, and if not, which test fails first.
#![tactic(auto)]

mod bytes;
mod key;
mod laws;
mod nodes;
mod public;
mod randomizer;
mod sets;
mod signing;
mod tree;
mod verifying;

pub use bytes::read_number;
pub use key::{Exhausted, LmsKey};
pub use laws::{
    has_its_size, made_is_valid, path_leads_to_root, signs_once_per_leaf, unrefused_is_valid,
};
pub use public::ident_of_seed;
pub use sets::LmsSet;
pub use tree::LmsTree;
pub use verifying::{LmsRefusal, ident_of, verify};
