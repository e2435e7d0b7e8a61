//! HSS signatures of RFC 8554, section 6, over the four LMS sets of `lms_sign`.
//!
//! [`hss_verify`] tells whether a signature of a message is valid under a public key of 1 to 8 levels,
//! and if not, which test fails first. An [`HssKey`] of two levels signs once with each bottom leaf under
//! each top leaf.
#![tactic(auto)]

mod bottom;
mod bytes;
mod key;
mod laws;
mod levels;
mod material;
mod verifying;

pub use key::{HssFault, HssKey};
pub use laws::{one_key_per_top_leaf, signs_once_per_number};
pub use verifying::{HssRefusal, hss_verify};
