//! Owned messages and certificates: made of views of frames, and lent as the parts of which frames are
//! written.
#![tactic(auto)]

pub mod decoding;
pub mod lending;
pub mod owned;
