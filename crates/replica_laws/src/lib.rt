//! What holds of a replica over every list of frames that it is handed, whatever their bytes.
//!
//! Each function here has an empty body: its contract is the law.
#![tactic(auto)]

pub mod steps;
pub mod votes;
