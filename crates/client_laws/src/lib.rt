//! What holds of a client over every list of calls that it is asked and frames that it is handed, whatever their bytes.
//!
//! Each function here has an empty body: its contract is the law.
#![tactic(auto)]

pub mod decisions;
pub mod reads;
pub mod signing;
pub mod speaking;
