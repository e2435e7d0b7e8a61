//! Which owned messages are in the grammar of a cluster; that what fits a cluster may be written, and how long frames
//! get.
#![tactic(auto)]

mod certificates;
mod fields;
pub mod lengths;
mod lists;
mod messages;
pub mod wider;

pub use messages::fits;
