//! What a client makes of the replies to a read (Basil, reads).
#![tactic(auto)]

mod certificate;
mod check;
mod choice;
pub mod laws;
mod mine;
mod seen;
mod signature;
mod versions;

pub use certificates::FrameFault;
pub use check::check_reply;
pub use choice::{Choice, choose};
pub use versions::{ReplyVersions, versions_of};
