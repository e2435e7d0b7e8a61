//! The pursuit of one transaction by a client: which frames it takes, when it decides, and what it sends (Basil, stages
//! 1 and 2, recovery).
#![tactic(auto)]

mod checks;
mod counts;
mod earliest;
mod fast;
mod involved;
mod logs;
mod pursuit;
mod second;
mod tallies;
mod votes;

pub use certificates::FrameFault;
pub use pursuit::Pursuit;
