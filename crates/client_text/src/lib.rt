//! A client's words: the reads and writes that its arguments spell, its report of the transaction, a transaction that
//! is handed over, and what proves a decision to anybody.
#![tactic(auto)]

mod certifying;
mod handing;
mod ops;
mod plan;
mod reporting;

pub use certifying::certify;
pub use handing::{hand_over, read_signed};
pub use plan::{Plan, read_plan};
pub use reporting::report;
