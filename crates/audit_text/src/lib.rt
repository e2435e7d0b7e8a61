//! The text of an audit: transactions, line by line, and what the audit of their reads finds.
#![tactic(auto)]

mod draft;
pub mod finding;
mod line;
mod listing;
mod names;
mod reading;
mod stop;
