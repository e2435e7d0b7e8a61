//! A journal of records on a disk that may stop: what was acknowledged is lost by none of its stops.
#![tactic(auto)]

mod appending;
mod creating;
mod found;
mod gates;
mod laws;
mod limits;
mod opening;
mod spelled;

pub use appending::append;
pub use creating::create;
pub use found::{Found, next};
pub use gates::{OPEN, gate_behind, is_full};
pub use laws::{journal_is_found, records_are_unique, stops_divide, what_is_kept_stays};
pub use limits::{GREATEST_ENTRY, JOURNAL_LIMIT, LEAST_ENTRY};
pub use opening::open;
pub use spelled::SpelledRecord;
