//! The types that every layer speaks of: parties, versions, transactions, signed words, and the outside.
#![tactic(auto)]

pub mod bytes;
pub mod calls;
pub mod clock;
pub mod cluster;
pub mod limits;
pub mod links;
pub mod list;
pub mod memory;
pub mod outbox;
pub mod party;
pub mod reading;
pub mod replayed;
pub mod sink;
pub mod source;
pub mod transaction;
pub mod version;
pub mod words;
