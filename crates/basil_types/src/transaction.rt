//! Transactions: their parts, their canonical bytes, and views of these.

mod fault;
mod items;
mod laws;
mod lists;
mod owned;
mod parse;
pub mod parts;
mod spell;
mod view;

pub use fault::{BuildFault, PartFault};
pub use laws::one_spelling;
pub use lists::{ReadsIter, WritesIter};
pub use owned::Transaction;
pub use parse::first;
pub use view::TransactionView;
