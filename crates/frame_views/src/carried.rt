//! The transactions that a frame carries, and its pairs of a transaction and a certificate.

mod all;
pub(crate) mod walks;

pub use all::{pairs, transactions};
pub use walks::{PairItem, Pairs, Transactions};
