//! A run whose replicas write down what they take: a world, and beside it the journals of its correct replicas.
#![tactic(auto)]

mod beginning;
mod laws;
mod letter;
mod stepping;
mod stopping;

pub use beginning::{begin_journals, no_journals};
pub use laws::{owners_are_correct, owners_outlast_stops, owners_stay};
pub use stepping::step;
pub use stopping::stop;
