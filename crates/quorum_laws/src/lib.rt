//! Sets of replicas and how many members two of them share.
//!
//! A shard has 5f+1 replicas, at most f of which are faulty. Why no transaction gets both certificates rests
//! on how much two sets of votes or log replies must have in common (Basil, SOSP 2021, sections 4 and 5, here with
//! the numbers of `specs/Numbers.antt`). Those facts are the functions with an empty body below; `meet` computes
//! such a common part.
#![tactic(auto)]

pub mod laws;
pub mod sets;

pub use laws::{
    correct_are_many, lists_are_sets, log_and_majority_share_correct, log_and_tally_share,
    logs_share_correct, sets_share, tallies_share, tallies_share_correct, tally_has_correct,
};
pub use sets::meet;
