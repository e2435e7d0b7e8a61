//! `check`, `confirm` and `audit`: whether what others say holds, by what anybody has.
#![tactic(auto)]

pub mod audit;
pub mod check;
pub mod confirm;
mod proving;
