//! What the contracts of a replica's and a client's libraries say, in the terms of `agreement_laws` and `serial_laws`.
//!
//! `specs/` says what certificates and tallies over accepted signatures are there (`Shown`), what a client's choice
//! among read replies lets it sign (`Choices`), and what a verdict over a replica's book, and an outcome, let it vote
//! (`Books`). Each function here has an empty body or calls of laws alone: its contract is the law.
#![tactic(auto)]

pub mod choices;
pub mod shown;
pub mod verdicts;
