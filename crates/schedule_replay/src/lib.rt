//! The replay of a schedule: its lines, taken to events of a run, and the report of that run.
//!
//! `specs/` has the definitions, from one line to the outcome of all bytes: the names of transactions (`Names`), why a
//! line is refused (`Reasons`), how frames get to nodes (`Roads`), the events of a line (`Events`), what it does
//! (`Lines`), the stages of a schedule (`Stages`), the report (`Reports`), the totals of a run (`Totals`) and the
//! outcome (`Outcomes`).
#![tactic(auto)]

mod course;
mod events;
mod fault;
pub mod laws;
mod names;
mod reasons;
pub mod replay;
mod report;
mod road;
pub mod stages;
mod totals;
