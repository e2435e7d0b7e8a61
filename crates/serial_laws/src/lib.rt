//! Why each committed transaction of a correct client read what the latest committed writer before it wrote.
//!
//! The serial order of multiversion timestamp ordering (Basil, SOSP 2021, sections 3 and 4) in this project's rules, on
//! real transactions and on the runs of `agreement_laws`, which know no bytes of certificates and no code.
//!
//! `specs/` says which transactions a transaction depends on (`Dependencies`), which setting a run's transactions make
//! (`Bases`), what a correct client takes of a read (`Reads`), what a run with clients is (`Runs`), what holds in each
//! of its states (`Invariants`), which transactions are committed (`Committed`), and what it is to run them one after
//! another (`Serving`). `Laws` has the statements. Each function here has an empty body or calls of laws alone: its
//! contract is the law.
#![tactic(auto)]

pub mod examples;
pub mod invariant;
pub mod laws;
pub mod runs;
pub mod states;

pub use examples::reads_are_reached;
pub use invariant::{holds_after_answer, holds_after_step, holds_at_start, holds_in_every_run};
pub use laws::settings_are_sane;
pub use runs::{
    are_safe_in_every_run, closed_are_serial_in_every_run, none_between_in_every_run,
    one_of_each_version_in_every_run, reads_are_latest_in_every_run, shown_are_closed_in_every_run,
    shown_are_listed_in_every_run, shown_are_serial_in_every_run,
    shown_maps_are_latest_in_every_run,
};
pub use states::{
    are_safe, closed_are_serial, none_between, one_of_each_version, reads_are_latest,
    shown_are_closed, shown_are_serial, shown_maps_are_latest,
};
