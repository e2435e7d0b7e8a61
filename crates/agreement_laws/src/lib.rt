//! Why no transaction has both a commit and an abort certificate.
//!
//! The argument of the Basil paper (SOSP 2021, sections 4 and 5) in this project's numbers, on definitions that know no
//! bytes and no code. `specs/` says what replicas sign (`Words`), what is fixed of a cluster (`Settings`), what a
//! certificate is (`Certificates`), what a correct replica may do (`Replicas`), what a run is (`Runs`) and what holds
//! in each state of a run (`Invariants`). `Laws` has the statements. Each function here has an empty body or calls of
//! the others alone: its contract is the law. `docs/agreement.md` tells the argument.
#![tactic(auto)]

pub mod examples;
pub mod invariant;
pub mod lists;
pub mod runs;
pub mod states;

pub use examples::{a_divided_log_is_settled, certificates_are_reached};
pub use invariant::{
    invariant_after_answer, invariant_after_event, invariant_at_start, invariant_in_every_run,
};
pub use lists::{election_of_list, log_of_list, votes_of_list};
pub use runs::{
    agreement_in_every_run, certificates_stay_in_every_run, commit_votes_in_every_run,
    counting_in_every_run, dependency_in_every_run, dependency_there_in_every_run,
    exclusion_in_every_run, lock_in_in_every_run, shown_are_possible_in_every_run,
    voters_in_every_run,
};
pub use states::{
    agreement, certificates_stay, commit_votes, counting, dependency, dependency_there, exclusion,
    lock_in, one_elected, voters,
};
