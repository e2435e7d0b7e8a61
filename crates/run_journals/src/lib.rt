//! The journals that the replicas of a run keep: what each took, the stops of its disk, and how it starts again.
#![tactic(auto)]

mod journal;
mod journals;
mod stopping;
mod took;

pub use journal::RunJournal;
pub use journals::Journals;
pub use took::{Took, keeps_record};
