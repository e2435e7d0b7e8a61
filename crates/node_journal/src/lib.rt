//! A replica that writes each frame down before it answers, and starts again from what it wrote.
#![tactic(auto)]

mod entry;
mod fault;
mod journaled;
mod laws;
mod limits;
mod memory;
mod opening;

pub use fault::{JournalFault, Refused, StepFault};
pub use journaled::Journaled;
pub use laws::{entries_are_read, words_are_kept};
pub use limits::JOURNAL_BYTES;
