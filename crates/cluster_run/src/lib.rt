//! What a run of the protocol is, and why every run is safe.
//!
//! `specs/` has the definitions: the state of a run (`States`), the parts of an event (`Parts`), what faulty parties
//! sign (`Faulty`), all events and their fold (`Events`), what a run tells (`Telling`), and when it is safe
//! (`Headline`, `Safety`). The functions here have empty bodies or calls of others alone: their contracts are the laws.
//! `docs/runs.md` tells the argument.
#![tactic(auto)]

pub mod acts;
pub mod agreement;
pub mod certified;
pub mod examples;
pub mod fault;
pub mod kits;
pub mod laws;
pub mod safety;
