//! The nodes of a run, as code: a replica with its clock that is handed frames, and a client that is asked, each under
//! what room a pool has left for what is sent.
//!
//! A function with an empty body is a law: its contract is what is proved.
#![tactic(auto)]

pub mod calling;
pub mod handled;
pub mod sizes;
pub mod standing;
