//! Links: the envelopes of a connection, whatever the pieces in which its bytes come, and a replica that serves
//! connections.
#![tactic(auto)]

mod answer;
mod asking;
pub mod cause;
mod connection;
mod envelope;
pub mod fault;
mod found;
pub mod laws;
mod node;
pub mod reader;
mod turns;

pub use asking::{ANSWER_ENVELOPES, ask};
pub use cause::EndCause;
pub use fault::ServeFault;
pub use reader::FrameReader;
pub use turns::serve;
