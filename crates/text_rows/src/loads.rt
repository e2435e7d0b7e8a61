//! The loads that numbers make: their texts, and what a sink takes of them.

mod sinks;
mod texts;
