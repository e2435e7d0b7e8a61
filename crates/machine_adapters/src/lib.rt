//! The outside of this machine behind the traits of `basil_types`: standard input, standard output, sockets and clock.
#![tactic(auto)]

pub mod clock;
pub mod input;
pub mod output;
pub mod sockets;
