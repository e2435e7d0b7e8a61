//! The seat of a party in a cluster: its pen, made of its own seed and of its entry in the cluster's file, and a
//! replica that serves with it.
#![tactic(auto)]

mod client;
mod fault;
mod pen;
mod serving;
mod station;

pub use client::{ClientSeat, client_of};
pub use fault::{NodeFault, SeatFault};
pub use pen::pen_of;
pub use serving::serve_seat;
pub use station::{NodeSeat, replica_of};
