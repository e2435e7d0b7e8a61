//! A replica: its answer to every kind of frame (Basil, sections 4 and 5).
#![tactic(auto)]

mod answering;
mod arriving;
mod election;
mod first;
mod fronts;
mod invoke;
mod kinds;
mod known;
mod leading;
mod log;
mod logged;
mod logging;
mod parts;
mod plan;
mod reads;
pub mod refusal;
mod refuse;
mod replica;
mod seat;
mod second;
mod work;
mod writeback;

pub use plan::Plan;
pub use refusal::Refusal;
pub use replica::Replica;
