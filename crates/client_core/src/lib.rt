//! A client: its calls, and its answer to every kind of frame (Basil, sections 4 and 5).
#![tactic(auto)]

mod ask;
mod asking;
mod begun;
mod client;
mod commit;
mod finding;
mod formed;
mod held;
mod invoking;
pub mod laws;
pub mod ordered;
mod planned;
mod preparing;
mod pursuing;
mod reading;
mod receiving;
mod recovering;
mod replies;
mod reply_plans;
mod replying;
mod seat;
mod settling;
mod state;
mod steps;
mod taking;
mod telling;
mod work;

pub use ask::{Ask, AskFault};
pub use certificates::FrameFault;
pub use client::Client;
pub use client_steps::fault::CallFault;
pub use state::ReadState;
pub use work::ClientPlan;
