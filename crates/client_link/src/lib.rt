//! A client over links: it asks what it sends, takes what it is answered, and carries a transaction through, its own or
//! one that another formed.
#![tactic(auto)]

pub mod aim;
mod asking;
mod calling;
mod closing;
mod errands;
pub mod fault;
pub mod op;
mod run;
pub mod signed;
mod taking;

pub use aim::Aim;
pub use fault::RunFault;
pub use op::Op;
pub use run::{client_finish, client_run};
pub use signed::Signed;
