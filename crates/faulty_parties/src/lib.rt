//! What the faulty parties of a run sign and send, as the lines of a schedule say it.
//!
//! A line first makes a `Lie`: the words to be signed, every frame that waits for the signature, and all memory that
//! sending will take; so a pool without room for its frames spends no signature. Then the `Pens` of the faulty parties
//! sign it and give what is sent. What is taken from a pool, votes or election words, is what its messages show,
//! whoever sent them. A second stage isn't signed anew.
//!
//! A function with an empty body is a law: its contract is what is proved.
#![tactic(auto)]

pub mod firsts;
mod hearing;
pub mod laws;
pub mod lie;
mod listing;
pub mod pens;
pub mod place;
pub mod proposals;
mod question;
pub mod replies;
pub mod seconds;
pub mod votes;
pub mod words;
