//! A watch over the frames of a run: whether one shows that a signature was forged or that two texts have one digest.
#![tactic(auto)]

pub mod broken;
pub mod faulty;
pub mod laws;
mod noted;
mod parties;
mod parts;
mod texts;
pub mod watch;
