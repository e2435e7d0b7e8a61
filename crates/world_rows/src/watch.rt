//! The watch and the sight of a run over frames of an independent program, and the faulty parties.

mod frames;
mod parties;
mod seen;
mod sights;
mod undone;
