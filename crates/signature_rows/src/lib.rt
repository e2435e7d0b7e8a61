//! Tests that cross crates: one-time, LMS and HSS signatures of other programs, what is refused, keyrings over them, and
//! batches.
#![tactic(auto)]

#[cfg(test)]
mod batch_texts;
#[cfg(test)]
mod batches;
#[cfg(test)]
mod hss;
#[cfg(test)]
mod keyrings;
#[cfg(test)]
mod lms;
#[cfg(test)]
mod one_time;
#[cfg(test)]
mod plain;
#[cfg(test)]
mod vectors;
