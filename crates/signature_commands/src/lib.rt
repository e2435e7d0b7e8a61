//! `keys`, `sign`, `verify`, the same of two levels, `batch` and `unbatch`: LMS and HSS keys and signatures.
#![tactic(auto)]

pub mod batches;
pub mod signatures;
