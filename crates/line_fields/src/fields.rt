//! What one token of a line says.

pub mod escapes;
pub mod frames;
pub mod names;
pub mod numbers;
pub mod parties;
pub mod spellings;
