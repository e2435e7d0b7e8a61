//! Every signature of a frame, with its party and its words.

mod all;
pub(crate) mod item;
pub(crate) mod runs;
pub(crate) mod walk;

pub use all::signatures;
pub use item::{SignedItem, committed_version, prepared_version};
pub use walk::Signatures;
