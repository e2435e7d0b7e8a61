//! Signatures of batches, as Basil has for replies: a signer signs the root of a hash tree over several messages, and
//! the signature of each message carries its path to that root.
#![tactic(auto)]

mod batch;
mod climbing;
mod finding;
mod form;
mod hashing;
mod keys;
mod laws;
mod pen;
mod sealed;
mod sizes;
mod tree;

pub use batch::{Batch, BatchFault};
pub use finding::{PlaceFault, place_in};
pub use form::{BatchRefusal, test_form};
pub use keys::BatchKeys;
pub use laws::findings_are_real;
pub use pen::BatchPen;
pub use sealed::SealedBatch;
