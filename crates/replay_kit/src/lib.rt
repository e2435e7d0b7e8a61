//! The kits of a replay, where anybody can make the key of each party.
#![tactic(auto)]

mod kind;
mod kit;
mod laws;
mod lms;
mod made;
mod pen;
mod ring;

pub use kind::KitKind;
pub use kit::ReplayKit;
pub use laws::batch_kits_sign;
pub use pen::ReplayPen;
pub use ring::ReplayRing;
