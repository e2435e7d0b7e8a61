//! Owned values of checked frames and certificates.

mod certificates;
mod lists;
mod messages;

pub use certificates::own_certificate;
pub use messages::decode;
