//! Borrowed parts of frames and certificates, and owned messages lent as such.

mod messages;
mod parts;

pub use messages::lent;
pub use parts::{
    BodyParts, CertificateParts, DecideParts, InvokeParts, MessageParts, ReadReplyParts, St2Parts,
    VoteParts, WritebackParts,
};
