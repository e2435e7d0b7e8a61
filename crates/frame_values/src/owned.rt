//! Owned messages and certificates.

pub(crate) mod certificate;
pub(crate) mod message;
pub(crate) mod parts;

pub use certificate::{Certificate, CertificateBody};
pub use message::{
    DecideMessage, ElectMessage, InvokeMessage, LogReplyMessage, Message, ReadMessage,
    ReadReplyMessage, RecoverMessage, St1Message, St2Message, VoteMessage, WritebackMessage,
};
pub use parts::{CommittedPart, ElectPart, InvokePart, LogPart, ShardVotes, VotePart};
