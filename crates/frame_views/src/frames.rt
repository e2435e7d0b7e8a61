//! Frames: what they say, and which bytes are one.

mod parse;
mod parts;
pub(crate) mod views;
mod whole;

pub use views::{
    CommittedView, DecideView, ElectView, InvokeView, LogReplyView, MessageView, ReadReplyView,
    ReadView, RecoverView, St1View, St2View, VoteView, WritebackView,
};
pub use whole::check;
