//! The kinds of frames.

/// What a frame's first byte says.
#[derive(Clone, Copy, PartialEq, Eq)]
pub enum Kind {
    Read,
    ReadReply,
    St1,
    Vote,
    St2,
    LogReply,
    Writeback,
    Recover,
    Invoke,
    Elect,
    Decide,
}
