//! What a command leads to.

use basil_types::bytes::Bytes;
use hss_sign::HssRefusal;
use line_fields::reason::Reason;
use premise_watch::broken::Broken;

/// What a command leads to.
#[derive(Drop)]
pub enum Ending {
    /// The first line that is refused, and why.
    BadLine { line: u64, reason: Reason },
    /// The command's output.
    Written(Bytes),
    /// A premise of the run is broken.
    Broken(Broken),
    /// What the command tests is false of its input.
    Refused { reason: u8 },
    /// The same, of a signature of several levels.
    RefusedAt(HssRefusal),
    /// The same, told in this line.
    Stray(Bytes),
    /// The messages of an event would pass a limit of the pool, which holds so many messages and bytes.
    Full { messages: u64, bytes: u64 },
    /// A client is without a choice or a decision, and holds so many valid votes and log replies.
    Undecided { replies: u32 },
    /// The input has more bytes than are read whole.
    TooLong,
}
