//! What the program ends with.

ghost use Rattle.std.specs.Prelude.{◌≡◌, Some};
ghost use Rattle.command_ends.specs.Answers.{status_number, status_text};

use line_fields::reason::Reason;
use std::fmt;

/// How a command ended.
#[derive(Clone, Copy, Debug, PartialEq, Eq)]
pub enum Status {
    /// 0: the command's output was written.
    Done,
    /// 2: the arguments are no command; `usage` was written.
    BadWords,
    /// 3: the first line of the input that is refused, from 1, and why; `line N reason R` was written.
    BadInput { line: u64, reason: Reason },
    /// 4: the source failed; `read fault` was written.
    ReadFault,
    /// 5: the sink failed; a prefix of a text was written.
    WriteFault,
    /// 6: a link failed; `link fault` was written.
    LinkFault,
    /// 7: a premise of the run is broken: a signature is accepted for a correct party on words that it never signed, or
    /// two transactions have one id; or `unbatch` finds two texts with one digest. `broken forged PARTY WORDS
    /// SIGNATURE` or `broken collision BYTES BYTES` was written.
    Broken,
    /// 8: what the command tests is false of its input, and why; `refused R` was written, for `hssverify` with the
    /// level and the number of what LMS refuses there, where it has one; for `audit`, with reason 0, a `stray` line.
    Refused { reason: u8 },
    /// 9: memory is wanting; nothing was written.
    NoMemory,
    /// 10: the messages of an event would pass a limit of the pool, or a record the limit of a journal; that holds so
    /// many messages or records, and bytes. `full MESSAGES BYTES`, or `full RECORDS BYTES`, was written.
    Full { messages: u64, bytes: u64 },
    /// 11: a client asked all that it had to ask, and a read is without a choice or there is no decision; it holds so
    /// many valid votes and log replies. `undecided N` was written.
    Undecided { replies: u32 },
    /// 12: an input that is read whole has more than 16,777,216 bytes; `too long 16777216` was written.
    TooLong,
}

impl Status {
    /// The exit status.
    pub fn code(&self) -> u8
        ensures { result ≡ status_number self.now }
    {
        match self {
            Status::Done => 0,
            Status::BadWords => 2,
            Status::BadInput { .. } => 3,
            Status::ReadFault => 4,
            Status::WriteFault => 5,
            Status::LinkFault => 6,
            Status::Broken => 7,
            Status::Refused { .. } => 8,
            Status::NoMemory => 9,
            Status::Full { .. } => 10,
            Status::Undecided { .. } => 11,
            Status::TooLong => 12,
        }
    }
}

/// The line that tells the status; but the text of an output, a breach, a refusal at a level or a stray read says more,
/// and nothing is written of a failed write and want of memory.
impl fmt::Display for Status {
    ghost output = { λ status. Some (status_text status) };

    fn fmt<W: fmt::Write>(&self, f: &mut fmt::Formatter<W>) -> fmt::Result {
        match self {
            Status::Done => f.write_str("done"),
            Status::BadWords => f.write_str("usage"),
            Status::BadInput { line, reason } => write!(f, "line {line} reason {reason}"),
            Status::ReadFault => f.write_str("read fault"),
            Status::WriteFault => f.write_str("write fault"),
            Status::LinkFault => f.write_str("link fault"),
            Status::Broken => f.write_str("broken"),
            Status::Refused { reason } => write!(f, "refused {reason}"),
            Status::NoMemory => f.write_str("no memory"),
            Status::Full { messages, bytes } => write!(f, "full {messages} {bytes}"),
            Status::Undecided { replies } => write!(f, "undecided {replies}"),
            Status::TooLong => f.write_str("too long 16777216"),
        }
    }
}
