//! The text of a batch, and of a message with a kept batch.

ghost use Rattle.std.specs.Prelude.{◌+◌, ◌<◌, ◌^◌, length, IfOk};
ghost use Rattle.batch_text.specs.Parts.{IsBatch, IsKept};
ghost use Rattle.batch_text.specs.Texts.{batch_in, kept_in};

use crate::hexed::{add_lines, read_message};
use basil_types::bytes::Bytes;
use basil_types::memory::NoMemory;
use batch_sign::Batch;
use line_fields::lines::first_line;
use line_fields::reason::Reason;
use std::alloc::Global;

/// Why a text isn't taken.
#[derive(Clone, Copy, Debug, PartialEq, Eq)]
pub enum BatchTextFault {
    /// The line of this number, from 1, is refused, for this reason: NoHeader where there is no line, Misspelt where
    /// one isn't lower-case hex, OutOfSize where its message has more than 8,192 bytes or is the 257th.
    BadLine { line: u64, reason: Reason },
    /// Memory is wanting.
    NoMemory,
}

impl From<NoMemory> for BatchTextFault {
    ghost use Rattle.std.specs.Prelude.{◌≡◌};
    ghost use Rattle.batch_text.specs.declared.reading.BatchTextFault.{BatchTextFault};

    ghost from_gives = { λ _ fault. fault ≡ BatchTextFault.NoMemory };

    fn from(_refused: NoMemory) -> BatchTextFault {
        BatchTextFault::NoMemory
    }
}

/// A message, and the batch in which it is to stand, where one was kept.
#[derive(Drop)]
pub struct Kept {
    pub message: Bytes,
    pub batch: Option<Batch>,
}

/// A text has no line.
const NO_LINE: BatchTextFault = BatchTextFault::BadLine {
    line: 1,
    reason: Reason::NoHeader,
};

/// The batch whose messages are the lines of a text, of which there is one at least.
pub fn read_batch(alloc: Global, bytes: &[u8]) -> Result<Batch, BatchTextFault>
    requires { 1 + length bytes.now < 2 ^ 64 }
    ensures is { IsBatch result (batch_in bytes.now) }
    ensures some { IfOk result (λ batch. 0 < length batch) }
{
    if first_line(bytes).is_none() {
        return Err(NO_LINE);
    }
    let mut batch = Batch::new(alloc);
    add_lines(alloc, &mut batch, bytes, 1)?;
    Ok(batch)
}

/// The message on the first line of a text, and the batch on those behind it, where there are any.
pub fn read_kept(alloc: Global, bytes: &[u8]) -> Result<Kept, BatchTextFault>
    requires { 2 + length bytes.now < 2 ^ 64 }
    ensures { IsKept result (kept_in bytes.now) }
{
    let Some((line, rest)) = first_line(bytes) else {
        return Err(NO_LINE);
    };
    let message = read_message(alloc, line, 1)?;
    if first_line(rest).is_none() {
        return Ok(Kept {
            message,
            batch: None,
        });
    }
    let mut batch = Batch::new(alloc);
    add_lines(alloc, &mut batch, rest, 2)?;
    Ok(Kept {
        message,
        batch: Some(batch),
    })
}
