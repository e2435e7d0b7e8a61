//! The messages on lines.

ghost use Rattle.std.specs.Prelude.{◌+◌, ◌<◌, ◌^◌, length};
ghost use Rattle.line_fields.specs.Refusals.{on_line};
ghost use Rattle.line_fields.specs.Fields.{hex};
ghost use Rattle.line_fields.specs.TextLines.{lines_of};
ghost use Rattle.batch_text.specs.Parts.{IsMessage, Ran};
ghost use Rattle.batch_text.specs.Texts.{message_in, with_lines, with_message};

use crate::reading::BatchTextFault;
use basil_types::bytes::Bytes;
use batch_sign::{Batch, BatchFault};
use line_fields::fields::frames::read_hex;
use line_fields::lines::next_line;
use line_fields::reason::Reason;
use std::alloc::Global;

/// The most bytes of a message.
const LONGEST_MESSAGE: usize = 8192;

/// The message on the line of a number.
pub(crate) fn read_message(alloc: Global, line: &[u8], number: u64) -> Result<Bytes, BatchTextFault>
    ensures { IsMessage result (on_line number (message_in (hex line.now))) }
{
    let Ok(message) = read_hex(alloc, line)? else {
        return Err(BatchTextFault::BadLine {
            line: number,
            reason: Reason::Misspelt,
        });
    };
    if message.as_slice().len() > LONGEST_MESSAGE {
        return Err(BatchTextFault::BadLine {
            line: number,
            reason: Reason::OutOfSize,
        });
    }
    Ok(message)
}

/// Adds the message on the line of a number.
fn add_line(
    alloc: Global,
    batch: &mut Batch,
    line: &[u8],
    number: u64,
) -> Result<(), BatchTextFault>
    ensures { Ran result batch.new (on_line number (with_message batch.old (hex line.now))) }
{
    let Ok(message) = read_hex(alloc, line)? else {
        return Err(BatchTextFault::BadLine {
            line: number,
            reason: Reason::Misspelt,
        });
    };
    match batch.add(message.as_slice()) {
        Ok(_) => Ok(()),
        Err(BatchFault::NoMemory) => Err(BatchTextFault::NoMemory),
        Err(_) => Err(BatchTextFault::BadLine {
            line: number,
            reason: Reason::OutOfSize,
        }),
    }
}

/// Adds the messages on lines, of which the first has this number.
pub(crate) fn add_lines(
    alloc: Global,
    batch: &mut Batch,
    bytes: &[u8],
    first: u64,
) -> Result<(), BatchTextFault>
    requires numbers { first + length bytes.now < 2 ^ 64 }
    ensures ran { Ran result batch.new (with_lines (lines_of bytes.now) first batch.old) }
{
    let mut rest = bytes;
    let mut number = first;
    'lines: while !rest.is_empty() {
        let (line, more) = next_line(rest);
        add_line(alloc, batch, line, number)?;
        rest = more;
        number += 1;
    }
    Ok(())
}
