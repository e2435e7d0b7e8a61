//! Single lines of the schedule language: each is read and written again, or refused for its reason.

mod faults;
mod headers;
mod network;
mod operations;
mod others;
mod protocol;
mod spellings;
mod transactions;
mod values;

use schedule_text::line::{Line, LineFault};
use schedule_text::reading::read_line;
use schedule_text::writing::write_line;
use std::alloc::Global;
use std::process::Abort;

/// A line, and why it is refused; 0 where it is read.
pub(crate) type Row = (&'static [u8], u8);

/// Whether a value is written as this line.
pub(crate) fn spells(alloc: Global, value: &Line, line: &[u8]) -> bool {
    let mut out = Vec::new(alloc);
    write_line(value, &mut out).is_ok() && out.pop() == Some(b'\n') && out.as_slice() == line
}

/// What comes of a line with a number: whether its value's spelling is that line, or the reason of its refusal (99 where
/// memory is wanting). A line that is skipped is empty or begins with #.
pub(crate) fn told(alloc: Global, line: &[u8], number: u64) -> Result<bool, u8> {
    match read_line(alloc, line, number) {
        Ok(Line::Skipped) => Ok(line.is_empty() || line.starts_with(b"#")),
        Ok(value) => Ok(spells(alloc, &value, line)),
        Err(LineFault::BadLine { reason, .. }) => Err(reason.number()),
        Err(LineFault::NoMemory) => Err(99),
    }
}

/// The reason of a line's refusal; 0 where it is read and its value's spelling is that line, and 99 otherwise.
fn reason_of(alloc: Global, line: &[u8]) -> u8 {
    match told(alloc, line, 7) {
        Ok(true) => 0,
        Ok(false) => 99,
        Err(reason) => reason,
    }
}

/// Each line is read, or refused for its reason.
pub(crate) fn are_told(rt: &impl Abort, alloc: Global, rows: &[Row]) {
    for &(line, reason) in rows {
        assert!(rt; reason_of(alloc, line) == reason, "{line:?}");
    }
}
