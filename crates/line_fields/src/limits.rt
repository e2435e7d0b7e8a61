//! The limits of a line.

ghost use Rattle.std.specs.Prelude.{◌≡◌, length, nat_lt};
ghost use Rattle.line_fields.specs.Limits.{longest_line, numbered};

use crate::complaint::Complaint;

/// The most bytes of a line.
pub const LONGEST_LINE: usize = 2_200_000;

/// The most lines of a schedule.
pub const MOST_LINES: u64 = 1_000_000;

/// The value of a line with this number, unless it stands behind the millionth.
pub fn read_numbered<T: Drop>(value: Result<T, Complaint>, number: u64) -> Result<T, Complaint>
    ensures { result ≡ numbered number value }
{
    let line = value?;
    if number > MOST_LINES {
        return Err(Complaint::OutOfSize);
    }
    Ok(line)
}

/// Whether a line is longer than any line of a schedule.
pub fn is_too_long(line: &[u8]) -> bool
    ensures { result ≡ nat_lt longest_line (length line.now) }
{
    line.len() > LONGEST_LINE
}
