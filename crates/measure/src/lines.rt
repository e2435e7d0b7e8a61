//! Reading lines of schedules.

use basil_types::memory::NoMemory;
use schedule_text::reading::read_line;
use std::alloc::Global;

/// Whether a line of this number is read.
fn is_read(alloc: Global, line: &[u8], number: u64) -> bool {
    read_line(alloc, line, number).is_ok()
}

/// Reads so many short lines, and gives the number of bytes that were read.
pub fn short_lines(alloc: Global, count: u32) -> u64 {
    let line: &[u8] = b"write t1 account%3a17 250";
    let mut bytes = 0u64;
    for number in 0..count {
        if is_read(alloc, line, u64::from(number % 1000)) {
            bytes = bytes.saturating_add(line.len() as u64);
        }
    }
    bytes
}

/// Reads one line of so many pairs of hexadecimal digits, and gives the number of bytes that were read.
pub fn long_line(alloc: Global, pairs: u32) -> Result<u64, NoMemory> {
    let mut line = Vec::from_slice(alloc, b"show ")?;
    for _ in 0..pairs {
        line.extend_from_slice(b"a7")?;
    }
    if is_read(alloc, &line, 1) {
        Ok(line.len() as u64)
    } else {
        Ok(0)
    }
}
