//! Texts of lines, as rows spell them.

use basil_types::memory::NoMemory;
use std::alloc::Global;
use std::test::Fail;

/// Adds lines, which are parted by `,`.
fn add_lines(text: &mut Vec<u8>, lines: &str) -> Result<(), NoMemory> {
    for line in lines.split(',') {
        text.extend_from_slice(line.trim_start().as_bytes())?;
        text.push(b'\n')?;
    }
    Ok(())
}

/// Adds lines so many times, with the numbers from 0 on for each `#` in them.
fn add_repeated(alloc: Global, text: &mut Vec<u8>, count: u8, lines: &str) -> Result<(), NoMemory> {
    for number in 0..count {
        let digits = format!(in alloc; "{number}")?;
        let numbered = lines.replace(alloc, "#", digits.as_str())?;
        add_lines(text, numbered.as_str())?;
    }
    Ok(())
}

/// Adds a line, or lines that are repeated.
fn add_part(alloc: Global, text: &mut Vec<u8>, part: &str) -> Result<(), Fail> {
    let Some((count, lines)) = part.split_once(" * ") else {
        return Ok(add_lines(text, part)?);
    };
    let count = count.parse::<u8>().map_err(|_| "no count")?;
    Ok(add_repeated(alloc, text, count, lines)?)
}

/// A header, and lines that are parted by `;`. A part `N * A, B` has the lines A and B N times, and each `#` in them is
/// the number of the time, from 0 on.
pub(crate) fn laid_out(alloc: Global, header: &str, lines: &str) -> Result<Vec<u8>, Fail> {
    let mut text = Vec::from_slice(alloc, header.as_bytes())?;
    for part in lines.split(';') {
        add_part(alloc, &mut text, part.trim_start())?;
    }
    Ok(text)
}

/// How many lines a text has that ends with a newline.
pub(crate) fn count_lines(text: &[u8]) -> u64 {
    text.iter().filter(|byte| **byte == b'\n').count() as u64
}
