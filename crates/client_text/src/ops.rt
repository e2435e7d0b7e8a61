//! One read or write.

ghost use Rattle.std.specs.Prelude.{◌≡◌, ◌==◌, IfOk, option_map, position};
ghost use Rattle.client_text.specs.Ops.{op_of, parted, read_of, write_parted};

use basil_types::memory::NoMemory;
use client_link::Op;
use line_fields::fields::escapes::{read_key, read_value};
use std::alloc::Global;

/// Where the first colon is.
fn colon(text: &[u8]) -> Option<usize>
    ensures { result ≡ position (λ b. b == 58) text.now }
{
    text.iter().position(|b| *b == b':')
}

/// What stands before the first colon, and what behind it.
fn part(text: &[u8]) -> Option<(&[u8], &[u8])>
    ensures { option_map (λ x. (x.0.now, x.1.now)) result ≡ parted text.now }
{
    match colon(text) {
        Some(at) => Some((&text[..at], &text[at + 1..])),
        None => None,
    }
}

/// `KEY`
fn read_read(alloc: Global, key: &[u8]) -> Result<Option<Op>, NoMemory>
    ensures { IfOk result (λ op. op ≡ read_of key.now) }
{
    match read_key(alloc, key)? {
        Ok(key) => Ok(Some(Op::Read { key })),
        Err(_) => Ok(None),
    }
}

/// `KEY:VALUE`
fn read_write(alloc: Global, text: &[u8]) -> Result<Option<Op>, NoMemory>
    ensures { IfOk result (λ op. op ≡ write_parted (parted text.now)) }
{
    let Some((key, value)) = part(text) else {
        return Ok(None);
    };
    let Ok(key) = read_key(alloc, key)? else {
        return Ok(None);
    };
    match read_value(alloc, value)? {
        Ok(value) => Ok(Some(Op::Write { key, value })),
        Err(_) => Ok(None),
    }
}

/// `r:KEY` or `w:KEY:VALUE`
pub(crate) fn read_op(alloc: Global, argument: &[u8]) -> Result<Option<Op>, NoMemory>
    ensures { IfOk result (λ op. op ≡ op_of argument.now) }
{
    match part(argument) {
        Some((b"r", rest)) => read_read(alloc, rest),
        Some((b"w", rest)) => read_write(alloc, rest),
        _ => Ok(None),
    }
}
