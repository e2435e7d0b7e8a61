//! Keys and values, whose bytes stand for themselves or are escaped.

ghost use Rattle.std.specs.Prelude.{◌≡◌, ◌<◌, length, IfOk, IfSome, MatchOption, None, Some, option_map, codes};
ghost use Rattle.line_fields.specs.Fields.{unescaped, onto, text, value};

use crate::complaint::Complaint;
use crate::fields::numbers::is_digit;
use crate::fields::spellings::is_text;
use basil_types::bytes::Bytes;
use basil_types::memory::NoMemory;
use std::alloc::Global;

/// Whether this byte stands for itself: 0x21 to 0x7e other than `%` and `:`.
pub fn is_plain(byte: u8) -> bool
    ensures { result ≡ Rattle.line_fields.specs.Fields.is_plain byte }
{
    33 <= byte && byte <= 126 && !(byte == b'%') && !(byte == b':')
}

/// The value of a lower-case hex digit.
fn hex_digit(byte: u8) -> Option<u8>
    ensures value { result ≡ Rattle.line_fields.specs.Fields.hex_digit byte }
    ensures small { IfSome result (λ digit. digit < 16) }
{
    if is_digit(byte) {
        Some(byte - b'0')
    } else if b'a' <= byte && byte <= b'f' {
        Some(byte - b'a' + 10)
    } else {
        None
    }
}

/// The byte that `%` and two digits spell, where it doesn't stand for itself.
fn escape(percent: u8, high: u8, low: u8) -> Option<u8>
    ensures { result ≡ Rattle.line_fields.specs.Fields.escape percent high low }
{
    if percent != b'%' {
        return None;
    }
    let high = hex_digit(high)?;
    let low = hex_digit(low)?;
    let byte = 16 * high + low;
    if is_plain(byte) { None } else { Some(byte) }
}

#[tactic(auto, unfolding(crate::specs::Fields::unescaped))]
/// The first byte that a token spells, and what is left of the token.
fn next_byte(token: &[u8]) -> Option<(u8, &[u8])>
    requires { 0 < length token.now }
    ensures value { MatchOption result (unescaped token.entry.now ≡ None)
        (λ t. unescaped token.entry.now ≡ onto (Some t.0) (unescaped t.1.now)) }
    ensures shorter { IfSome result (λ t. length t.1.now < length token.entry.now) }
{
    match token {
        [byte, rest @ ..] if is_plain(*byte) => Some((*byte, rest)),
        [percent, high, low, rest @ ..] => Some((escape(*percent, *high, *low)?, rest)),
        _ => None,
    }
}

/// The bytes that a token spells, each by itself or by its escape.
fn unescape(alloc: Global, token: &[u8]) -> Result<Option<Bytes>, NoMemory>
    ensures { IfOk result (λ bytes. bytes ≡ unescaped token.now) }
{
    let mut bytes = Vec::new(alloc);
    let mut rest = token;
    'bytes: while !rest.is_empty() {
        match next_byte(rest) {
            Some((byte, more)) => {
                bytes.push(byte)?;
                rest = more;
            }
            None => return Ok(None),
        }
    }
    Ok(Some(Bytes::from_vec(bytes)))
}

#[tactic(auto, unfolding(crate::specs::Fields::text))]
/// One byte or more, at most so many.
fn read_text(alloc: Global, token: &[u8], most: usize) -> Result<Result<Bytes, Complaint>, NoMemory>
    ensures { IfOk result (λ r. r ≡ text most token.now) }
{
    if token.is_empty() {
        return Ok(Err(Complaint::Misspelt));
    }
    let Some(bytes) = unescape(alloc, token)? else {
        return Ok(Err(Complaint::Misspelt));
    };
    if bytes.as_slice().len() > most {
        return Ok(Err(Complaint::OutOfSize));
    }
    Ok(Ok(bytes))
}

/// A key: 1 to 64 bytes.
pub fn read_key(alloc: Global, token: &[u8]) -> Result<Result<Bytes, Complaint>, NoMemory>
    ensures { IfOk result (λ r. r ≡ text 64 token.now) }
{
    read_text(alloc, token, 64)
}

#[tactic(auto, unfolding(crate::specs::Fields::value))]
/// A value: 0 to 256 bytes. `%` alone is the empty one.
pub fn read_value(alloc: Global, token: &[u8]) -> Result<Result<Bytes, Complaint>, NoMemory>
    ensures { IfOk result (λ r. r ≡ value token.now) }
{
    if is_text(token, b"%") {
        return Ok(Ok(Bytes::from_vec(Vec::new(alloc))));
    }
    read_text(alloc, token, 256)
}
