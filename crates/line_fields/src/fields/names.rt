//! Names of transactions.

ghost use Rattle.std.specs.Prelude.{◌≡◌, ◌||◌, IfOk, map, Some, option_map};
ghost use Rattle.std.specs.List.{list_all};
ghost use Rattle.line_fields.specs.Fields.{name, writer, is_name_byte};

use crate::complaint::Complaint;
use crate::fields::numbers::is_digit;
use crate::fields::spellings::is_text;
use basil_types::bytes::Bytes;
use basil_types::memory::NoMemory;
use std::alloc::Global;

/// Whether this is a lower-case letter.
fn is_lower(byte: u8) -> bool
    ensures { result ≡ Rattle.line_fields.specs.Fields.is_lower byte }
{
    b'a' <= byte && byte <= b'z'
}

/// Whether each byte is a lower-case letter or a digit.
fn are_name_bytes(bytes: &[u8]) -> bool
    ensures { result ≡ list_all is_name_byte bytes.now }
{
    bytes.iter().all(|b| is_lower(*b) || is_digit(*b))
}

/// Whether this is a lower-case letter and up to 15 lower-case letters or digits.
fn is_name(token: &[u8]) -> bool
    ensures { result ≡ Rattle.line_fields.specs.Fields.is_name token.now }
{
    match token {
        [] => false,
        [first, rest @ ..] => is_lower(*first) && are_name_bytes(rest) && rest.len() <= 15,
    }
}

#[tactic(auto, unfolding(crate::specs::Fields::name))]
/// A name, or the complaint that this is none.
pub fn read_name(alloc: Global, token: &[u8]) -> Result<Result<Bytes, Complaint>, NoMemory>
    ensures { IfOk result (λ r. r ≡ name token.now) }
{
    if !is_name(token) {
        return Ok(Err(Complaint::Misspelt));
    }
    Ok(Ok(Bytes::copy_of(alloc, token)?))
}

#[tactic(auto, unfolding(crate::specs::Fields::writer))]
/// A name, or none, spelled `-`.
pub fn read_writer(
    alloc: Global,
    token: &[u8],
) -> Result<Result<Option<Bytes>, Complaint>, NoMemory>
    ensures { IfOk result (λ r. r ≡ writer token.now) }
{
    if is_text(token, b"-") {
        return Ok(Ok(None));
    }
    match read_name(alloc, token)? {
        Ok(name) => Ok(Ok(Some(name))),
        Err(complaint) => Ok(Err(complaint)),
    }
}
