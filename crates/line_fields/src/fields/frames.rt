//! Bytes in hex.

ghost use Rattle.std.specs.Prelude.{◌≡◌, IfOk};
ghost use Rattle.std.specs.List.{list_all};
ghost use Rattle.line_fields.specs.Fields.{hex, frame, is_lower_hex};

use crate::complaint::Complaint;
use crate::fields::numbers::is_digit;
use basil_types::bytes::Bytes;
use basil_types::limits::FRAME_LIMIT;
use basil_types::memory::NoMemory;
use hex::FromHexError;
use std::alloc::Global;

/// Whether this is a lower-case hex digit.
fn is_lower_hex(byte: u8) -> bool
    ensures { result ≡ Rattle.line_fields.specs.Fields.is_lower_hex byte }
{
    is_digit(byte) || b'a' <= byte && byte <= b'f'
}

/// Whether each byte is a lower-case hex digit.
fn are_lower_hex(token: &[u8]) -> bool
    ensures { result ≡ list_all is_lower_hex token.now }
{
    token.iter().all(|b| is_lower_hex(*b))
}

#[tactic(auto, unfolding(crate::specs::Fields::hex))]
/// An even number of lower-case hex digits, at least two.
pub fn read_hex(alloc: Global, token: &[u8]) -> Result<Result<Bytes, Complaint>, NoMemory>
    ensures { IfOk result (λ r. r ≡ hex token.now) }
{
    if token.is_empty() || !are_lower_hex(token) {
        return Ok(Err(Complaint::Misspelt));
    }
    match hex::decode(alloc, token) {
        Ok(bytes) => Ok(Ok(Bytes::from_vec(bytes))),
        Err(fault) => {
            if fault == FromHexError::OutOfMemory {
                Err(NoMemory)
            } else {
                Ok(Err(Complaint::Misspelt))
            }
        }
    }
}

#[tactic(auto, unfolding(crate::specs::Fields::frame))]
/// The hex of a frame of at most `FRAME_LIMIT` bytes.
pub fn read_frame(alloc: Global, token: &[u8]) -> Result<Result<Bytes, Complaint>, NoMemory>
    ensures { IfOk result (λ r. r ≡ frame token.now) }
{
    match read_hex(alloc, token)? {
        Ok(bytes) => {
            if bytes.as_slice().len() > FRAME_LIMIT {
                Ok(Err(Complaint::OutOfSize))
            } else {
                Ok(Ok(bytes))
            }
        }
        Err(complaint) => Ok(Err(complaint)),
    }
}
