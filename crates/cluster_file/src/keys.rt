//! Public keys in hex.

ghost use Rattle.std.specs.Prelude.{◌≡◌, IfOk, option_map};
ghost use Rattle.std.specs.List.{list_all};
ghost use Rattle.cluster_file.specs.Faults as faults;
ghost use Rattle.cluster_file.specs.Grammar.{each};

use crate::members::is_digit;
use crate::seats::Seat;
use basil_types::memory::NoMemory;
use basil_types::party::Party;
use std::alloc::Global;

/// Whether this is a lower-case hex digit.
fn is_lower_hex(byte: u8) -> bool
    ensures { result ≡ faults.is_lower_hex byte }
{
    is_digit(byte) || b'a' <= byte && byte <= b'f'
}

/// Whether each byte is a lower-case hex digit.
fn are_lower_hex(text: &str) -> bool
    ensures { result ≡ list_all faults.is_lower_hex text.now }
{
    text.as_bytes().iter().all(|b| is_lower_hex(*b))
}

/// The 56 bytes that 112 lower-case hex digits write; none where the text isn't that.
fn read_key(text: &str) -> Option<[u8; 56]>
    ensures { result ≡ faults.key_in text.now }
{
    if !are_lower_hex(text) {
        return None;
    }
    let mut key = [0u8; 56];
    match hex::decode_to_slice(text, &mut key) {
        Ok(()) => Some(key),
        Err(_) => None,
    }
}

/// A seat's party with its public key, if its text is one.
fn read_public(seat: &Seat<'_>) -> Option<(Party, [u8; 56])>
    ensures { result ≡ faults.public_of seat.now }
{
    let key = read_key(seat.public)?;
    Some((seat.party, key))
}

/// The parties with their public keys, if each text is one; or want of memory.
pub(crate) fn read_publics(
    alloc: Global,
    seats: &[Seat<'_>],
) -> Result<Option<Vec<(Party, [u8; 56])>>, NoMemory>
    ensures { IfOk result (λ publics. option_map (λ v. v.items) publics
        ≡ each faults.public_of seats.now) }
{
    let mut publics = Vec::new(alloc);
    for seat in seats {
        match read_public(seat) {
            Some(public) => publics.push(public)?,
            None => return Ok(None),
        }
    }
    Ok(Some(publics))
}
