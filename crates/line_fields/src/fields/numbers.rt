//! Numbers in decimal digits.

ghost use Rattle.std.specs.Prelude.{◌≡◌, ◌-◌, ◌==◌, ◌^◌, ◌<◌, ◌||◌, not, true, length};
ghost use Rattle.std.specs.Prelude.{if◌then◌else◌, nat_lt, slice_index, Some, None};
ghost use Rattle.std.specs.List.{list_all};
ghost use Rattle.std.specs.Str.Parse.{digits_value};
ghost use Rattle.line_fields.specs.Fields.{number, number_in, is_canonical, is_digit, views};

use crate::complaint::{Complaint, read_both};

/// Whether this is a decimal digit.
pub fn is_digit(byte: u8) -> bool
    ensures { result ≡ Rattle.line_fields.specs.Fields.is_digit byte }
{
    b'0' <= byte && byte <= b'9'
}

/// Whether each byte is a decimal digit.
fn is_digits(token: &[u8]) -> bool
    ensures { result ≡ list_all is_digit token.now }
{
    token.iter().all(|b| is_digit(*b))
}

/// The number that one or more digits write, where it is below 2^64.
fn value_of(digits: &[u8]) -> Option<u64>
    requires some { 0 < length digits.now }
    requires digits { list_all is_digit digits.now ≡ true }
    ensures { result
        ≡ (if nat_lt (digits_value 10 digits.now) (2 ^ 64) then Some (digits_value 10 digits.now) else None) }
{
    match str::from_utf8(digits) {
        Ok(text) => text.parse::<u64>().ok(),
        Err(_) => None,
    }
}

#[tactic(auto, unfolding(crate::specs::Fields::number))]
/// A number below 2^64 in decimal digits, without leading zeros.
pub fn read_number(token: &[u8]) -> Result<u64, Complaint>
    ensures { result ≡ number token.now }
{
    if token.is_empty() || !is_digits(token) {
        return Err(Complaint::Misspelt);
    }
    if token.len() != 1 && token[0] == b'0' {
        return Err(Complaint::OutOfRange);
    }
    value_of(token).ok_or(Complaint::OutOfRange)
}

#[tactic(auto, unfolding(crate::specs::Fields::number_in))]
/// A number from the least to the most that its place takes.
pub fn read_number_in(token: &[u8], least: u64, most: u64) -> Result<u64, Complaint>
    ensures { result ≡ number_in least most token.now }
{
    let number = read_number(token)?;
    if number < least || most < number {
        return Err(Complaint::OutOfRange);
    }
    Ok(number)
}

#[tactic(auto, unfolding(crate::specs::Fields::number_in))]
/// The same where the most is below 256.
fn read_small(token: &[u8], least: u8, most: u8) -> Result<u8, Complaint>
    ensures { result ≡ number_in least most token.now }
{
    let number = read_number_in(token, u64::from(least), u64::from(most))?;
    Ok(number as u8)
}

/// A shard: 0 to 7.
pub fn read_shard(token: &[u8]) -> Result<u8, Complaint>
    ensures { result ≡ number_in 0 7 token.now }
{
    read_small(token, 0, 7)
}

/// A replica's index in its shard: 0 to 30.
pub fn read_replica(token: &[u8]) -> Result<u8, Complaint>
    ensures { result ≡ number_in 0 30 token.now }
{
    read_small(token, 0, 30)
}

/// A client's number: 1 to 16.
pub fn read_client(token: &[u8]) -> Result<u8, Complaint>
    ensures { result ≡ number_in 1 16 token.now }
{
    read_small(token, 1, 16)
}

/// A view to which an election leads: at least 1.
pub fn read_view(token: &[u8]) -> Result<u64, Complaint>
    ensures { result ≡ number_in 1 (2 ^ 64 - 1) token.now }
{
    read_number_in(token, 1, u64::MAX)
}

/// The first or the second write of a step: 1 or 2.
pub fn read_write(token: &[u8]) -> Result<u64, Complaint>
    ensures { result ≡ number_in 1 2 token.now }
{
    read_number_in(token, 1, 2)
}

#[tactic(auto, unfolding(crate::specs::Fields::views))]
/// A decided view, and a current view that isn't below it.
pub fn read_views(decided: &[u8], current: &[u8]) -> Result<(u64, u64), Complaint>
    ensures { result ≡ views decided.now current.now }
{
    let (decided, current) = read_both(read_number(decided), read_number(current))?;
    if current < decided {
        return Err(Complaint::OutOfRange);
    }
    Ok((decided, current))
}
