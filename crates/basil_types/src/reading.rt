//! Readers of fields, from left to right. Each gives the field and the bytes behind it, or the first fault.

ghost use Rattle.std.specs.Prelude.{◌≡◌, ◌≤◌, IfOk, drop, length};
ghost use Rattle.std.specs.Int.{w16, w64};
ghost use Rattle.basil_types.specs.Reading.{byte_at, flag_at, number_at, run_at, key_at};
ghost use Rattle.basil_types.specs.Reading.{next_key_at, value_at, version_parts_at, version_at};
ghost use Rattle.basil_types.specs.Steps.{Gives};
ghost use Rattle.basil_types.specs.Texts.{IsBytes};

use crate::limits::{ID_SIZE, LONGEST_VALUE};
use crate::version::Version;

/// Why bytes are not read. The number is how many bytes are left where the field begins.
#[derive(Clone, Copy, Debug, PartialEq, Eq)]
pub enum Fault {
    /// The bytes end inside the field.
    Short(usize),
    /// The field is out of range.
    Range(usize),
    /// The field isn't above the one before it in its list.
    Order(usize),
}

/// The same bytes, each of which is below 256.
pub fn in_range(bytes: &[u8]) -> &[u8]
    ensures same { result.now ≡ bytes.now }
    ensures in_range { IsBytes bytes.now }
{
    bytes
}

/// The bytes from an offset on.
pub fn behind(at: usize, bytes: &[u8]) -> &[u8]
    requires { at ≤ length bytes.now }
    ensures { result.now ≡ drop at bytes.now }
{
    let (_before, rest) = bytes.split_at(at);
    rest
}

/// One byte.
pub fn byte(bytes: &[u8]) -> Result<(u8, &[u8]), Fault>
    ensures { Gives (λ x. (x.0, x.1.now)) result (byte_at bytes.now) }
{
    match bytes {
        [] => Err(Fault::Short(0)),
        [first, rest @ ..] => Ok((*first, rest)),
    }
}

/// A byte from `low` on, below `high`.
#[tactic(auto, unfolding(crate::specs::Reading::between))]
pub fn between(low: u8, high: u16, bytes: &[u8]) -> Result<(u8, &[u8]), Fault>
    ensures { Gives (λ x. (x.0, x.1.now)) result (Rattle.basil_types.specs.Reading.between low high bytes.now) }
{
    let (b, rest) = byte(bytes)?;
    if low <= b && u16::from(b) < high {
        Ok((b, rest))
    } else {
        Err(Fault::Range(bytes.len()))
    }
}

/// A flag: 0 or 1.
#[tactic(auto, unfolding(crate::specs::Reading::flag_at))]
pub fn flag(bytes: &[u8]) -> Result<(bool, &[u8]), Fault>
    ensures { Gives (λ x. (x.0, x.1.now)) result (flag_at bytes.now) }
{
    let (b, rest) = between(0, 2, bytes)?;
    Ok((b == 1, rest))
}

/// A big-endian number of two bytes.
pub fn u16_at(bytes: &[u8]) -> Result<(u16, &[u8]), Fault>
    ensures { Gives (λ x. (x.0, x.1.now)) result (number_at w16 bytes.now) }
{
    if bytes.len() < 2 {
        return Err(Fault::Short(bytes.len()));
    }
    let (front, rest) = bytes.split_at(2);
    Ok((u16::from_be_bytes([front[0], front[1]]), rest))
}

/// A big-endian number of eight bytes.
pub fn u64_at(bytes: &[u8]) -> Result<(u64, &[u8]), Fault>
    ensures { Gives (λ x. (x.0, x.1.now)) result (number_at w64 bytes.now) }
{
    if bytes.len() < 8 {
        return Err(Fault::Short(bytes.len()));
    }
    let (front, rest) = bytes.split_at(8);
    let number = u64::from_be_bytes([
        front[0], front[1], front[2], front[3], front[4], front[5], front[6], front[7],
    ]);
    Ok((number, rest))
}

/// As many bytes as `count` says.
pub fn run(count: usize, bytes: &[u8]) -> Result<(&[u8], &[u8]), Fault>
    ensures gives { Gives (λ x. (x.0.now, x.1.now)) result (run_at count bytes.now) }
    ensures length { IfOk result (λ x. length x.0.now ≡ count) }
{
    if bytes.len() < count {
        return Err(Fault::Short(bytes.len()));
    }
    Ok(bytes.split_at(count))
}

/// A key: its length, 1 to 64, and its bytes.
#[tactic(auto, unfolding(crate::specs::Reading::key_at))]
pub fn key(bytes: &[u8]) -> Result<(&[u8], &[u8]), Fault>
    ensures { Gives (λ x. (x.0.now, x.1.now)) result (key_at bytes.now) }
{
    let (count, rest) = between(1, 65, bytes)?;
    run(count as usize, rest)
}

/// A key above the one before it in its list.
#[tactic(auto, unfolding(crate::specs::Reading::next_key_at))]
pub fn next_key<'a>(before: &[u8], bytes: &'a [u8]) -> Result<(&'a [u8], &'a [u8]), Fault>
    ensures { Gives (λ x. (x.0.now, x.1.now)) result (next_key_at before.now bytes.now) }
{
    let (found, rest) = key(bytes)?;
    if before.cmp(&found).is_lt() {
        Ok((found, rest))
    } else {
        Err(Fault::Order(bytes.len()))
    }
}

/// A value: its length in two bytes, at most 256, and its bytes.
#[tactic(auto, unfolding(crate::specs::Reading::value_at))]
pub fn value(bytes: &[u8]) -> Result<(&[u8], &[u8]), Fault>
    ensures { Gives (λ x. (x.0.now, x.1.now)) result (value_at bytes.now) }
{
    let (count, rest) = u16_at(bytes)?;
    if usize::from(count) <= LONGEST_VALUE {
        run(count as usize, rest)
    } else {
        Err(Fault::Range(bytes.len()))
    }
}

/// A version: one field of 41 bytes, the time, the client and the id, whatever they are.
#[tactic(auto, unfolding(crate::specs::Reading::version_at))]
pub fn version(bytes: &[u8]) -> Result<(Version, &[u8]), Fault>
    ensures { Gives (λ x. (x.0, x.1.now)) result (version_at bytes.now) }
{
    if bytes.len() < 41 {
        return Err(Fault::Short(bytes.len()));
    }
    version_parts(bytes)
}

#[tactic(auto, unfolding(crate::specs::Reading::version_parts_at))]
fn version_parts(bytes: &[u8]) -> Result<(Version, &[u8]), Fault>
    ensures { Gives (λ x. (x.0, x.1.now)) result (version_parts_at bytes.now) }
{
    let (time, rest) = u64_at(bytes)?;
    let (client, rest) = byte(rest)?;
    let (front, rest) = run(ID_SIZE, rest)?;
    let mut id = [0u8; ID_SIZE];
    id.copy_from_slice(front);
    Ok((Version { time, client, id }, rest))
}
