//! What stands at a gate.

ghost use Rattle.std.specs.Prelude.{◌≡◌, ◌<◌, ◌≤◌, ◌⊎◌, IfOk, IsSome, IfSome, IfNone, length, drop};
ghost use Rattle.std.specs.Int.{from_be_bytes, to_be_bytes, w32};
ghost use Rattle.basil_types.specs.Causes.{HasCause};
ghost use Rattle.journal_disk.specs.Disk.{OnTold};
ghost use Rattle.journal_records.specs.Journal.{IsCount};
ghost use Rattle.journal_records.specs.Found.{IsOpen, Tells, FitsBuffer, TellsCount, TellsBytes};

use crate::gates::OPEN;
use crate::limits::{GATE_AND_LENGTH, GREATEST_ENTRY, JOURNAL_LIMIT, LEAST_ENTRY};
use basil_types::source::Failed;
use journal_disk::disk::Disk;

/// What stands at a gate of a journal.
#[derive(Clone, Copy, Debug, PartialEq, Eq)]
pub enum Found {
    /// The gate is closed: no record is behind it.
    Closed,
    /// The gate is open, and behind it is a record that counts so many bytes.
    Record(usize),
    /// The bytes end before the gate, or the gate is open and behind it is no whole record.
    Broken,
}

/// Reads the gate at a place, and the bytes that the record behind it counts to the front of the buffer.
pub fn next<D: Disk>(disk: &mut D, at: u64, buffer: &mut [u8]) -> Result<Found, Failed>
    requires near { at < JOURNAL_LIMIT }
    requires room { GREATEST_ENTRY ≤ length buffer.old }
    ensures told { IfOk result
        (λ found. OnTold (λ s. Tells found buffer.new (drop at s.contents)) (D.told disk.old)) }
    ensures within { IfOk result (λ found. FitsBuffer found buffer.new) }
    ensures as_before { D.told disk.new ≡ D.told disk.old }
    ensures stops { D.stops disk.new ≡ D.stops disk.old }
    ensures cause { HasCause (D.faults disk.old) (D.faults disk.new) result }
{
    let mut gate = [0; 1];
    let count = disk.read_at(at, &mut gate)?;
    if count == 0 {
        return Ok(Found::Broken);
    }
    if gate[0] != OPEN {
        return Ok(Found::Closed);
    }
    behind(disk, at, buffer)
}

/// Reads the record behind an open gate.
fn behind<D: Disk>(disk: &mut D, at: u64, buffer: &mut [u8]) -> Result<Found, Failed>
    requires near { at < JOURNAL_LIMIT }
    requires room { GREATEST_ENTRY ≤ length buffer.old }
    ensures told { IfOk result (λ found. OnTold (λ s. IsOpen (drop at s.contents)
        → Tells found buffer.new (drop at s.contents)) (D.told disk.old)) }
    ensures within { IfOk result (λ found. FitsBuffer found buffer.new) }
    ensures as_before { D.told disk.new ≡ D.told disk.old }
    ensures stops { D.stops disk.new ≡ D.stops disk.old }
    ensures cause { HasCause (D.faults disk.old) (D.faults disk.new) result }
{
    let count = match count_at(disk, at + 1)? {
        Some(count) => count,
        None => return Ok(Found::Broken),
    };
    if fill(disk, at + GATE_AND_LENGTH, count, buffer)? {
        Ok(Found::Record(count))
    } else {
        Ok(Found::Broken)
    }
}

/// How many bytes the record at a place counts, if it may count so many.
fn count_at<D: Disk>(disk: &mut D, at: u64) -> Result<Option<usize>, Failed>
    ensures told { IfOk result (λ count. OnTold (λ s. TellsCount count (drop at s.contents)) (D.told disk.old)) }
    ensures bounds { IfOk result (λ count. IfSome count IsCount) }
    ensures as_before { D.told disk.new ≡ D.told disk.old }
    ensures stops { D.stops disk.new ≡ D.stops disk.old }
    ensures cause { HasCause (D.faults disk.old) (D.faults disk.new) result }
{
    let mut number = [0; 4];
    let read = disk.read_at(at, &mut number)?;
    Ok(counted(read, number))
}

/// The number, if all of it was read and a record may count so many bytes.
fn counted(read: usize, number: [u8; 4]) -> Option<usize>
    ensures whole { IsSome result → 4 ≤ read }
    ensures number { IfSome result (λ count. to_be_bytes w32 count ≡ number) }
    ensures bounds { IfSome result IsCount }
    ensures none { IfNone result ((read < 4) ⊎ ¬ IsCount (from_be_bytes w32 number)) }
{
    let count = u32::from_be_bytes(number) as usize;
    if read < 4 || count < LEAST_ENTRY || GREATEST_ENTRY < count {
        None
    } else {
        Some(count)
    }
}

/// Reads so many bytes to the front of the buffer, if there are so many, and says whether there are.
fn fill<D: Disk>(disk: &mut D, at: u64, count: usize, buffer: &mut [u8]) -> Result<bool, Failed>
    requires { count ≤ length buffer.old }
    ensures told { IfOk result
        (λ whole. OnTold (λ s. TellsBytes whole count buffer.new (drop at s.contents)) (D.told disk.old)) }
    ensures as_before { D.told disk.new ≡ D.told disk.old }
    ensures stops { D.stops disk.new ≡ D.stops disk.old }
    ensures cause { HasCause (D.faults disk.old) (D.faults disk.new) result }
{
    let read = disk.read_at(at, &mut buffer[..count])?;
    Ok(read == count)
}
