//! The faults and the canonical bytes of owned parts.

ghost use Rattle.std.specs.Prelude.{◌≡◌, ◌+◌, ◌++◌, ◌≤◌, ◌<◌, ◌^◌, ◌∷◌, IfOk, IfNone};
ghost use Rattle.std.specs.Prelude.{IfSome, OnOk, All, length, map, not, position, ℕ};
ghost use Rattle.std.specs.List.{flat_map, list_any};
ghost use Rattle.basil_types.specs.Built as built_of;
ghost use Rattle.basil_types.specs.Built.{built, build_fault, read_fits, write_fits};
ghost use Rattle.basil_types.specs.Built.{order_fault, ReadInRange, WriteInRange};
ghost use Rattle.basil_types.specs.Limits.{most_keys};
ghost use Rattle.basil_types.specs.Texts.{IsBytes, IsVersion};
ghost use Rattle.basil_types.specs.Transaction.{canonical, short_text, long_text, version_bytes, read_bytes};
ghost use Rattle.basil_types.specs.Transaction.{written_bytes, write_bytes, key_of_read, key_of_write};

use super::fault::BuildFault;
use super::parts::{ReadPart, WritePart};
use crate::bytes::Bytes;
use crate::limits::{LONGEST_KEY, LONGEST_VALUE, MOST_CLIENTS, MOST_KEYS};
use crate::memory::NoMemory;
use crate::reading::in_range;
use crate::version::Version;
use std::alloc::Global;
use std::cmp::Ordering;

/// The first fault of parts.
pub(crate) fn fault_in(client: u8, reads: &[ReadPart], writes: &[WritePart]) -> Option<BuildFault>
    ensures first { result ≡ build_fault client reads.now writes.now }
    ensures few { IfNone result ((length reads.now ≤ most_keys) × (length writes.now ≤ most_keys)) }
    ensures reads { IfNone result (All (λ r. length r.key < 256) reads.now) }
    ensures writes { IfNone result (All (λ w. (length w.key < 256) × (length w.value < 2 ^ 16)) writes.now) }
{
    if client < 1 || client > MOST_CLIENTS {
        return Some(BuildFault::ClientOut);
    }
    if reads.len() > MOST_KEYS || writes.len() > MOST_KEYS {
        return Some(BuildFault::TooMany);
    }
    if let Some(place) = size_in_reads(reads) {
        return Some(BuildFault::SizeOut(place));
    }
    if let Some(place) = size_in_writes(writes) {
        return Some(BuildFault::SizeOut(reads.len() + place));
    }
    if let Some(place) = order_in_reads(reads) {
        return Some(BuildFault::KeyOrder(place));
    }
    if let Some(place) = order_in_writes(writes) {
        return Some(BuildFault::KeyOrder(reads.len() + place));
    }
    None
}

fn key_fits(key: &Bytes) -> bool
    ensures { result ≡ built_of.key_fits key.now }
{
    let len = key.as_slice().len();
    1 <= len && len <= LONGEST_KEY
}

/// A deletion has no value.
fn value_fits(write: &WritePart) -> bool
    ensures { result ≡ built_of.value_fits write.now }
{
    let len = write.value.as_slice().len();
    if write.deletes {
        len == 0
    } else {
        len <= LONGEST_VALUE
    }
}

fn size_in_reads(reads: &[ReadPart]) -> Option<usize>
    ensures first { result ≡ position (λ r. not (read_fits r)) reads.now }
    ensures fit { IfNone result (All (λ r. length r.key < 256) reads.now) }
{
    reads.iter().position(|r| !key_fits(&r.key))
}

fn size_in_writes(writes: &[WritePart]) -> Option<usize>
    ensures first { result ≡ position (λ w. not (write_fits w)) writes.now }
    ensures fit { IfNone result (All (λ w. (length w.key < 256) × (length w.value < 2 ^ 16)) writes.now) }
{
    writes
        .iter()
        .position(|w| !(key_fits(&w.key) && value_fits(w)))
}

/// The first place whose key isn't above the one before it.
fn order_in_reads(reads: &[ReadPart]) -> Option<usize>
    ensures first { result ≡ order_fault (map key_of_read reads.now) }
    ensures within { IfSome result (λ p. p < length reads.now) }
{
    let Some((first, rest)) = reads.split_first() else {
        return None;
    };
    let mut before = first.key.as_slice();
    for (i, part) in rest.iter().enumerate() {
        let key = part.key.as_slice();
        match before.cmp(key) {
            Ordering::Less => before = key,
            Ordering::Equal | Ordering::Greater => return Some(i + 1),
        }
    }
    None
}

/// The first place whose key isn't above the one before it.
fn order_in_writes(writes: &[WritePart]) -> Option<usize>
    ensures first { result ≡ order_fault (map key_of_write writes.now) }
    ensures within { IfSome result (λ p. p < length writes.now) }
{
    let Some((first, rest)) = writes.split_first() else {
        return None;
    };
    let mut before = first.key.as_slice();
    for (i, part) in rest.iter().enumerate() {
        let key = part.key.as_slice();
        match before.cmp(key) {
            Ordering::Less => before = key,
            Ordering::Equal | Ordering::Greater => return Some(i + 1),
        }
    }
    None
}

/// The canonical bytes of parts, which are in the range of their types.
pub(crate) fn spell(
    alloc: Global,
    time: u64,
    client: u8,
    reads: &[ReadPart],
    writes: &[WritePart],
) -> Result<Vec<u8>, NoMemory>
    requires few { (length reads.now ≤ most_keys) × (length writes.now ≤ most_keys) }
    requires reads { All (λ r. length r.key < 256) reads.now }
    requires writes { All (λ w. (length w.key < 256) × (length w.value < 2 ^ 16)) writes.now }
    ensures spelled { IfOk result (λ bytes. bytes.items ≡ canonical (built time client reads.now writes.now)) }
    ensures time { time < 2 ^ 64 }
    ensures reads { OnOk result (All ReadInRange reads.now) }
    ensures writes { OnOk result (All WriteInRange writes.now) }
{
    let format = format_of(writes);
    let mut out = Vec::new(alloc);
    out.push(format)?;
    out.extend_from_slice(&time.to_be_bytes())?;
    out.push(client)?;
    put_reads(reads, &mut out)?;
    put_writes(format, writes, &mut out)?;
    Ok(out)
}

/// 2 exactly where some write deletes.
fn format_of(writes: &[WritePart]) -> u8
    ensures { result ≡ built_of.format_of writes.now }
{
    if any_deletes(writes) { 2 } else { 1 }
}

fn any_deletes(writes: &[WritePart]) -> bool
    ensures { result ≡ list_any (λ w. w.deletes) writes.now }
{
    writes.iter().any(|w| w.deletes)
}

/// The same version, whose numbers are in the range of their types.
fn version_in_range(version: Version) -> Version
    ensures same { result ≡ version }
    ensures in_range { IsVersion version }
{
    version
}

fn put_version(version: &Version, out: &mut Vec<u8>) -> Result<(), NoMemory>
    ensures spelled { OnOk result (out.new.items ≡ out.old.items ++ version_bytes version.now) }
    ensures in_range { IsVersion version.now }
{
    let version = version_in_range(*version);
    out.extend_from_slice(&version.time.to_be_bytes())?;
    out.push(version.client)?;
    out.extend_from_slice(&version.id)?;
    Ok(())
}

fn put_key(key: &Bytes, out: &mut Vec<u8>) -> Result<(), NoMemory>
    requires { length key.now < 256 }
    ensures spelled { OnOk result (out.new.items ≡ out.old.items ++ short_text key.now) }
    ensures in_range { IsBytes key.now }
{
    let key = in_range(key.as_slice());
    out.push(key.len() as u8)?;
    out.extend_from_slice(key)?;
    Ok(())
}

fn put_value(value: &Bytes, out: &mut Vec<u8>) -> Result<(), NoMemory>
    requires { length value.now < 2 ^ 16 }
    ensures spelled { OnOk result (out.new.items ≡ out.old.items ++ long_text value.now) }
    ensures in_range { IsBytes value.now }
{
    let value = in_range(value.as_slice());
    out.extend_from_slice(&(value.len() as u16).to_be_bytes())?;
    out.extend_from_slice(value)?;
    Ok(())
}

fn put_read(read: &ReadPart, out: &mut Vec<u8>) -> Result<(), NoMemory>
    requires { length read.now.key < 256 }
    ensures spelled { OnOk result (out.new.items ≡ out.old.items ++ read_bytes read.now) }
    ensures in_range { OnOk result (ReadInRange read.now) }
{
    put_key(&read.key, out)?;
    put_version(&read.version, out)?;
    out.push(if read.dependency { 1 } else { 0 })?;
    Ok(())
}

fn put_write(format: u8, write: &WritePart, out: &mut Vec<u8>) -> Result<(), NoMemory>
    requires { (length write.now.key < 256) × (length write.now.value < 2 ^ 16) }
    ensures spelled { OnOk result (out.new.items ≡ out.old.items ++ write_bytes format write.now) }
    ensures in_range { OnOk result (WriteInRange write.now) }
{
    put_key(&write.key, out)?;
    put_written(format, write, out)
}

/// In format 2 a flag tells whether there is a value.
fn put_written(format: u8, write: &WritePart, out: &mut Vec<u8>) -> Result<(), NoMemory>
    requires { length write.now.value < 2 ^ 16 }
    ensures spelled { OnOk result (out.new.items ≡ out.old.items ++ written_bytes format write.now) }
    ensures in_range { OnOk result (IsBytes write.now.value) }
{
    if format == 1 {
        return put_value(&write.value, out);
    }
    out.push(if write.deletes { 0 } else { 1 })?;
    if write.deletes {
        let _value = in_range(write.value.as_slice());
        return Ok(());
    }
    put_value(&write.value, out)
}

fn put_reads(reads: &[ReadPart], out: &mut Vec<u8>) -> Result<(), NoMemory>
    requires few { length reads.now ≤ most_keys }
    requires sizes { All (λ r. length r.key < 256) reads.now }
    ensures spelled { OnOk result (out.new.items ≡ out.old.items ++ length reads.now ∷ flat_map read_bytes reads.now) }
    ensures in_range { OnOk result (All ReadInRange reads.now) }
{
    out.push(reads.len() as u8)?;
    for read in reads {
        put_read(read, out)?;
    }
    Ok(())
}

fn put_writes(format: u8, writes: &[WritePart], out: &mut Vec<u8>) -> Result<(), NoMemory>
    requires few { length writes.now ≤ most_keys }
    requires sizes { All (λ w. (length w.key < 256) × (length w.value < 2 ^ 16)) writes.now }
    ensures spelled { OnOk result
        (out.new.items ≡ out.old.items ++ length writes.now ∷ flat_map (write_bytes format) writes.now) }
    ensures in_range { OnOk result (All WriteInRange writes.now) }
{
    out.push(writes.len() as u8)?;
    for write in writes {
        put_write(format, write, out)?;
    }
    Ok(())
}
