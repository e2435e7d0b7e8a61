//! What an audit's input leads to.

ghost use Rattle.std.specs.Prelude.{◌≡◌, ◌++◌, ◌<◌, ◌^◌, IfOk, OnOk, length};
ghost use Rattle.audit_text.specs.Findings as findings;
ghost use Rattle.audit_text.specs.Findings.{found_by, finding_of};
ghost use Rattle.serial_audit.specs.Verdicts.{verdict_of};

use crate::listing::{Listing, list_of};
use crate::names::Names;
use crate::stop::Failure;
use basil_types::bytes::Bytes;
use basil_types::memory::NoMemory;
use basil_types::version::Version;
use line_fields::reason::Reason;
use schedule_text::writing::spell_key;
use serial_audit::audit::{Verdict, audit};
use std::alloc::Global;

/// What an audit's input leads to.
#[derive(Drop)]
pub enum Finding {
    /// The first line that is refused, from 1, and why.
    BadLine { line: u64, reason: Reason },
    /// Each read is of the version that the serial order gives it.
    Serial,
    /// The line that tells the first read that isn't: `stray NAME KEY FOUND EXPECTED`, and a newline.
    Stray(Bytes),
}

fn put(out: &mut Vec<u8>, text: &[u8]) -> Result<(), NoMemory>
    ensures { OnOk result (out.new.items ≡ out.old.items ++ text.now) }
{
    out.extend_from_slice(text)?;
    Ok(())
}

/// `stray NAME KEY FOUND EXPECTED`
fn stray_line(
    alloc: Global,
    names: &Names,
    place: u32,
    key: &Bytes,
    found: &Version,
    expected: &Version,
) -> Result<Bytes, NoMemory>
    ensures { IfOk result (λ line. line ≡ findings.stray_line names.now place key.now found.now expected.now) }
{
    let mut out = Vec::new(alloc);
    put(&mut out, b"stray ")?;
    put(&mut out, names.at(place as usize))?;
    put(&mut out, b" ")?;
    put(&mut out, &spell_key(alloc, key.as_slice())?)?;
    put(&mut out, b" ")?;
    put(&mut out, names.token_of(found))?;
    put(&mut out, b" ")?;
    put(&mut out, names.token_of(expected))?;
    put(&mut out, b"\n")?;
    Ok(Bytes::from_vec(out))
}

/// What the audit of listed transactions finds.
fn judge(alloc: Global, listing: &Listing) -> Result<Finding, NoMemory>
    requires { length listing.now.list < 2 ^ 32 }
    ensures { IfOk result (λ f. f ≡ found_by listing.now.names (verdict_of listing.now.list)) }
{
    match audit(alloc, &listing.list)? {
        Verdict::Serial => Ok(Finding::Serial),
        Verdict::Stray {
            place,
            key,
            found,
            expected,
        } => Ok(Finding::Stray(stray_line(alloc, &listing.names, place, &key, &found, &expected)?)),
    }
}

/// Reads transactions line by line, and finds whether each read is of the version that the serial order gives it: of
/// the latest listed writer of the key whose version is below the reader's, or of genesis where there is none.
///
/// The lines are `tx NAME TIME C`, which begins a transaction of client C, `read NAME KEY WRITER`, where WRITER is an
/// earlier transaction or `-` for genesis, `write NAME KEY VALUE` and `delete NAME KEY`; empty lines and those that
/// begin with `#` are skipped. A line is refused as `Misspelt`, as `OutOfRange`, as `WrongName` for a NAME that isn't
/// that of the last `tx` line or is begun twice, or for a WRITER that isn't an earlier one, as `OutOfSize`, and, at the
/// `tx` line, as `RefusedCall` for a transaction that is empty, has two reads of one key or a 33rd read or write, or
/// reads a version that isn't below its own.
pub fn audit_text(alloc: Global, bytes: &[u8]) -> Result<Finding, NoMemory>
    requires { length bytes.now < 2 ^ 31 }
    ensures { IfOk result (λ f. f ≡ finding_of bytes.now) }
{
    match list_of(alloc, bytes) {
        Ok(listing) => judge(alloc, &listing),
        Err(Failure::Refused { line, reason }) => Ok(Finding::BadLine { line, reason }),
        Err(Failure::NoMemory) => Err(NoMemory),
    }
}
