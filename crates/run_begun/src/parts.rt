//! The reads and writes that a faulty client adds: whether they fit, and copies of them.

ghost use Rattle.std.specs.Prelude.{◌≡◌, [], false, IfOk};
ghost use Rattle.basil_types.specs.Built as built_of;
ghost use Rattle.run_begun.specs.Adding.{claim_of};

use basil_types::bytes::Bytes;
use basil_types::memory::NoMemory;
use basil_types::transaction::parts::{ReadPart, WritePart};
use basil_types::version::Version;
use std::alloc::Global;

/// Whether a key has 1 to 64 bytes.
pub(crate) fn key_fits(key: &[u8]) -> bool
    ensures { result ≡ built_of.key_fits key.now }
{
    1 <= key.len() && key.len() <= 64
}

/// Whether a value has at most 256 bytes, and none where the write deletes.
fn value_fits(value: &[u8], deletes: bool) -> bool
    ensures { result ≡ built_of.value_fits (record { key = []; value = value.now; deletes = deletes }) }
{
    if deletes {
        value.len() == 0
    } else {
        value.len() <= 256
    }
}

/// Whether a write has a good size.
pub(crate) fn write_fits(key: &[u8], value: &[u8], deletes: bool) -> bool
    ensures { result ≡ built_of.write_fits (record { key = key.now; value = value.now; deletes = deletes }) }
{
    key_fits(key) && value_fits(value, deletes)
}

/// A copy of a write, or want of memory.
pub(crate) fn write_of(
    alloc: Global,
    key: &[u8],
    value: &[u8],
    deletes: bool,
) -> Result<WritePart, NoMemory>
    ensures { IfOk result (λ w. w ≡ record { key = key.now; value = value.now; deletes = deletes }) }
{
    let key = Bytes::copy_of(alloc, key)?;
    let value = Bytes::copy_of(alloc, value)?;
    Ok(WritePart {
        key,
        value,
        deletes,
    })
}

/// A copy of a read that depends on nothing, or want of memory.
pub(crate) fn read_of(alloc: Global, key: &[u8], version: &Version) -> Result<ReadPart, NoMemory>
    ensures { IfOk result (λ r. r ≡ claim_of key.now version.now) }
{
    let key = Bytes::copy_of(alloc, key)?;
    Ok(ReadPart {
        key,
        version: *version,
        dependency: false,
    })
}
