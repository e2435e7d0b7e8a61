//! Whether listed transactions are serial.

ghost use Rattle.std.specs.Prelude.{◌≡◌, ◌<◌, ◌^◌, length, IfOk};
ghost use Rattle.serial_audit.specs.Verdicts.{verdict_of};

use crate::strays::first_of;
use crate::writers::writers_of;
use basil_types::bytes::Bytes;
use basil_types::memory::NoMemory;
use basil_types::transaction::Transaction;
use basil_types::version::Version;
use std::alloc::Global;

/// Whether each read of listed transactions is of the version that the serial order gives it.
#[derive(Drop)]
pub enum Verdict {
    /// Each is.
    Serial,
    /// The first that isn't: the place of its reader in the list, from 0, its key, its version, and the version that it
    /// should have.
    Stray {
        place: u32,
        key: Bytes,
        found: Version,
        expected: Version,
    },
}

/// Whether each read of these transactions is of the version that the map before its reader has at the key, or of
/// genesis where that map has none; else the first that isn't, by its reader's version, then by key, then by its
/// reader's place.
pub fn audit(alloc: Global, list: &[Transaction]) -> Result<Verdict, NoMemory>
    requires { length list.now < 2 ^ 32 }
    ensures { IfOk result (λ v. v ≡ verdict_of list.now) }
{
    let writers = writers_of(alloc, list)?;
    match first_of(&writers, list) {
        None => Ok(Verdict::Serial),
        Some(stray) => Ok(Verdict::Stray {
            place: stray.place,
            key: Bytes::copy_of(alloc, stray.key)?,
            found: stray.found,
            expected: stray.expected,
        }),
    }
}
