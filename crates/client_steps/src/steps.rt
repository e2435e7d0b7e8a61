//! What a read or a write does, by what holds of the transaction, or why it is refused.

ghost use Rattle.std.specs.Prelude.{◌≡◌, true, []};
ghost use Rattle.basil_types.specs.Built as built_of;
ghost use Rattle.client_steps.specs.Steps as steps;

use crate::fault::CallFault;
use basil_types::limits::{LONGEST_KEY, LONGEST_VALUE};

/// What a read of a key does.
#[derive(Drop)]
pub enum ReadStep {
    /// It is refused.
    Refused(CallFault),
    /// The key was written or asked for.
    Known,
    /// The key is asked for.
    Asks,
}

/// What a read does: of a transaction that is formed, of a key that is known, of a full list, of a key of a good size.
pub fn step_of(formed: bool, known: bool, full: bool, fits: bool) -> ReadStep
    ensures exact { result ≡ steps.step_of formed known full fits }
    ensures asks { result ≡ ReadStep.Asks → fits ≡ true }
{
    if formed {
        ReadStep::Refused(CallFault::NotOpen)
    } else if known {
        ReadStep::Known
    } else if full {
        ReadStep::Refused(CallFault::TooMany)
    } else if fits {
        ReadStep::Asks
    } else {
        ReadStep::Refused(CallFault::SizeOut)
    }
}

/// The first fault of a write: of a transaction that is formed, to a key beyond a full list, or out of size.
pub fn fault_of(formed: bool, full: bool, fits: bool) -> Option<CallFault>
    ensures { result ≡ steps.fault_of formed full fits }
{
    if formed {
        Some(CallFault::NotOpen)
    } else if full {
        Some(CallFault::TooMany)
    } else if fits {
        None
    } else {
        Some(CallFault::SizeOut)
    }
}

/// Whether a key has 1 to 64 bytes.
pub fn key_fits(key: &[u8]) -> bool
    ensures { result ≡ built_of.key_fits key.now }
{
    1 <= key.len() && key.len() <= LONGEST_KEY
}

/// Whether a value has at most 256 bytes, and none where the write deletes.
fn value_fits(value: &[u8], deletes: bool) -> bool
    ensures { result ≡ built_of.value_fits (record { key = []; value = value.now; deletes = deletes }) }
{
    if deletes {
        value.len() == 0
    } else {
        value.len() <= LONGEST_VALUE
    }
}

/// Whether a write is of a good size.
pub fn write_fits(key: &[u8], value: &[u8], deletes: bool) -> bool
    ensures { result ≡ built_of.write_fits (record { key = key.now; value = value.now; deletes = deletes }) }
{
    key_fits(key) && value_fits(value, deletes)
}
