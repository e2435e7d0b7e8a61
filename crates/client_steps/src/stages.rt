//! Which stage of a transaction may start.

ghost use Rattle.std.specs.Prelude.{◌≡◌, ◌||◌, option_map};
ghost use Rattle.client_steps.specs.declared.fault.CallFault.TheVariants.{ReadPending};
ghost use Rattle.client_steps.specs.Refusals.{RefusesCall};

use crate::fault::CallFault;
use basil_types::bytes::Bytes;
use std::alloc::Global;

/// Refuses to form a transaction while a read of this key has no choice yet.
pub fn refuse_pending(alloc: Global, pending: Option<&[u8]>) -> Result<(), CallFault>
    ensures { RefusesCall result (option_map (λ key. ReadPending key.now) pending.entry) }
{
    match pending {
        Some(key) => {
            let key = Bytes::copy_of(alloc, key)?;
            Err(CallFault::ReadPending(key))
        }
        None => Ok(()),
    }
}

/// Whether no second stage starts any more: it is decided, or its second stage has started.
pub fn is_over(decided: bool, started: bool) -> bool
    ensures { result ≡ (decided || started) }
{
    decided || started
}
