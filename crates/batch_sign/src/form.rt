//! The form of signatures in batches.

ghost use Rattle.std.specs.Prelude.{◌≡◌, ◌↔◌, Ok, Err, None, Some, IfErr, IsOk, true, ◌≤◌, length};
ghost use Rattle.batch_sign.specs.Signatures.{form_refusal, is_formed, depth_in};

use crate::sizes::width_of;

/// Why bytes can't be a signature in a batch.
#[derive(Clone, Copy, Debug, PartialEq, Eq)]
pub enum BatchRefusal {
    /// There are fewer bytes than the depth and the path take.
    Short,
    /// The depth is above 8, or the place isn't below 2 to the depth.
    Range,
}

impl BatchRefusal {
    /// The number of the refusal: 1 or 2.
    pub fn number(&self) -> u8
        ensures { result ≡ Rattle.batch_sign.specs.Signatures.refusal_number self.now }
    {
        match self {
            BatchRefusal::Short => 1,
            BatchRefusal::Range => 2,
        }
    }
}

/// Whether bytes have the form of a signature in a batch: a depth, a place and a path. The first of the refusals.
pub fn test_form(signature: &[u8]) -> Result<(), BatchRefusal>
    ensures formed { IsOk result ↔ (is_formed signature.now ≡ true) }
    ensures refused { IfErr result (λ refusal. form_refusal signature.now ≡ Some refusal) }
{
    if signature.len() < 2 {
        return Err(BatchRefusal::Short);
    }
    let depth = signature[0];
    if depth > 8 {
        return Err(BatchRefusal::Range);
    }
    if signature.len() < 2 + 32 * usize::from(depth) {
        return Err(BatchRefusal::Short);
    }
    if u16::from(signature[1]) >= width_of(depth) {
        return Err(BatchRefusal::Range);
    }
    Ok(())
}
