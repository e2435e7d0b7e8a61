//! Readers of the fields of frames.

ghost use Rattle.std.specs.Prelude.{◌≡◌};
ghost use Rattle.basil_types.specs.Reading.{run_at};
ghost use Rattle.basil_types.specs.Steps.{Gives};
ghost use Rattle.frame_views.specs.Forms.{allowed_flag_at};
ghost use Rattle.frame_views.specs.Grammar.{signature_at, decision_at, number_from_at, next_number_at};

use basil_types::limits::SIGNATURE_LIMIT;
use basil_types::party::Decision;
use basil_types::reading::{Fault, between, flag, run, u16_at, u64_at};

/// A signature: its length in two bytes, 1 to `SIGNATURE_LIMIT`, and its bytes.
#[tactic(auto, unfolding(crate::specs::Grammar::signature_at))]
pub(crate) fn signature(bytes: &[u8]) -> Result<(&[u8], &[u8]), Fault>
    ensures { Gives (λ x. (x.0.now, x.1.now)) result (signature_at bytes.now) }
{
    let (count, rest) = u16_at(bytes)?;
    let count = count as usize;
    if 1 <= count && count <= SIGNATURE_LIMIT {
        run(count, rest)
    } else {
        Err(Fault::Range(bytes.len()))
    }
}

/// A signature of a list, where most are as long as one another. Where this one is as long as `usual`, what stands
/// behind it is known before its length has come from memory, and a processor that guesses so reads on meanwhile.
/// `usual` decides nothing else.
#[tactic(auto, unfolding(crate::specs::Grammar::signature_at))]
pub(crate) fn signature_like(usual: usize, bytes: &[u8]) -> Result<(&[u8], &[u8]), Fault>
    ensures { Gives (λ x. (x.0.now, x.1.now)) result (signature_at bytes.now) }
{
    let (count, rest) = u16_at(bytes)?;
    let count = count as usize;
    if 1 <= count && count <= SIGNATURE_LIMIT && count == usual {
        run(usual, rest)
    } else {
        other_signature(bytes)
    }
}

/// A signature of any length. It stays a call, or a compiler would join both ways into the one that waits.
#[cold]
#[inline(never)]
fn other_signature(bytes: &[u8]) -> Result<(&[u8], &[u8]), Fault>
    ensures { Gives (λ x. (x.0.now, x.1.now)) result (signature_at bytes.now) }
{
    signature(bytes)
}

/// A decision: 0 to commit, 1 to abort.
#[tactic(auto, unfolding(crate::specs::Grammar::decision_at))]
pub(crate) fn decision(bytes: &[u8]) -> Result<(Decision, &[u8]), Fault>
    ensures { Gives (λ x. (x.0, x.1.now)) result (decision_at bytes.now) }
{
    let (b, rest) = between(0, 2, bytes)?;
    if b == 1 {
        Ok((Decision::Abort, rest))
    } else {
        Ok((Decision::Commit, rest))
    }
}

/// A number of eight bytes that is at least `low`.
#[tactic(auto, unfolding(crate::specs::Grammar::number_from_at))]
pub(crate) fn number_from(low: u64, bytes: &[u8]) -> Result<(u64, &[u8]), Fault>
    ensures { Gives (λ x. (x.0, x.1.now)) result (number_from_at low bytes.now) }
{
    let (number, rest) = u64_at(bytes)?;
    if low <= number {
        Ok((number, rest))
    } else {
        Err(Fault::Range(bytes.len()))
    }
}

/// A number of a list: below `high`, and in order where it is at least `floor`.
#[tactic(auto, unfolding(crate::specs::Grammar::next_number_at))]
pub(crate) fn next_number(high: u16, floor: u16, bytes: &[u8]) -> Result<(u8, &[u8]), Fault>
    ensures { Gives (λ x. (x.0, x.1.now)) result (next_number_at high floor bytes.now) }
{
    let (b, rest) = between(0, high, bytes)?;
    if floor <= u16::from(b) {
        Ok((b, rest))
    } else {
        Err(Fault::Order(bytes.len()))
    }
}

/// An id: 32 bytes.
pub(crate) fn id(bytes: &[u8]) -> Result<([u8; 32], &[u8]), Fault>
    ensures { Gives (λ x. (x.0, x.1.now)) result (run_at 32 bytes.now) }
{
    let (front, rest) = run(32, bytes)?;
    let mut id = [0u8; 32];
    id.copy_from_slice(front);
    Ok((id, rest))
}

/// A flag, which is 1 only where this is allowed.
#[tactic(auto, unfolding(crate::specs::Forms::allowed_flag_at))]
pub(crate) fn allowed_flag(allowed: bool, bytes: &[u8]) -> Result<(bool, &[u8]), Fault>
    ensures { Gives (λ x. (x.0, x.1.now)) result (allowed_flag_at allowed bytes.now) }
{
    let (given, rest) = flag(bytes)?;
    if given && !allowed {
        Err(Fault::Range(bytes.len()))
    } else {
        Ok((given, rest))
    }
}
