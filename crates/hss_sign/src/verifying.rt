//! Verification.
ghost use Rattle.std.specs.Prelude.{◌≡◌, ◌≤◌, ◌+◌, ◌-◌, ◌↔◌, length, IsOk, IfOk, OnOk, IfErr, Some, None};
ghost use Rattle.hss_sign.specs.Numbers.{refusal_number};
ghost use Rattle.hss_sign.specs.Verifying.{HssValid, first_refusal, answer_of, refusal_from};
ghost use Rattle.hss_sign.specs.Verifying.{refusal_above, refusal_last, refusal_at, size_under};

use crate::bytes::read_key;
use lms_sign::{LmsRefusal, LmsSet, read_number, verify};

/// Which test fails first of bytes that are no valid signature of a message under a public key.
/// Levels are counted from 0, the level of the public key.
#[derive(Clone, Copy, Debug, PartialEq, Eq)]
pub enum HssRefusal {
    /// The public key hasn't 60 bytes.
    KeyLength,
    /// The number of levels isn't 1 to 8.
    Levels,
    /// The signature doesn't begin with the number of levels less one.
    Count,
    /// The key of this level is of no set.
    SetType(u8),
    /// The signature ends inside this level's signature or inside the next level's key.
    Short(u8),
    /// What LMS refuses at a level.
    Lms {
        /// The level.
        level: u8,
        /// The test that fails there.
        refusal: LmsRefusal,
    },
}

impl HssRefusal {
    /// The number of the test, from 1 to 6.
    pub fn number(&self) -> u8
        ensures { result ≡ refusal_number self.now }
    {
        match self {
            HssRefusal::KeyLength => 1,
            HssRefusal::Levels => 2,
            HssRefusal::Count => 3,
            HssRefusal::SetType(_) => 4,
            HssRefusal::Short(_) => 5,
            HssRefusal::Lms { .. } => 6,
        }
    }
}

/// Whether a signature of a message is valid under a public key (RFC 8554, section 6.3). It takes
/// no memory. The refusal names the first test that fails: those of the lengths and counts first, and
/// then those of each level in turn, in the order of [`HssRefusal`].
pub fn hss_verify(public: &[u8], message: &[u8], signature: &[u8]) -> Result<(), HssRefusal>
    ensures valid { IsOk result ↔ HssValid public.now message.now signature.now }
    ensures first { result ≡ answer_of (first_refusal public.now message.now signature.now) }
{
    check_counts(public, message, signature)
}

/// Tests the lengths and the number of levels, and then the levels.
#[tactic(auto, unfolding(crate::specs::Verifying::first_refusal))]
fn check_counts(public: &[u8], message: &[u8], signature: &[u8]) -> Result<(), HssRefusal>
    ensures passed { OnOk result (first_refusal public.now message.now signature.now ≡ None) }
    ensures refused { IfErr result (λ refusal. first_refusal public.now message.now signature.now ≡ Some refusal) }
{
    if public.len() != 60 {
        return Err(HssRefusal::KeyLength);
    }
    let levels = read_number(public, 0);
    if levels < 1 || levels > 8 {
        return Err(HssRefusal::Levels);
    }
    if signature.len() < 4 || read_number(signature, 0) != levels - 1 {
        return Err(HssRefusal::Count);
    }
    check_levels(
        (levels - 1) as u8,
        read_key(public, 4),
        message,
        &signature[4..],
    )
}

/// Tests each level under the key of the first, where some levels stand below it.
fn check_levels(
    below: u8,
    first: [u8; 56],
    message: &[u8],
    signature: &[u8],
) -> Result<(), HssRefusal>
    ensures passed { OnOk result (refusal_from below 0 first message.now signature.now ≡ None) }
    ensures refused { IfErr result (λ refusal. refusal_from below 0 first message.now signature.now ≡ Some refusal) }
{
    let mut key = first;
    let mut rest = signature;
    for level in 0..below {
        let size = check_level(level, &key, rest)?;
        key = read_key(rest, size);
        rest = &rest[size + 56..];
    }
    check_last(below, &key, message, rest)
}

/// Tests a level above the last, and tells the bytes of its signature.
fn check_level(level: u8, key: &[u8; 56], rest: &[u8]) -> Result<usize, HssRefusal>
    ensures size { IfOk result (λ size. size ≡ size_under key.now) }
    ensures room { IfOk result (λ size. size + 56 ≤ length rest.now) }
    ensures passed { OnOk result (refusal_above level key.now rest.now ≡ None) }
    ensures refused { IfErr result (λ refusal. refusal_above level key.now rest.now ≡ Some refusal) }
{
    let size = match LmsSet::of_key(key) {
        None => return Err(HssRefusal::SetType(level)),
        Some(set) => set.size(),
    };
    if rest.len() < size + 56 {
        return Err(HssRefusal::Short(level));
    }
    check_signature(level, key, &rest[size..size + 56], &rest[..size])?;
    Ok(size)
}

/// Tests the last level, whose signature is all that is left.
fn check_last(level: u8, key: &[u8; 56], message: &[u8], rest: &[u8]) -> Result<(), HssRefusal>
    ensures passed { OnOk result (refusal_last level key.now message.now rest.now ≡ None) }
    ensures refused { IfErr result (λ refusal. refusal_last level key.now message.now rest.now ≡ Some refusal) }
{
    if LmsSet::of_key(key).is_none() {
        return Err(HssRefusal::SetType(level));
    }
    check_signature(level, key, message, rest)
}

/// Tests the LMS signature of a level.
fn check_signature(
    level: u8,
    key: &[u8; 56],
    message: &[u8],
    signature: &[u8],
) -> Result<(), HssRefusal>
    ensures passed { OnOk result (refusal_at level key.now message.now signature.now ≡ None) }
    ensures refused { IfErr result (λ refusal. refusal_at level key.now message.now signature.now ≡ Some refusal) }
{
    match verify(key, message, signature) {
        Ok(()) => Ok(()),
        Err(refusal) => Err(HssRefusal::Lms { level, refusal }),
    }
}
