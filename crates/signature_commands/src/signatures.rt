//! LMS and HSS keys and signatures, as commands.

ghost use Rattle.std.specs.Prelude.{◌≡◌, ◌<◌, ◌≤◌, IfOk};
ghost use Rattle.hss_sign.specs.Keys.{hss_signature_of, made_before, material_of as key_of, numbers_of};
ghost use Rattle.batch_text.specs.Texts as texts;
ghost use Rattle.signature_commands.specs.Signatures as signatures;
ghost use Rattle.command_input.specs.Commands.{IsLeaf, numbers_in};
ghost use Rattle.signature_commands.specs.Signatures.{keys_made, signed, verified, tree_named};
ghost use Rattle.signature_commands.specs.Signatures.{hss_keys_made, hss_signed, hss_verified};
ghost use Rattle.command_ends.specs.Endings.{outcome_is};

use basil_types::bytes::Bytes;
use basil_types::memory::NoMemory;
use command_ends::ending::Ending;
use command_input::command::{Claim, HssMaterial, KeyMaterial, SigningLeaf};
use hss_sign::{HssFault, HssKey, hss_verify as verify_levels};
use lms_sign::LmsKey;
use std::alloc::Global;

/// Bytes in lower-case hex, on a line.
fn hex_line(alloc: Global, bytes: &[u8]) -> Result<Bytes, NoMemory>
    ensures { IfOk result (λ line. line ≡ texts.hex_line bytes.now) }
{
    let text = hex::encode(alloc, bytes)?;
    let mut line = Vec::from_slice(alloc, text.as_bytes())?;
    line.push(b'\n')?;
    Ok(Bytes::from_vec(line))
}

/// The public key of a key.
pub fn keys(alloc: Global, material: &KeyMaterial) -> Result<Ending, NoMemory>
    ensures { IfOk result (λ e. outcome_is e ≡ keys_made material.now) }
{
    let key = LmsKey::make(alloc, &material.seed, &material.ident, material.set, 0)?;
    Ok(Ending::Written(hex_line(alloc, &key.public())?))
}

/// The key whose next leaf is the one that it is to sign with.
pub(crate) fn key_at(alloc: Global, signing: &SigningLeaf) -> Result<LmsKey, NoMemory>
    requires { IsLeaf signing.now }
    ensures { IfOk result (λ key. key ≡ record { tree = tree_named signing.now.material; next = signing.now.leaf }) }
{
    let material = &signing.material;
    LmsKey::make(
        alloc,
        &material.seed,
        &material.ident,
        material.set,
        signing.leaf,
    )
}

/// The signature of a message with a leaf of a key.
pub fn sign(alloc: Global, signing: &SigningLeaf, message: &[u8]) -> Result<Ending, NoMemory>
    requires { IsLeaf signing.now }
    ensures { IfOk result (λ e. outcome_is e ≡ signed signing.now message.now) }
{
    let mut key = key_at(alloc, signing)?;
    let mut signature = vec![in alloc; 0u8; key.size()]?;
    match key.sign_into(message, &mut signature) {
        Ok(()) => Ok(Ending::Written(hex_line(alloc, &signature)?)),
        Err(_) => unreachable!(),
    }
}

/// A signature is valid.
pub(crate) fn accepted(alloc: Global) -> Result<Ending, NoMemory>
    ensures { IfOk result (λ e. outcome_is e ≡ signatures.accepted) }
{
    Ok(Ending::Written(Bytes::copy_of(alloc, b"accepted\n")?))
}

/// Whether the claimed signature of a message is valid.
pub fn verify(alloc: Global, claim: &Claim, message: &[u8]) -> Result<Ending, NoMemory>
    ensures { IfOk result (λ e. outcome_is e ≡ verified claim.now message.now) }
{
    match lms_sign::verify(claim.public.as_slice(), message, claim.signature.as_slice()) {
        Ok(()) => accepted(alloc),
        Err(refusal) => Ok(Ending::Refused {
            reason: refusal.number(),
        }),
    }
}

/// A key of two levels before a number.
fn hss_key(alloc: Global, material: &HssMaterial, number: u64) -> Result<HssKey, NoMemory>
    requires { number ≤ numbers_in material.now }
    ensures { IfOk result (λ key. key ≡ made_before (key_of material.now.top.seed material.now.top.ident
        material.now.top.set material.now.bottom) number) }
{
    let top = &material.top;
    HssKey::make(
        alloc,
        &top.seed,
        &top.ident,
        top.set,
        material.bottom,
        number,
    )
}

/// The public key of a key of two levels.
pub fn hss_keys(alloc: Global, material: &HssMaterial) -> Result<Ending, NoMemory>
    ensures { IfOk result (λ e. outcome_is e ≡ hss_keys_made material.now) }
{
    let key = hss_key(alloc, material, 0)?;
    Ok(Ending::Written(hex_line(alloc, &key.public())?))
}

/// The signature of a message with the next number of a key, which has one.
fn next_signature(alloc: Global, key: &mut HssKey, message: &[u8]) -> Result<Vec<u8>, NoMemory>
    requires { key.old.next < numbers_of key.old.material }
    ensures { IfOk result (λ signature. signature.items
        ≡ hss_signature_of key.old.material key.old.next message.now) }
{
    let mut signature = vec![in alloc; 0u8; key.size()]?;
    match key.sign_into(message, &mut signature) {
        Ok(()) => Ok(signature),
        Err(HssFault::NoMemory) => Err(NoMemory),
        Err(HssFault::Exhausted) => unreachable!(),
    }
}

/// The signature of a message with a number of a key of two levels.
pub fn hss_sign(
    alloc: Global,
    material: &HssMaterial,
    number: u64,
    message: &[u8],
) -> Result<Ending, NoMemory>
    requires { number < numbers_in material.now }
    ensures { IfOk result (λ e. outcome_is e ≡ hss_signed material.now number message.now) }
{
    let mut key = hss_key(alloc, material, number)?;
    let signature = next_signature(alloc, &mut key, message)?;
    Ok(Ending::Written(hex_line(alloc, &signature)?))
}

/// Whether the claimed signature of a message, of one level or more, is valid.
pub fn hss_verify(alloc: Global, claim: &Claim, message: &[u8]) -> Result<Ending, NoMemory>
    ensures { IfOk result (λ e. outcome_is e ≡ hss_verified claim.now message.now) }
{
    match verify_levels(claim.public.as_slice(), message, claim.signature.as_slice()) {
        Ok(()) => accepted(alloc),
        Err(refusal) => Ok(Ending::RefusedAt(refusal)),
    }
}
