//! Keys, signatures and their verification.

use basil_types::memory::NoMemory;
use lms_sign::{LmsKey, LmsSet, verify};
use std::alloc::Global;

const SEED: [u8; 32] = [7; 32];

const IDENT: [u8; 16] = [9; 16];

const MESSAGE: &[u8] = b"one message";

/// Makes so many keys, and adds up a byte of each root.
pub fn make_keys(alloc: Global, set: LmsSet, count: u32) -> Result<u64, NoMemory> {
    let mut sum = 0u64;
    for number in 0..count {
        let mut ident = IDENT;
        ident[0] = (number % 251) as u8;
        let key = LmsKey::make(alloc, &SEED, &ident, set, 0)?;
        sum = sum.saturating_add(u64::from(key.public()[24]));
    }
    Ok(sum)
}

/// Makes a key, signs with so many of its leaves, and counts the signatures.
pub fn sign(alloc: Global, set: LmsSet, count: u32) -> Result<u64, NoMemory> {
    let mut key = LmsKey::make(alloc, &SEED, &IDENT, set, 0)?;
    let mut sum = 0u64;
    for _ in 0..count {
        if next_signature(alloc, &mut key)?.is_some() {
            sum = sum.saturating_add(1);
        }
    }
    Ok(sum)
}

/// Makes a key and a signature, verifies it so many times, and counts how often it was valid.
pub fn verify_often(alloc: Global, set: LmsSet, count: u32) -> Result<u64, NoMemory> {
    let mut key = LmsKey::make(alloc, &SEED, &IDENT, set, 0)?;
    let public = key.public();
    let Some(signature) = next_signature(alloc, &mut key)? else {
        return Ok(0);
    };
    let mut sum = 0u64;
    for _ in 0..count {
        if verify(&public, MESSAGE, &signature).is_ok() {
            sum = sum.saturating_add(1);
        }
    }
    Ok(sum)
}

/// The message's signature by the next leaf; None where no leaf is left.
fn next_signature(alloc: Global, key: &mut LmsKey) -> Result<Option<Vec<u8>>, NoMemory> {
    let mut signature = Vec::from_elem(alloc, 0u8, key.size())?;
    match key.sign_into(MESSAGE, &mut signature) {
        Ok(()) => Ok(Some(signature)),
        Err(_) => Ok(None),
    }
}
