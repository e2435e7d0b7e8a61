//! Signers whose signatures are batches of one.

ghost use Rattle.std.specs.Prelude.{◌≡◌, ◌≤◌, ◌<◌, ◌+◌, length, true};
ghost use Rattle.batch_sign.specs.Signatures.{alone, batch_signing};

use crate::hashing::{leaf_of, root_words};
use basil_types::party::Party;
use keyring::signer::{Exhausted, Signer};
use lms_ots::put;

/// A signer over another, whose signatures have at most 8,190 bytes: each of its own is a batch of one, two bytes
/// longer.
#[derive(Drop)]
pub struct BatchPen<S: Signer> {
    inner: S,
    ghost fits: { (S.fixed inner).size ≤ 8190 },
}

impl<S: Signer> BatchPen<S> {
    /// The signer over this one.
    pub fn new(inner: S) -> BatchPen<S>
        requires { (S.fixed inner).size ≤ 8190 }
        ensures fixed { ⟦<BatchPen<S> as Signer>⟧.fixed result ≡ batch_signing (S.fixed inner) }
        ensures spent { ⟦<BatchPen<S> as Signer>⟧.spent result ≡ S.spent inner }
        ensures left { ⟦<BatchPen<S> as Signer>⟧.left_of result ≡ S.left_of inner }
    {
        BatchPen { inner }
    }
}

/// Signs the root words of a batch of one behind its depth and its place, both 0. Of the signer a signature is left.
fn sign_alone<S: Signer>(inner: &mut S, words: &[u8; 34], out: &mut [u8])
    requires left { 0 < S.left_of inner.old }
    requires size { length out.old ≡ (S.fixed inner.old).size + 2 }
    ensures signature { out.new ≡ alone ((S.fixed inner.old).gives (S.spent inner.old) words.now) }
    ensures holds { (S.fixed inner.old).holds (S.fixed inner.old).party words.now
        ((S.fixed inner.old).gives (S.spent inner.old) words.now) ≡ true }
    ensures spent { S.spent inner.new ≡ S.spent inner.old + 1 }
    ensures left { S.left_of inner.new + 1 ≡ S.left_of inner.old }
    ensures fixed { S.fixed inner.new ≡ S.fixed inner.old }
{
    put(out, 0, &[0, 0]);
    match inner.sign_into(words, &mut out[2..]) {
        Ok(()) => (),
        Err(Exhausted) => unreachable!(),
    }
}

impl<S: Signer> Signer for BatchPen<S> {
    ghost fixed = { λ pen. batch_signing (S.fixed pen.inner) };

    ghost spent = { λ pen. S.spent pen.inner };

    ghost left_of = { λ pen. S.left_of pen.inner };

    fn party(&self) -> Party {
        self.inner.party()
    }

    fn left(&self) -> u64 {
        self.inner.left()
    }

    fn size(&self) -> usize {
        self.inner.size() + 2
    }

    fn sign_into(&mut self, words: &[u8], out: &mut [u8]) -> Result<(), Exhausted> {
        if self.inner.left() == 0 {
            return Err(Exhausted);
        }
        let root = root_words(0, &leaf_of(words));
        sign_alone(&mut self.inner, &root, out);
        Ok(())
    }
}
