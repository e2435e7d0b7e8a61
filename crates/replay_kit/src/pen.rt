//! Pens.

ghost use Rattle.std.specs.Prelude.{ℕ};
ghost use Rattle.keyring.specs.Signing.{Signing};

use basil_types::party::Party;
use batch_sign::BatchPen;
use keyring::plain::PlainPen;
use keyring::signer::{Exhausted, Signer};
use keyring_lms::LmsPen;

/// A pen of a kit, which signs as the one in it signs.
#[derive(Drop)]
pub enum ReplayPen {
    /// A plain pen.
    Plain(PlainPen),
    /// A pen of LMS.
    Lms(LmsPen),
    /// A plain pen, each of whose signatures is a batch of one.
    Batch(BatchPen<PlainPen>),
}

impl Signer for ReplayPen {
    ghost use Rattle.replay_kit.specs.declared.pen.ReplayPen.TheVariants.{Plain, Lms, Batch};

    ghost fixed = { λ pen. elim pen as (λ _. Signing) [
      | Plain own ↦ ⟦<PlainPen as Signer>⟧.fixed own
      | Lms own ↦ ⟦<LmsPen as Signer>⟧.fixed own
      | Batch own ↦ ⟦<BatchPen<PlainPen> as Signer>⟧.fixed own
    ] };

    ghost spent = { λ pen. elim pen as (λ _. ℕ) [
      | Plain own ↦ ⟦<PlainPen as Signer>⟧.spent own
      | Lms own ↦ ⟦<LmsPen as Signer>⟧.spent own
      | Batch own ↦ ⟦<BatchPen<PlainPen> as Signer>⟧.spent own
    ] };

    ghost left_of = { λ pen. elim pen as (λ _. ℕ) [
      | Plain own ↦ ⟦<PlainPen as Signer>⟧.left_of own
      | Lms own ↦ ⟦<LmsPen as Signer>⟧.left_of own
      | Batch own ↦ ⟦<BatchPen<PlainPen> as Signer>⟧.left_of own
    ] };

    fn party(&self) -> Party {
        match self {
            ReplayPen::Plain(pen) => pen.party(),
            ReplayPen::Lms(pen) => pen.party(),
            ReplayPen::Batch(pen) => pen.party(),
        }
    }

    fn left(&self) -> u64 {
        match self {
            ReplayPen::Plain(pen) => pen.left(),
            ReplayPen::Lms(pen) => pen.left(),
            ReplayPen::Batch(pen) => pen.left(),
        }
    }

    fn size(&self) -> usize {
        match self {
            ReplayPen::Plain(pen) => pen.size(),
            ReplayPen::Lms(pen) => pen.size(),
            ReplayPen::Batch(pen) => pen.size(),
        }
    }

    fn sign_into(&mut self, words: &[u8], out: &mut [u8]) -> Result<(), Exhausted> {
        match self {
            ReplayPen::Plain(pen) => pen.sign_into(words, out),
            ReplayPen::Lms(pen) => pen.sign_into(words, out),
            ReplayPen::Batch(pen) => pen.sign_into(words, out),
        }
    }
}
