//! What is found of a message's signature.

ghost use Rattle.std.specs.Prelude.{◌≡◌, IfOk, true};
ghost use Rattle.batch_sign.specs.Places.{found_in};
ghost use Rattle.batch_sign.specs.Signatures.{is_formed};
ghost use Rattle.batch_text.specs.Findings.{FindingsAreReal, accepts_under, finding_of, placed};

use crate::public::OnePublic;
use crate::reading::Kept;
use basil_types::bytes::Bytes;
use basil_types::memory::NoMemory;
use basil_types::party::Party;
use batch_sign::{Batch, BatchKeys, PlaceFault, place_in, test_form};
use keyring::verifier::Verifier;
use std::alloc::Global;

/// What is found of a message's signature.
#[derive(Drop)]
pub enum PlaceFinding {
    /// It is accepted; no batch was kept.
    Accepted,
    /// It is accepted, and the message stands at this place of the kept batch, from 0.
    In(u16),
    /// It is refused: 1 or 2 by its form, 3 where it isn't accepted, 4 where it is of another batch.
    Refused {
        reason: u8,
    },
    /// It leads to two different texts with one digest.
    Collision {
        /// The text that the signature leads to.
        first: Bytes,
        /// The kept batch's own.
        second: Bytes,
    },
}

/// A law: the message stands at the place that is found, and two texts that are found differ and have one digest.
pub fn findings_are_real()
    ensures { FindingsAreReal }
{
    batch_sign::findings_are_real();
}

/// The place of a message in a kept batch.
fn find_place(
    alloc: Global,
    batch: &Batch,
    message: &[u8],
    signature: &[u8],
) -> Result<PlaceFinding, NoMemory>
    requires { is_formed signature.now ≡ true }
    ensures { IfOk result (λ finding. finding ≡ placed (found_in batch.now message.now signature.now)) }
{
    match place_in(alloc, batch, message, signature) {
        Ok(place) => Ok(PlaceFinding::In(place)),
        Err(PlaceFault::OtherBatch) => Ok(PlaceFinding::Refused { reason: 4 }),
        Err(PlaceFault::Collision { first, second }) => Ok(PlaceFinding::Collision {
            first,
            second,
        }),
        Err(PlaceFault::NoMemory) => Err(NoMemory),
    }
}

/// Whether a signature in a batch is accepted of a message under an LMS public key.
fn is_accepted(
    alloc: Global,
    public: &[u8],
    message: &[u8],
    signature: &[u8],
) -> Result<bool, NoMemory>
    ensures { IfOk result (λ accepted. accepted ≡ accepts_under public.now message.now signature.now) }
{
    let keys = BatchKeys::new(OnePublic::new(Bytes::copy_of(alloc, public)?));
    Ok(keys.accepts(Party::Client { number: 1 }, message, signature))
}

/// What is found of a signature of a kept message under an LMS public key, both of any bytes.
pub fn judge(
    alloc: Global,
    public: &[u8],
    signature: &[u8],
    kept: &Kept,
) -> Result<PlaceFinding, NoMemory>
    ensures { IfOk result (λ finding. finding ≡ finding_of public.now kept.now signature.now) }
{
    let message = kept.message.as_slice();
    if let Err(refusal) = test_form(signature) {
        return Ok(PlaceFinding::Refused {
            reason: refusal.number(),
        });
    }
    if !is_accepted(alloc, public, message, signature)? {
        return Ok(PlaceFinding::Refused { reason: 3 });
    }
    match &kept.batch {
        None => Ok(PlaceFinding::Accepted),
        Some(batch) => find_place(alloc, batch, message, signature),
    }
}
