//! One signature for many messages, as commands.

ghost use Rattle.std.specs.Prelude.{◌≡◌, ◌<◌, ◌≤◌, IfOk, length};
ghost use Rattle.batch_text.specs.Texts.{signatures_of};
ghost use Rattle.signature_commands.specs.Batches.{batched, sealed_by, told, unbatched};
ghost use Rattle.command_input.specs.Commands.{IsLeaf};
ghost use Rattle.command_ends.specs.Outcome.{Written, longest_input};
ghost use Rattle.command_ends.specs.Endings.{outcome_is};

use crate::signatures::{accepted, key_at};
use basil_types::bytes::Bytes;
use basil_types::memory::NoMemory;
use basil_types::party::Party;
use batch_sign::{Batch, BatchFault};
use batch_text::finding::{PlaceFinding, judge};
use batch_text::reading::{BatchTextFault, read_batch, read_kept};
use batch_text::writing::signature_lines;
use command_ends::ending::Ending;
use command_input::command::{Claim, SigningLeaf};
use keyring_lms::LmsPen;
use premise_watch::broken::Broken;
use std::alloc::Global;

/// Whose the pen is. A signature doesn't tell it.
const SIGNER: Party = Party::Client { number: 1 };

/// The signatures of the messages of a batch that has one at least, with a leaf of a key.
fn sign_batch(alloc: Global, signing: &SigningLeaf, batch: &Batch) -> Result<Ending, NoMemory>
    requires leaf { IsLeaf signing.now }
    requires some { 0 < length batch.now }
    ensures { IfOk result (λ e. outcome_is e ≡ Written (signatures_of (sealed_by signing.now batch.now))) }
{
    let mut pen = LmsPen::new(SIGNER, key_at(alloc, signing)?);
    match batch.sign(&mut pen) {
        Ok(sealed) => Ok(Ending::Written(signature_lines(alloc, &sealed)?)),
        Err(BatchFault::NoMemory) => Err(NoMemory),
        Err(_) => unreachable!(),
    }
}

/// The signatures of the messages on the lines of an input, with a leaf of a key.
pub fn batch(alloc: Global, signing: &SigningLeaf, bytes: &[u8]) -> Result<Ending, NoMemory>
    requires leaf { IsLeaf signing.now }
    requires short { length bytes.now ≤ longest_input }
    ensures { IfOk result (λ e. outcome_is e ≡ batched signing.now bytes.now) }
{
    match read_batch(alloc, bytes) {
        Ok(batch) => sign_batch(alloc, signing, &batch),
        Err(BatchTextFault::BadLine { line, reason }) => Ok(Ending::BadLine { line, reason }),
        Err(BatchTextFault::NoMemory) => Err(NoMemory),
    }
}

/// `in I`
fn place_line(alloc: Global, place: u16) -> Result<Bytes, NoMemory>
    ensures { IfOk result (λ line. line ≡ Rattle.signature_commands.specs.Batches.place_line place) }
{
    let text = format!(in alloc; "in {place}\n")?;
    Ok(Bytes::copy_of(alloc, text.as_bytes())?)
}

/// What is told of a finding.
fn ending_of(alloc: Global, finding: PlaceFinding) -> Result<Ending, NoMemory>
    ensures { IfOk result (λ e. outcome_is e ≡ told finding) }
{
    match finding {
        PlaceFinding::Accepted => accepted(alloc),
        PlaceFinding::In(place) => Ok(Ending::Written(place_line(alloc, place)?)),
        PlaceFinding::Refused { reason } => Ok(Ending::Refused { reason }),
        PlaceFinding::Collision { first, second } => {
            Ok(Ending::Broken(Broken::Collision { first, second }))
        }
    }
}

/// What is found of the claimed signature of the message on the first line of an input, with the batch on those behind
/// it, where there are any.
pub fn unbatch(alloc: Global, claim: &Claim, bytes: &[u8]) -> Result<Ending, NoMemory>
    requires { length bytes.now ≤ longest_input }
    ensures { IfOk result (λ e. outcome_is e ≡ unbatched claim.now bytes.now) }
{
    match read_kept(alloc, bytes) {
        Ok(kept) => {
            let finding = judge(
                alloc,
                claim.public.as_slice(),
                claim.signature.as_slice(),
                &kept,
            )?;
            ending_of(alloc, finding)
        }
        Err(BatchTextFault::BadLine { line, reason }) => Ok(Ending::BadLine { line, reason }),
        Err(BatchTextFault::NoMemory) => Err(NoMemory),
    }
}
