//! What is written of an ending.

ghost use Rattle.std.specs.Prelude.{◌≡◌, ◌++◌, ◌∷◌, [], IfOk, string_bytes};
ghost use Rattle.std.specs.List.{join_with_byte};
ghost use Rattle.command_ends.specs.Answers.{status_of, status_text};
ghost use Rattle.command_ends.specs.Outcome as outcomes;
ghost use Rattle.command_ends.specs.Outcome.{text_of};
ghost use Rattle.command_ends.specs.Endings.{outcome_is};
ghost use Rattle.schedule_text.specs.Spelling.{party_tokens};

use crate::ending::Ending;
use crate::status::Status;
use basil_types::memory::NoMemory;
use basil_types::party::Party;
use hex::encode;
use hss_sign::HssRefusal;
use premise_watch::broken::Broken;
use std::alloc::Global;

/// The line that tells a status.
fn line_of(alloc: Global, status: Status) -> Result<Vec<u8>, NoMemory>
    ensures { IfOk result (λ text. text.items ≡ status_text status ++ 10 ∷ []) }
{
    let text = format!(in alloc; "{status}\n")?;
    Ok(Vec::from_slice(alloc, text.as_bytes())?)
}

/// `replica S R` or `client C`
fn party_text(alloc: Global, party: Party) -> Result<String, NoMemory>
    ensures { IfOk result (λ text. string_bytes text ≡ join_with_byte 32 (party_tokens party)) }
{
    match party {
        Party::Replica { shard, index } => Ok(format!(in alloc; "replica {shard} {index}")?),
        Party::Client { number } => Ok(format!(in alloc; "client {number}")?),
    }
}

/// `broken forged PARTY WORDS SIGNATURE`, or `broken collision BYTES BYTES`
fn broken_text(alloc: Global, broken: &Broken) -> Result<Vec<u8>, NoMemory>
    ensures { IfOk result (λ text. text.items ≡ text_of (outcomes.Broken broken.now)) }
{
    let text = match broken {
        Broken::Forged {
            party,
            words,
            signature,
        } => {
            let party = party_text(alloc, *party)?;
            let words = encode(alloc, words.bytes())?;
            let signature = encode(alloc, signature.as_slice())?;
            format!(in alloc; "broken forged {party} {words} {signature}\n")?
        }
        Broken::Collision { first, second } => {
            let first = encode(alloc, first.as_slice())?;
            let second = encode(alloc, second.as_slice())?;
            format!(in alloc; "broken collision {first} {second}\n")?
        }
    };
    Ok(Vec::from_slice(alloc, text.as_bytes())?)
}

/// `refused R`, `refused R LEVEL`, or `refused R LEVEL` and the number of what LMS refuses there
fn level_text(alloc: Global, refusal: &HssRefusal) -> Result<Vec<u8>, NoMemory>
    ensures { IfOk result (λ text. text.items ≡ text_of (outcomes.RefusedAt refusal.now)) }
{
    let number = refusal.number();
    let text = match refusal {
        HssRefusal::SetType(level) | HssRefusal::Short(level) => {
            format!(in alloc; "refused {number} {level}\n")?
        }
        HssRefusal::Lms { level, refusal } => {
            let lms = refusal.number();
            format!(in alloc; "refused {number} {level} {lms}\n")?
        }
        _ => format!(in alloc; "refused {number}\n")?,
    };
    Ok(Vec::from_slice(alloc, text.as_bytes())?)
}

/// The text of an ending.
pub(crate) fn text_of_ending(alloc: Global, ending: &Ending) -> Result<Vec<u8>, NoMemory>
    ensures { IfOk result (λ text. text.items ≡ text_of (outcome_is ending.now)) }
{
    match ending {
        Ending::Written(text) => Ok(Vec::from_slice(alloc, text.as_slice())?),
        Ending::Broken(broken) => broken_text(alloc, broken),
        Ending::RefusedAt(refusal) => level_text(alloc, refusal),
        Ending::Stray(line) => Ok(Vec::from_slice(alloc, line.as_slice())?),
        _ => line_of(alloc, status_of_ending(ending)),
    }
}

/// The status of an ending.
pub(crate) fn status_of_ending(ending: &Ending) -> Status
    ensures { result ≡ status_of (outcome_is ending.now) }
{
    match ending {
        Ending::BadLine { line, reason } => Status::BadInput {
            line: *line,
            reason: *reason,
        },
        Ending::Written(_) => Status::Done,
        Ending::Broken(_) => Status::Broken,
        Ending::Refused { reason } => Status::Refused { reason: *reason },
        Ending::RefusedAt(refusal) => Status::Refused {
            reason: refusal.number(),
        },
        Ending::Stray(_) => Status::Refused { reason: 0 },
        Ending::Full { messages, bytes } => Status::Full {
            messages: *messages,
            bytes: *bytes,
        },
        Ending::Undecided { replies } => Status::Undecided { replies: *replies },
        Ending::TooLong => Status::TooLong,
    }
}
