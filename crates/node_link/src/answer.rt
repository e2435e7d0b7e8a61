//! Answers in bytes.

ghost use Rattle.std.specs.Prelude.{◌≡◌, ◌++◌, ◌+◌, ◌*◌, ◌^◌, ◌<◌, ◌≤◌, [], IfOk, IfSome, length, vec_len};
ghost use Rattle.std.specs.Prelude.{vec_capacity};
ghost use Rattle.std.specs.Int.{w32, to_be_bytes};
ghost use Rattle.std.specs.List.{flat_map};
ghost use Rattle.node_link.specs.Answering as answers;
ghost use Rattle.node_link.specs.Answering.{answer_bytes, envelope_bytes};

use basil_types::memory::NoMemory;
use basil_types::outbox::Envelope;
use basil_types::party::party_bytes;
use std::alloc::Global;

/// How many bytes an answer of so many messages has, whose frames have so many bytes together; none where that number
/// has no four bytes.
fn answer_size(messages: u64, bytes: u64) -> Option<u32>
    ensures { IfSome result (λ n. n ≡ 4 + (7 * messages + bytes)) }
{
    let size = messages.checked_mul(7)?.checked_add(bytes)?.checked_add(4)?;
    u32::try_from(size).ok()
}

/// Room for an answer of so many messages, whose frames have so many bytes together; or memory is wanting, also where
/// the number of its bytes has no four bytes.
pub(crate) fn answer_room(alloc: Global, messages: u64, bytes: u64) -> Result<Vec<u8>, NoMemory>
    ensures empty { IfOk result (λ out. out.items ≡ []) }
    ensures short { IfOk result (λ _. 4 + (7 * messages + bytes) < 2 ^ 32) }
    ensures room { IfOk result (λ out. 4 + (7 * messages + bytes) ≤ vec_capacity out) }
{
    let size = answer_size(messages, bytes).ok_or(NoMemory)?;
    let mut out = Vec::new(alloc);
    out.reserve(size as usize)?;
    Ok(out)
}

/// Appends bytes for which there is room.
pub(crate) fn put(out: &mut Vec<u8>, bytes: &[u8])
    requires { vec_len out.old + length bytes.now ≤ vec_capacity out.old }
    ensures appended { out.new.items ≡ out.old.items ++ bytes.now }
    ensures room { vec_capacity out.old ≤ vec_capacity out.new }
{
    out.extend_from_slice(bytes).unwrap();
}

/// Appends a count in four bytes, for which there is room.
pub(crate) fn put_count(out: &mut Vec<u8>, count: usize)
    requires few { count < 2 ^ 32 }
    requires room { vec_len out.old + 4 ≤ vec_capacity out.old }
    ensures appended { out.new.items ≡ out.old.items ++ to_be_bytes w32 count }
    ensures room { vec_capacity out.old ≤ vec_capacity out.new }
{
    put(out, &(count as u32).to_be_bytes());
}

/// Appends an envelope, for which there is room.
fn put_envelope(out: &mut Vec<u8>, envelope: &Envelope)
    requires short { length (envelope_bytes envelope.now) < 2 ^ 32 }
    requires room { vec_len out.old + length (envelope_bytes envelope.now) ≤ vec_capacity out.old }
    ensures appended { out.new.items ≡ out.old.items ++ envelope_bytes envelope.now }
    ensures room { vec_capacity out.old ≤ vec_capacity out.new }
{
    put(out, &party_bytes(envelope.to));
    let frame = envelope.frame.as_slice();
    put_count(out, frame.len());
    put(out, frame);
}

/// Appends envelopes in order, for which there is room.
fn put_envelopes(out: &mut Vec<u8>, envelopes: &[Envelope])
    requires short { length (flat_map envelope_bytes envelopes.now) < 2 ^ 32 }
    requires room { vec_len out.old + length (flat_map envelope_bytes envelopes.now) ≤ vec_capacity out.old }
    ensures { out.new.items ≡ out.old.items ++ flat_map envelope_bytes envelopes.now }
{
    for envelope in envelopes {
        put_envelope(out, envelope);
    }
}

/// Appends the answer of which these are the envelopes, for which there is room. Takes no memory.
pub(crate) fn put_answer(out: &mut Vec<u8>, sent: &[Envelope])
    requires short { length (answer_bytes sent.now) < 2 ^ 32 }
    requires room { vec_len out.old + length (answer_bytes sent.now) ≤ vec_capacity out.old }
    ensures { out.new.items ≡ out.old.items ++ answer_bytes sent.now }
{
    put_count(out, sent.len());
    put_envelopes(out, sent);
}
