//! What a client reports.

ghost use Rattle.std.specs.Prelude.{◌≡◌, ◌<◌, ◌++◌, ◌∷◌, [], codes, IfOk, OnOk, length};
ghost use Rattle.std.specs.List.{flat_map};
ghost use Rattle.client_core.specs.Shown.{own, ShowsClient};
ghost use Rattle.client_core.specs.Clients.{ClientValue};
ghost use Rattle.client_core.specs.Keeping.{told_state};
ghost use Rattle.client_link.specs.Running.{outcome_at, value_at};
ghost use Rattle.client_text.specs.Reports as reports;
ghost use Rattle.client_text.specs.Reports.{fate_line, keys_with, read_line, report_of, state_token};
ghost use Rattle.schedule_text.specs.Spelling.{key_token};

use basil_types::bytes::Bytes;
use basil_types::memory::NoMemory;
use basil_types::party::Decision;
use client_core::ordered::{Keyed, put_in};
use client_core::{Client, ReadState};
use client_link::Op;
use keyring::signer::Signer;
use keyring::verifier::Verifier;
use schedule_text::writing::{spell_key, spell_value};
use std::alloc::Global;

/// A key that is to be read.
#[derive(Drop)]
pub(crate) struct ReadKey {
    pub(crate) key: Bytes,
}

impl Keyed for ReadKey {
    ghost key_of = { λ k. k.key };

    fn key(&self) -> &[u8] {
        self.key.as_slice()
    }
}

/// Appends bytes, or memory is wanting.
fn put(out: &mut Vec<u8>, bytes: &[u8]) -> Result<(), NoMemory>
    ensures { OnOk result (out.new.items ≡ out.old.items ++ bytes.now) }
{
    out.extend_from_slice(bytes)?;
    Ok(())
}

/// The keys that are to be read, ascending, each once.
fn keys_of(alloc: Global, plan: &[Op]) -> Result<Vec<ReadKey>, NoMemory>
    ensures { IfOk result (λ keys. keys.items ≡ keys_with [] plan.now) }
{
    let mut keys = Vec::new(alloc);
    let mut left = plan;
    while let Some((op, others)) = left.split_first() {
        if let Op::Read { key } = op {
            let key = Bytes::copy_of(alloc, key.as_slice())?;
            put_in(&mut keys, ReadKey { key })?;
        }
        left = others;
    }
    Ok(keys)
}

/// A value, or `-` where there is none.
fn state_text(alloc: Global, state: ReadState<'_>) -> Result<Vec<u8>, NoMemory>
    ensures { IfOk result (λ token. token.items ≡ state_token (told_state state.entry)) }
{
    match state {
        ReadState::Found { value, .. } => spell_value(alloc, value),
        ReadState::Own { value } => spell_value(alloc, value),
        _ => Ok(Vec::from_slice(alloc, b"-")?),
    }
}

/// What a key gives to the transaction in a slot.
fn state_of<'a, V: Verifier, S: Signer>(
    client: &'a Client<V, S>,
    slot: u32,
    key: &[u8],
) -> ReadState<'a>
    requires { slot < length client.now.held.slots.items }
    ensures { (v : ClientValue) → ShowsClient client.now v →
        told_state result ≡ value_at (own client.now) slot key.now v }
{
    let _ = client.slots();
    client.value(slot, key)
}

/// `read KEY VALUE`
fn put_read<V: Verifier, S: Signer>(
    alloc: Global,
    client: &Client<V, S>,
    slot: u32,
    key: &[u8],
    out: &mut Vec<u8>,
) -> Result<(), NoMemory>
    requires { slot < length client.now.held.slots.items }
    ensures { (v : ClientValue) → ShowsClient client.now v → OnOk result
        (out.new.items ≡ out.old.items ++ read_line (own client.now) slot v (record { key = key.now })) }
{
    let value = state_text(alloc, state_of(client, slot, key))?;
    let key = spell_key(alloc, key)?;
    put(out, b"read ")?;
    put(out, &key)?;
    put(out, b" ")?;
    put(out, &value)?;
    put(out, b"\n")
}

/// `commit` or `abort`, or nothing where there is no decision.
fn put_fate<V: Verifier, S: Signer>(
    client: &Client<V, S>,
    slot: u32,
    out: &mut Vec<u8>,
) -> Result<(), NoMemory>
    requires { slot < length client.now.held.slots.items }
    ensures { (v : ClientValue) → ShowsClient client.now v → OnOk result
        (out.new.items ≡ out.old.items ++ fate_line (outcome_at (own client.now) slot v)) }
{
    let _ = client.slots();
    match client.outcome(slot) {
        Some((Decision::Commit, _)) => put(out, b"commit\n"),
        Some((Decision::Abort, _)) => put(out, b"abort\n"),
        None => put(out, b""),
    }
}

/// A line for each of these keys.
fn put_reads<V: Verifier, S: Signer>(
    alloc: Global,
    client: &Client<V, S>,
    slot: u32,
    keys: &[ReadKey],
    out: &mut Vec<u8>,
) -> Result<(), NoMemory>
    requires { slot < length client.now.held.slots.items }
    ensures { (v : ClientValue) → ShowsClient client.now v → OnOk result
        (out.new.items ≡ out.old.items ++ flat_map (read_line (own client.now) slot v) keys.now) }
{
    let mut left = keys;
    while let Some((first, others)) = left.split_first() {
        put_read(alloc, client, slot, first.key.as_slice(), out)?;
        left = others;
    }
    Ok(())
}

/// What became of the transaction in a slot, `commit` or `abort`, and a line `read KEY VALUE` for each key that was to
/// be read, ascending, with `-` where there is no value. Without a decision the first line is missing.
pub fn report<V: Verifier, S: Signer>(
    alloc: Global,
    client: &Client<V, S>,
    slot: u32,
    plan: &[Op],
) -> Result<Bytes, NoMemory>
    requires { slot < length client.now.held.slots.items }
    ensures { (v : ClientValue) → ShowsClient client.now v → IfOk result (λ text.
        text ≡ report_of (own client.now) slot plan.now v) }
{
    let keys = keys_of(alloc, plan)?;
    let mut out = Vec::new(alloc);
    put_fate(client, slot, &mut out)?;
    put_reads(alloc, client, slot, keys.as_slice(), &mut out)?;
    Ok(Bytes::from_vec(out))
}
