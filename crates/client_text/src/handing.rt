//! A transaction that was formed, handed over.

ghost use Rattle.std.specs.Prelude.{◌≡◌, ◌<◌, ◌∷◌, ◌++◌, [], OnOk, IfOk, length, option_and_then};
ghost use Rattle.std.specs.Result.{result_ok};
ghost use Rattle.client_core.specs.Shown.{ShowsClient};
ghost use Rattle.client_core.specs.Clients.{ClientValue};
ghost use Rattle.client_text.specs.Handing.{handed_over, if_signature, signed_line, signed_of, transaction_spelled};
ghost use Rattle.hex.specs.Hex.{encode_lower};
ghost use Rattle.line_fields.specs.Fields.{hex};

use basil_types::bytes::Bytes;
use basil_types::limits::SIGNATURE_LIMIT;
use basil_types::memory::NoMemory;
use basil_types::transaction::{Transaction, TransactionView};
use client_core::Client;
use client_link::Signed;
use keyring::signer::Signer;
use keyring::verifier::Verifier;
use line_fields::fields::frames::read_hex;
use std::alloc::Global;

/// Appends bytes in lower-case hex, or memory is wanting.
pub(crate) fn put_hex(alloc: Global, out: &mut Vec<u8>, bytes: &[u8]) -> Result<(), NoMemory>
    ensures { OnOk result (out.new.items ≡ out.old.items ++ encode_lower bytes.now) }
{
    let text = hex::encode(alloc, bytes)?;
    out.extend_from_slice(text.as_bytes())?;
    Ok(())
}

/// Two byte strings in hex, in a line.
fn hex_pair(alloc: Global, first: &[u8], second: &[u8]) -> Result<Bytes, NoMemory>
    ensures { IfOk result (λ text. text ≡ encode_lower first.now ++ 32 ∷ encode_lower second.now ++ 10 ∷ []) }
{
    let mut out = Vec::new(alloc);
    put_hex(alloc, &mut out, first)?;
    out.push(b' ')?;
    put_hex(alloc, &mut out, second)?;
    out.push(b'\n')?;
    Ok(Bytes::from_vec(out))
}

/// `TRANSACTION SIGNATURE`
fn signed_text(
    alloc: Global,
    transaction: &Transaction,
    signature: &[u8],
) -> Result<Bytes, NoMemory>
    ensures { IfOk result (λ text.
        text ≡ signed_line (record { transaction = transaction.now; signature = signature.now })) }
{
    hex_pair(alloc, transaction.view().bytes(), signature)
}

/// A line with the transaction in a slot and its client's signature, both in hex; nothing before it is formed.
pub fn hand_over<V: Verifier, S: Signer>(
    alloc: Global,
    client: &Client<V, S>,
    slot: u32,
) -> Result<Bytes, NoMemory>
    requires { slot < length client.now.held.slots.items }
    ensures { (v : ClientValue) → ShowsClient client.now v → IfOk result (λ text. text ≡ handed_over slot v) }
{
    let _ = client.slots();
    match client.formed(slot) {
        Some((transaction, signature)) => signed_text(alloc, transaction, signature),
        None => Ok(Bytes::from_vec(Vec::new(alloc))),
    }
}

/// The transaction that bytes spell, whole.
fn spelled(alloc: Global, bytes: &[u8]) -> Result<Option<Transaction>, NoMemory>
    ensures { IfOk result (λ t. t ≡ transaction_spelled bytes.now) }
{
    match TransactionView::read(bytes, 0) {
        Ok(view) => {
            if view.bytes().len() == bytes.len() {
                Ok(Some(view.try_owned(alloc)?))
            } else {
                Ok(None)
            }
        }
        Err(_) => Ok(None),
    }
}

/// A transaction's canonical bytes in hex.
fn read_transaction(alloc: Global, token: &[u8]) -> Result<Option<Transaction>, NoMemory>
    ensures { IfOk result (λ t. t ≡ option_and_then transaction_spelled (result_ok (hex token.now))) }
{
    match read_hex(alloc, token)? {
        Ok(bytes) => spelled(alloc, bytes.as_slice()),
        Err(_) => Ok(None),
    }
}

/// A signature of 1 to 8,192 bytes in hex.
fn read_signature(alloc: Global, token: &[u8]) -> Result<Option<Bytes>, NoMemory>
    ensures { IfOk result (λ s. s ≡ option_and_then if_signature (result_ok (hex token.now))) }
{
    match read_hex(alloc, token)? {
        Ok(bytes) => {
            let length = bytes.as_slice().len();
            if 1 <= length && length <= SIGNATURE_LIMIT {
                Ok(Some(bytes))
            } else {
                Ok(None)
            }
        }
        Err(_) => Ok(None),
    }
}

/// The transaction and the signature that two tokens spell, both in hex; none where one is misspelt or out of size.
pub fn read_signed(
    alloc: Global,
    transaction: &[u8],
    signature: &[u8],
) -> Result<Option<Signed>, NoMemory>
    ensures { IfOk result (λ x. x ≡ signed_of transaction.now signature.now) }
{
    let Some(transaction) = read_transaction(alloc, transaction)? else {
        return Ok(None);
    };
    match read_signature(alloc, signature)? {
        Some(signature) => Ok(Some(Signed::new(transaction, signature))),
        None => Ok(None),
    }
}
