//! What proves a transaction's decision to anybody (Basil, section 4.3).

ghost use Rattle.std.specs.Prelude.{◌≡◌, ◌<◌, ◌∷◌, ◌++◌, [], IfOk, length};
ghost use Rattle.client_core.specs.Shown.{own, ShowsClient};
ghost use Rattle.client_core.specs.Clients.{ClientValue};
ghost use Rattle.client_text.specs.Certifying.{certified, writeback_line};
ghost use Rattle.frame_values.specs.Owned.{certificate_value};
ghost use Rattle.frame_views.specs.Fitting.{FitsCertificate, widest};
ghost use Rattle.hex.specs.Hex.{encode_lower};

use crate::handing::put_hex;
use basil_types::bytes::Bytes;
use basil_types::memory::NoMemory;
use basil_types::transaction::Transaction;
use client_core::Client;
use frame_values::lending::WritebackParts;
use frame_values::owned::Certificate;
use frame_writing::put_writeback_parts;
use keyring::signer::Signer;
use keyring::verifier::Verifier;
use std::alloc::Global;

/// Bytes in hex, in a line.
fn hex_line(alloc: Global, bytes: &[u8]) -> Result<Bytes, NoMemory>
    ensures { IfOk result (λ text. text ≡ encode_lower bytes.now ++ 10 ∷ []) }
{
    let mut out = Vec::new(alloc);
    put_hex(alloc, &mut out, bytes)?;
    out.push(b'\n')?;
    Ok(Bytes::from_vec(out))
}

/// The frame of a writeback, in hex.
fn writeback_text(
    alloc: Global,
    transaction: &Transaction,
    certificate: &Certificate,
) -> Result<Bytes, NoMemory>
    requires { FitsCertificate widest (certificate_value certificate.now) }
    ensures { IfOk result (λ text. text ≡ writeback_line (record {
      transaction = transaction.now;
      certificate = certificate_value certificate.now;
    })) }
{
    let mut frame = Vec::new(alloc);
    let writeback = WritebackParts {
        transaction: transaction.view(),
        certificate,
    };
    put_writeback_parts(&writeback, &mut frame)?;
    hex_line(alloc, frame.as_slice())
}

/// A line with the frame of the writeback of the transaction in a slot, in hex: the transaction, and the certificate
/// that proves its decision. Nothing before it is decided.
pub fn certify<V: Verifier, S: Signer>(
    alloc: Global,
    client: &Client<V, S>,
    slot: u32,
) -> Result<Bytes, NoMemory>
    requires { slot < length client.now.held.slots.items }
    ensures { (v : ClientValue) → ShowsClient client.now v →
        IfOk result (λ text. text ≡ certified (own client.now) slot v) }
{
    let _ = client.slots();
    match client.formed(slot) {
        Some((transaction, _)) => match client.outcome(slot) {
            Some((_, certificate)) => writeback_text(alloc, transaction, certificate),
            None => Ok(Bytes::from_vec(Vec::new(alloc))),
        },
        None => Ok(Bytes::from_vec(Vec::new(alloc))),
    }
}
