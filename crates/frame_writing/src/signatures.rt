//! The signature's field, which ends each frame that a node signs as it sends it.

ghost use Rattle.std.specs.Prelude.{◌≡◌, ◌+◌, ◌++◌, ◌≤◌, length, OnOk, OnErr, vec_len, vec_capacity};
ghost use Rattle.basil_types.specs.Limits.{signature_limit};
ghost use Rattle.basil_types.specs.Transaction.{long_text};
ghost use Rattle.frame_views.specs.Fitting.{IsSignature};

use super::draft::Draft;
use super::fields::write_signature;
use basil_types::memory::NoMemory;

/// Appends a signature behind its length of two bytes, or finds memory wanting and leaves the bytes as they were.
pub fn put_signature(signature: &[u8], out: &mut Vec<u8>) -> Result<(), NoMemory>
    requires { IsSignature signature.now }
    ensures appends { OnOk result (out.new.items ≡ out.old.items ++ long_text signature.now) }
    ensures as_before { OnErr result (out.new.items ≡ out.old.items) }
{
    let mut draft = Draft::behind(out);
    let written = write_signature(signature, &mut draft);
    draft.end(written, out)
}

/// Appends a signature behind its length of two bytes, where room for both is reserved. Takes no memory.
pub fn put_signature_reserved(signature: &[u8], out: &mut Vec<u8>)
    requires short { length signature.now ≤ signature_limit }
    requires room { vec_len out.old + (2 + length signature.now) ≤ vec_capacity out.old }
    ensures appends { out.new.items ≡ out.old.items ++ long_text signature.now }
    ensures room { vec_capacity out.old ≤ vec_capacity out.new }
{
    let len = (signature.len() as u16).to_be_bytes();
    out.extend_from_slice(&len).unwrap();
    out.extend_from_slice(signature).unwrap();
}
