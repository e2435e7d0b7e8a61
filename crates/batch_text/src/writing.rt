//! The signatures of a sealed batch as text.

ghost use Rattle.std.specs.Prelude.{◌≡◌, ◌++◌, IfOk, OnOk};
ghost use Rattle.batch_text.specs.Texts as texts;
ghost use Rattle.batch_text.specs.Texts.{signatures_of};

use basil_types::bytes::Bytes;
use basil_types::memory::NoMemory;
use batch_sign::SealedBatch;
use std::alloc::Global;

/// Writes bytes in lower-case hex, on a line.
fn put_line(alloc: Global, bytes: &[u8], out: &mut Vec<u8>) -> Result<(), NoMemory>
    ensures { OnOk result (out.new.items ≡ out.old.items ++ texts.hex_line bytes.now) }
{
    let text = hex::encode(alloc, bytes)?;
    out.extend_from_slice(text.as_bytes())?;
    out.push(b'\n')?;
    Ok(())
}

/// The signatures of a sealed batch, in order, each in lower-case hex on a line.
pub fn signature_lines(alloc: Global, sealed: &SealedBatch) -> Result<Bytes, NoMemory>
    ensures { IfOk result (λ text. text ≡ signatures_of sealed.now) }
{
    let mut text = Vec::new(alloc);
    for place in 0..sealed.count() {
        match sealed.signature(place) {
            Some(signature) => put_line(alloc, signature, &mut text)?,
            None => unreachable!(),
        }
    }
    Ok(Bytes::from_vec(text))
}
