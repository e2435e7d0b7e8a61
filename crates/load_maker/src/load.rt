//! A load: the schedule that a number and a count of transactions give.

ghost use Rattle.std.specs.Prelude.{◌≡◌, ◌<◌, IfOk, OnOk};
ghost use Rattle.std.specs.Result.{IsErrOf};
ghost use Rattle.basil_types.specs.Causes.{Rose, TookAll, TookPrefix};
ghost use Rattle.load_maker.specs.Loads.{text_of_load};

use crate::draws::{next_draw, stream_of};
use crate::fault::MakeFault;
use crate::lines::{put_header, put_rounds, put_settle, put_transaction};
use basil_types::memory::NoMemory;
use basil_types::sink::Sink;
use std::alloc::Global;

#[tactic(auto, using(crate::proofs::LoadLaws::parts))]
/// The text of a load of so many transactions, or want of memory. A transaction takes some 120 bytes.
///
/// The words are those of ChaCha20 (RFC 8439, section 2.3, with a 64-bit counter and a 64-bit nonce of 0), whose key is
/// the seed as 8 bytes, the lowest first, and 24 zero bytes. Behind the header stand the transactions from 1 on. Each
/// draws four words: a client, 1 and the first modulo 8; the number of a key, the second modulo 16; that of another
/// key, the third modulo 16; and a number of rounds, the fourth modulo 4. It begins with its number as its time, reads
/// the key, writes it after two rounds, writes the other key too where it isn't the same, and is prepared before its
/// rounds. Then the client of each transaction settles it, and four rounds end the schedule.
pub fn schedule_of(alloc: Global, seed: u64, count: u32) -> Result<Vec<u8>, NoMemory>
    ensures { IfOk result (λ text. text.items ≡ text_of_load seed count) }
{
    let mut text = Vec::new(alloc);
    put_header(&mut text)?;
    let mut settles = Vec::new(alloc);
    let mut stream = stream_of(seed);
    for before in 0..u64::from(count) {
        let draw = next_draw(&mut stream);
        put_transaction(&mut text, before + 1, draw)?;
        put_settle(&mut settles, before + 1, draw.client)?;
    }
    text.extend_from_slice(&settles)?;
    put_rounds(&mut text, 4)?;
    Ok(text)
}

/// Writes the text of a load of so many transactions. Where memory is wanting nothing was written, and where the sink
/// failed some of it.
pub fn make_lines<K: Sink>(
    alloc: Global,
    seed: u64,
    count: u32,
    sink: &mut K,
) -> Result<(), MakeFault>
    ensures written { OnOk result (TookAll (K.taken sink.old) (K.taken sink.new) (text_of_load seed count)) }
    ensures prefix { TookPrefix (K.taken sink.old) (K.taken sink.new) (text_of_load seed count) }
    ensures cause { IsErrOf result MakeFault.WriteFault → Rose (K.faults sink.old) (K.faults sink.new) }
    ensures told { K.faults sink.old < K.faults sink.new → IsErrOf result MakeFault.WriteFault }
    ensures spared { IsErrOf result MakeFault.NoMemory → sink.new ≡ sink.old }
{
    let text = schedule_of(alloc, seed, count)?;
    match sink.write(&text) {
        Ok(()) => Ok(()),
        Err(_) => Err(MakeFault::WriteFault),
    }
}
