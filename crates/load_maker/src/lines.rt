//! The lines of a load.

ghost use Rattle.std.specs.Prelude.{◌≡◌, ◌++◌, ◌∷◌, OnOk, IfOk, decimal};
ghost use Rattle.load_maker.specs.Loads as loads;
ghost use Rattle.load_maker.specs.Loads.{line_text, text_of};

use crate::draws::Draw;
use basil_types::bytes::Bytes;
use basil_types::cluster::Cluster;
use basil_types::memory::NoMemory;
use itoa::Buffer;
use line_fields::keys_kind::KeysKind;
use schedule_text::line::Line;
use schedule_text::writing::write_line;
use std::alloc::Global;

/// A letter, and a number in decimal digits.
fn lettered(alloc: Global, letter: u8, number: u64) -> Result<Bytes, NoMemory>
    ensures { IfOk result (λ token. token ≡ letter ∷ decimal number) }
{
    let mut buffer = Buffer::new();
    let mut token = Vec::from_slice(alloc, &[letter])?;
    token.extend_from_slice(buffer.format(number).as_bytes())?;
    Ok(Bytes::from_vec(token))
}

/// The name of a transaction.
fn name_of(alloc: Global, number: u64) -> Result<Bytes, NoMemory>
    ensures { IfOk result (λ name. name ≡ loads.name_of number) }
{
    lettered(alloc, b't', number)
}

/// The value that a transaction writes.
fn value_of(alloc: Global, number: u64) -> Result<Bytes, NoMemory>
    ensures { IfOk result (λ value. value ≡ loads.value_of number) }
{
    lettered(alloc, b'v', number)
}

/// The key of a number.
fn key_of(alloc: Global, number: u8) -> Result<Bytes, NoMemory>
    ensures { IfOk result (λ key. key ≡ loads.key_of number) }
{
    lettered(alloc, b'k', u64::from(number))
}

/// Appends a line.
fn put(out: &mut Vec<u8>, line: &Line) -> Result<(), NoMemory>
    ensures { OnOk result (out.new.items ≡ out.old.items ++ line_text line.now) }
{
    write_line(line, out)
}

/// Appends the header: two shards with f = 1, two replies for a read, a delta of 1,000,000, clocks at 0, plain keys.
pub(crate) fn put_header(out: &mut Vec<u8>) -> Result<(), NoMemory>
    ensures { OnOk result (out.new.items ≡ out.old.items ++ line_text loads.header) }
{
    match Cluster::new(1, 2, 2, 1_000_000) {
        Ok(cluster) => put(
            out,
            &Line::Header {
                cluster,
                clock: 0,
                keys: KeysKind::Plain,
                journal: false,
            },
        ),
        Err(_) => unreachable!(),
    }
}

#[tactic(auto, using(crate::proofs::LoadLaws::growing))]
/// Appends so many rounds.
pub(crate) fn put_rounds(out: &mut Vec<u8>, count: u8) -> Result<(), NoMemory>
    ensures { OnOk result (out.new.items ≡ out.old.items ++ text_of (loads.rounds count)) }
{
    for _ in 0..count {
        put(out, &Line::Round)?;
    }
    Ok(())
}

/// Appends the begin of a transaction and its read, and two rounds for its answers.
fn put_read(out: &mut Vec<u8>, number: u64, draw: Draw) -> Result<(), NoMemory>
    ensures { OnOk result (out.new.items ≡ out.old.items ++ text_of (loads.read_lines number draw)) }
{
    let alloc = *out.allocator();
    put(
        out,
        &Line::Begin {
            name: name_of(alloc, number)?,
            client: draw.client,
            time: number,
        },
    )?;
    put(
        out,
        &Line::Read {
            name: name_of(alloc, number)?,
            key: key_of(alloc, draw.key)?,
        },
    )?;
    put_rounds(out, 2)
}

/// Appends a write of a transaction to the key of this number.
fn put_write(out: &mut Vec<u8>, number: u64, key: u8) -> Result<(), NoMemory>
    ensures { OnOk result (out.new.items ≡ out.old.items ++ line_text (loads.write_line number key)) }
{
    let alloc = *out.allocator();
    put(
        out,
        &Line::Write {
            name: name_of(alloc, number)?,
            key: key_of(alloc, key)?,
            value: value_of(alloc, number)?,
        },
    )
}

/// Appends the writes of a transaction: one where the other key is the same, else two.
fn put_writes(out: &mut Vec<u8>, number: u64, draw: Draw) -> Result<(), NoMemory>
    ensures { OnOk result (out.new.items ≡ out.old.items ++ text_of (loads.write_lines number draw)) }
{
    put_write(out, number, draw.key)?;
    if draw.other == draw.key {
        return Ok(());
    }
    put_write(out, number, draw.other)
}

/// Appends the preparing of a transaction.
fn put_prepare(out: &mut Vec<u8>, number: u64) -> Result<(), NoMemory>
    ensures { OnOk result (out.new.items ≡ out.old.items ++ line_text (loads.prepare_line number)) }
{
    let name = name_of(*out.allocator(), number)?;
    put(out, &Line::Prepare { name })
}

/// Appends the lines of a transaction, up to the rounds behind its preparing.
pub(crate) fn put_transaction(out: &mut Vec<u8>, number: u64, draw: Draw) -> Result<(), NoMemory>
    ensures { OnOk result (out.new.items ≡ out.old.items ++ text_of (loads.transaction_lines number draw)) }
{
    put_read(out, number, draw)?;
    put_writes(out, number, draw)?;
    put_prepare(out, number)?;
    put_rounds(out, draw.rounds)
}

/// Appends that this client settles a transaction.
pub(crate) fn put_settle(out: &mut Vec<u8>, number: u64, client: u8) -> Result<(), NoMemory>
    ensures { OnOk result (out.new.items ≡ out.old.items ++ line_text (loads.settle_line number client)) }
{
    let name = name_of(*out.allocator(), number)?;
    put(out, &Line::Settle { name, client })
}
