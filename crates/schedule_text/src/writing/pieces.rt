//! The pieces of a line, and how each is written.

ghost use Rattle.std.specs.Prelude.{◌≡◌, ◌++◌, ◌∷◌, [], decimal, OnOk, codes};
ghost use Rattle.std.specs.List.{flat_map};
ghost use Rattle.hex.specs.Hex.{encode_lower};
ghost use Rattle.schedule_text.specs.Spelling.{keys_token, decision_token, key_token, value_token};
ghost use Rattle.schedule_text.specs.Spelling.{spelled_byte, party_tokens, journal_tokens};
ghost use Rattle.schedule_text.specs.Pieces.{piece_tokens, spaced};

use basil_types::bytes::Bytes;
use basil_types::memory::NoMemory;
use basil_types::party::{Decision, Party};
use itoa::Buffer;
use line_fields::fields::escapes::is_plain;
use line_fields::keys_kind::KeysKind;

/// A piece of a line: mostly one token.
#[derive(Clone, Copy)]
pub enum Piece<'a> {
    /// A token as it stands.
    Text(&'a [u8]),
    /// A name.
    Name(&'a Bytes),
    /// A writer's name, or `-`.
    Writer(&'a Option<Bytes>),
    /// A number in decimal digits.
    Number(u64),
    /// A shard, a replica or a client in decimal digits.
    Small(u8),
    /// A number behind its label.
    Labelled(&'a [u8], u64),
    /// How the parties sign, behind `keys=`.
    Keys(KeysKind),
    /// The token `journal`, or no token.
    Journal(bool),
    /// A party: two or three tokens.
    Named(Party),
    /// `commit` or `abort`.
    Decided(Decision),
    /// A key's bytes.
    Key(&'a Bytes),
    /// A value's bytes.
    Value(&'a Bytes),
    /// Bytes in hex.
    Hex(&'a Bytes),
}

const HEX_DIGITS: &[u8; 16] = b"0123456789abcdef";

/// Appends a text.
fn push_text(out: &mut Vec<u8>, text: &[u8]) -> Result<(), NoMemory>
    ensures { OnOk result (out.new.items ≡ out.old.items ++ text.now) }
{
    out.extend_from_slice(text)?;
    Ok(())
}

/// Appends a space and a text.
fn push_token(out: &mut Vec<u8>, token: &[u8]) -> Result<(), NoMemory>
    ensures { OnOk result (out.new.items ≡ out.old.items ++ 32 ∷ token.now) }
{
    out.push(b' ')?;
    push_text(out, token)
}

/// Appends a number's decimal digits.
fn push_number(out: &mut Vec<u8>, number: u64) -> Result<(), NoMemory>
    ensures { OnOk result (out.new.items ≡ out.old.items ++ decimal number) }
{
    let mut buffer = Buffer::new();
    push_text(out, buffer.format(number).as_bytes())
}

/// Appends a byte that stands for itself, or its escape.
fn push_escaped_byte(out: &mut Vec<u8>, byte: u8) -> Result<(), NoMemory>
    ensures { OnOk result (out.new.items ≡ out.old.items ++ spelled_byte byte) }
{
    if is_plain(byte) {
        push_text(out, &[byte])
    } else {
        let high = HEX_DIGITS[usize::from(byte / 16)];
        let low = HEX_DIGITS[usize::from(byte % 16)];
        push_text(out, &[b'%', high, low])
    }
}

/// Appends bytes, each by itself or by its escape.
pub(crate) fn push_escaped(out: &mut Vec<u8>, bytes: &[u8]) -> Result<(), NoMemory>
    ensures { OnOk result (out.new.items ≡ out.old.items ++ flat_map spelled_byte bytes.now) }
{
    for byte in bytes {
        push_escaped_byte(out, *byte)?;
    }
    Ok(())
}

/// Appends bytes in hex.
fn push_hex(out: &mut Vec<u8>, bytes: &[u8]) -> Result<(), NoMemory>
    ensures { OnOk result (out.new.items ≡ out.old.items ++ encode_lower bytes.now) }
{
    let text = hex::encode(*out.allocator(), bytes)?;
    push_text(out, text.as_bytes())
}

/// Appends a space and a number's decimal digits.
fn push_number_token(out: &mut Vec<u8>, number: u64) -> Result<(), NoMemory>
    ensures { OnOk result (out.new.items ≡ out.old.items ++ 32 ∷ decimal number) }
{
    out.push(b' ')?;
    push_number(out, number)
}

/// Appends a space, a label and a number's decimal digits.
fn push_labelled(out: &mut Vec<u8>, label: &[u8], number: u64) -> Result<(), NoMemory>
    ensures { OnOk result (out.new.items ≡ out.old.items ++ 32 ∷ (label.now ++ decimal number)) }
{
    push_token(out, label)?;
    push_number(out, number)
}

/// Appends a space and how the parties sign, behind its label.
fn push_keys(out: &mut Vec<u8>, keys: KeysKind) -> Result<(), NoMemory>
    ensures { OnOk result (out.new.items ≡ out.old.items ++ 32 ∷ (codes "keys=" ++ keys_token keys)) }
{
    match keys {
        KeysKind::Plain => push_token(out, b"keys=plain"),
        KeysKind::W4H5 => push_token(out, b"keys=w4h5"),
        KeysKind::W4H10 => push_token(out, b"keys=w4h10"),
        KeysKind::W8H5 => push_token(out, b"keys=w8h5"),
        KeysKind::W8H10 => push_token(out, b"keys=w8h10"),
        KeysKind::Batch => push_token(out, b"keys=batch"),
    }
}

/// Appends a space and a decision.
fn push_decision(out: &mut Vec<u8>, decision: Decision) -> Result<(), NoMemory>
    ensures { OnOk result (out.new.items ≡ out.old.items ++ 32 ∷ decision_token decision) }
{
    match decision {
        Decision::Commit => push_token(out, b"commit"),
        Decision::Abort => push_token(out, b"abort"),
    }
}

/// Appends a space and a key.
fn push_key(out: &mut Vec<u8>, bytes: &[u8]) -> Result<(), NoMemory>
    ensures { OnOk result (out.new.items ≡ out.old.items ++ 32 ∷ key_token bytes.now) }
{
    out.push(b' ')?;
    push_escaped(out, bytes)
}

/// Appends a space and a value; the empty one is `%`.
fn push_value(out: &mut Vec<u8>, bytes: &[u8]) -> Result<(), NoMemory>
    ensures { OnOk result (out.new.items ≡ out.old.items ++ 32 ∷ value_token bytes.now) }
{
    if bytes.is_empty() {
        push_token(out, b"%")
    } else {
        push_key(out, bytes)
    }
}

/// Appends a party's tokens, each behind a space.
fn push_party(out: &mut Vec<u8>, party: Party) -> Result<(), NoMemory>
    ensures { OnOk result (out.new.items ≡ out.old.items ++ spaced (party_tokens party)) }
{
    match party {
        Party::Replica { shard, index } => {
            push_token(out, b"replica")?;
            push_number_token(out, u64::from(shard))?;
            push_number_token(out, u64::from(index))
        }
        Party::Client { number } => {
            push_token(out, b"client")?;
            push_number_token(out, u64::from(number))
        }
    }
}

/// Appends a space and bytes in hex.
fn push_hex_token(out: &mut Vec<u8>, bytes: &[u8]) -> Result<(), NoMemory>
    ensures { OnOk result (out.new.items ≡ out.old.items ++ 32 ∷ encode_lower bytes.now) }
{
    out.push(b' ')?;
    push_hex(out, bytes)
}

/// Appends a piece's tokens, each behind a space.
pub fn push_piece(out: &mut Vec<u8>, piece: Piece) -> Result<(), NoMemory>
    ensures { OnOk result (out.new.items ≡ out.old.items ++ spaced (piece_tokens piece.entry)) }
{
    match piece {
        Piece::Text(text) => push_token(out, text),
        Piece::Name(name) => push_token(out, name.as_slice()),
        Piece::Writer(None) => push_token(out, b"-"),
        Piece::Writer(Some(name)) => push_token(out, name.as_slice()),
        Piece::Number(number) => push_number_token(out, number),
        Piece::Small(number) => push_number_token(out, u64::from(number)),
        Piece::Labelled(label, number) => push_labelled(out, label, number),
        Piece::Keys(keys) => push_keys(out, keys),
        Piece::Journal(true) => push_token(out, b"journal"),
        Piece::Journal(false) => Ok(()),
        Piece::Named(party) => push_party(out, party),
        Piece::Decided(decision) => push_decision(out, decision),
        Piece::Key(bytes) => push_key(out, bytes.as_slice()),
        Piece::Value(bytes) => push_value(out, bytes.as_slice()),
        Piece::Hex(bytes) => push_hex_token(out, bytes.as_slice()),
    }
}
