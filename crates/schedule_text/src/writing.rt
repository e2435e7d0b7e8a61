//! Writing a line.

ghost use Rattle.std.specs.Prelude.{◌≡◌, ◌++◌, ◌∷◌, [], OnOk, OnErr, IfOk};
ghost use Rattle.std.specs.List.{flat_map, join_with_byte};
ghost use Rattle.schedule_text.specs.Spelling.{spelling, key_token, value_token};
ghost use Rattle.schedule_text.specs.Pieces.{piece_tokens, spaced};

mod pieces;

use crate::line::Line;
use crate::writing::pieces::Piece::{
    Decided, Hex, Journal, Key, Keys, Labelled, Name, Named, Number, Small, Text, Value, Writer,
};
use crate::writing::pieces::{Piece, push_escaped, push_piece};
use basil_types::cluster::Cluster;
use basil_types::memory::NoMemory;
use line_fields::keys_kind::KeysKind;
use std::alloc::Global;

/// Appends these pieces, each token behind a space.
fn push_pieces(out: &mut Vec<u8>, pieces: &[Piece]) -> Result<(), NoMemory>
    ensures { OnOk result (out.new.items ≡ out.old.items ++ spaced (flat_map piece_tokens pieces.now)) }
{
    for piece in pieces {
        push_piece(out, *piece)?;
    }
    Ok(())
}

#[tactic(auto, using(crate::proofs::Joining::joins))]
/// The text of a first token and the pieces behind it.
fn text_of_pieces(alloc: Global, first: &[u8], pieces: &[Piece]) -> Result<Vec<u8>, NoMemory>
    ensures { IfOk result (λ text. text.items ≡ join_with_byte 32 (first.now ∷ flat_map piece_tokens pieces.now)) }
{
    let mut text = Vec::from_slice(alloc, first)?;
    push_pieces(&mut text, pieces)?;
    Ok(text)
}

#[tactic(auto, unfolding(crate::specs::Spelling::line_tokens))]
/// The text of a header.
fn text_of_header(
    alloc: Global,
    cluster: Cluster,
    clock: u64,
    keys: KeysKind,
    journal: bool,
) -> Result<Vec<u8>, NoMemory>
    ensures { IfOk result (λ text. text.items ≡ spelling (Line.Header cluster clock keys journal)) }
{
    text_of_pieces(
        alloc,
        b"basil",
        &[
            Text(b"1"),
            Labelled(b"f=", u64::from(cluster.f)),
            Labelled(b"shards=", u64::from(cluster.shards)),
            Labelled(b"reads=", u64::from(cluster.reads)),
            Labelled(b"delta=", cluster.delta),
            Labelled(b"clock=", clock),
            Keys(keys),
            Journal(journal),
        ],
    )
}

#[tactic(auto, unfolding(crate::specs::Spelling::line_tokens))]
/// The text of a line, kind by kind.
fn text_of(alloc: Global, line: &Line) -> Result<Vec<u8>, NoMemory>
    ensures { IfOk result (λ text. text.items ≡ spelling line.now) }
{
    match line {
        Line::Header {
            cluster,
            clock,
            keys,
            journal,
        } => text_of_header(alloc, *cluster, *clock, *keys, *journal),
        Line::Skipped => Ok(Vec::new(alloc)),
        Line::Faulty { party } => text_of_pieces(alloc, b"faulty", &[Named(*party)]),
        Line::Begin { name, client, time } => text_of_pieces(
            alloc,
            b"begin",
            &[Name(name), Small(*client), Number(*time)],
        ),
        Line::Read { name, key } => text_of_pieces(alloc, b"read", &[Name(name), Key(key)]),
        Line::Write { name, key, value } => text_of_pieces(
            alloc,
            b"write",
            &[Name(name), Key(key), Value(value)],
        ),
        Line::Delete { name, key } => text_of_pieces(alloc, b"delete", &[Name(name), Key(key)]),
        Line::Claim { name, key, writer } => text_of_pieces(
            alloc,
            b"claim",
            &[Name(name), Key(key), Writer(writer)],
        ),
        Line::Prepare { name } => text_of_pieces(alloc, b"prepare", &[Name(name)]),
        Line::Settle { name, client } => text_of_pieces(
            alloc,
            b"settle",
            &[Name(name), Small(*client)],
        ),
        Line::Recover { name, client } => text_of_pieces(
            alloc,
            b"recover",
            &[Name(name), Small(*client)],
        ),
        Line::Invoke { name, client } => text_of_pieces(
            alloc,
            b"invoke",
            &[Name(name), Small(*client)],
        ),
        Line::Round => text_of_pieces(alloc, b"round", &[]),
        Line::Deliver { message } => text_of_pieces(alloc, b"deliver", &[Number(*message)]),
        Line::Lose { message } => text_of_pieces(alloc, b"lose", &[Number(*message)]),
        Line::Divert { message, to } => text_of_pieces(
            alloc,
            b"divert",
            &[Number(*message), Named(*to)],
        ),
        Line::Clock {
            shard,
            replica,
            moment,
        } => text_of_pieces(
            alloc,
            b"clock",
            &[Small(*shard), Small(*replica), Number(*moment)],
        ),
        Line::Vote {
            shard,
            replica,
            name,
            decision,
            client,
        } => text_of_pieces(
            alloc,
            b"vote",
            &[
                Small(*shard),
                Small(*replica),
                Name(name),
                Decided(*decision),
                Small(*client),
            ],
        ),
        Line::Second {
            name,
            decision,
            replica,
        } => text_of_pieces(
            alloc,
            b"second",
            &[Name(name), Decided(*decision), Small(*replica)],
        ),
        Line::Logged {
            shard,
            replica,
            name,
            decision,
            decided,
            current,
            client,
        } => text_of_pieces(
            alloc,
            b"logged",
            &[
                Small(*shard),
                Small(*replica),
                Name(name),
                Decided(*decision),
                Number(*decided),
                Number(*current),
                Small(*client),
            ],
        ),
        Line::Elect {
            shard,
            replica,
            name,
            decision,
            view,
        } => text_of_pieces(
            alloc,
            b"elect",
            &[
                Small(*shard),
                Small(*replica),
                Name(name),
                Decided(*decision),
                Number(*view),
            ],
        ),
        Line::Decide {
            shard,
            replica,
            name,
            decision,
            view,
            to,
        } => text_of_pieces(
            alloc,
            b"decide",
            &[
                Small(*shard),
                Small(*replica),
                Name(name),
                Decided(*decision),
                Number(*view),
                Small(*to),
            ],
        ),
        Line::Raw { from, to, frame } => text_of_pieces(
            alloc,
            b"raw",
            &[Named(*from), Named(*to), Hex(frame)],
        ),
        Line::Show { frame } => text_of_pieces(alloc, b"show", &[Hex(frame)]),
        Line::Stop {
            shard,
            replica,
            message,
            write,
            bytes,
        } => text_of_pieces(
            alloc,
            b"stop",
            &[
                Small(*shard),
                Small(*replica),
                Number(*message),
                Number(*write),
                Hex(bytes),
            ],
        ),
    }
}

/// Appends the one spelling of a line, and its newline; a skipped line is spelled as an empty one. Where memory is
/// wanting, `out` is as before.
pub fn write_line(line: &Line, out: &mut Vec<u8>) -> Result<(), NoMemory>
    ensures appended { OnOk result (out.new.items ≡ out.old.items ++ spelling line.now ++ 10 ∷ []) }
    ensures as_before { OnErr result (out.new.items ≡ out.old.items) }
{
    let mut text = text_of(*out.allocator(), line)?;
    text.push(b'\n')?;
    out.extend_from_slice(&text)?;
    Ok(())
}

/// The token that spells a key, or want of memory.
pub fn spell_key(alloc: Global, key: &[u8]) -> Result<Vec<u8>, NoMemory>
    ensures { IfOk result (λ token. token.items ≡ key_token key.now) }
{
    let mut token = Vec::new(alloc);
    push_escaped(&mut token, key)?;
    Ok(token)
}

/// The token that spells a value, or want of memory.
pub fn spell_value(alloc: Global, value: &[u8]) -> Result<Vec<u8>, NoMemory>
    ensures { IfOk result (λ token. token.items ≡ value_token value.now) }
{
    if value.is_empty() {
        return Ok(Vec::from_slice(alloc, b"%")?);
    }
    spell_key(alloc, value)
}
