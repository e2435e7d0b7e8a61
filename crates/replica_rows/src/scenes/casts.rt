//! The transactions of a scene, and the tokens of its phrases.

use basil_types::bytes::id_of;
use std::alloc::{AllocError, Global};
use std::test::Fail;

/// A transaction of a scene: its name, its time and client, and its canonical bytes.
#[derive(Drop)]
pub(crate) struct Role {
    pub(crate) name: &'static str,
    pub(crate) time: u64,
    pub(crate) client: u8,
    pub(crate) bytes: Vec<u8>,
}

/// The token at a place of a phrase, from 0; empty where it has fewer.
pub(crate) fn token_at(phrase: &str, place: usize) -> &str {
    let mut tokens = phrase.split(' ');
    tokens.nth(place).unwrap_or("")
}

/// The first byte of a token; 0 where it is empty.
pub(crate) fn initial(token: &str) -> u8 {
    match token.as_bytes() {
        [first, ..] => *first,
        [] => 0,
    }
}

/// The number that the decimal digits of a token spell, whatever else stands between them.
pub(crate) fn number_of(token: &str) -> u64 {
    let mut number = 0u64;
    for byte in token.as_bytes() {
        if byte.is_ascii_digit() {
            let digit = byte.saturating_sub(b'0');
            number = number.saturating_mul(10).saturating_add(u64::from(digit));
        }
    }
    number
}

/// The same as a byte.
pub(crate) fn byte_of(token: &str) -> u8 {
    u8::try_from(number_of(token)).unwrap_or(u8::MAX)
}

/// The transaction of this name.
pub(crate) fn find<'a>(cast: &'a [Role], name: &str) -> Option<&'a Role> {
    for role in cast {
        if role.name == name {
            return Some(role);
        }
    }
    None
}

/// The same; fails where the cast has none.
pub(crate) fn role_named<'a>(cast: &'a [Role], name: &str) -> Result<&'a Role, Fail> {
    match find(cast, name) {
        Some(role) => Ok(role),
        None => Err(Fail::new("no transaction has this name")),
    }
}

/// The name of the transaction with this id.
pub(crate) fn name_with(cast: &[Role], id: &[u8; 32]) -> &'static str {
    for role in cast {
        if id_of(&role.bytes) == *id {
            return role.name;
        }
    }
    "another"
}

/// What a token like `a?B` tells of a read: the key, how, and whose version. `a=B` is a read of the version of B, or
/// for `-` of genesis; `a?B` is the same as a dependency; `a~B` depends on a version of B's id and a later time.
#[derive(Clone, Copy)]
struct Reading<'a> {
    key: &'a str,
    mark: char,
    writer: &'a str,
}

fn marked(token: &str, mark: char) -> Option<Reading<'_>> {
    match token.split_once(mark) {
        Some((key, writer)) => Some(Reading { key, mark, writer }),
        None => None,
    }
}

fn read_in(token: &str) -> Option<Reading<'_>> {
    if initial(token) == b'+' {
        return None;
    }
    for mark in ['=', '?', '~'] {
        if let Some(told) = marked(token, mark) {
            return Some(told);
        }
    }
    None
}

/// What a token like `+a=x2` tells of a write: the key, and the value, which is x1 where none is told.
#[derive(Clone, Copy)]
struct Writing<'a> {
    key: &'a str,
    value: &'a str,
}

fn write_in(token: &str) -> Option<Writing<'_>> {
    let told = token.strip_prefix('+')?;
    match told.split_once('=') {
        Some((key, value)) => Some(Writing { key, value }),
        None => Some(Writing {
            key: told,
            value: "x1",
        }),
    }
}

fn count_reads(text: &str) -> u8 {
    let mut count = 0u8;
    for token in text.split(' ') {
        if read_in(token).is_some() {
            count = count.saturating_add(1);
        }
    }
    count
}

fn count_writes(text: &str) -> u8 {
    let mut count = 0u8;
    for token in text.split(' ') {
        if write_in(token).is_some() {
            count = count.saturating_add(1);
        }
    }
    count
}

/// The version of a transaction of the cast, or of genesis.
fn put_version(out: &mut Vec<u8>, cast: &[Role], told: Reading<'_>) -> Result<(), Fail> {
    if told.writer == "-" {
        out.extend_from_slice(&[0u8; 41])?;
        return Ok(());
    }
    let writer = role_named(cast, told.writer)?;
    let time = writer.time.saturating_add(u64::from(told.mark == '~'));
    out.extend_from_slice(&time.to_be_bytes())?;
    out.push(writer.client)?;
    out.extend_from_slice(&id_of(&writer.bytes))?;
    Ok(())
}

/// A text behind its length in one byte.
pub(crate) fn put_text(out: &mut Vec<u8>, text: &str) -> Result<(), AllocError> {
    out.push(u8::try_from(text.len()).unwrap_or(u8::MAX))?;
    out.extend_from_slice(text.as_bytes())
}

fn put_reads(out: &mut Vec<u8>, cast: &[Role], text: &str) -> Result<(), Fail> {
    out.push(count_reads(text))?;
    for token in text.split(' ') {
        if let Some(told) = read_in(token) {
            put_text(out, told.key)?;
            put_version(out, cast, told)?;
            out.push(u8::from(told.mark != '='))?;
        }
    }
    Ok(())
}

fn put_writes(out: &mut Vec<u8>, text: &str) -> Result<(), AllocError> {
    out.push(count_writes(text))?;
    for token in text.split(' ') {
        if let Some(told) = write_in(token) {
            put_text(out, told.key)?;
            out.push(0)?;
            put_text(out, told.value)?;
        }
    }
    Ok(())
}

/// The canonical bytes of the transaction that a text tells.
fn put_transaction(out: &mut Vec<u8>, cast: &[Role], text: &str) -> Result<(), Fail> {
    out.push(1)?;
    out.extend_from_slice(&number_of(token_at(text, 1)).to_be_bytes())?;
    out.push(byte_of(token_at(text, 2)))?;
    put_reads(out, cast, text)?;
    put_writes(out, text)?;
    Ok(())
}

/// The transaction that a text like `D 30 3 a?A b=- +c` tells: its name, its time and client, its reads, its writes.
fn role_of(alloc: Global, cast: &[Role], text: &'static str) -> Result<Role, Fail> {
    let mut bytes = Vec::new(alloc);
    put_transaction(&mut bytes, cast, text)?;
    Ok(Role {
        name: token_at(text, 0),
        time: number_of(token_at(text, 1)),
        client: byte_of(token_at(text, 2)),
        bytes,
    })
}

/// The transactions that these texts tell. A text may name those before it.
pub(crate) fn cast_of(alloc: Global, texts: &[&'static str]) -> Result<Vec<Role>, Fail> {
    let mut cast = Vec::new(alloc);
    for text in texts {
        let role = role_of(alloc, &cast, text)?;
        cast.push(role)?;
    }
    Ok(cast)
}
