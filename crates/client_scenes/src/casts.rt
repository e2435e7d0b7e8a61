//! The transactions of a scene, and the tokens of its phrases.

use basil_types::bytes::id_of;
use basil_types::version::Version;
use std::alloc::{AllocError, Global};
use std::test::Fail;

/// A transaction of a scene: its name, its time and client, and its canonical bytes.
#[derive(Drop)]
pub(crate) struct Role {
    pub(crate) name: &'static str,
    pub(crate) time: u64,
    pub(crate) client: u8,
    pub(crate) bytes: Vec<u8>,
}

/// The token at a place of a text, from 0; empty where it has fewer.
pub(crate) fn token_at(text: &str, place: usize) -> &str {
    let mut tokens = text.split(' ');
    tokens.nth(place).unwrap_or("")
}

/// A text behind its first token; empty where it has no more.
pub(crate) fn behind_token(text: &str) -> &str {
    match text.split_once(' ') {
        Some((_, rest)) => rest,
        None => "",
    }
}

/// The first byte of a token; 0 where it is empty.
pub(crate) fn initial(token: &str) -> u8 {
    match token.as_bytes() {
        [first, ..] => *first,
        [] => 0,
    }
}

/// The number that the decimal digits of a token spell, whatever else stands between them.
pub(crate) fn number_of(token: &str) -> u64 {
    let mut number = 0u64;
    for byte in token.as_bytes() {
        if byte.is_ascii_digit() {
            let digit = byte.saturating_sub(b'0');
            number = number.saturating_mul(10).saturating_add(u64::from(digit));
        }
    }
    number
}

/// The same as a byte.
pub(crate) fn byte_of(token: &str) -> u8 {
    u8::try_from(number_of(token)).unwrap_or(u8::MAX)
}

/// The transaction of this name.
pub(crate) fn find<'a>(cast: &'a [Role], name: &str) -> Option<&'a Role> {
    for role in cast {
        if role.name == name {
            return Some(role);
        }
    }
    None
}

/// The same; fails where the cast has none.
pub(crate) fn role_named<'a>(cast: &'a [Role], name: &str) -> Result<&'a Role, Fail> {
    match find(cast, name) {
        Some(role) => Ok(role),
        None => Err(Fail::new("no transaction has this name")),
    }
}

/// The name of the transaction with this id.
pub(crate) fn name_with(cast: &[Role], id: &[u8; 32]) -> &'static str {
    for role in cast {
        if id_of(&role.bytes) == *id {
            return role.name;
        }
    }
    "another"
}

/// What a token like `a?B` tells of a read: the key, how, and whose version. `a=B` is a read of the version of B, or
/// for `-` of genesis; `a?B` is the same as a dependency.
#[derive(Clone, Copy)]
struct Reading<'a> {
    key: &'a str,
    mark: char,
    writer: &'a str,
}

fn marked(token: &str, mark: char) -> Option<Reading<'_>> {
    match token.split_once(mark) {
        Some((key, writer)) => Some(Reading { key, mark, writer }),
        None => None,
    }
}

fn read_in(token: &str) -> Option<Reading<'_>> {
    if initial(token) == b'+' {
        return None;
    }
    match marked(token, '?') {
        Some(told) => Some(told),
        None => marked(token, '='),
    }
}

/// What a token tells of a write: `+a=x2` gives a the value x2, `+a` the value x1, and `/a` deletes it.
#[derive(Clone, Copy)]
struct Writing<'a> {
    key: &'a str,
    value: Option<&'a str>,
}

fn value_in(token: &str) -> Option<Writing<'_>> {
    let told = token.strip_prefix('+')?;
    let (key, value) = told.split_once('=').unwrap_or((told, "x1"));
    Some(Writing {
        key,
        value: Some(value),
    })
}

fn write_in(token: &str) -> Option<Writing<'_>> {
    match token.strip_prefix('/') {
        Some(key) => Some(Writing { key, value: None }),
        None => value_in(token),
    }
}

fn count_reads(text: &str) -> u8 {
    let mut count = 0u8;
    for token in text.split(' ') {
        if read_in(token).is_some() {
            count = count.saturating_add(1);
        }
    }
    count
}

fn count_writes(text: &str) -> u8 {
    let mut count = 0u8;
    for token in text.split(' ') {
        if write_in(token).is_some() {
            count = count.saturating_add(1);
        }
    }
    count
}

/// The format of a transaction: 2 where it deletes, and else 1.
fn format_of(text: &str) -> u8 {
    if text.contains('/') { 2 } else { 1 }
}

/// The version that a transaction of the cast gives its keys.
pub(crate) fn version_of(role: &Role) -> Version {
    Version {
        time: role.time,
        client: role.client,
        id: id_of(&role.bytes),
    }
}

/// The version of the transaction of this name, or for `-` of genesis.
pub(crate) fn version_named(cast: &[Role], name: &str) -> Result<Version, Fail> {
    if name == "-" {
        return Ok(Version::genesis());
    }
    let role = role_named(cast, name)?;
    Ok(version_of(role))
}

fn put_version(out: &mut Vec<u8>, version: &Version) -> Result<(), AllocError> {
    out.extend_from_slice(&version.time.to_be_bytes())?;
    out.push(version.client)?;
    out.extend_from_slice(&version.id)
}

/// A text behind its length in one byte.
pub(crate) fn put_text(out: &mut Vec<u8>, text: &str) -> Result<(), AllocError> {
    out.push(u8::try_from(text.len()).unwrap_or(u8::MAX))?;
    out.extend_from_slice(text.as_bytes())
}

fn put_reads(out: &mut Vec<u8>, cast: &[Role], text: &str) -> Result<(), Fail> {
    out.push(count_reads(text))?;
    for token in text.split(' ') {
        if let Some(told) = read_in(token) {
            put_text(out, told.key)?;
            put_version(out, &version_named(cast, told.writer)?)?;
            out.push(u8::from(told.mark == '?'))?;
        }
    }
    Ok(())
}

/// A write's value, which a format that knows deletions flags.
fn put_value(out: &mut Vec<u8>, format: u8, value: Option<&str>) -> Result<(), AllocError> {
    if format == 2 {
        out.push(u8::from(value.is_some()))?;
    }
    match value {
        Some(value) => {
            out.push(0)?;
            put_text(out, value)
        }
        None => Ok(()),
    }
}

fn put_writes(out: &mut Vec<u8>, text: &str) -> Result<(), AllocError> {
    out.push(count_writes(text))?;
    for token in text.split(' ') {
        if let Some(told) = write_in(token) {
            put_text(out, told.key)?;
            put_value(out, format_of(text), told.value)?;
        }
    }
    Ok(())
}

/// The canonical bytes of the transaction that a text tells.
fn put_transaction(out: &mut Vec<u8>, cast: &[Role], text: &str) -> Result<(), Fail> {
    out.push(format_of(text))?;
    out.extend_from_slice(&number_of(token_at(text, 1)).to_be_bytes())?;
    out.push(byte_of(token_at(text, 2)))?;
    put_reads(out, cast, text)?;
    put_writes(out, text)?;
    Ok(())
}

/// The transaction that a text like `D 30 3 a?A b=- +c /d` tells: its name, its time and client, its reads, its writes.
fn role_of(alloc: Global, cast: &[Role], text: &'static str) -> Result<Role, Fail> {
    let mut bytes = Vec::new(alloc);
    put_transaction(&mut bytes, cast, text)?;
    Ok(Role {
        name: token_at(text, 0),
        time: number_of(token_at(text, 1)),
        client: byte_of(token_at(text, 2)),
        bytes,
    })
}

fn put_roles(alloc: Global, cast: &mut Vec<Role>, texts: &[&'static str]) -> Result<(), Fail> {
    for text in texts {
        let role = role_of(alloc, cast.as_slice(), text)?;
        cast.push(role)?;
    }
    Ok(())
}

/// The transactions that these texts tell. A text may name those before it.
pub(crate) fn cast_of(alloc: Global, texts: &[&'static str]) -> Result<Vec<Role>, Fail> {
    let mut cast = Vec::new(alloc);
    put_roles(alloc, &mut cast, texts)?;
    Ok(cast)
}
