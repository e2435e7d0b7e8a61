//! Reading a line of an audit's input.

ghost use Rattle.std.specs.Prelude.{◌≡◌, ◌≢◌, IfOk, IfErr, OnErr, Ok, Err, option_copied};
ghost use Rattle.audit_text.specs.Grammar as grammar;
ghost use Rattle.audit_text.specs.Grammar.{by_token, said, line_value, line_at};
ghost use Rattle.audit_text.specs.Parts.{Reads};
ghost use Rattle.line_fields.specs.Tokens.{tokens, tokens_after};

use crate::line::AuditLine;
use crate::stop::Stop;
use basil_types::memory::NoMemory;
use line_fields::complaint::{Complaint, read_all3, read_both};
use line_fields::fields::escapes::{read_key, read_value};
use line_fields::fields::names::{read_name, read_writer};
use line_fields::fields::numbers::{read_client, read_number};
use line_fields::fields::spellings::is_text;
use line_fields::limits::{LONGEST_LINE, read_numbered};
use line_fields::tokens::{cut, three, two};
use schedule_text::reading::is_skipped;
use std::alloc::Global;

#[tactic(auto, unfolding(crate::specs::Grammar::tx))]
/// `tx NAME TIME C`
fn read_tx(alloc: Global, rest: Option<&[u8]>) -> Result<Result<AuditLine, Complaint>, NoMemory>
    ensures { IfOk result (λ r. r ≡ grammar.tx (tokens_after (option_copied rest.entry))) }
{
    let Some((name, time, client)) = three(rest) else {
        return Ok(Err(Complaint::Misspelt));
    };
    let fields = read_all3(
        read_name(alloc, name)?,
        read_number(time),
        read_client(client),
    );
    match fields {
        Ok((name, time, client)) => Ok(Ok(AuditLine::Tx { name, time, client })),
        Err(complaint) => Ok(Err(complaint)),
    }
}

#[tactic(auto, unfolding(crate::specs::Grammar::read))]
/// `read NAME KEY WRITER`
fn read_read(alloc: Global, rest: Option<&[u8]>) -> Result<Result<AuditLine, Complaint>, NoMemory>
    ensures { IfOk result (λ r. r ≡ grammar.read (tokens_after (option_copied rest.entry))) }
{
    let Some((name, key, writer)) = three(rest) else {
        return Ok(Err(Complaint::Misspelt));
    };
    let fields = read_all3(
        read_name(alloc, name)?,
        read_key(alloc, key)?,
        read_writer(alloc, writer)?,
    );
    match fields {
        Ok((name, key, writer)) => Ok(Ok(AuditLine::Read { name, key, writer })),
        Err(complaint) => Ok(Err(complaint)),
    }
}

#[tactic(auto, unfolding(crate::specs::Grammar::write))]
/// `write NAME KEY VALUE`
fn read_write(alloc: Global, rest: Option<&[u8]>) -> Result<Result<AuditLine, Complaint>, NoMemory>
    ensures { IfOk result (λ r. r ≡ grammar.write (tokens_after (option_copied rest.entry))) }
{
    let Some((name, key, value)) = three(rest) else {
        return Ok(Err(Complaint::Misspelt));
    };
    let fields = read_all3(
        read_name(alloc, name)?,
        read_key(alloc, key)?,
        read_value(alloc, value)?,
    );
    match fields {
        Ok((name, key, value)) => Ok(Ok(AuditLine::Write { name, key, value })),
        Err(complaint) => Ok(Err(complaint)),
    }
}

#[tactic(auto, unfolding(crate::specs::Grammar::delete))]
/// `delete NAME KEY`
fn read_delete(alloc: Global, rest: Option<&[u8]>) -> Result<Result<AuditLine, Complaint>, NoMemory>
    ensures { IfOk result (λ r. r ≡ grammar.delete (tokens_after (option_copied rest.entry))) }
{
    let Some((name, key)) = two(rest) else {
        return Ok(Err(Complaint::Misspelt));
    };
    let fields = read_both(read_name(alloc, name)?, read_key(alloc, key)?);
    match fields {
        Ok((name, key)) => Ok(Ok(AuditLine::Delete { name, key })),
        Err(complaint) => Ok(Err(complaint)),
    }
}

#[tactic(auto, unfolding(crate::specs::Grammar::by_token))]
/// What the tokens behind the first one say.
fn read_rest(
    alloc: Global,
    first: &[u8],
    rest: Option<&[u8]>,
) -> Result<Result<AuditLine, Complaint>, NoMemory>
    ensures { IfOk result (λ r. r ≡ by_token first.now (tokens_after (option_copied rest.entry))) }
{
    if is_text(first, b"tx") {
        read_tx(alloc, rest)
    } else if is_text(first, b"read") {
        read_read(alloc, rest)
    } else if is_text(first, b"write") {
        read_write(alloc, rest)
    } else if is_text(first, b"delete") {
        read_delete(alloc, rest)
    } else {
        Ok(Err(Complaint::Misspelt))
    }
}

#[tactic(auto, unfolding(crate::specs::Grammar::said))]
/// What the tokens of a line say.
fn read_tokens(alloc: Global, line: &[u8]) -> Result<Result<AuditLine, Complaint>, NoMemory>
    ensures { IfOk result (λ r. r ≡ said (tokens line.now)) }
{
    let (first, rest) = cut(line);
    read_rest(alloc, first, rest)
}

#[tactic(auto, unfolding(crate::specs::Grammar::line_value))]
/// What a line says by itself, whatever its length and number.
fn read_value_of(alloc: Global, line: &[u8]) -> Result<Result<AuditLine, Complaint>, NoMemory>
    ensures { IfOk result (λ r. r ≡ line_value line.now) }
{
    if is_skipped(line) {
        return Ok(Ok(AuditLine::Skipped));
    }
    read_tokens(alloc, line)
}

#[tactic(auto, unfolding(crate::specs::Grammar::line_at))]
/// Reads a line, without its newline, with its number, from 1.
pub(crate) fn read_line(alloc: Global, line: &[u8], number: u64) -> Result<AuditLine, Stop>
    ensures { Reads result (line_at line.now number) }
{
    if line.len() > LONGEST_LINE {
        return Err(Stop::Refused {
            reason: Complaint::OutOfSize.reason(),
        });
    }
    match read_numbered(read_value_of(alloc, line)?, number) {
        Ok(line) => Ok(line),
        Err(complaint) => Err(Stop::Refused {
            reason: complaint.reason(),
        }),
    }
}

#[tactic(auto, unfolding(crate::specs::Grammar::is_tx))]
/// Whether a line's first token is `tx`. Looks at no byte behind that token.
pub(crate) fn is_tx(line: &[u8]) -> bool
    ensures { result ≡ grammar.is_tx line.now }
{
    let (first, _rest) = cut(line);
    is_text(first, b"tx")
}
