//! Lines of clients: transactions, and the calls on them.

ghost use Rattle.std.specs.Prelude.{◌≡◌, IfOk, option_copied, List, ℕ};
ghost use Rattle.line_fields.specs.Tokens.{tokens_after};
ghost use Rattle.schedule_text.specs.Lines.{begin, read, write_of, delete, claim};
ghost use Rattle.schedule_text.specs.Lines.{prepare, call, settle, recover, invoke};

use crate::line::Line;
use basil_types::bytes::Bytes;
use basil_types::memory::NoMemory;
use line_fields::complaint::{Complaint, read_all3, read_both};
use line_fields::fields::escapes::{read_key, read_value};
use line_fields::fields::names::{read_name, read_writer};
use line_fields::fields::numbers::{read_client, read_number};
use line_fields::tokens::{one, three, two};
use std::alloc::Global;

#[tactic(auto, unfolding(crate::specs::Lines::begin))]
/// `begin NAME C TIME`
pub fn read_begin(alloc: Global, rest: Option<&[u8]>) -> Result<Result<Line, Complaint>, NoMemory>
    ensures { IfOk result (λ r. r ≡ begin (tokens_after (option_copied rest.entry))) }
{
    let Some((name, client, time)) = three(rest) else {
        return Ok(Err(Complaint::Misspelt));
    };
    let fields = read_all3(
        read_name(alloc, name)?,
        read_client(client),
        read_number(time),
    );
    match fields {
        Ok((name, client, time)) => Ok(Ok(Line::Begin { name, client, time })),
        Err(complaint) => Ok(Err(complaint)),
    }
}

#[tactic(auto, unfolding(crate::specs::Lines::read))]
/// `read NAME KEY`
pub fn read_read(alloc: Global, rest: Option<&[u8]>) -> Result<Result<Line, Complaint>, NoMemory>
    ensures { IfOk result (λ r. r ≡ read (tokens_after (option_copied rest.entry))) }
{
    let Some((name, key)) = two(rest) else {
        return Ok(Err(Complaint::Misspelt));
    };
    let fields = read_both(read_name(alloc, name)?, read_key(alloc, key)?);
    match fields {
        Ok((name, key)) => Ok(Ok(Line::Read { name, key })),
        Err(complaint) => Ok(Err(complaint)),
    }
}

#[tactic(auto, unfolding(crate::specs::Lines::write_of))]
/// `write NAME KEY VALUE`
pub fn read_write(alloc: Global, rest: Option<&[u8]>) -> Result<Result<Line, Complaint>, NoMemory>
    ensures { IfOk result (λ r. r ≡ write_of (tokens_after (option_copied rest.entry))) }
{
    let Some((name, key, value)) = three(rest) else {
        return Ok(Err(Complaint::Misspelt));
    };
    let fields = read_all3(
        read_name(alloc, name)?,
        read_key(alloc, key)?,
        read_value(alloc, value)?,
    );
    match fields {
        Ok((name, key, value)) => Ok(Ok(Line::Write { name, key, value })),
        Err(complaint) => Ok(Err(complaint)),
    }
}

#[tactic(auto, unfolding(crate::specs::Lines::delete))]
/// `delete NAME KEY`
pub fn read_delete(alloc: Global, rest: Option<&[u8]>) -> Result<Result<Line, Complaint>, NoMemory>
    ensures { IfOk result (λ r. r ≡ delete (tokens_after (option_copied rest.entry))) }
{
    let Some((name, key)) = two(rest) else {
        return Ok(Err(Complaint::Misspelt));
    };
    let fields = read_both(read_name(alloc, name)?, read_key(alloc, key)?);
    match fields {
        Ok((name, key)) => Ok(Ok(Line::Delete { name, key })),
        Err(complaint) => Ok(Err(complaint)),
    }
}

#[tactic(auto, unfolding(crate::specs::Lines::claim))]
/// `claim NAME KEY WRITER`
pub fn read_claim(alloc: Global, rest: Option<&[u8]>) -> Result<Result<Line, Complaint>, NoMemory>
    ensures { IfOk result (λ r. r ≡ claim (tokens_after (option_copied rest.entry))) }
{
    let Some((name, key, writer)) = three(rest) else {
        return Ok(Err(Complaint::Misspelt));
    };
    let fields = read_all3(
        read_name(alloc, name)?,
        read_key(alloc, key)?,
        read_writer(alloc, writer)?,
    );
    match fields {
        Ok((name, key, writer)) => Ok(Ok(Line::Claim { name, key, writer })),
        Err(complaint) => Ok(Err(complaint)),
    }
}

#[tactic(auto, unfolding(crate::specs::Lines::prepare))]
/// `prepare NAME`
pub fn read_prepare(alloc: Global, rest: Option<&[u8]>) -> Result<Result<Line, Complaint>, NoMemory>
    ensures { IfOk result (λ r. r ≡ prepare (tokens_after (option_copied rest.entry))) }
{
    let Some(name) = one(rest) else {
        return Ok(Err(Complaint::Misspelt));
    };
    let fields = read_name(alloc, name)?;
    match fields {
        Ok(name) => Ok(Ok(Line::Prepare { name })),
        Err(complaint) => Ok(Err(complaint)),
    }
}

#[tactic(auto, unfolding(crate::specs::Lines::call))]
/// `NAME C`: a client, and the transaction that it is to go on with.
fn read_call(alloc: Global, rest: Option<&[u8]>) -> Result<Result<(Bytes, u8), Complaint>, NoMemory>
    ensures { IfOk result (λ r. r ≡ call (tokens_after (option_copied rest.entry))) }
{
    let Some((name, client)) = two(rest) else {
        return Ok(Err(Complaint::Misspelt));
    };
    Ok(read_both(read_name(alloc, name)?, read_client(client)))
}

#[tactic(auto, unfolding(crate::specs::Lines::settle))]
/// `settle NAME C`
pub fn read_settle(alloc: Global, rest: Option<&[u8]>) -> Result<Result<Line, Complaint>, NoMemory>
    ensures { IfOk result (λ r. r ≡ settle (tokens_after (option_copied rest.entry))) }
{
    match read_call(alloc, rest)? {
        Ok((name, client)) => Ok(Ok(Line::Settle { name, client })),
        Err(complaint) => Ok(Err(complaint)),
    }
}

#[tactic(auto, unfolding(crate::specs::Lines::recover))]
/// `recover NAME C`
pub fn read_recover(alloc: Global, rest: Option<&[u8]>) -> Result<Result<Line, Complaint>, NoMemory>
    ensures { IfOk result (λ r. r ≡ recover (tokens_after (option_copied rest.entry))) }
{
    match read_call(alloc, rest)? {
        Ok((name, client)) => Ok(Ok(Line::Recover { name, client })),
        Err(complaint) => Ok(Err(complaint)),
    }
}

#[tactic(auto, unfolding(crate::specs::Lines::invoke))]
/// `invoke NAME C`
pub fn read_invoke(alloc: Global, rest: Option<&[u8]>) -> Result<Result<Line, Complaint>, NoMemory>
    ensures { IfOk result (λ r. r ≡ invoke (tokens_after (option_copied rest.entry))) }
{
    match read_call(alloc, rest)? {
        Ok((name, client)) => Ok(Ok(Line::Invoke { name, client })),
        Err(complaint) => Ok(Err(complaint)),
    }
}
