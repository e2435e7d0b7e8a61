//! Reading a line.

ghost use Rattle.std.specs.Prelude.{◌≡◌, ◌≢◌, IfOk, IfErr, option_copied, bytes_eq, codes};
ghost use Rattle.line_fields.specs.Tokens.{tokens, tokens_after};
ghost use Rattle.schedule_text.specs.Lines.{line_of};
ghost use Rattle.schedule_text.specs.Reading;
ghost use Rattle.schedule_text.specs.Reading.{line_at, line_value, said};

use crate::kinds::clients::{
    read_begin, read_claim, read_delete, read_invoke, read_prepare, read_read, read_recover,
    read_settle, read_write,
};
use crate::kinds::header::read_header;
use crate::kinds::messages::{
    read_deliver, read_divert, read_faulty, read_lose, read_raw, read_round, read_show,
};
use crate::kinds::replicas::{
    read_clock, read_decide, read_elect, read_logged, read_second, read_stop, read_vote,
};
use crate::kinds::{Kind, kind_of};
use crate::line::{Line, LineFault};
use basil_types::memory::NoMemory;
use line_fields::complaint::Complaint;
use line_fields::fields::spellings::is_text;
use line_fields::limits::{is_too_long, read_numbered};
use line_fields::tokens::cut;
use std::alloc::Global;

#[tactic(auto, unfolding(crate::specs::Lines::line_of))]
/// What the tokens behind the first one say.
fn read_rest(
    alloc: Global,
    kind: Kind,
    rest: Option<&[u8]>,
) -> Result<Result<Line, Complaint>, NoMemory>
    ensures { IfOk result (λ r. r ≡ line_of kind (tokens_after (option_copied rest.entry))) }
{
    match kind {
        Kind::Basil => Ok(read_header(rest)),
        Kind::Faulty => Ok(read_faulty(rest)),
        Kind::Begin => read_begin(alloc, rest),
        Kind::Read => read_read(alloc, rest),
        Kind::Write => read_write(alloc, rest),
        Kind::Delete => read_delete(alloc, rest),
        Kind::Claim => read_claim(alloc, rest),
        Kind::Prepare => read_prepare(alloc, rest),
        Kind::Settle => read_settle(alloc, rest),
        Kind::Recover => read_recover(alloc, rest),
        Kind::Invoke => read_invoke(alloc, rest),
        Kind::Round => Ok(read_round(rest)),
        Kind::Deliver => Ok(read_deliver(rest)),
        Kind::Lose => Ok(read_lose(rest)),
        Kind::Divert => Ok(read_divert(rest)),
        Kind::Clock => Ok(read_clock(rest)),
        Kind::Vote => read_vote(alloc, rest),
        Kind::Second => read_second(alloc, rest),
        Kind::Logged => read_logged(alloc, rest),
        Kind::Elect => read_elect(alloc, rest),
        Kind::Decide => read_decide(alloc, rest),
        Kind::Raw => read_raw(alloc, rest),
        Kind::Show => read_show(alloc, rest),
        Kind::Stop => read_stop(alloc, rest),
    }
}

#[tactic(auto, unfolding(crate::specs::Reading::said))]
/// What the tokens of a line say.
fn read_tokens(alloc: Global, line: &[u8]) -> Result<Result<Line, Complaint>, NoMemory>
    ensures { IfOk result (λ r. r ≡ said (tokens line.now)) }
{
    let (first, rest) = cut(line);
    match kind_of(first) {
        Some(kind) => read_rest(alloc, kind, rest),
        None => Ok(Err(Complaint::Misspelt)),
    }
}

/// Whether a line is empty or begins with `#`.
pub fn is_skipped(line: &[u8]) -> bool
    ensures { result ≡ Reading.is_skipped line.now }
{
    match line {
        [] => true,
        [first, ..] => *first == b'#',
    }
}

#[tactic(auto, unfolding(crate::specs::Reading::line_value))]
/// What a line says by itself, whatever its length and number.
fn read_value(alloc: Global, line: &[u8]) -> Result<Result<Line, Complaint>, NoMemory>
    ensures { IfOk result (λ r. r ≡ line_value line.now) }
{
    if is_skipped(line) {
        return Ok(Ok(Line::Skipped));
    }
    read_tokens(alloc, line)
}

#[tactic(auto, unfolding(crate::specs::Reading::line_at))]
/// Reads one line of a schedule, without its newline. `number` is its place in the schedule, from 1.
///
/// A refused line gives its number and its first reason of those that the line and its number show alone. A line above
/// 2,200,000 bytes is `OutOfSize`, and none of its bytes is looked at. Otherwise the least reason counts: `NoHeader`
/// for a header whose cluster is refused, `Misspelt`, `OutOfRange` for a number out of form or out of the widest range
/// that any cluster gives, `OutOfSize` for a key, value or frame out of size and for a line behind the millionth.
/// Skipped lines have these limits too. A schedule's first line, and a later header, have reasons of their own, which
/// are the caller's.
pub fn read_line(alloc: Global, line: &[u8], number: u64) -> Result<Line, LineFault>
    ensures value { IfOk result (λ value. line_at line.now number ≡ Ok value) }
    ensures refused { IfErr result (λ fault. fault ≢ LineFault.NoMemory → line_at line.now number ≡ Err fault) }
{
    if is_too_long(line) {
        return Err(LineFault::BadLine {
            number,
            reason: Complaint::OutOfSize.reason(),
        });
    }
    let Ok(value) = read_value(alloc, line) else {
        return Err(LineFault::NoMemory);
    };
    match read_numbered(value, number) {
        Ok(line) => Ok(line),
        Err(complaint) => Err(LineFault::BadLine {
            number,
            reason: complaint.reason(),
        }),
    }
}

#[tactic(auto, unfolding(crate::specs::Reading::is_header))]
/// Whether a line's first token is `basil`. Looks at no byte behind that token.
pub fn is_header(line: &[u8]) -> bool
    ensures { result ≡ Reading.is_header line.now }
{
    let (first, _rest) = cut(line);
    is_text(first, b"basil")
}
