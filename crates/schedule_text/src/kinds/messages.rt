//! Lines on the messages of the pool, on parties and on frames.

ghost use Rattle.std.specs.Prelude.{◌≡◌, IfOk, option_copied};
ghost use Rattle.line_fields.specs.Tokens.{tokens_after};
ghost use Rattle.line_fields.specs.Parties.{only_party};
ghost use Rattle.schedule_text.specs.Lines.{round, deliver, lose, divert, faulty, raw, show};

use crate::line::Line;
use basil_types::memory::NoMemory;
use basil_types::party::Party;
use line_fields::complaint::{Complaint, read_all3, read_both};
use line_fields::fields::frames::read_frame;
use line_fields::fields::numbers::read_number;
use line_fields::fields::parties::read_party;
use line_fields::tokens::{next, one};
use std::alloc::Global;

#[tactic(auto, unfolding(crate::specs::Lines::round))]
/// `round`
pub fn read_round(rest: Option<&[u8]>) -> Result<Line, Complaint>
    ensures { result ≡ round (tokens_after (option_copied rest.entry)) }
{
    match next(rest) {
        None => Ok(Line::Round),
        Some(_) => Err(Complaint::Misspelt),
    }
}

#[tactic(auto, unfolding(crate::specs::Lines::deliver))]
/// `deliver I`
pub fn read_deliver(rest: Option<&[u8]>) -> Result<Line, Complaint>
    ensures { result ≡ deliver (tokens_after (option_copied rest.entry)) }
{
    let Some(message) = one(rest) else {
        return Err(Complaint::Misspelt);
    };
    match read_number(message) {
        Ok(message) => Ok(Line::Deliver { message }),
        Err(complaint) => Err(complaint),
    }
}

#[tactic(auto, unfolding(crate::specs::Lines::lose))]
/// `lose I`
pub fn read_lose(rest: Option<&[u8]>) -> Result<Line, Complaint>
    ensures { result ≡ lose (tokens_after (option_copied rest.entry)) }
{
    let Some(message) = one(rest) else {
        return Err(Complaint::Misspelt);
    };
    match read_number(message) {
        Ok(message) => Ok(Line::Lose { message }),
        Err(complaint) => Err(complaint),
    }
}

#[tactic(auto, unfolding(line_fields::specs::Parties::only_party))]
/// A party, and no token behind.
fn read_only_party(rest: Option<&[u8]>) -> Result<Party, Complaint>
    ensures { result ≡ only_party (tokens_after (option_copied rest.entry)) }
{
    let Some((party, rest)) = read_party(rest) else {
        return Err(Complaint::Misspelt);
    };
    match next(rest) {
        None => party,
        Some(_) => Err(Complaint::Misspelt),
    }
}

#[tactic(auto, unfolding(crate::specs::Lines::faulty))]
/// `faulty PARTY`
pub fn read_faulty(rest: Option<&[u8]>) -> Result<Line, Complaint>
    ensures { result ≡ faulty (tokens_after (option_copied rest.entry)) }
{
    match read_only_party(rest) {
        Ok(party) => Ok(Line::Faulty { party }),
        Err(complaint) => Err(complaint),
    }
}

#[tactic(auto, unfolding(crate::specs::Lines::divert))]
/// `divert I PARTY`
pub fn read_divert(rest: Option<&[u8]>) -> Result<Line, Complaint>
    ensures { result ≡ divert (tokens_after (option_copied rest.entry)) }
{
    let Some((message, rest)) = next(rest) else {
        return Err(Complaint::Misspelt);
    };
    match read_both(read_number(message), read_only_party(rest)) {
        Ok((message, to)) => Ok(Line::Divert { message, to }),
        Err(complaint) => Err(complaint),
    }
}

#[tactic(auto, unfolding(crate::specs::Lines::raw))]
/// `raw PARTY PARTY HEX`
pub fn read_raw(alloc: Global, rest: Option<&[u8]>) -> Result<Result<Line, Complaint>, NoMemory>
    ensures { IfOk result (λ r. r ≡ raw (tokens_after (option_copied rest.entry))) }
{
    let Some((from, rest)) = read_party(rest) else {
        return Ok(Err(Complaint::Misspelt));
    };
    let Some((to, rest)) = read_party(rest) else {
        return Ok(Err(Complaint::Misspelt));
    };
    let Some(frame) = one(rest) else {
        return Ok(Err(Complaint::Misspelt));
    };
    match read_all3(from, to, read_frame(alloc, frame)?) {
        Ok((from, to, frame)) => Ok(Ok(Line::Raw { from, to, frame })),
        Err(complaint) => Ok(Err(complaint)),
    }
}

#[tactic(auto, unfolding(crate::specs::Lines::show))]
/// `show HEX`
pub fn read_show(alloc: Global, rest: Option<&[u8]>) -> Result<Result<Line, Complaint>, NoMemory>
    ensures { IfOk result (λ r. r ≡ show (tokens_after (option_copied rest.entry))) }
{
    let Some(frame) = one(rest) else {
        return Ok(Err(Complaint::Misspelt));
    };
    match read_frame(alloc, frame)? {
        Ok(frame) => Ok(Ok(Line::Show { frame })),
        Err(complaint) => Ok(Err(complaint)),
    }
}
