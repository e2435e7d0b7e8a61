//! The kinds of lines, by their first tokens, and what the tokens behind say.

ghost use Rattle.std.specs.Prelude.{◌≡◌};
ghost use Rattle.schedule_text.specs.Kinds;

pub mod clients;
pub mod header;
pub mod messages;
pub mod replicas;

use line_fields::fields::spellings::is_text;

/// The kinds of lines, by their first tokens.
#[derive(Clone, Copy, PartialEq, Eq)]
pub enum Kind {
    Basil,
    Faulty,
    Begin,
    Read,
    Write,
    Delete,
    Claim,
    Prepare,
    Settle,
    Recover,
    Invoke,
    Round,
    Deliver,
    Lose,
    Divert,
    Clock,
    Vote,
    Second,
    Logged,
    Elect,
    Decide,
    Raw,
    Show,
    Stop,
}

#[tactic(auto, unfolding(crate::specs::Kinds::kind_of))]
/// The kind that a first token names.
pub fn kind_of(token: &[u8]) -> Option<Kind>
    ensures { result ≡ Kinds.kind_of token.now }
{
    if is_text(token, b"basil") {
        Some(Kind::Basil)
    } else if is_text(token, b"faulty") {
        Some(Kind::Faulty)
    } else if is_text(token, b"begin") {
        Some(Kind::Begin)
    } else if is_text(token, b"read") {
        Some(Kind::Read)
    } else if is_text(token, b"write") {
        Some(Kind::Write)
    } else if is_text(token, b"delete") {
        Some(Kind::Delete)
    } else if is_text(token, b"claim") {
        Some(Kind::Claim)
    } else if is_text(token, b"prepare") {
        Some(Kind::Prepare)
    } else if is_text(token, b"settle") {
        Some(Kind::Settle)
    } else if is_text(token, b"recover") {
        Some(Kind::Recover)
    } else if is_text(token, b"invoke") {
        Some(Kind::Invoke)
    } else {
        message_kind_of(token)
    }
}

#[tactic(auto, unfolding(crate::specs::Kinds::message_kind_of))]
/// The kind that a first token names, of those that speak of messages or of faulty replicas.
fn message_kind_of(token: &[u8]) -> Option<Kind>
    ensures { result ≡ Kinds.message_kind_of token.now }
{
    if is_text(token, b"round") {
        Some(Kind::Round)
    } else if is_text(token, b"deliver") {
        Some(Kind::Deliver)
    } else if is_text(token, b"lose") {
        Some(Kind::Lose)
    } else if is_text(token, b"divert") {
        Some(Kind::Divert)
    } else if is_text(token, b"clock") {
        Some(Kind::Clock)
    } else if is_text(token, b"vote") {
        Some(Kind::Vote)
    } else if is_text(token, b"second") {
        Some(Kind::Second)
    } else if is_text(token, b"logged") {
        Some(Kind::Logged)
    } else if is_text(token, b"elect") {
        Some(Kind::Elect)
    } else if is_text(token, b"decide") {
        Some(Kind::Decide)
    } else if is_text(token, b"raw") {
        Some(Kind::Raw)
    } else if is_text(token, b"show") {
        Some(Kind::Show)
    } else if is_text(token, b"stop") {
        Some(Kind::Stop)
    } else {
        None
    }
}
