//! Tokens that are spelled out: decisions, ways of signing and labels.

ghost use Rattle.std.specs.Prelude.{◌≡◌, bytes_eq, MatchOption, None, Some};
ghost use Rattle.line_fields.specs.Fields.{literal, decision, keys_kind, labelled, number};

use crate::complaint::Complaint;
use crate::fields::numbers::read_number;
use crate::keys_kind::KeysKind;
use basil_types::party::Decision;

/// Whether the token is this text.
pub fn is_text(token: &[u8], text: &[u8]) -> bool
    ensures { result ≡ bytes_eq token.now text.now }
{
    token == text
}

#[tactic(auto, unfolding(crate::specs::Fields::literal))]
/// This very text.
pub fn read_literal(token: &[u8], text: &[u8]) -> Result<(), Complaint>
    ensures { result ≡ literal text.now token.now }
{
    if is_text(token, text) {
        Ok(())
    } else {
        Err(Complaint::Misspelt)
    }
}

#[tactic(auto, unfolding(crate::specs::Fields::decision))]
/// `commit` or `abort`.
pub fn read_decision(token: &[u8]) -> Result<Decision, Complaint>
    ensures { result ≡ decision token.now }
{
    if is_text(token, b"commit") {
        Ok(Decision::Commit)
    } else if is_text(token, b"abort") {
        Ok(Decision::Abort)
    } else {
        Err(Complaint::Misspelt)
    }
}

#[tactic(auto, unfolding(crate::specs::Fields::keys_kind))]
/// How the parties sign: `plain`, one of the four sets of LMS, or `batch`.
pub fn read_keys_kind(token: &[u8]) -> Result<KeysKind, Complaint>
    ensures { result ≡ keys_kind token.now }
{
    if is_text(token, b"plain") {
        Ok(KeysKind::Plain)
    } else if is_text(token, b"w4h5") {
        Ok(KeysKind::W4H5)
    } else if is_text(token, b"w4h10") {
        Ok(KeysKind::W4H10)
    } else if is_text(token, b"w8h5") {
        Ok(KeysKind::W8H5)
    } else if is_text(token, b"w8h10") {
        Ok(KeysKind::W8H10)
    } else if is_text(token, b"batch") {
        Ok(KeysKind::Batch)
    } else {
        Err(Complaint::Misspelt)
    }
}

#[tactic(auto, unfolding(crate::specs::Fields::behind))]
/// What stands behind the label in a token that begins with it.
fn behind<'a>(token: &'a [u8], label: &[u8]) -> Option<&'a [u8]>
    ensures { MatchOption result (Rattle.line_fields.specs.Fields.behind label.now token.entry.now ≡ None)
        (λ rest. Rattle.line_fields.specs.Fields.behind label.now token.entry.now ≡ Some rest.now) }
{
    token.strip_prefix(label)
}

/// A number below 2^64 behind its label.
pub fn read_labelled_number(token: &[u8], label: &[u8]) -> Result<u64, Complaint>
    ensures { result ≡ labelled label.now number token.now }
{
    match behind(token, label) {
        None => Err(Complaint::Misspelt),
        Some(digits) => read_number(digits),
    }
}

/// How the parties sign, behind its label.
pub fn read_labelled_keys(token: &[u8], label: &[u8]) -> Result<KeysKind, Complaint>
    ensures { result ≡ labelled label.now keys_kind token.now }
{
    match behind(token, label) {
        None => Err(Complaint::Misspelt),
        Some(kind) => read_keys_kind(kind),
    }
}
