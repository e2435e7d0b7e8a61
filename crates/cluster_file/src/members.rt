//! The members of a JSON object, by name.

ghost use Rattle.std.specs.Prelude.{◌≡◌, ◌<◌, ◌^◌, length, true, map, option_map, nat_lt, Some, None, if◌then◌else◌};
ghost use Rattle.std.specs.List.{list_all};
ghost use Rattle.std.specs.Str.Parse.{digits_value};
ghost use Rattle.json.specs.Value.{value_view};
ghost use Rattle.cluster_file.specs.Members as members;

use json::Value;
use std::marker::Model;

/// Whether this is a decimal digit.
pub(crate) fn is_digit(byte: u8) -> bool
    ensures { result ≡ members.is_digit byte }
{
    b'0' <= byte && byte <= b'9'
}

/// Whether each byte is a decimal digit.
fn are_digits(text: &str) -> bool
    ensures { result ≡ list_all members.is_digit text.now }
{
    text.as_bytes().iter().all(|b| is_digit(*b))
}

/// A whole number as it is written, in one decimal digit or more. Contracts see the number, however great.
#[derive(Drop)]
pub(crate) struct WholeNumber<'a> {
    digits: &'a str,
}

impl<'a> Model for WholeNumber<'a> {
    ghost use Rattle.std.specs.Prelude.{◌≡◌, ℕ, true};
    ghost use Rattle.std.specs.Str.Parse.{digits_value};
    ghost use Rattle.cluster_file.specs.Members.{is_whole};

    ghost Value = { ℕ };

    ghost view = { λ w. digits_value 10 w.digits.now };

    ghost invariant = { λ w. is_whole w.digits.now ≡ true };
}

impl<'a> WholeNumber<'a> {
    /// The number that a text writes; none where another byte than a digit stands in it.
    fn of(text: &'a str) -> Option<WholeNumber<'a>>
        ensures { result ≡ members.whole_of text.now }
    {
        if text.is_empty() || !are_digits(text) {
            return None;
        }
        Some(WholeNumber { digits: text })
    }

    /// The number, if it is below 2^64.
    pub(crate) fn value(&self) -> Option<u64>
        ensures { result ≡ (if nat_lt self.now (2 ^ 64) then Some self.now else None) }
    {
        self.digits.parse::<u64>().ok()
    }

    /// The number, if it is below 256.
    pub(crate) fn small(&self) -> Option<u8>
        ensures { result ≡ (if nat_lt self.now 256 then Some self.now else None) }
    {
        let value = self.value()?;
        if value < 256 { Some(value as u8) } else { None }
    }
}

/// How many members an object has, each counted as often as it stands there.
pub(crate) fn member_count(value: &Value<'_>) -> usize
    ensures { result ≡ members.member_count (value_view value.now) }
{
    match value {
        Value::Object(object) => object.len(),
        _ => 0,
    }
}

/// The whole number under a name.
pub(crate) fn whole<'a>(object: &Value<'a>, name: &str) -> Option<WholeNumber<'a>>
    ensures { result ≡ members.whole name.now (value_view object.now) }
{
    WholeNumber::of(object.get(name)?.as_number()?)
}

/// The text under a name.
pub(crate) fn text<'a>(object: &Value<'a>, name: &str) -> Option<&'a str>
    ensures { option_map (λ s. s.now) result ≡ members.text name.now (value_view object.now) }
{
    object.get(name)?.as_str()
}

/// The list under a name.
pub(crate) fn list<'v, 'a>(object: &'v Value<'a>, name: &str) -> Option<&'v [Value<'a>]>
    ensures { option_map (λ items. map value_view items.now) result
        ≡ members.list name.now (value_view object.now) }
{
    match object.get(name)? {
        Value::Array(items) => Some(items.as_slice()),
        _ => None,
    }
}
