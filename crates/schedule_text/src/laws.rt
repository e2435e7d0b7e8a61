//! Laws of the schedule language.

ghost use Rattle.schedule_text.specs.Fitting.{GrammarIsRead, OneValue, SpellingIsRead};

/// A line is read as a value exactly where the grammar lets it say that value, it has at most 2,200,000 bytes, and it
/// doesn't stand behind the millionth.
pub fn grammar_is_read()
    ensures { GrammarIsRead }
{}

/// A line says at most one value.
pub fn one_value()
    ensures { OneValue }
{}

/// The spelling of a value whose fields are in their ranges is read as that value, where it isn't too long and has a
/// line's number.
pub fn spelling_is_read()
    ensures { SpellingIsRead }
{}
