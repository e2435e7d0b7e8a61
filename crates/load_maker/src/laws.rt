//! The laws of every load.

ghost use Rattle.load_maker.specs.Laws.{LinesAreRead, TextHasItsLines};

use schedule_text::laws::spelling_is_read;

/// Each line of a load is in the grammar of schedules: its spelling is read as itself.
pub fn lines_are_read()
    ensures { LinesAreRead }
{
    spelling_is_read();
}

/// The lines of a load's text are the spellings of the load's lines, one after the other.
pub fn text_has_its_lines()
    ensures { TextHasItsLines }
{}
