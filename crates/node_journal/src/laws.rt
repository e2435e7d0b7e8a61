//! Laws of replicas that start again.

ghost use Rattle.node_journal.specs.Laws.{EntriesAreRead, WordsAreKept};

/// An entry is read as what it was written for.
pub fn entries_are_read()
    ensures { EntriesAreRead }
{}

/// What some frames signed stays signed after more.
pub fn words_are_kept()
    ensures { WordsAreKept }
{}
