//! Laws of journals.

ghost use Rattle.journal_records.specs.Laws.{RecordsAreUnique, WhatIsKeptStays, StopsDivide, JournalIsFound};

/// Bytes hold one list of records.
pub fn records_are_unique()
    ensures { RecordsAreUnique }
{}

/// A disk that comes to keep what its reads give holds for good which of both its reads give.
pub fn what_is_kept_stays()
    ensures { WhatIsKeptStays }
{}

/// What a stop might have left since some moment, it might have left before a later one, or since then.
pub fn stops_divide()
    ensures { StopsDivide }
{}

/// Each record is found at the gate before it, and no other; and behind the last, that its gate is closed.
pub fn journal_is_found()
    ensures { JournalIsFound }
{}
