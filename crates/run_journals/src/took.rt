//! What a journal comes to of a frame.

ghost use Rattle.std.specs.Prelude.{◌≡◌, ◌<◌, length};
ghost use Rattle.run_journals.specs.Journals as journals;

use journal_records::OPEN;

/// What a journal comes to of a frame.
#[derive(Clone, Copy)]
pub enum Took {
    /// Its record is written.
    Taken,
    /// The replica refuses the frame.
    Refused,
    /// With its record the journal would be too long: it has so many records, and bytes.
    Full { records: u64, bytes: u64 },
}

/// Whether a disk that stops within this write of a step, and leaves these bytes there, keeps the record.
pub fn keeps_record(write: u64, bytes: &[u8]) -> bool
    requires { 0 < length bytes.now }
    ensures { result ≡ journals.keeps_record write bytes.now }
{
    write == 2 && bytes[0] == OPEN
}

/// The records and bytes of the journal that would be too long.
pub(crate) fn fullness(took: Took) -> Option<(u64, u64)>
    ensures { result ≡ journals.fullness took }
{
    match took {
        Took::Taken | Took::Refused => None,
        Took::Full { records, bytes } => Some((records, bytes)),
    }
}
