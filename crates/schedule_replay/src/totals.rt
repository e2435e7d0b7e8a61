//! What became of all transactions of a run, in numbers.

ghost use Rattle.std.specs.Prelude.{◌≡◌, ◌++◌, IfOk, OnOk};
ghost use Rattle.schedule_replay.specs.Replays.{ReplayValue};
ghost use Rattle.schedule_replay.specs.Shown.{Stands};
ghost use Rattle.schedule_replay.specs.Totals as defined;

use crate::course::Course;
use basil_types::memory::NoMemory;
use basil_types::party::Decision;
use itoa::Buffer;
use report_lines::lines::{put, put_end};

/// Whether two fates are the same.
fn is_same_fate(fate: Option<Decision>, other: Option<Decision>) -> bool
    ensures { result ≡ defined.is_same_fate fate other }
{
    match fate {
        Some(Decision::Commit) => matches!(other, Some(Decision::Commit)),
        Some(Decision::Abort) => matches!(other, Some(Decision::Abort)),
        None => other.is_none(),
    }
}

/// `WORD N`
fn put_total(out: &mut Vec<u8>, token: &[u8], total: usize) -> Result<(), NoMemory>
    ensures { OnOk result (out.new.items ≡ out.old.items ++ defined.total_line token.now total) }
{
    let mut buffer = Buffer::new();
    put(out, token)?;
    put(out, b" ")?;
    put(out, buffer.format(total).as_bytes())?;
    put(out, b"\n")
}

/// The totals of what a course shows.
pub(crate) fn totals_of(course: &Course) -> Result<Vec<u8>, NoMemory>
    ensures { IfOk result (λ text. (r : ReplayValue) → Stands course.now r → text.items ≡ defined.totals r) }
{
    let mut out = Vec::new(course.alloc);
    put_total(&mut out, b"commit", course.total_of(Some(Decision::Commit)))?;
    put_total(&mut out, b"abort", course.total_of(Some(Decision::Abort)))?;
    put_total(&mut out, b"open", course.total_of(None))?;
    put_end(&mut out, course.world.messages())?;
    Ok(out)
}

impl Course {
    /// Of how many transactions this became.
    fn total_of(&self, fate: Option<Decision>) -> usize
        ensures { (r : ReplayValue) → Stands self.now r → result ≡ defined.total_of fate r }
    {
        let mut total = 0usize;
        for place in 0..self.names.len() {
            total += usize::from(is_same_fate(fate, self.fate_of(place as u32)));
        }
        total
    }
}
