//! Schedules whose first refused line, and its reason, are told.

mod forms;
mod headers;
mod sizes;
mod stops;

use crate::support::{is_refused, joined};
use std::alloc::Global;
use std::process::Abort;
use std::test::Fail;

/// What a row shows, its schedule, the first line that is refused, and why.
pub(crate) type Refused = (&'static str, &'static [u8], u64, u8);

/// Each schedule, between these texts, is refused at its line for its reason, and nothing else is written.
pub(crate) fn are_refused(
    rt: &impl Abort,
    alloc: Global,
    before: &'static [u8],
    rows: &[Refused],
    behind: &'static [u8],
) -> Result<(), Fail> {
    for &(shows, lines, line, reason) in rows {
        let schedule = joined(alloc, &[before, lines, behind])?;
        assert!(rt; is_refused(alloc, &schedule, line, reason)?, "{shows}");
    }
    Ok(())
}
