//! Replays whose deliveries are carried by links.

use crate::replays::{ROUNDS, Trial, WRITE, comes_out, take, take_all};
use basil_types::links::MemLinks;
use report_lines::fault::ReplayFault;
use schedule_replay::replay::Replay;
use std::alloc::Global;
use std::test::Fail;

/// The first stage goes to a client as well, which refuses it.
const DIVERTED: &[&str] = &["divert 1 client 2"];

const COMMITTED: &str = "tx t1 commit\nkey a x1\nend 3\n";
/// The replica refused what it was handed.
const REFUSED: &str = "tx t1 open\nend 1\n";

/// Six replicas of which two have voted.
const HALF_ROUND: &str = "tx t1 open\nend 8\n";
/// All have, and got the certificate.
const WHOLE: &str = "tx t1 commit\nkey a x1\nend 18\n";

/// Whether a replay has this report.
fn has_text(replay: &Replay, report: &str) -> Result<bool, Fail> {
    let text = replay.text()?;
    Ok(text.as_slice() == report.as_bytes())
}

/// Whether one write, with these lines before its rounds, has this report.
pub(crate) fn writes_one(
    alloc: Global,
    replay: &mut Replay,
    before: &[&str],
    links: &mut MemLinks,
    carried: bool,
    report: &str,
) -> Result<bool, Fail> {
    take_all(alloc, replay, WRITE, links, carried)?;
    take_all(alloc, replay, before, links, carried)?;
    take_all(alloc, replay, ROUNDS, links, carried)?;
    has_text(replay, report)
}

/// The lines before the rounds, the carries that are altered, whether deliveries are carried, and the report of one
/// write by one replica.
type Row = (&'static [&'static str], &'static [u64], bool, &'static str);

const ROWS: &[Row] = &[
    // as it came
    (&[], &[], true, COMMITTED),
    // the last byte of the first stage's signature is altered
    (&[], &[1], true, REFUSED),
    // nothing is carried, so nothing is altered
    (&[], &[1], false, COMMITTED),
    // a diverted message is carried too: the first carry is that to the client, the second that to the replica
    (DIVERTED, &[1], true, COMMITTED),
    (DIVERTED, &[2], true, REFUSED),
];

/// Whether a row has its report.
fn is_reported(alloc: Global, row: &Row) -> Result<bool, Fail> {
    let (before, changed, carried, report) = *row;
    let trial = Trial::Writes {
        before,
        carried,
        report,
    };
    comes_out(alloc, (0, false), changed, &[], trial)
}

#[test]
fn a_node_is_handed_what_was_carried(rt: HostRuntime) -> Result<(), Fail> {
    for (place, row) in ROWS.iter().enumerate() {
        assert!(rt; is_reported(rt.alloc(), row)?, "row {place}");
    }
    Ok(())
}

/// Whether a round that fails leaves its first two deliveries, and goes on.
pub(crate) fn leaves_half(
    alloc: Global,
    replay: &mut Replay,
    links: &mut MemLinks,
) -> Result<bool, Fail> {
    take_all(alloc, replay, WRITE, links, true)?;
    let done = take(alloc, replay, "round", links, true)?;
    let failed = matches!(&done, Err(ReplayFault::LinkFault));
    let left = has_text(replay, HALF_ROUND)?;
    take_all(alloc, replay, ROUNDS, links, true)?;
    Ok(failed && left && has_text(replay, WHOLE)?)
}

/// Of six replicas, where the third carry fails.
#[test]
fn a_failing_link_leaves_what_was_delivered(rt: HostRuntime) -> Result<(), Fail> {
    assert!(rt; comes_out(rt.alloc(), (1, false), &[], &[3], Trial::LeavesHalf)?);
    Ok(())
}
