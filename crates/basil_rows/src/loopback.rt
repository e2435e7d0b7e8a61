//! Schedules whose deliveries are carried by links.

use crate::replayed::{JOURNAL_HEADER, ONE_WRITE, REPLAYED, Replayed, STOPPED, WITH_HEADERS};
use crate::support::{HEADER, is_answer, joined, loopback, run_arguments};
use basil_cli::status::Status;
use basil_types::memory::NoMemory;
use line_fields::reason::Reason;
use std::alloc::Global;
use std::process::Abort;
use std::test::Fail;

/// Whether a header and lines give this report, where each message comes as it was sent.
fn gives(alloc: Global, header: &[u8], lines: &[u8], report: &[u8]) -> Result<bool, NoMemory> {
    let schedule = joined(alloc, &[header, lines])?;
    let given = loopback(alloc, &schedule, &[], &[], &[])?;
    Ok(is_answer(&given, Status::Done, report))
}

/// Each schedule, behind this header, gives the report of its replay.
fn are_carried(
    rt: &impl Abort,
    alloc: Global,
    header: &[u8],
    rows: &[Replayed],
) -> Result<(), Fail> {
    for &(shows, lines, report) in rows {
        assert!(rt; gives(alloc, header, lines, report)?, "{shows}");
    }
    Ok(())
}

#[test]
fn what_comes_as_it_was_sent_changes_no_report(rt: HostRuntime) -> Result<(), Fail> {
    are_carried(&rt, rt.alloc(), HEADER, REPLAYED)?;
    are_carried(&rt, rt.alloc(), JOURNAL_HEADER, STOPPED)?;
    are_carried(&rt, rt.alloc(), b"", WITH_HEADERS)
}

pub(crate) const SIX_REPLICAS: &[u8] = b"\
    basil 1 f=1 shards=1 reads=2 delta=100 clock=50 keys=plain\n\
    begin t1 1 10\n\
    write t1 a x1\n\
    prepare t1\n\
    round\n\
    round\n\
    round\n";

const REFUSED_AT_ITS_END: &[u8] = b"\
    basil 1 f=0 shards=1 reads=1 delta=100 clock=50 keys=plain\n\
    begin t1 1 10\n\
    write t1 a x1\n\
    prepare t1\n\
    deliver 1\n\
    deliver 9\n";

/// What a row shows, a schedule, the carries that change a bit of the last byte, those that fail, the writes that fail,
/// and how the call ends.
type Carried = (
    &'static str,
    &'static [u8],
    &'static [u64],
    &'static [u64],
    &'static [u64],
    Status,
    &'static [u8],
);

const CARRIED: &[Carried] = &[
    (
        "the signature of the first stage comes changed, so the replica refuses it, and there is no vote",
        ONE_WRITE,
        &[1],
        &[],
        &[],
        Status::Done,
        b"tx t1 open\nend 1\n",
    ),
    (
        "the vote comes changed, so the client refuses it, and decides nothing",
        ONE_WRITE,
        &[2],
        &[],
        &[],
        Status::Done,
        b"tx t1 open\nend 2\n",
    ),
    (
        "of six votes one comes changed, so the client decides nothing",
        SIX_REPLICAS,
        &[12],
        &[],
        &[],
        Status::Done,
        b"tx t1 open\nend 12\n",
    ),
    (
        "the third carry fails, in the first round",
        SIX_REPLICAS,
        &[],
        &[3],
        &[],
        Status::LinkFault,
        b"link fault\n",
    ),
    (
        "the last carry fails",
        SIX_REPLICAS,
        &[],
        &[18],
        &[],
        Status::LinkFault,
        b"link fault\n",
    ),
    (
        "a carry behind the last isn't made",
        SIX_REPLICAS,
        &[],
        &[19],
        &[],
        Status::Done,
        b"tx t1 commit\nkey a x1\nend 18\n",
    ),
    (
        "the first carry fails before a line that is refused",
        REFUSED_AT_ITS_END,
        &[],
        &[1],
        &[],
        Status::LinkFault,
        b"link fault\n",
    ),
    (
        "a second carry isn't made where its line is refused",
        REFUSED_AT_ITS_END,
        &[],
        &[2],
        &[],
        Status::BadInput {
            line: 6,
            reason: Reason::NoMessage,
        },
        b"line 6 reason 7\n",
    ),
    (
        "the text of a fault isn't taken",
        ONE_WRITE,
        &[],
        &[1],
        &[1],
        Status::WriteFault,
        b"",
    ),
];

/// Whether a call ends as it is told.
fn ends_so(alloc: Global, row: &Carried) -> Result<bool, NoMemory> {
    let (_shows, schedule, changed, failing, failing_writes, status, text) = *row;
    let given = loopback(alloc, schedule, changed, failing, failing_writes)?;
    Ok(is_answer(&given, status, text))
}

#[test]
fn nodes_are_handed_what_came(rt: HostRuntime) -> Result<(), Fail> {
    for row in CARRIED {
        assert!(rt; ends_so(rt.alloc(), row)?, "{}", row.0);
    }
    Ok(())
}

#[test]
fn an_argument_behind_it_is_no_command(rt: HostRuntime) -> Result<(), Fail> {
    let given = run_arguments(rt.alloc(), &["loopback", "x"], ONE_WRITE, &[], &[])?;
    assert!(rt; is_answer(&given, Status::BadWords, b"usage\n"));
    Ok(())
}
