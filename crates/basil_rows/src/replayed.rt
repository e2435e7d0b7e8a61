//! Schedules that are replayed to their end.

use crate::support::{HEADER, is_answer, joined, replay, run_arguments};
use basil_cli::status::Status;
use basil_types::memory::NoMemory;
use line_fields::reason::Reason;
use std::alloc::Global;
use std::process::Abort;
use std::test::Fail;

/// What a row shows, a schedule, and its report.
pub(crate) type Replayed = (&'static str, &'static [u8], &'static [u8]);

/// Schedules behind a header.
pub(crate) const REPLAYED: &[Replayed] = &[
    (
        "a write commits",
        b"\
        begin t1 1 10\n\
        write t1 a x1\n\
        prepare t1\n\
        round\n\
        round\n\
        round\n",
        b"tx t1 commit\nkey a x1\nend 3\n",
    ),
    ("a header alone runs nothing", b"", b"end 0\n"),
    (
        "a time is too far in the future",
        b"\
        begin t1 1 151\n\
        write t1 a x1\n\
        prepare t1\n\
        round\n\
        round\n\
        round\n",
        b"tx t1 abort\nend 3\n",
    ),
    (
        "the last time that isn't too far commits",
        b"\
        begin t1 1 150\n\
        write t1 a x1\n\
        prepare t1\n\
        round\n\
        round\n\
        round\n",
        b"tx t1 commit\nkey a x1\nend 3\n",
    ),
    (
        "a later transaction deletes the key",
        b"\
        begin t1 1 10\n\
        write t1 a x1\n\
        prepare t1\n\
        round\n\
        round\n\
        round\n\
        begin t2 2 20\n\
        delete t2 a\n\
        prepare t2\n\
        round\n\
        round\n\
        round\n",
        b"tx t1 commit\ntx t2 commit\nend 6\n",
    ),
    (
        "a deletion leaves the other key",
        b"\
        begin t1 1 10\n\
        write t1 b y1\n\
        write t1 a x1\n\
        prepare t1\n\
        round\n\
        round\n\
        round\n\
        begin t2 2 20\n\
        delete t2 a\n\
        prepare t2\n\
        round\n\
        round\n\
        round\n",
        b"tx t1 commit\ntx t2 commit\nkey b y1\nend 6\n",
    ),
    (
        "a deletion of a lower version leaves the write",
        b"\
        begin t2 2 20\n\
        delete t2 a\n\
        prepare t2\n\
        round\n\
        round\n\
        round\n\
        begin t1 1 30\n\
        write t1 a x1\n\
        prepare t1\n\
        round\n\
        round\n\
        round\n",
        b"tx t2 commit\ntx t1 commit\nkey a x1\nend 6\n",
    ),
    (
        "the write of the greater version is left, and not the later commit's",
        b"\
        begin t1 1 30\n\
        write t1 a new\n\
        prepare t1\n\
        round\n\
        round\n\
        round\n\
        begin t2 2 20\n\
        write t2 a old\n\
        prepare t2\n\
        round\n\
        round\n\
        round\n",
        b"tx t1 commit\ntx t2 commit\nkey a new\nend 6\n",
    ),
    (
        "the last line needs no newline",
        b"\
        begin t1 1 10\n\
        write t1 a x1\n\
        prepare t1\n\
        round\n\
        round\n\
        round",
        b"tx t1 commit\nkey a x1\nend 3\n",
    ),
    (
        "a transaction whose first stage waits is open",
        b"\
        begin t1 1 10\n\
        write t1 a x1\n\
        prepare t1\n",
        b"tx t1 open\nend 1\n",
    ),
    (
        "a vote that waits decides nothing",
        b"\
        begin t1 1 10\n\
        write t1 a x1\n\
        prepare t1\n\
        round\n",
        b"tx t1 open\nend 2\n",
    ),
    (
        "the writeback is seen as it is sent",
        b"\
        begin t1 1 10\n\
        write t1 a x1\n\
        prepare t1\n\
        round\n\
        round\n",
        b"tx t1 commit\nkey a x1\nend 3\n",
    ),
    (
        "a second write of a key replaces the first",
        b"\
        begin t1 1 10\n\
        write t1 a x1\n\
        write t1 a x2\n\
        prepare t1\n\
        round\n\
        round\n",
        b"tx t1 commit\nkey a x2\nend 3\n",
    ),
    (
        "a write replaces a deletion",
        b"\
        begin t1 1 10\n\
        delete t1 a\n\
        write t1 a x2\n\
        prepare t1\n\
        round\n\
        round\n",
        b"tx t1 commit\nkey a x2\nend 3\n",
    ),
    (
        "a deletion replaces a write",
        b"\
        begin t1 1 10\n\
        write t1 a x2\n\
        delete t1 a\n\
        prepare t1\n\
        round\n\
        round\n",
        b"tx t1 commit\nend 3\n",
    ),
    (
        "keys ascend, with escapes, and a value may be empty",
        b"\
        begin t1 1 10\n\
        write t1 b %3a\n\
        write t1 %00 %\n\
        prepare t1\n\
        round\n\
        round\n",
        b"tx t1 commit\nkey %00 %\nkey b %3a\nend 3\n",
    ),
    (
        "two clients commit side by side",
        b"\
        begin t1 1 10\n\
        begin t2 2 10\n\
        write t2 b y\n\
        write t1 a x\n\
        prepare t2\n\
        prepare t1\n\
        round\n\
        round\n\
        round\n",
        b"tx t1 commit\ntx t2 commit\nkey a x\nkey b y\nend 6\n",
    ),
];

/// Schedules with headers of their own.
pub(crate) const WITH_HEADERS: &[Replayed] = &[
    (
        "a header needs no newline",
        b"basil 1 f=0 shards=1 reads=1 delta=100 clock=50 keys=plain",
        b"end 0\n",
    ),
    (
        "skipped lines may stand anywhere",
        b"\
        # first\n\
        \n\
        basil 1 f=0 shards=1 reads=1 delta=100 clock=50 keys=plain\n\
        \n\
        # a note \xc3\x83\xc2\xa9\n\
        begin t1 1 10\n",
        b"tx t1 open\nend 0\n",
    ),
    (
        "the greatest numbers are taken",
        b"\
        basil 1 f=0 shards=1 reads=1 delta=18446744073709551615 clock=18446744073709551615 keys=plain\n\
        begin t1 16 18446744073709551615\n\
        write t1 a x\n\
        prepare t1\n\
        round\n\
        round\n",
        b"tx t1 commit\nkey a x\nend 3\n",
    ),
];

/// Whether a header and lines give this report.
fn gives(alloc: Global, header: &[u8], lines: &[u8], report: &[u8]) -> Result<bool, NoMemory> {
    let schedule = joined(alloc, &[header, lines])?;
    let given = replay(alloc, &schedule)?;
    Ok(is_answer(&given, Status::Done, report))
}

/// Each schedule, behind this header, gives its report.
fn are_replayed(
    rt: &impl Abort,
    alloc: Global,
    header: &[u8],
    rows: &[Replayed],
) -> Result<(), Fail> {
    for &(shows, lines, report) in rows {
        assert!(rt; gives(alloc, header, lines, report)?, "{shows}");
    }
    Ok(())
}

/// A header whose replica keeps a journal.
pub(crate) const JOURNAL_HEADER: &[u8] =
    b"basil 1 f=0 shards=1 reads=1 delta=100 clock=50 keys=plain journal\n";

/// Schedules behind that header: the disk of the journal stops as the first stage is handed to the replica.
pub(crate) const STOPPED: &[Replayed] = &[
    (
        "no disk stops",
        b"\
        begin t1 1 10\n\
        write t1 a x1\n\
        prepare t1\n\
        round\n\
        round\n\
        round\n",
        b"tx t1 commit\nkey a x1\nend 3\n",
    ),
    (
        "the gate is left open: the vote is signed, and lost",
        b"\
        begin t1 1 10\n\
        write t1 a x1\n\
        prepare t1\n\
        stop 0 0 1 2 01\n\
        round\n\
        round\n\
        round\n",
        b"tx t1 open\nend 2\n",
    ),
    (
        "the gate is left closed: nothing was taken",
        b"\
        begin t1 1 10\n\
        write t1 a x1\n\
        prepare t1\n\
        stop 0 0 1 2 4d\n\
        round\n\
        round\n\
        round\n",
        b"tx t1 commit\nkey a x1\nend 3\n",
    ),
    (
        "the record is torn, though its first byte is that of an open gate",
        b"\
        begin t1 1 10\n\
        write t1 a x1\n\
        prepare t1\n\
        stop 0 0 1 1 01\n\
        round\n\
        round\n\
        round\n",
        b"tx t1 commit\nkey a x1\nend 3\n",
    ),
    (
        "what was signed before the stop is signed again, for the same frame",
        b"\
        begin t1 1 10\n\
        write t1 a x1\n\
        prepare t1\n\
        stop 0 0 1 2 01\n\
        round\n\
        deliver 1\n\
        round\n\
        round\n",
        b"tx t1 commit\nkey a x1\nend 4\n",
    ),
    (
        "the lost vote may still be delivered",
        b"\
        begin t1 1 10\n\
        write t1 a x1\n\
        prepare t1\n\
        stop 0 0 1 2 01\n\
        deliver 2\n\
        round\n",
        b"tx t1 commit\nkey a x1\nend 3\n",
    ),
    (
        "a message of another receiver is diverted; it is refused, and no disk stops",
        b"\
        begin t1 1 10\n\
        write t1 a x1\n\
        prepare t1\n\
        round\n\
        stop 0 0 2 2 01\n\
        round\n\
        round\n",
        b"tx t1 commit\nkey a x1\nend 3\n",
    ),
];

#[test]
fn each_schedule_gives_its_report(rt: HostRuntime) -> Result<(), Fail> {
    are_replayed(&rt, rt.alloc(), HEADER, REPLAYED)?;
    are_replayed(&rt, rt.alloc(), JOURNAL_HEADER, STOPPED)?;
    are_replayed(&rt, rt.alloc(), b"", WITH_HEADERS)
}

pub(crate) const ONE_WRITE: &[u8] = b"\
    basil 1 f=0 shards=1 reads=1 delta=100 clock=50 keys=plain\n\
    begin t1 1 10\n\
    write t1 a x1\n\
    prepare t1\n\
    round\n\
    round\n\
    round\n";

/// Arguments that are no command, over a source and a sink that would serve.
const NO_COMMANDS: &[&[&str]] = &[&["replay", "x"], &[], &["Replay"]];

#[test]
fn other_arguments_are_no_command(rt: HostRuntime) -> Result<(), Fail> {
    for arguments in NO_COMMANDS {
        let given = run_arguments(rt.alloc(), arguments, ONE_WRITE, &[], &[])?;
        assert!(rt;
            is_answer(&given, Status::BadWords, b"usage\n"),
            "{arguments:?}"
        );
    }
    Ok(())
}

/// What a row shows, the one argument, the reads and writes that fail, how the call ends, and what it writes.
type Ended = (
    &'static str,
    &'static str,
    &'static [u64],
    &'static [u64],
    Status,
    &'static [u8],
);

const ENDED: &[Ended] = &[
    (
        "the first read fails",
        "replay",
        &[1],
        &[],
        Status::ReadFault,
        b"read fault\n",
    ),
    (
        "the read that finds the end fails",
        "replay",
        &[2],
        &[],
        Status::ReadFault,
        b"read fault\n",
    ),
    (
        "a third read and a second write would fail, and aren't made",
        "replay",
        &[3],
        &[2],
        Status::Done,
        b"tx t1 commit\nkey a x1\nend 3\n",
    ),
    (
        "a write that fails takes nothing",
        "replay",
        &[],
        &[1],
        Status::WriteFault,
        b"",
    ),
    (
        "the text of arguments that are no command isn't taken",
        "x",
        &[],
        &[1],
        Status::WriteFault,
        b"",
    ),
    (
        "the text of a read fault isn't taken",
        "replay",
        &[1],
        &[1],
        Status::WriteFault,
        b"",
    ),
];

/// Whether a call ends as it is told.
fn ends_so(alloc: Global, row: &Ended) -> Result<bool, NoMemory> {
    let (_shows, argument, reads, writes, status, text) = *row;
    let given = run_arguments(alloc, &[argument], ONE_WRITE, reads, writes)?;
    Ok(is_answer(&given, status, text))
}

#[test]
fn each_call_ends_with_its_status_and_text(rt: HostRuntime) -> Result<(), Fail> {
    for row in ENDED {
        assert!(rt; ends_so(rt.alloc(), row)?, "{}", row.0);
    }
    Ok(())
}

/// A status, its number, and the line that tells it, where one does.
type Told = (Status, u8, &'static str);

const STATUSES: &[Told] = &[
    (Status::Done, 0, "done"),
    (Status::BadWords, 2, "usage"),
    (
        Status::BadInput {
            line: 5,
            reason: Reason::RefusedCall,
        },
        3,
        "line 5 reason 9",
    ),
    (Status::ReadFault, 4, "read fault"),
    (Status::WriteFault, 5, "write fault"),
    (Status::LinkFault, 6, "link fault"),
    (Status::Broken, 7, "broken"),
    (Status::Refused { reason: 7 }, 8, "refused 7"),
    (Status::NoMemory, 9, "no memory"),
    (
        Status::Full {
            messages: 2,
            bytes: 124,
        },
        10,
        "full 2 124",
    ),
    (Status::Undecided { replies: 5 }, 11, "undecided 5"),
    (Status::TooLong, 12, "too long 16777216"),
];

#[test]
fn each_status_has_its_number_and_text(rt: HostRuntime) -> Result<(), Fail> {
    for &(status, code, text) in STATUSES {
        assert!(rt; status.code() == code, "{status:?}");
        assert!(rt;
            status.to_string(rt.alloc())?.as_str() == text,
            "{status:?}"
        );
    }
    Ok(())
}
