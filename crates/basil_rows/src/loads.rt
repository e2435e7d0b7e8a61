//! Loads: schedules that are made from a number, and what becomes of their transactions.

use crate::support::{Answer, is_answer, replay, run_arguments};
use basil_cli::status::Status;
use basil_types::memory::NoMemory;
use std::alloc::Global;
use std::test::Fail;

/// How many lines of a report say this of a transaction.
fn count_of(report: &[u8], token: &[u8]) -> usize {
    report
        .split(|b| *b == b'\n')
        .filter(|line| line.starts_with(b"tx ") && line.ends_with(token))
        .count()
}

/// The last line of a report.
fn last_line(report: &[u8]) -> &[u8] {
    match report.strip_suffix(b"\n") {
        Some(lines) => lines.rsplit(|b| *b == b'\n').next().unwrap_or(lines),
        None => report,
    }
}

/// The totals that a report comes to.
fn totals_of(alloc: Global, report: &[u8]) -> Result<Vec<u8>, NoMemory> {
    let commits = count_of(report, b" commit");
    let aborts = count_of(report, b" abort");
    let open = count_of(report, b" open");
    let counts = format!(in alloc; "commit {commits}\nabort {aborts}\nopen {open}\n")?;
    let mut totals = Vec::from_slice(alloc, counts.as_bytes())?;
    totals.extend_from_slice(last_line(report))?;
    totals.push(b'\n')?;
    Ok(totals)
}

/// The report of a load's schedule.
fn report_of(alloc: Global, seed: &str, count: &str) -> Result<Answer, NoMemory> {
    let schedule = run_arguments(alloc, &["generate", seed, count], b"", &[], &[])?;
    replay(alloc, &schedule.text)
}

/// Whether a load's totals are those of this report.
fn has_totals(alloc: Global, seed: &str, count: &str, report: &[u8]) -> Result<bool, NoMemory> {
    let totals = totals_of(alloc, report)?;
    let given = run_arguments(alloc, &["load", seed, count], b"", &[], &[])?;
    Ok(is_answer(&given, Status::Done, &totals))
}

/// Whether a load's totals are those of the report of its schedule, and stand for so many transactions.
fn is_counted(
    alloc: Global,
    seed: &str,
    count: &str,
    transactions: usize,
) -> Result<bool, NoMemory> {
    let report = report_of(alloc, seed, count)?;
    if report.status != Status::Done || count_of(&report.text, b"") != transactions {
        return Ok(false);
    }
    has_totals(alloc, seed, count, &report.text)
}

/// What a row shows, a number, how many transactions, as an argument and as a number.
const LOADS: &[(&str, &str, &str, usize)] = &[
    ("two hundred transactions", "7", "200", 200),
    ("the fewest", "7", "1", 1),
    ("the least number", "0", "20", 20),
    ("the greatest number", "18446744073709551615", "20", 20),
];

#[test]
fn a_load_has_the_totals_of_its_schedules_report(rt: HostRuntime) -> Result<(), Fail> {
    for &(shows, seed, count, transactions) in LOADS {
        assert!(rt;
            is_counted(rt.alloc(), seed, count, transactions)?,
            "{shows}"
        );
    }
    Ok(())
}

/// A number, how many transactions, and the totals that a Python program gives, which was written from the rules of the
/// protocol and of loads alone.
const TOTALS: &[(&str, &str, &[u8])] = &[
    ("7", "200", b"commit 200\nabort 0\nopen 0\nend 8052\n"),
    ("7", "1", b"commit 1\nabort 0\nopen 0\nend 48\n"),
    ("0", "20", b"commit 20\nabort 0\nopen 0\nend 672\n"),
    (
        "18446744073709551615",
        "20",
        b"commit 20\nabort 0\nopen 0\nend 834\n",
    ),
];

/// Whether a load has these totals.
fn is_told(alloc: Global, seed: &str, count: &str, totals: &[u8]) -> Result<bool, NoMemory> {
    let given = run_arguments(alloc, &["load", seed, count], b"", &[], &[])?;
    Ok(is_answer(&given, Status::Done, totals))
}

#[test]
fn a_load_has_the_totals_of_another_program(rt: HostRuntime) -> Result<(), Fail> {
    for &(seed, count, totals) in TOTALS {
        assert!(rt; is_told(rt.alloc(), seed, count, totals)?, "{seed} {count}");
    }
    Ok(())
}

const NO_COMMANDS: &[&[&str]] = &[
    &["generate", "7", "0"],
    &["generate", "7", "2001"],
    &["generate", "7", "007"],
    &["generate", "18446744073709551616", "1"],
    &["generate", "-7", "1"],
    &["generate", "7"],
    &["generate", "7", "1", "1"],
    &["load", "7", "0"],
    &["load", "7", "2001"],
    &["load", "x", "1"],
    &["load", "7"],
    &["load"],
    &["help"],
    &["replay", "--help"],
];

#[test]
fn other_arguments_are_no_command(rt: HostRuntime) -> Result<(), Fail> {
    for arguments in NO_COMMANDS {
        let given = run_arguments(rt.alloc(), arguments, b"", &[], &[])?;
        assert!(rt;
            is_answer(&given, Status::BadWords, b"usage\n"),
            "{arguments:?}"
        );
    }
    Ok(())
}
