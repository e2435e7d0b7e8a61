//! Does a work so many times, and prints a number that comes of it: what `bench/run` times.
#![tactic(auto)]

mod answers;
mod decisions;
mod frames;
mod lines;
mod made;
mod releases;
mod signatures;
mod steps;
mod work;

use std::process::ExitCode;
use std::{env, io};
use work::{Work, checksum};

/// The work and the count that the arguments name.
fn asked(rt: &HostRuntime) -> Option<(Work, u32)> {
    let mut arguments = env::args(rt).ok()?;
    let _program = arguments.next()?;
    let work = Work::named(arguments.next()?.as_str())?;
    let count = arguments.next()?.as_str().parse::<u32>().ok()?;
    Some((work, count))
}

fn print(rt: &HostRuntime) -> io::Result<()> {
    let sum = match asked(rt) {
        Some((work, count)) => checksum(rt.alloc(), work, count).unwrap_or(0),
        None => 0,
    };
    println!(rt; "{sum}")
}

fn main(rt: HostRuntime) -> ExitCode {
    match print(&rt) {
        Ok(()) => ExitCode::from(0),
        Err(_) => ExitCode::from(1),
    }
}
