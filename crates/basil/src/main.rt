//! The program: it hands its arguments, standard input, standard output, and the sockets and the clock of this machine
//! to the top call.
#![tactic(auto)]

use basil_cli::run::run;
use machine_adapters::clock::SystemClock;
use machine_adapters::input::Input;
use machine_adapters::output::Output;
use machine_adapters::sockets::SocketLinks;
use std::process::ExitCode;
use std::{env, io};

/// The arguments behind the program's own name. None of them is handed on where one isn't UTF-8. None at all where
/// memory is wanting.
fn arguments_of(rt: &HostRuntime) -> Option<Vec<String>> {
    let mut arguments = Vec::new(rt.alloc());
    match env::args(rt) {
        Ok(args) => {
            for (place, argument) in args.enumerate() {
                if place > 0 && arguments.push(argument).is_err() {
                    return None;
                }
            }
        }
        Err(error) => {
            if error.kind() == io::ErrorKind::OutOfMemory {
                return None;
            }
        }
    }
    Some(arguments)
}

fn main(rt: HostRuntime) -> ExitCode {
    let Some(arguments) = arguments_of(&rt) else {
        return ExitCode::from(9);
    };
    let alloc = rt.alloc();
    let mut source = Input::new(rt.stdin());
    let mut sink = Output::new(io::writer(&rt));
    let mut links = SocketLinks::new(&rt, alloc);
    let mut clock = SystemClock::new(&rt);
    let status = run(
        alloc,
        &arguments,
        &mut source,
        &mut sink,
        &mut links,
        &mut clock,
    );
    ExitCode::from(status.code())
}
