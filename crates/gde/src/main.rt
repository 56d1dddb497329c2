//! A diagnosis bench for digital circuits, as a program: it reads a session from standard input, and writes the answer to
//! each of its lines to standard output.
#![tactic(auto)]

use bench_cli::{CommandLine, exit_number};
use bench_io::{StdSink, StdSource};
use std::env;
use std::io::LineWriter;
use std::process::ExitCode;

// The words after the program's own name.
fn command_line(rt: &HostRuntime) -> CommandLine {
    let Ok(words) = env::args(rt) else {
        return CommandLine::NotHandedOut;
    };
    match words.skip(1).collect::<Vec<String>>(rt.alloc()) {
        Ok(words) => CommandLine::Words(words),
        Err(_) => CommandLine::NotKept,
    }
}

// The replies are written a line at a time. Where there is no room for a line, it is as if there were none for the words.
fn main(rt: HostRuntime) -> ExitCode {
    let mut source = StdSource::new(rt.stdin());
    let number = match LineWriter::new(rt.alloc(), rt.stdout()) {
        Ok(writer) => {
            let command_line = command_line(&rt);
            exit_number(
                rt.alloc(),
                &command_line,
                &mut source,
                &mut StdSink::new(writer),
            )
        }
        Err(_) => {
            let mut sink = StdSink::new(rt.stdout());
            exit_number(rt.alloc(), &CommandLine::NotKept, &mut source, &mut sink)
        }
    };
    ExitCode::from(number)
}
