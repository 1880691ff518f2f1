//! The `arbiter` program: scripts of orders run through the arbiter, on one thread or by many, the cores due to
//! applications, and the machine that has them.
//!
//! `main` calls `command` of `arb_command` with the standard streams, and ends with its status.
#![tactic(auto)]

use arb_command::command;
use std::env;
use std::io::ErrorKind;
use std::process::ExitCode;

fn main(rt: HostRuntime) -> ExitCode {
    let words: Vec<String> = match env::args(&rt).and_then(|words| Ok(words.collect(rt.alloc())?)) {
        Ok(words) => words,
        Err(error) => {
            if error.kind() == ErrorKind::OutOfMemory {
                let _ = eprintln!(rt; "out of memory");
                return ExitCode::from(1);
            }
            let _ = eprintln!(rt; "the command line is not UTF-8");
            return ExitCode::from(2);
        }
    };
    let status = command(&rt, words.as_slice(), rt.stdin(), rt.stdout(), rt.stderr());
    ExitCode::from(status)
}
