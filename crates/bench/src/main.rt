//! The `bench` program: how long the arbiter takes, and what it costs to wait.
//!
//! Each part measures one thing: `step` the arbiter's orders, `feed` those of a script, `grow` orders as the machine and its
//! threads grow, `page` the reading of page words, `call` orders through the service, `wait` how soon who waits goes on. A part
//! prints what it did, which is the same each time, or with `--time` how long that took. `check` does those that need no quiet
//! machine, one after the other.
//! `gen` writes a script and `config` a machine's configuration, so that other programs are measured on the same input.
#![tactic(auto)]

mod call;
mod floor;
mod grow;
mod house;
mod machine;
mod meanwhile;
mod page;
mod roles;
mod step;
mod texts;
mod times;
mod wait;
mod words;

use anyhow::Result;
use bench_parts::{Part, Sequence, Task, USUAL, first_orders, parse, script_orders, script_text};
use call::call;
use grow::grow;
use machine::NARROW;
use page::page;
use std::env;
use std::process::ExitCode;
use std::rt::{Clock, Files};
use std::sync::Wait;
use std::thread::Threads;
use step::step;
use texts::{print_help, print_usage};
use wait::wait;

/// The parts that need no quiet machine.
fn check<R: Threads + Wait + Clock + Files + Print + AllocGlobal + Sync>(rt: &R) -> Result<()> {
    step(rt, first_orders(rt.alloc(), USUAL)?.as_slice(), false)?;
    grow(rt, false)?;
    wait(rt, false)
}

/// Prints a script of so many orders.
fn print_script<R: Print + AllocGlobal>(rt: &R, task: &Task) -> Result<()> {
    let script = script_text(rt.alloc(), Sequence::new(task.seed), task.orders)?;
    print!(rt; "{script}")?;
    Ok(())
}

/// Ends with status 0 where all was printed, with 2 and a line on standard error where the command line is refused,
/// and with 1 where memory, the clock, a file or a stream failed.
fn main(rt: HostRuntime) -> Result<ExitCode> {
    let words: Vec<String> = env::args(&rt)?.collect(rt.alloc())?;
    let Some(task) = parse(words.as_slice()) else {
        print_usage(&rt)?;
        return Ok(ExitCode::from(2));
    };
    let timed = task.timed;
    match task.part {
        Part::Help => print_help(&rt)?,
        Part::Check => check(&rt)?,
        Part::Step => step(
            &rt,
            first_orders(rt.alloc(), task.orders)?.as_slice(),
            timed,
        )?,
        Part::Feed => step(
            &rt,
            script_orders(rt.alloc(), rt.stdin())?.as_slice(),
            timed,
        )?,
        Part::Grow => grow(&rt, timed)?,
        Part::Page => page(&rt, timed)?,
        Part::Call => call(&rt, timed)?,
        Part::Wait => wait(&rt, timed)?,
        Part::Gen => print_script(&rt, &task)?,
        Part::Config => print!(rt; "{NARROW}")?,
    }
    Ok(ExitCode::SUCCESS)
}
