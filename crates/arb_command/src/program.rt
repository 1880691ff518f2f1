//! The work of a command line, over any reader and writers, and its exit status.

ghost use Rattle.std.specs.Prelude.{◌≡◌, ◌≤◌, OnOk, OnErr};

use crate::arguments::{Task, Work, parse};
use crate::config_file::machine_of;
use arb_config::Topology;
use arb_draw::draw;
use arb_live::{Both, live, live_endless};
use arb_play::{FreeGate, TurnGate, play};
use arb_script::{read_script, run};
use arb_share::{Watched, due_run};
use clap::error::ErrorKind;
use std::alloc::Global;
use std::convert::AsStr;
use std::fmt::Display;
use std::io::{Read, Write};
use std::rt::Files;
use std::sync::Wait;
use std::thread::Threads;

/// The work was done.
const DONE: u8 = 0;
/// An input was refused, or reading, writing or memory failed.
const FAULT: u8 = 1;
/// The command line was refused.
const USAGE: u8 = 2;

/// Runs a command line, the program's own name being its first word, with `reader` and the two writers in
/// place of the standard streams. Answers the exit status:
///
/// - 0: the work was done.
/// - 1: an input was refused, or reading, writing or memory failed; one line on `err` says why.
/// - 2: the command line was refused; the text on `err` says why.
///
/// Where a line can't be written to `err`, the status is the same. After a fault of writing, `out` has a prefix of
/// what it would have had.
///
/// ```
/// let rows = b"0 2\n".as_slice();
/// let status = command(&rt, &["arbiter", "due", "--cores", "4"], rows, &mut out, &mut err);
/// ```
pub fn command<R, S, I, O, E>(rt: &R, words: &[S], reader: I, mut out: O, mut err: E) -> u8
where
    R: Files + AllocGlobal + Threads + Wait + Sync,
    S: AsStr,
    I: Read + Drop,
    O: Write + Drop,
    E: Write + Drop,
    // it is one of the three
    ensures status { result ≤ 2 }
{
    match parse(rt.alloc(), words) {
        Ok(Some(task)) => do_task(rt, task, reader, out, err),
        Ok(None) => {
            let _ = writeln!(err, "unknown command");
            USAGE
        }
        Err(error) => refused(&error, &mut out, &mut err),
    }
}

/// Does a task. No task ends as a refused command line.
fn do_task<R, I, O, E>(rt: &R, task: Task<'_>, reader: I, out: O, mut err: E) -> u8
where
    R: Files + AllocGlobal + Threads + Wait + Sync,
    I: Read + Drop,
    O: Write + Drop,
    E: Write + Drop,
    ensures { result ≤ 1 }
{
    match task {
        Task::Due { cores } => {
            let done = due_run(&mut Watched::new(reader), &mut Watched::new(out), cores);
            status(done, &mut err)
        }
        Task::OnMachine { file, work } => match machine_of(rt, file) {
            Ok(machine) => on_machine(rt, &machine, work, reader, out, err),
            Err(cause) => fault(cause, &mut err),
        },
    }
}

/// Shows `clap`'s text on the writer where it belongs.
fn refused<O: Write, E: Write>(error: &clap::Error, out: &mut O, err: &mut E) -> u8
    ensures { result ≤ 2 }
{
    if error.kind() == ErrorKind::OutOfMemory {
        return fault("out of memory", err);
    }
    if error.use_stderr() {
        let _ = write!(err, "{error}");
        return USAGE;
    }
    status(write!(out, "{error}").map_err(|_| "write fault"), err)
}

/// Says in one line why the work wasn't done.
fn fault<D: Display + Drop, E: Write>(cause: D, err: &mut E) -> u8
    ensures { result ≡ 1 }
{
    let _ = writeln!(err, "{cause}");
    FAULT
}

/// The status of work that was done, or of a fault, which is said in one line.
fn status<D: Display + Drop, E: Write>(done: Result<(), D>, err: &mut E) -> u8
    ensures done { OnOk done (result ≡ 0) }
    ensures fault { OnErr done (result ≡ 1) }
    ensures bound { result ≤ 1 }
{
    match done {
        Ok(()) => DONE,
        Err(cause) => fault(cause, err),
    }
}

/// Does a work on a machine.
fn on_machine<R, I, O, E>(
    rt: &R,
    machine: &Topology,
    work: Work,
    reader: I,
    mut out: O,
    mut err: E,
) -> u8
where
    R: AllocGlobal + Threads + Wait + Sync,
    I: Read + Drop,
    O: Write + Drop,
    E: Write + Drop,
    ensures { result ≤ 1 }
{
    let alloc = rt.alloc();
    match work {
        Work::Check => status(describe(machine, &mut out), &mut err),
        Work::Live { endless } => {
            let mut stream = Both::new(reader, out);
            let done = if endless {
                live_endless(&mut stream, machine)
            } else {
                live(&mut stream, machine)
            };
            status(done, &mut err)
        }
        Work::Run => {
            let (mut source, mut sink) = (Watched::new(reader), Watched::new(out));
            status(run(alloc, &mut source, &mut sink, machine), &mut err)
        }
        Work::Draw { choice } => {
            let (mut source, mut sink) = (Watched::new(reader), Watched::new(out));
            status(
                draw(alloc, &mut source, &mut sink, machine, &choice),
                &mut err,
            )
        }
        Work::Play { ordered } => play_script(rt, machine, ordered, reader, out, &mut err),
    }
}

/// Writes the line of a machine.
fn describe<O: Write>(machine: &Topology, out: &mut O) -> Result<(), &'static str> {
    let sockets = machine.sockets();
    let managed = machine.managed();
    let unmanaged = machine.unmanaged();
    let grace = machine.grace();
    let orders = machine.orders();
    let written = writeln!(
        out,
        "ok: {sockets} sockets, {managed} managed, {unmanaged} unmanaged, grace {grace}, orders {orders}"
    );
    written.map_err(|_| "write fault")
}

/// Runs a script by threads, and writes its journal report.
fn play_script<R, I, O, E>(
    rt: &R,
    machine: &Topology,
    ordered: bool,
    reader: I,
    out: O,
    err: &mut E,
) -> u8
where
    R: AllocGlobal + Threads + Wait + Sync,
    I: Read + Drop,
    O: Write + Drop,
    E: Write,
    ensures { result ≤ 1 }
{
    let alloc = rt.alloc();
    let script = match read_script(alloc, &mut Watched::new(reader)) {
        Ok(script) => script,
        Err(cause) => return fault(cause, err),
    };
    let mut sink = Watched::new(out);
    let played = if ordered {
        play(rt, alloc, machine, &script, &TurnGate::new(), &mut sink)
    } else {
        play(rt, alloc, machine, &script, &FreeGate, &mut sink)
    };
    status(played, err)
}
