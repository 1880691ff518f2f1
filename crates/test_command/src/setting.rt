//! A command line with a reader and two writers, and what it must leave.

use arb_command::command;
use std::alloc::AllocError;
use std::io::{Read, Write};
use std::process::Abort;
use std::rt::Files;
use std::sync::Wait;
use std::thread::Threads;

/// The status of a command line, the program's own name among its words.
pub fn status_of<R, I, O, E>(
    rt: &R,
    line: &str,
    reader: I,
    out: O,
    err: E,
) -> Result<u8, AllocError>
where
    R: Files + AllocGlobal + Threads + Wait + Sync,
    I: Read + Drop,
    O: Write + Drop,
    E: Write + Drop,
{
    let words: Vec<&str> = line.split_ascii_whitespace().collect(rt.alloc())?;
    Ok(command(rt, words.as_slice(), reader, out, err))
}

/// A command line ends with this status and this text on the error writer.
pub fn ends_with<R, I, O>(
    rt: &R,
    line: &str,
    reader: I,
    out: O,
    want: (u8, &str),
) -> Result<(), AllocError>
where
    R: Abort + Files + AllocGlobal + Threads + Wait + Sync,
    I: Read + Drop,
    O: Write + Drop,
{
    let mut err = Vec::new(rt.alloc());
    let status = status_of(rt, line, reader, out, &mut err)?;
    let text = str::from_utf8(err.as_slice()).unwrap_or("not UTF-8");
    assert_eq!(rt; (status, text), want, "{line}");
    Ok(())
}
