//! Writers that fail in the middle, and flushes.

use crate::once::{OnceReader, OnceWriter};
use crate::setting::{ends_with, status_of};
use std::alloc::AllocError;
use std::fs;
use std::process::Abort;
use std::rt::Files;
use std::sync::Wait;
use std::test::Fail;
use std::thread::Threads;
use test_parts::{THREE_ORDERS, TWO_SOCKETS};

/// A script of one client: threads too print the same of it each time.
const SCRIPT: &[u8] = b"0.0 join\n0.0 ask 2\n0.0 block\n";

/// Command lines that write, each with its input and a part of what it writes.
const LINES: &[(&str, &[u8], &str)] = &[
    ("arbiter --help", b"", "Divides the cores of a machine"),
    ("arbiter --version", b"", "arbiter "),
    ("arbiter due --cores 4", b"0 2\n", "2 0 0 0 0 0 0 0 "),
    ("arbiter check out.toml", b"", "ok: 2 sockets, 6 managed, "),
    ("arbiter run --config out.toml", SCRIPT, "-> due 2\n"),
    ("arbiter play --config out.toml", SCRIPT, "-> due 2\n"),
    (
        "arbiter play --ordered --config out.toml",
        SCRIPT,
        "-> due 2\n",
    ),
    ("arbiter live --config out.toml", SCRIPT, "-> due 2\n"),
    (
        "arbiter live --endless --config out.toml",
        SCRIPT,
        "-> due 2\n",
    ),
    ("arbiter draw --config out.toml", SCRIPT, "</svg>\n"),
];

/// A command line whose writer fails behind so many bytes leaves these and no more, and says so. With room for all, it
/// is done.
fn takes<R>(
    rt: &R,
    row: &(&str, &[u8], &str),
    all: &[u8],
    room: usize,
    takes_none: bool,
) -> Result<(), AllocError>
where
    R: Abort + Files + AllocGlobal + Threads + Wait + Sync,
{
    let (line, input, _) = row;
    let mut out = OnceWriter::new(rt.alloc(), room);
    out.takes_none = takes_none;
    let want = if room < all.len() {
        (1, "write fault\n")
    } else {
        (0, "")
    };
    ends_with(rt, line, *input, &mut out, want)?;
    let taken = (Some(out.taken.as_slice()), takes_none);
    assert_eq!(rt; taken, (all.get(..room), takes_none), "{line}, room {room}");
    Ok(())
}

/// A command line is done, and then its writer fails at the first byte, at others, and nowhere.
fn fails_anywhere<R>(rt: &R, row: &(&str, &[u8], &str)) -> Result<(), AllocError>
where
    R: Abort + Files + AllocGlobal + Threads + Wait + Sync,
{
    let (line, input, part) = row;
    let mut all = Vec::new(rt.alloc());
    ends_with(rt, line, *input, &mut all, (0, ""))?;
    let text = str::from_utf8(all.as_slice()).unwrap_or("");
    assert!(rt; text.contains(*part), "{line}: {text}");
    let length = all.len();
    for room in [0, 1, length / 2, length.saturating_sub(1), length] {
        takes(rt, row, all.as_slice(), room, false)?;
        takes(rt, row, all.as_slice(), room, true)?;
    }
    Ok(())
}

#[test]
fn a_failed_write_ends_with_a_line(rt: HostRuntime) -> Result<(), Fail> {
    fs::write(&rt, "out.toml", TWO_SOCKETS)?;
    for row in LINES {
        fails_anywhere(&rt, row)?;
    }
    Ok(())
}

/// Command lines that are refused or fail, each with its input, its status, and the beginning of its line.
const FAULTS: &[(&str, &[u8], u8, &[u8])] = &[
    ("arbiter deal", b"", 2, b"error: "),
    ("arbiter due --cores 0", b"", 2, b"error: "),
    ("arbiter due --cores 4", b"x", 1, b"line 1: Q1"),
    ("arbiter check none.toml", b"", 1, b"cannot open none"),
    ("arbiter run --config err.toml", b"x", 1, b"line 1: S1"),
    ("arbiter play --config err.toml", b"x", 1, b"line 1: S1"),
    ("arbiter draw --config err.toml", b"x", 1, b"line 1: S1"),
];

/// A line that can't be told changes no status, and comes on no other stream.
#[test]
fn an_untold_line_changes_no_status(rt: HostRuntime) -> Result<(), Fail> {
    fs::write(&rt, "err.toml", TWO_SOCKETS)?;
    for (line, input, want, told) in FAULTS {
        for fails_at in [0, 5] {
            let mut out = Vec::new(rt.alloc());
            let mut err = OnceWriter::new(rt.alloc(), fails_at);
            let status = status_of(&rt, line, *input, &mut out, &mut err)?;
            let left = (status, out.len(), Some(err.taken.as_slice()));
            assert_eq!(rt; left, (*want, 0, told.get(..fails_at)), "{line}");
        }
    }
    Ok(())
}

/// Answers of 19 bytes to three lines, each of which takes a call of reading.
fn converse<R>(rt: &R, out: &mut OnceWriter, want: (u8, &str)) -> Result<(), AllocError>
where
    R: Abort + Files + AllocGlobal + Threads + Wait + Sync,
{
    let reader = OnceReader {
        bytes: b"0.0 join\n1.0 join\n2.0 join\n",
        calls: 0,
        fails_at: usize::MAX,
    };
    ends_with(rt, "arbiter live --config flush.toml", reader, out, want)
}

/// Each answer of a conversation is flushed before the next one is written. A flush that fails is a fault of writing.
#[test]
fn each_answer_is_flushed(rt: HostRuntime) -> Result<(), Fail> {
    fs::write(&rt, "flush.toml", TWO_SOCKETS)?;
    let mut out = OnceWriter::new(rt.alloc(), usize::MAX);
    converse(&rt, &mut out, (0, ""))?;
    let flushes = out.flushes.as_slice();
    let seen = (flushes.contains(&19), flushes.contains(&38), flushes.last());
    assert_eq!(rt; seen, (true, true, Some(&57)), "{flushes:?}");
    let mut out = OnceWriter::new(rt.alloc(), usize::MAX);
    out.failing_flush = 1;
    converse(&rt, &mut out, (1, "write fault\n"))?;
    assert_eq!(rt; out.flushes.len(), 2);
    Ok(())
}

/// With the flag no order is full, whatever the machine's text allows; without it each one past the limit is.
#[test]
fn orders_without_a_limit(rt: HostRuntime) -> Result<(), Fail> {
    fs::write(&rt, "three.toml", THREE_ORDERS)?;
    let orders = b"0.0 join\n1.0 join\n2.0 join\n3.0 join\n4.0 join\n".as_slice();
    let joined = "0.0 join -> joined\n1.0 join -> joined\n2.0 join -> joined\n";
    for (line, more) in [
        (
            "arbiter live --endless --config three.toml",
            "3.0 join -> joined\n4.0 join -> joined\n",
        ),
        (
            "arbiter live --config three.toml --endless",
            "3.0 join -> joined\n4.0 join -> joined\n",
        ),
        (
            "arbiter live --config three.toml",
            "3.0 join -> full\n4.0 join -> full\n",
        ),
    ] {
        let mut out = Vec::new(rt.alloc());
        ends_with(&rt, line, orders, &mut out, (0, ""))?;
        let text = str::from_utf8(out.as_slice()).unwrap_or("not UTF-8");
        assert_eq!(rt; text.strip_prefix(joined), Some(more), "{line}");
    }
    Ok(())
}
