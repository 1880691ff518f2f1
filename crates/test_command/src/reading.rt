//! Readers that fail in the middle.

use crate::once::OnceReader;
use crate::setting::ends_with;
use std::alloc::AllocError;
use std::fs;
use std::process::Abort;
use std::rt::Files;
use std::sync::Wait;
use std::test::Fail;
use std::thread::Threads;
use test_parts::TWO_SOCKETS;

/// Three request rows, each of which takes one call.
const ROWS: &[u8] = b"0 1 2  5\n1 0 2  5\n2 0 0  3\n";

/// Three orders, each of which takes one call.
const ORDERS: &[u8] = b"0.0 join\n1.0 join\n2.0 join\n";

/// Commands that write nothing before the input was read to its end.
const READ_FIRST: &[(&str, &[u8])] = &[
    ("arbiter due --cores 4", ROWS),
    ("arbiter run --config reading.toml", ORDERS),
    ("arbiter play --config reading.toml", ORDERS),
    ("arbiter play --ordered --config reading.toml", ORDERS),
    ("arbiter draw --config reading.toml", ORDERS),
];

/// A command whose reader fails at a call leaves so many bytes of the text.
fn leaves<R>(
    rt: &R,
    row: &(&str, &[u8]),
    fails_at: usize,
    output: Option<&[u8]>,
) -> Result<(), AllocError>
where
    R: Abort + Files + AllocGlobal + Threads + Wait + Sync,
{
    let (line, bytes) = row;
    let reader = OnceReader {
        bytes,
        calls: 0,
        fails_at,
    };
    let mut out = Vec::new(rt.alloc());
    ends_with(rt, line, reader, &mut out, (1, "read fault\n"))?;
    assert_eq!(rt; Some(out.as_slice()), output, "{line}, call {fails_at}");
    Ok(())
}

/// Three lines are three calls, and a fourth one finds the end. Whichever fails, nothing is written.
#[test]
fn a_failed_read_leaves_no_output(rt: HostRuntime) -> Result<(), Fail> {
    fs::write(&rt, "reading.toml", TWO_SOCKETS)?;
    for row in READ_FIRST {
        for fails_at in 0..4 {
            leaves(&rt, row, fails_at, Some(b""))?;
        }
    }
    Ok(())
}

/// The lines that came before a failed call are answered, and none after it.
#[test]
fn a_failed_read_ends_a_conversation(rt: HostRuntime) -> Result<(), Fail> {
    fs::write(&rt, "asking.toml", TWO_SOCKETS)?;
    let answers = b"0.0 join -> joined\n1.0 join -> joined\n2.0 join -> joined\n".as_slice();
    for line in [
        "arbiter live --config asking.toml",
        "arbiter live --endless --config asking.toml",
    ] {
        for (fails_at, length) in [(0, 0), (1, 19), (2, 38), (3, 57)] {
            leaves(&rt, &(line, ORDERS), fails_at, answers.get(..length))?;
        }
    }
    Ok(())
}
