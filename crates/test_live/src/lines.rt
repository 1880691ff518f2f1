//! What each line is answered, line by line and byte by byte.

use crate::conversation::{Conversation, Turn, hold};
use arb_config::Topology;
use std::process::Abort;
use std::test::Fail;
use test_parts::{THREE_ORDERS, TWO_SOCKETS};

/// Three applications that share six cores, until the clock moves a thread.
pub const SAMPLE: [Turn; 17] = [
    (b"0.0 join\n", "0.0 join -> joined\n"),
    (b"0.0 ask 2\n", "0.0 ask 2 0 0 0 0 0 0 0 -> due 2\n"),
    (b"0.0 block\n", "0.0 block -> now core 1\n"),
    (b"0.1 block\n", "0.1 block -> now core 2\n"),
    (b"1.0 join\n", "1.0 join -> joined\n"),
    (b"1.0 ask 6\n", "1.0 ask 6 0 0 0 0 0 0 0 -> due 4\n"),
    (b"1.0 block\n", "1.0 block -> now core 3\n"),
    (b"1.1 block\n", "1.1 block -> now core 5\n"),
    (b"1.2 block\n", "1.2 block -> now core 6\n"),
    (b"1.3 block\n", "1.3 block -> now core 7\n"),
    (b"2.0 join\n", "2.0 join -> joined\n"),
    (b"2.0 ask 6\n", "2.0 ask 6 0 0 0 0 0 0 0 -> due 2\n"),
    (b"2.0 block\n", "2.0 block -> now waiting\n"),
    (b"1.0 block\n", "1.0 block -> now waiting\n"),
    (b"clock tick 10000\n", "clock tick 10000 -> moved 1\n"),
    (
        b"1.0 status\n",
        "1.0 status -> counts due 2 owned 2 asked 0 waiting 1\n",
    ),
    (
        b"cores\n",
        "core 1 socket 0 owner 0.0
core 2 socket 0 owner 0.1
core 3 socket 0 owner 2.0
core 5 socket 1 owner 1.1
core 6 socket 1 owner 1.2
core 7 socket 1 free
end
",
    ),
];

/// The answer to `cores` where nobody has a core.
const FREE: &str = "core 1 socket 0 free
core 2 socket 0 free
core 3 socket 0 free
core 5 socket 1 free
core 6 socket 1 free
core 7 socket 1 free
end
";

/// Lines that are skipped and counted, faulty ones that change nothing, and a last one without LF.
pub const ODD: [Turn; 15] = [
    (b"\n", ""),
    (b" \t\r\n", ""),
    (b"# a comment\n", ""),
    (b"0.0 join\r\n", "0.0 join -> joined\n"),
    (b"0.0 jump\n", "error: line 5: S2 unknown order\n"),
    (b"16.0 join\n", "error: line 6: S1 bad client\n"),
    (
        b"0.0 join now\n",
        "error: line 7: S4 wrong number of words\n",
    ),
    (b"0.0 ask 129\n", "error: line 8: S3 bad number\n"),
    (b"# \xff\n", "error: line 9: not text\n"),
    (b"cores now\n", "error: line 10: S1 bad client\n"),
    (b"Cores\n", "error: line 11: S1 bad client\n"),
    (b"0.1 join\n", "0.1 join -> refused 1 already-joined\n"),
    (b"0.0 ask 1\n", "0.0 ask 1 0 0 0 0 0 0 0 -> due 1\n"),
    (b"\t cores \n", FREE),
    (b"0.0 block", "0.0 block -> now core 1\n"),
];

/// With three orders at most, each further one is full, and nothing else is.
const FULL: [Turn; 8] = [
    (b"0.0 join\n", "0.0 join -> joined\n"),
    (b"0.0 join\n", "0.0 join -> refused 1 already-joined\n"),
    (b"0.0 block\n", "0.0 block -> now waiting\n"),
    (b"0.0 ask 3\n", "0.0 ask 3 0 0 0 0 0 0 0 -> full\n"),
    (b"clock tick 5\n", "clock tick 5 -> full\n"),
    (b"no order\n", "error: line 6: S1 bad client\n"),
    (b"cores\n", FREE),
    (b"0.0 status\n", "0.0 status -> full\n"),
];

/// A conversation is held to its end, with all answers, whether bytes go one by one or many at a time.
fn is_held<R: AllocGlobal + Abort>(rt: &R, config: &str, turns: &[Turn]) -> Result<(), Fail> {
    let topology = Topology::from_text(rt.alloc(), config)?;
    for step in [1, 2, 7, 100_000] {
        let mut conversation = Conversation::new(rt.alloc(), &*turns, step);
        assert_eq!(rt; hold(&mut conversation, &topology), Ok(()), "by {step}");
        assert_eq!(rt; conversation.turns.len(), 0, "by {step}");
        assert!(rt; conversation.is_settled(), "by {step}");
    }
    Ok(())
}

#[test]
fn each_line_is_answered_before_the_next(rt: HostRuntime) -> Result<(), Fail> {
    is_held(&rt, TWO_SOCKETS, &SAMPLE)?;
    is_held(&rt, TWO_SOCKETS, &ODD)?;
    is_held(&rt, THREE_ORDERS, &FULL)?;
    is_held(&rt, TWO_SOCKETS, &[])
}

/// A line has at most 200 bytes, whatever they are, and a longer one is one fault.
#[test]
fn long_lines(rt: HostRuntime) -> Result<(), Fail> {
    let too_long = "error: line 1: S5 line too long\n";
    for (begins, byte, bytes, answer) in [
        (b"0.0 join".as_slice(), b' ', 200, "0.0 join -> joined\n"),
        (b"0.0 join", b' ', 201, too_long),
        (b"cores", b'\t', 201, too_long),
        (b"#", b'#', 200, ""),
        (b"#", b'#', 201, too_long),
        (b"", 0xFF, 200, "error: line 1: not text\n"),
        (b"", 0xFF, 201, too_long),
        (b"", 0xFF, 202, too_long),
        (b"0.0 join", b' ', 9_000, too_long),
    ] {
        let mut line = Vec::from_slice(rt.alloc(), begins)?;
        for _ in begins.len()..bytes {
            line.push(byte)?;
        }
        line.push(b'\n')?;
        let turns = [
            (line.as_slice(), answer),
            (b"1.0 join\n", "1.0 join -> joined\n"),
        ];
        is_held(&rt, TWO_SOCKETS, &turns)?;
    }
    Ok(())
}
