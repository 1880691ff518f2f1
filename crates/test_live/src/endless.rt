//! Conversations without a limit on orders.

use crate::conversation::{Conversation, Turn, hold_endless};
use crate::lines::{ODD, SAMPLE};
use arb_config::Topology;
use arb_live::{Both, live, live_endless};
use std::alloc::{AllocError, Global};
use std::process::Abort;
use std::test::Fail;
use test_parts::{FailingReader, THREE_ORDERS, TWO_SOCKETS};

/// How many orders and faulty lines are said by the fixed rule.
const LINES: usize = 700;

const CLIENTS: [&str; 7] = ["0.0", "0.1", "1.0", "1.3", "2.31", "clock", "2.0"];

/// What follows a client, in turn: each order, with refused ones and faulty lines between.
const ORDERS: [&str; 21] = [
    "join",
    "block",
    "ask 3",
    "block",
    "block",
    "ask 6",
    "status",
    "block",
    "ask 1 2 0 4",
    "retire",
    "block",
    "cap 2",
    "ask 129",
    "block",
    "jump",
    "cap 128",
    "ask 0",
    "block now",
    "ask 4",
    "block",
    "leave",
];

/// Lines that come between, in turn.
const BETWEEN: [&[u8]; 5] = [
    b"cores\n",
    b"\n",
    b"# a comment\n",
    b"16.0 join\n",
    b"# \xff\n",
];

/// Lines of all kinds. Behind each fifth the clock goes on by half the grace, and then another line comes between.
fn lines_of_all_kinds(alloc: Global) -> Result<Vec<u8>, AllocError> {
    let mut lines = Vec::new(alloc);
    for index in 0..LINES {
        let client = CLIENTS[index % CLIENTS.len()];
        let order = ORDERS[index / 4 % ORDERS.len()];
        lines.extend_from_slice(format!(in alloc; "{client} {order}\n")?.as_bytes())?;
        if index % 5 == 4 {
            let moment = index.wrapping_mul(1_000);
            lines.extend_from_slice(format!(in alloc; "clock tick {moment}\n")?.as_bytes())?;
            lines.extend_from_slice(BETWEEN[index / 5 % BETWEEN.len()])?;
        }
    }
    Ok(lines)
}

/// How often one text stands in another.
fn count(text: &[u8], part: &[u8]) -> usize {
    let mut found = 0usize;
    for start in 0..text.len() {
        if text[start..].starts_with(part) {
            found = found.wrapping_add(1);
        }
    }
    found
}

/// With three orders between two renewals the answers are those of a machine whose limit is never reached, in pieces of
/// any size, and none of them is full.
#[test]
fn answers_are_those_below_the_limit(rt: HostRuntime) -> Result<(), Fail> {
    let lines = lines_of_all_kinds(rt.alloc())?;
    let mut below = Both::new(lines.as_slice(), Vec::new(rt.alloc()));
    let unlimited = Topology::from_text(rt.alloc(), TWO_SOCKETS)?;
    assert_eq!(rt; live(&mut below, &unlimited), Ok(()));
    let wanted = below.writer.as_slice();
    // the lines do something: cores are given, asked back and moved
    for part in [
        b"-> joined\n".as_slice(),
        b"-> now core ",
        b"-> now waiting\n",
        b" asked\n",
        b"-> moved 3\n",
        b"-> refused ",
        b"end\n",
        b"error: ",
    ] {
        assert!(rt; count(wanted, part) > 2);
    }
    assert_eq!(rt; count(wanted, b"full\n"), 0);
    let three = Topology::from_text(rt.alloc(), THREE_ORDERS)?;
    for step in [1, 2, 7, 113, 4_095, 100_000] {
        let reader = FailingReader::new(lines.as_slice(), step, usize::MAX);
        let mut both = Both::new(reader, Vec::new(rt.alloc()));
        assert_eq!(rt; live_endless(&mut both, &three), Ok(()), "by {step}");
        assert!(rt; both.writer.as_slice() == wanted, "by {step}");
    }
    // with the limit, each order but the first three is full
    let mut limited = Both::new(lines.as_slice(), Vec::new(rt.alloc()));
    assert_eq!(rt; live(&mut limited, &three), Ok(()));
    assert!(rt; count(limited.writer.as_slice(), b" -> full\n") > LINES / 2);
    Ok(())
}

/// A conversation of more orders than the limit is held to its end, with all answers.
fn is_held<R: AllocGlobal + Abort>(rt: &R, turns: &[Turn]) -> Result<(), Fail> {
    let topology = Topology::from_text(rt.alloc(), THREE_ORDERS)?;
    for step in [1, 2, 7, 100_000] {
        let mut conversation = Conversation::new(rt.alloc(), &*turns, step);
        assert_eq!(rt;
            hold_endless(&mut conversation, &topology),
            Ok(()),
            "by {step}"
        );
        assert_eq!(rt; conversation.turns.len(), 0, "by {step}");
        assert!(rt; conversation.is_settled(), "by {step}");
    }
    Ok(())
}

#[test]
fn each_line_is_answered_past_the_limit(rt: HostRuntime) -> Result<(), Fail> {
    is_held(&rt, &SAMPLE)?;
    is_held(&rt, &ODD)
}
