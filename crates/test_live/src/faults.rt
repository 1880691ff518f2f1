//! Conversations that break off.

use crate::conversation::{Conversation, Turn, hold};
use arb_config::Topology;
use arb_live::{Both, LiveFault, live};
use std::process::Abort;
use std::test::Fail;
use test_parts::{FailingReader, ShortWriter, TWO_SOCKETS};

/// Three lines, the second of which is faulty.
const TURNS: [Turn; 3] = [
    (b"0.0 join\n", "0.0 join -> joined\n"),
    (b"0.0 jump\n", "error: line 2: S2 unknown order\n"),
    (
        b"0.0 status\n",
        "0.0 status -> counts due 0 owned 0 asked 0 waiting 0\n",
    ),
];

/// The lines of [`TURNS`].
const LINES: &[u8] = b"0.0 join\n0.0 jump\n0.0 status\n";

/// The answers to them.
const ANSWERS: &[u8] = b"0.0 join -> joined
error: line 2: S2 unknown order
0.0 status -> counts due 0 owned 0 asked 0 waiting 0
";

/// A conversation whose stream gives this often, and then fails, has so many bytes of answers.
fn gives_so_often<R: AllocGlobal + Abort>(
    rt: &R,
    topology: &Topology,
    reads: usize,
    answers: usize,
) {
    let mut conversation = Conversation::new(rt.alloc(), &TURNS, 100);
    conversation.reads = reads;
    let answer = hold(&mut conversation, topology);
    let left = (conversation.written.len(), conversation.is_settled());
    assert_eq!(rt;
        (answer, left),
        (Err(LiveFault::Read), (answers, true)),
        "{reads}"
    );
}

/// So has one whose reader gives so many bytes, one by one, and then fails.
fn gives_so_many<R: AllocGlobal + Abort>(
    rt: &R,
    topology: &Topology,
    bytes: usize,
    answers: usize,
) {
    let reader = FailingReader::new(LINES, 1, bytes);
    let mut both = Both::new(reader, Vec::new(rt.alloc()));
    let answer = live(&mut both, topology);
    let given = (answer, Some(both.writer.as_slice()));
    let wanted = (Err(LiveFault::Read), ANSWERS.get(..answers));
    assert_eq!(rt; given, wanted, "{bytes}");
}

/// How often a stream gives, and how many bytes of answers there are then.
const GIVEN_LINES: &[(usize, usize)] = &[(0, 0), (1, 19), (2, 51), (3, 104)];

/// How many bytes a reader gives, and as many of answers.
const GIVEN_BYTES: &[(usize, usize)] = &[
    (0, 0),
    (8, 0),
    (9, 19),
    (17, 19),
    (18, 51),
    (28, 51),
    (29, 104),
];

/// A read that fails leaves the complete lines answered, and a line that isn't complete unanswered.
#[test]
fn reads_fail(rt: HostRuntime) -> Result<(), Fail> {
    let topology = Topology::from_text(rt.alloc(), TWO_SOCKETS)?;
    for (reads, answers) in GIVEN_LINES {
        gives_so_often(&rt, &topology, *reads, *answers);
    }
    for (bytes, answers) in GIVEN_BYTES {
        gives_so_many(&rt, &topology, *bytes, *answers);
    }
    Ok(())
}

/// A writer with so much room takes as much of the answers.
fn takes_so_many<R: AllocGlobal + Abort>(rt: &R, topology: &Topology, room: usize, fails: bool) {
    let writer = ShortWriter::new(rt.alloc(), 3, room, fails);
    let mut both = Both::new(LINES, writer);
    let answer = live(&mut both, topology);
    let want = if room == ANSWERS.len() {
        Ok(())
    } else {
        Err(LiveFault::Write)
    };
    let given = (answer, Some(both.writer.taken.as_slice()));
    assert_eq!(rt; given, (want, ANSWERS.get(..room)), "{room}");
}

/// A write that fails, or takes nothing, leaves as much of the answers as was taken.
#[test]
fn writes_fail(rt: HostRuntime) -> Result<(), Fail> {
    let topology = Topology::from_text(rt.alloc(), TWO_SOCKETS)?;
    assert_eq!(rt; ANSWERS.len(), 104);
    for fails in [false, true] {
        for room in 0..105 {
            takes_so_many(&rt, &topology, room, fails);
        }
    }
    Ok(())
}

/// Each fault has its text.
#[test]
fn faults_have_texts(rt: HostRuntime) -> Result<(), Fail> {
    let read = LiveFault::Read.to_string(rt.alloc())?;
    let write = LiveFault::Write.to_string(rt.alloc())?;
    let many = LiveFault::TooManyReads.to_string(rt.alloc())?;
    let texts = (read.as_str(), write.as_str(), many.as_str());
    assert_eq!(rt; texts, ("read fault", "write fault", "too many reads"));
    Ok(())
}
