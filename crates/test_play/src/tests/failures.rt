//! Readers and writers that fail in the middle, and reports that are too long to be gathered before they are written.

use crate::tests::setting::printed;
use arb_config::Topology;
use arb_play::{PlayFault, TurnGate, play};
use arb_script::{ReadFault, RunFault, Script, run};
use arb_share::Watched;
use std::alloc::Global;
use std::process::Abort;
use std::sync::Wait;
use std::test::Fail;
use std::thread::Threads;
use test_parts::{FailingReader, ShortWriter, THREE_APPLICATIONS, THREE_REPORT, TWO_SOCKETS};

/// A run whose writer takes `step` bytes a call and `room` bytes in all, and then fails or takes none any more: it took
/// a prefix of the report.
fn takes_prefix<R: AllocGlobal + Abort>(
    rt: &R,
    topology: &Topology,
    (script, report): (&str, &[u8]),
    step: usize,
    room: usize,
    fails: bool,
) {
    let mut source = Watched::new(script.as_bytes());
    let mut sink = Watched::new(ShortWriter::new(rt.alloc(), step, room, fails));
    let answer = run(rt.alloc(), &mut source, &mut sink, topology);
    let all = room == report.len();
    let want = if all { Ok(()) } else { Err(RunFault::Write) };
    is_prefix(rt, answer == want, &sink, report, room);
}

/// What came of a writer with so much room: the answer was right, one call failed where the room isn't enough, and it took a prefix.
fn is_prefix(
    rt: &impl Abort,
    is_right: bool,
    sink: &Watched<ShortWriter>,
    report: &[u8],
    room: usize,
) {
    let failures = if room == report.len() { 0 } else { 1 };
    assert!(rt;
        is_right
            && sink.failures == failures
            && Some(sink.inner.taken.as_slice()) == report.get(..room),
        "with room {room}"
    );
}

/// The same of a play, whose writer fails.
fn play_takes_prefix<R: Threads + Wait + Abort + AllocGlobal + Sync>(
    rt: &R,
    topology: &Topology,
    script: &Script,
    report: &[u8],
    room: usize,
) {
    let mut sink = Watched::new(ShortWriter::new(rt.alloc(), 100, room, true));
    let gate = TurnGate::new();
    let answer = play(rt, rt.alloc(), topology, script, &gate, &mut sink);
    let all = room == report.len();
    let want = if all { Ok(()) } else { Err(PlayFault::Write) };
    is_prefix(rt, answer == want, &sink, report, room);
}

/// A writer that fails, or takes nothing any more, after each number of bytes up to the report's length; and of a play
/// after some numbers of bytes.
#[test]
fn each_write_fails_in_turn(rt: HostRuntime) -> Result<(), Fail> {
    let topology = Topology::from_text(rt.alloc(), TWO_SOCKETS)?;
    let report = THREE_REPORT.as_bytes();
    for room in 0..report.len() + 1 {
        for fails in [false, true] {
            let example = (THREE_APPLICATIONS, report);
            takes_prefix(&rt, &topology, example, 100, room, fails);
        }
    }
    let script = Script::from_text(rt.alloc(), THREE_APPLICATIONS)?;
    for room in [0, 1, 40, 300, report.len()] {
        play_takes_prefix(&rt, &topology, &script, report, room);
    }
    Ok(())
}

/// A run whose reader fails at a call: at none where it has as many calls as it takes.
fn fails_at_call<R: AllocGlobal + Abort>(
    rt: &R,
    topology: &Topology,
    fails_at: usize,
    is_done: bool,
) {
    let mut source = Watched::new(FailingReader {
        bytes: THREE_APPLICATIONS.as_bytes(),
        step: 16,
        calls: 0,
        fails_at,
    });
    let mut sink = Watched::new(Vec::new(rt.alloc()));
    let answer = run(rt.alloc(), &mut source, &mut sink, topology);
    let wanted = if is_done {
        (Ok(()), 0, THREE_REPORT.as_bytes())
    } else {
        (Err(RunFault::Read(ReadFault::Read)), 1, b"".as_slice())
    };
    let given = (answer, source.failures, sink.inner.as_slice());
    assert_eq!(rt; given, wanted, "at call {fails_at}");
}

/// A reader that fails at its first call, its second, and so on, until a run meets no failure.
#[test]
fn each_read_fails_in_turn(rt: HostRuntime) -> Result<(), Fail> {
    let topology = Topology::from_text(rt.alloc(), TWO_SOCKETS)?;
    // the calls that give bytes, and one that finds the end
    let calls = THREE_APPLICATIONS.as_bytes().len().div_ceil(16) + 1;
    for fails_at in 0..calls + 1 {
        fails_at_call(&rt, &topology, fails_at, fails_at == calls);
    }
    Ok(())
}

/// How many orders the long script has.
const ORDERS: usize = 2_000;

/// A script of orders of five applications and of the clock.
fn many_orders(alloc: Global) -> Result<String, Fail> {
    let given = [
        "join", "ask 3 1", "block", "status", "block", "cap 2", "retire", "ask 128", "block",
        "leave",
    ];
    let mut script = String::new(alloc);
    for place in 0..ORDERS {
        let line = if place % 11 == 10 {
            format!(in alloc; "clock tick {}\n", place * 1_000)?
        } else {
            let word = given[place % 7 + place % 4];
            format!(in alloc; "{}.{} {word}\n", place % 5, place % 3)?
        };
        script.push_str(line.as_str())?;
    }
    Ok(script)
}

/// A report of thousands of lines is written by a few calls, and its bytes are those of its lines; some orders come
/// after the limit.
#[test]
fn many_lines_are_written_by_few_calls(rt: HostRuntime) -> Result<(), Fail> {
    let script = many_orders(rt.alloc())?;
    let config = format!(in rt.alloc(); "orders = 1900\n{TWO_SOCKETS}")?;
    let topology = Topology::from_text(rt.alloc(), config.as_str())?;
    let want = printed(&rt, &topology, script.as_str())?;
    let line_ends = want.iter().filter(|byte| **byte == b'\n').count();
    assert_eq!(rt; (line_ends, want.len() > 32_768), (ORDERS + 6, true));
    let mut source = Watched::new(script.as_str().as_bytes());
    let mut sink = Watched::new(ShortWriter::new(rt.alloc(), usize::MAX, usize::MAX, false));
    let answer = run(rt.alloc(), &mut source, &mut sink, &topology);
    let is_whole = sink.inner.taken.as_slice() == want.as_slice();
    assert_eq!(rt; (answer, is_whole), (Ok(()), true));
    assert!(rt; sink.inner.calls < 10, "{} calls", sink.inner.calls);
    Ok(())
}

/// Wherever the writer of a long report fails, it took a prefix, also where some of it was written before.
#[test]
fn many_lines_have_a_prefix(rt: HostRuntime) -> Result<(), Fail> {
    let script = many_orders(rt.alloc())?;
    let topology = Topology::from_text(rt.alloc(), TWO_SOCKETS)?;
    let want = printed(&rt, &topology, script.as_str())?;
    for room in (0..want.len()).step_by(997) {
        let example = (script.as_str(), want.as_slice());
        takes_prefix(&rt, &topology, example, 1_000, room, true);
    }
    Ok(())
}
