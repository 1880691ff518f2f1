//! What is written of a script that is done: the same line by line, by a run, and by a play in turn.

use crate::tests::scripts::RUNS;
use crate::tests::setting::{first_lines, played, plays_as, printed, runs_as};
use arb_config::Topology;
use arb_play::{FreeGate, TurnGate};
use std::process::Abort;
use std::sync::Wait;
use std::test::Fail;
use std::thread::Threads;
use test_parts::{THREE_APPLICATIONS, THREE_REPORT, TWO_SOCKETS};

/// A script has a report, whichever way it is made.
fn has_report<R: Threads + Wait + Abort + AllocGlobal + Sync>(
    rt: &R,
    topology: &Topology,
    script: &str,
    report: &str,
) -> Result<(), Fail> {
    let lines = printed(rt, topology, script)?;
    assert_eq!(rt; lines.as_slice(), report.as_bytes(), "lines of {script}");
    runs_as(rt, topology, script.as_bytes(), Ok(()), report.as_bytes());
    let (answer, written) = played(rt, topology, script, &TurnGate::new())?;
    let play = (answer, written.as_slice());
    assert_eq!(rt; play, (Ok(()), report.as_bytes()), "play of {script}");
    Ok(())
}

/// Who has each core after twelve orders of the three applications: two are asked back of the second.
const ASKED_CORES: &str = "core 1 socket 0 owner 0.0
core 2 socket 0 owner 0.1
core 3 socket 0 owner 1.0 asked
core 5 socket 1 owner 1.1
core 6 socket 1 owner 1.2
core 7 socket 1 owner 1.3 asked
";

/// Each script has its report on the machine of two sockets, with a line more that limits the orders, or none.
#[test]
fn scripts_have_their_reports(rt: HostRuntime) -> Result<(), Fail> {
    for (limit, script, replies, cores) in RUNS {
        let config = format!(in rt.alloc(); "{limit}{TWO_SOCKETS}")?;
        let topology = Topology::from_text(rt.alloc(), config.as_str())?;
        let report = format!(in rt.alloc(); "{replies}{cores}")?;
        has_report(&rt, &topology, script, report.as_str())?;
    }
    Ok(())
}

#[test]
fn cores_that_are_asked_back_are_reported(rt: HostRuntime) -> Result<(), Fail> {
    let topology = Topology::from_text(rt.alloc(), TWO_SOCKETS)?;
    let script = first_lines(rt.alloc(), THREE_APPLICATIONS, 12)?;
    let mut report = first_lines(rt.alloc(), THREE_REPORT, 12)?;
    report.push_str(ASKED_CORES)?;
    has_report(&rt, &topology, script.as_str(), report.as_str())
}

/// Without turns, where nothing is given.
#[test]
fn a_free_play_of_no_order_has_its_report(rt: HostRuntime) -> Result<(), Fail> {
    let topology = Topology::from_text(rt.alloc(), TWO_SOCKETS)?;
    plays_as(&rt, &topology, "", &FreeGate, "")
}
