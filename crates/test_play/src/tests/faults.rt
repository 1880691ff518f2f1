//! Faults as the lines that a user reads.

use arb_house::OpenFault;
use arb_model::ClientId;
use arb_play::PlayFault;
use arb_script::{ReadFault, RunFault, ScriptFault, ScriptKind};
use std::alloc::AllocError;
use std::fmt::Display;
use std::process::Abort;
use std::test::Fail;

/// Faults of reading, with their texts.
const READ: &[(ReadFault, &str)] = &[
    (ReadFault::Read, "read fault"),
    (ReadFault::TooLong, "input too long"),
    (ReadFault::NotText, "input is not UTF-8"),
    (ReadFault::Memory, "out of memory"),
];

/// Lines and what is wrong there, with their texts.
const SCRIPT: &[(usize, ScriptKind, &str)] = &[
    (2, ScriptKind::UnknownOrder, "line 2: S2 unknown order"),
    (1, ScriptKind::BadClient, "line 1: S1 bad client"),
    (7, ScriptKind::Memory, "out of memory"),
];

/// A fault has this text.
fn reads<R: Abort + AllocGlobal>(
    rt: &R,
    fault: &impl Display,
    text: &str,
) -> Result<(), AllocError> {
    assert_eq!(rt; fault.to_string(rt.alloc())?.as_str(), text);
    Ok(())
}

#[test]
fn fault_texts(rt: HostRuntime) -> Result<(), Fail> {
    for (fault, text) in READ {
        reads(&rt, fault, text)?;
        reads(&rt, &RunFault::Read(*fault), text)?;
    }
    for (line, kind, text) in SCRIPT {
        let fault = ScriptFault {
            line: *line,
            kind: *kind,
        };
        reads(&rt, &RunFault::Script(fault), text)?;
    }
    reads(&rt, &RunFault::Write, "write fault")?;
    Ok(())
}

#[test]
fn play_fault_texts(rt: HostRuntime) -> Result<(), Fail> {
    let twice = OpenFault::Twice(ClientId::clock());
    for (fault, text) in [
        (PlayFault::Open(OpenFault::Memory), "out of memory"),
        (PlayFault::Open(twice), "H1 client named twice"),
        (PlayFault::Start, "P2 thread not started"),
        (PlayFault::GaveUp(0), "P3 gate gave up at order 0"),
        (
            PlayFault::GaveUp(1_000_000),
            "P3 gate gave up at order 1000000",
        ),
        (PlayFault::Ended, "P4 ended early"),
        (PlayFault::Write, "write fault"),
    ] {
        reads(&rt, &fault, text)?;
    }
    Ok(())
}
