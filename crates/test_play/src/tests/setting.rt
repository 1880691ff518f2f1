//! Reports of scripts, made in three ways, and their first lines.

use arb_config::Topology;
use arb_core::Core;
use arb_play::{Gate, PlayFault, play};
use arb_script::{RunFault, Script, print_entry, print_full, print_table, run};
use arb_share::Watched;
use std::alloc::{AllocError, Global};
use std::process::Abort;
use std::sync::Wait;
use std::test::Fail;
use std::thread::Threads;
use test_parts::FREE_CORES;

/// The report of a script on the machine of a configuration, each line printed by itself.
pub fn printed<R: AllocGlobal + Abort>(
    rt: &R,
    topology: &Topology,
    script: &str,
) -> Result<Vec<u8>, Fail> {
    let script = Script::from_text(rt.alloc(), script)?;
    let mut sink = Watched::new(Vec::new(rt.alloc()));
    let mut core = Core::new(topology);
    for place in 0..script.len() {
        let (client, order) = (script.client(place), script.order(place));
        let written = if core.is_full() {
            print_full(&mut sink, client, &order)
        } else {
            assert!(rt; core.next_stale().is_none());
            let reply = core.step(client, &order);
            core.post_all(&mut |_, _| {});
            print_entry(&mut sink, client, &order, &reply)
        };
        assert_eq!(rt; written, Ok(()));
    }
    assert_eq!(rt; print_table(&mut sink, &core, topology), Ok(()));
    Ok(sink.inner)
}

/// What a run of a script answers, and what it writes.
pub fn outcome(
    alloc: Global,
    topology: &Topology,
    script: &[u8],
) -> (Result<(), RunFault>, Vec<u8>) {
    let mut source = Watched::new(script);
    let mut sink = Watched::new(Vec::new(alloc));
    let answer = run(alloc, &mut source, &mut sink, topology);
    let Watched { inner, failures: _ } = sink;
    (answer, inner)
}

/// A run of a script answers so, and writes so much.
pub fn runs_as<R: AllocGlobal + Abort>(
    rt: &R,
    topology: &Topology,
    script: &[u8],
    answer: Result<(), RunFault>,
    written: &[u8],
) {
    let (given, bytes) = outcome(rt.alloc(), topology, script);
    assert!(rt;
        given == answer && bytes.as_slice() == written,
        "{given:?} for {answer:?}, {bytes:?}"
    );
}

/// What a play of a script answers, and what it writes.
pub fn played<G: Gate, R: Threads + Wait + Abort + AllocGlobal + Sync>(
    rt: &R,
    topology: &Topology,
    script: &str,
    gate: &G,
) -> Result<(Result<(), PlayFault>, Vec<u8>), Fail> {
    let script = Script::from_text(rt.alloc(), script)?;
    let mut sink = Watched::new(Vec::new(rt.alloc()));
    let answer = play(rt, rt.alloc(), topology, &script, gate, &mut sink);
    let Watched { inner, failures: _ } = sink;
    Ok((answer, inner))
}

/// A play is done, and its report has these lines, and a table of which all cores are free.
pub fn plays_as<G: Gate, R: Threads + Wait + Abort + AllocGlobal + Sync>(
    rt: &R,
    topology: &Topology,
    script: &str,
    gate: &G,
    lines: &str,
) -> Result<(), Fail> {
    let (answer, written) = played(rt, topology, script, gate)?;
    let want = format!(in rt.alloc(); "{lines}{FREE_CORES}")?;
    assert_eq!(rt; (answer, written.as_slice()), (Ok(()), want.as_bytes()));
    Ok(())
}

/// The first lines of a text.
pub fn first_lines(alloc: Global, text: &str, lines: usize) -> Result<String, AllocError> {
    let mut first = String::new(alloc);
    for line in text.lines().take(lines) {
        first.push_str(line)?;
        first.push('\n')?;
    }
    Ok(first)
}
