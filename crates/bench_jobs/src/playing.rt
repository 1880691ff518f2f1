//! Scripts played by threads.

use crate::digest::{Bytes, Orders};
use anyhow::{Result, ensure};
use arb_config::Topology;
use arb_play::{FreeGate, Gate, TurnGate, play};
use arb_script::Script;
use arb_share::{Sink, Watched};
use std::sync::Wait;
use std::thread::Threads;

/// Plays a script without turns. Gives a digest of all that the schedule has no part in.
pub fn play_freely<R: Threads + Wait + AllocGlobal + Sync>(
    rt: &R,
    topology: &Topology,
    script: &Script,
) -> Result<u64> {
    let mut sink = Watched::new(Orders::default());
    let played = play(rt, rt.alloc(), topology, script, &FreeGate, &mut sink);
    ensure!(played.is_ok(), "the script could not be played");
    Ok(sink.inner.number())
}

/// Plays a script in turn. Gives a digest of its report.
pub fn play_in_turn<R: Threads + Wait + AllocGlobal + Sync>(
    rt: &R,
    topology: &Topology,
    script: &Script,
) -> Result<u64> {
    let mut sink = Watched::new(Bytes::default());
    let played = play(
        rt,
        rt.alloc(),
        topology,
        script,
        &TurnGate::new(),
        &mut sink,
    );
    ensure!(played.is_ok(), "the script could not be played");
    Ok(sink.inner.number())
}
