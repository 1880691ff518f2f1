//! Scripts run and drawn, conversations, machines' files and request rows: each from a text in memory to what is written.

use crate::digest::{Bytes, Number};
use anyhow::{Context, Result, ensure};
use arb_config::{CORE_NUMBERS, Topology};
use arb_draw::{Choice, MAX_ORDERS, Scale};
use arb_live::Both;
use arb_share::{Watched, due_run};
use std::alloc::Global;

/// Runs a script. Gives a digest of its report.
pub fn run(alloc: Global, topology: &Topology, text: &str) -> Result<u64> {
    let mut source = Watched::new(text.as_bytes());
    let mut sink = Watched::new(Bytes::default());
    arb_play::run(alloc, &mut source, &mut sink, topology)?;
    Ok(sink.inner.number())
}

/// Draws the last orders of a script that has so many. Gives a digest of the picture.
pub fn draw(
    alloc: Global,
    topology: &Topology,
    text: &str,
    orders: u64,
    scale: Scale,
) -> Result<u64> {
    let first = orders.saturating_sub(MAX_ORDERS as u64).wrapping_add(1);
    let choice = Choice {
        from: Some(u32::try_from(first)?),
        to: None,
        scale,
    };
    let mut source = Watched::new(text.as_bytes());
    let mut sink = Watched::new(Bytes::default());
    arb_draw::draw(alloc, &mut source, &mut sink, topology, &choice)?;
    Ok(sink.inner.number())
}

/// Answers the lines of a conversation. Gives a digest of the answers.
pub fn live(topology: &Topology, text: &str) -> Result<u64> {
    let mut stream = Both::new(text.as_bytes(), Bytes::default());
    arb_live::live(&mut stream, topology)?;
    Ok(stream.writer.number())
}

/// Reads a machine's file. Gives a digest of the machine.
pub fn read_machine(alloc: Global, text: &str) -> Result<u64> {
    let topology = Topology::from_text(alloc, text)?;
    let mut digest = Number::default();
    for core in 0..CORE_NUMBERS as u16 {
        digest.add(topology.position_of(core).map_or(1000, u64::from));
    }
    Ok(digest.value)
}

/// Divides the cores of a machine over request rows. Gives a digest of the line.
pub fn due(text: &str, managed: u8) -> Result<u64> {
    let mut source = Watched::new(text.as_bytes());
    let mut sink = Watched::new(Bytes::default());
    due_run(&mut source, &mut sink, managed)?;
    Ok(sink.inner.number())
}
