//! The bars of a picture.

ghost use Rattle.std.specs.Prelude.{◌≡◌, ◌+◌, ◌<◌, ◌≤◌, ◌++◌, length, slice_index, IfOk, OnOk};
ghost use Rattle.arb_config.specs.Machine.{cores_of};
ghost use Rattle.arb_draw.specs.Bars.{bar_of, bars_at, bars_from, bars_of, core_at, part_bars, row_of};
ghost use Rattle.arb_draw.specs.Limits.{max_orders};

use crate::frame::Frame;
use crate::part::Part;
use crate::span::{Span, run_at};
use arb_config::Topology;
use std::alloc::{AllocError, Global};

/// A managed core.
#[derive(Clone, Copy, Debug, PartialEq, Eq)]
pub struct ManagedCore {
    /// Its position.
    pub position: u8,
    /// The number of its socket.
    pub socket: u8,
    /// Its number.
    pub number: u16,
}

/// One thread has a core after each order from one on, up to another, after which it hasn't.
#[derive(Clone, Copy, Debug, PartialEq, Eq)]
pub struct Bar {
    /// The core.
    pub core: ManagedCore,
    /// The thread's number among all threads.
    pub thread: u16,
    /// The first order, counted from 1.
    pub from: u64,
    /// The order after the last.
    pub to: u64,
    /// Whether it is the span itself, or where the core is asked back.
    pub part: Part,
}

/// Who has the core at a position after each order.
fn row(
    alloc: Global,
    frames: &[Frame],
    part: Part,
    position: u8,
) -> Result<Vec<Option<u16>>, AllocError>
    ensures { IfOk result (λ row. row.items ≡ row_of frames.now part position) }
{
    let mut row = Vec::new(alloc);
    for frame in frames {
        row.push(frame.owner(part, position))?;
    }
    Ok(row)
}

/// The core at a position.
pub(crate) fn core_at(topology: &Topology, position: u8) -> ManagedCore
    requires { position < length (cores_of topology.now) }
    ensures { result ≡ core_at topology.now position }
{
    ManagedCore {
        position,
        socket: topology.socket_of(position),
        number: topology.core_at(position),
    }
}

/// Adds the bar of the run that begins at an index, if one does.
fn push_bar(
    bars: &mut Vec<Bar>,
    part: Part,
    core: ManagedCore,
    first: u32,
    row: &[Option<u16>],
    index: usize,
) -> Result<(), AllocError>
    requires within { index < length row.now }
    requires few { length row.now ≤ max_orders }
    ensures { OnOk result (bars.new.items ≡ bars.old.items ++ bars_from part core first row.now index) }
{
    match run_at(row, index) {
        Some(Span { thread, from, to }) => {
            let first = u64::from(first);
            bars.push(Bar {
                core,
                thread,
                from: first + from as u64,
                to: first + to as u64,
                part,
            })?;
            Ok(())
        }
        None => Ok(()),
    }
}

/// Adds the bars of a row.
fn push_row(
    bars: &mut Vec<Bar>,
    part: Part,
    core: ManagedCore,
    first: u32,
    row: &[Option<u16>],
) -> Result<(), AllocError>
    requires { length row.now ≤ max_orders }
    ensures { OnOk result (bars.new.items ≡ bars.old.items ++ part_bars part core first row.now) }
{
    for index in 0..row.len() {
        push_bar(bars, part, core, first, row, index)?;
    }
    Ok(())
}

/// Adds the bars of the core at a position: its spans, and where they are asked back.
fn push_core(
    alloc: Global,
    bars: &mut Vec<Bar>,
    topology: &Topology,
    first: u32,
    frames: &[Frame],
    position: u8,
) -> Result<(), AllocError>
    requires within { position < length (cores_of topology.now) }
    requires few { length frames.now ≤ max_orders }
    ensures { OnOk result (bars.new.items ≡ bars.old.items ++ bars_at topology.now first frames.now position) }
{
    let core = core_at(topology, position);
    let held = row(alloc, frames, Part::Held, position)?;
    push_row(bars, Part::Held, core, first, held.as_slice())?;
    let asked = row(alloc, frames, Part::Asked, position)?;
    push_row(bars, Part::Asked, core, first, asked.as_slice())
}

/// The bars of a run, whose first order that is drawn has the number `first`: of each managed core, in order of position,
/// its spans, and then where they are asked back.
///
/// # Errors
/// An allocation failed.
pub fn bars(
    alloc: Global,
    topology: &Topology,
    first: u32,
    frames: &[Frame],
) -> Result<Vec<Bar>, AllocError>
    requires { length frames.now ≤ max_orders }
    ensures { IfOk result (λ bars. bars.items ≡ bars_of topology.now first frames.now) }
{
    let mut bars = Vec::new(alloc);
    for position in 0..topology.managed() {
        push_core(alloc, &mut bars, topology, first, frames, position)?;
    }
    Ok(bars)
}
