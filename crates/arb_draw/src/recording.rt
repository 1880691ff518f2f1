//! A script, run through the arbiter, and what is drawn of it.

ghost use Rattle.std.specs.Prelude.{◌≡◌, ◌+◌, ◌-◌, ◌<◌, ◌≤◌, None, length, take, IfOk, OnOk};
ghost use Rattle.arb_model.specs.Posting.{next_stale_of};
ghost use Rattle.arb_script.specs.Report.{standing_after};
ghost use Rattle.arb_draw.specs.Frames.{frames_of};
ghost use Rattle.arb_draw.specs.Picture.{apps_after};

use crate::cell::AppThreads;
use crate::choice::Orders;
use crate::frame::{Frame, apps};
use arb_config::Topology;
use arb_core::Core;
use arb_script::{Script, TextLine, answer};
use arb_share::APPLICATIONS;
use arrayvec::ArrayVec;
use std::alloc::{AllocError, Global};

/// Gives the order of a script at an index to the arbiter that took those before it.
fn enter(core: &mut Core, script: &Script, index: usize, line: &mut TextLine)
    requires within { index < length script.now }
    requires standing { core.old.standing ≡ standing_after core.old.machine (take index script.now) }
    requires settled { next_stale_of core.old.standing core.old.posted ≡ None }
    ensures standing { core.new.standing ≡ standing_after core.old.machine (take (index + 1) script.now) }
    ensures machine { core.new.machine ≡ core.old.machine }
    ensures settled { next_stale_of core.new.standing core.new.posted ≡ None }
{
    answer(core, script.client(index), &script.order(index), line);
}

/// The arbiter of a machine after so many orders of a script.
fn entered(topology: &Topology, script: &Script, count: usize) -> Core
    requires { count ≤ length script.now }
    ensures standing { result.standing ≡ standing_after topology.now (take count script.now) }
    ensures machine { result.machine ≡ topology.now }
    ensures settled { next_stale_of result.standing result.posted ≡ None }
{
    let mut core = Core::new(topology);
    let mut line = TextLine::new();
    for index in 0..count {
        enter(&mut core, script, index, &mut line);
    }
    core
}

/// Gives the orders of a script from an index on to the arbiter, up to another index, and keeps what is drawn after each.
fn record(
    alloc: Global,
    topology: &Topology,
    core: &mut Core,
    script: &Script,
    start: usize,
    end: usize,
) -> Result<Vec<Frame>, AllocError>
    requires order { start ≤ end }
    requires within { end ≤ length script.now }
    requires standing { core.old.standing ≡ standing_after topology.now (take start script.now) }
    requires machine { core.old.machine ≡ topology.now }
    requires settled { next_stale_of core.old.standing core.old.posted ≡ None }
    ensures frames { IfOk result (λ frames. frames.items ≡ frames_of topology.now script.now (start + 1) (end - start)) }
    ensures standing { OnOk result (core.new.standing ≡ standing_after topology.now (take end script.now)) }
    ensures machine { core.new.machine ≡ topology.now }
{
    let mut line = TextLine::new();
    let mut frames = Vec::new(alloc);
    for index in start..end {
        enter(core, script, index, &mut line);
        frames.push(Frame::new(core, topology))?;
    }
    Ok(frames)
}

/// What is drawn of orders of a script, and the applications that it has by the last of them.
#[derive(Drop)]
pub(crate) struct Recording {
    /// What is drawn after each order.
    pub frames: Vec<Frame>,
    /// The applications of which a thread gave an order.
    pub apps: ArrayVec<AppThreads, APPLICATIONS>,
}

/// Runs a script up to the last of these orders, and keeps what is drawn of them.
pub(crate) fn recorded(
    alloc: Global,
    topology: &Topology,
    script: &Script,
    orders: Orders,
) -> Result<Recording, AllocError>
    requires some { 1 ≤ orders.first }
    requires within { orders.first + orders.count ≤ length script.now + 1 }
    ensures frames { IfOk result (λ r. r.frames.items ≡ frames_of topology.now script.now orders.first orders.count) }
    ensures apps { IfOk result (λ r. r.apps.items ≡ apps_after topology.now script.now orders) }
    ensures count { IfOk result (λ r. length r.frames.items ≡ orders.count) }
{
    // a length that fits a word
    let _orders = script.len();
    let start = orders.first as usize - 1;
    let end = start + orders.count;
    let mut core = entered(topology, script, start);
    let frames = record(alloc, topology, &mut core, script, start, end)?;
    let apps = apps(&core);
    Ok(Recording { frames, apps })
}
