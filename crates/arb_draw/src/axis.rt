//! Where orders and moments stand on the way to the right.

ghost use Rattle.std.specs.Prelude.{◌≡◌, ◌+◌, ◌-◌, ◌*◌, ◌/◌, ◌%◌, ◌<◌, ◌≤◌, ◌^◌, ◌++◌, ◌∷◌, [], length, map, min, slice_index, IfOk, OnOk};
ghost use Rattle.std.specs.List.{flat_map, range_with_len};
ghost use Rattle.arb_draw.specs.Axis.{clock_at, columns, elapsed, label_step, moment_x, order_ticks, order_x, passed, tick_after, tick_at, ticks, time_columns};
ghost use Rattle.arb_draw.specs.Limits.{max_orders};

use crate::frame::Frame;
use crate::layout::{LEFT, PLOT};
use crate::scale::Scale;
use std::alloc::{AllocError, Global};

/// A place on the way to the right, with its label.
#[derive(Clone, Copy, Debug, PartialEq, Eq)]
pub struct Tick {
    /// The order or the moment.
    pub label: u64,
    /// From the left edge.
    pub x: u32,
}

/// The place of an order, counted from the first drawn one, of so many.
fn order_x(index: usize, count: usize) -> u32
    requires within { index ≤ count }
    requires few { count ≤ max_orders }
    ensures { result ≡ order_x index count }
{
    LEFT + index as u32 * PLOT / (count as u32).max(1)
}

/// The place of a moment so long after the first, where so much passes in all.
fn moment_x(elapsed: u64, passed: u64) -> u32
    ensures { result ≡ moment_x elapsed passed }
{
    let passed = u128::from(passed);
    let x = u128::from(elapsed) * u128::from(PLOT) / (passed + passed / 16 + 1);
    LEFT + x.min(u128::from(PLOT)) as u32
}

/// The clock after an order, counted from the first drawn one.
fn clock_at(frames: &[Frame], index: usize) -> u64
    ensures { result ≡ clock_at frames.now index }
{
    match frames.get(index) {
        Some(frame) => frame.clock(),
        None => 0,
    }
}

/// How long it is from the first drawn order to the last.
fn passed(frames: &[Frame]) -> u64
    ensures passed { result ≡ passed frames.now }
    ensures fits { clock_at frames.now 0 + result < 2 ^ 64 }
{
    let start = clock_at(frames, 0);
    let end = clock_at(frames, frames.len().saturating_sub(1));
    end.saturating_sub(start)
}

/// The place of each drawn order, all as wide, and the right edge.
fn order_columns(alloc: Global, count: usize) -> Result<Vec<u32>, AllocError>
    requires { count ≤ max_orders }
    ensures { IfOk result (λ xs. xs.items ≡ map (λ index. order_x index count) (range_with_len 0 (count + 1))) }
{
    let mut xs = Vec::new(alloc);
    for index in 0..count + 1 {
        xs.push(order_x(index, count))?;
    }
    Ok(xs)
}

/// The place of each drawn order by its moment, and the right edge.
fn time_columns(alloc: Global, frames: &[Frame]) -> Result<Vec<u32>, AllocError>
    ensures { IfOk result (λ xs. xs.items ≡ time_columns frames.now) }
{
    let passed = passed(frames);
    let start = clock_at(frames, 0);
    let mut xs = Vec::new(alloc);
    for frame in frames {
        xs.push(moment_x(frame.clock().saturating_sub(start), passed))?;
    }
    xs.push(LEFT + PLOT)?;
    Ok(xs)
}

/// The place of each drawn order, and the right edge.
pub(crate) fn columns(alloc: Global, scale: Scale, frames: &[Frame]) -> Result<Vec<u32>, AllocError>
    requires { length frames.now ≤ max_orders }
    ensures { IfOk result (λ xs. xs.items ≡ columns scale frames.now) }
{
    match scale {
        Scale::Orders => order_columns(alloc, frames.len()),
        Scale::Time => time_columns(alloc, frames),
    }
}

/// Of how many orders one is labelled.
fn label_step(count: usize) -> u64
    ensures step { result ≡ label_step count }
    ensures some { 0 < result }
{
    match count {
        0..=20 => 1,
        21..=40 => 2,
        41..=100 => 5,
        101..=200 => 10,
        201..=400 => 20,
        401..=1_000 => 50,
        _ => 100,
    }
}

/// Adds the label of an order, where it has one.
fn push_tick(
    ticks: &mut Vec<Tick>,
    first: u32,
    count: usize,
    index: usize,
) -> Result<(), AllocError>
    requires within { index ≤ count }
    requires few { count ≤ max_orders }
    ensures { OnOk result (ticks.new.items ≡ ticks.old.items ++ tick_at first count index) }
{
    let label = u64::from(first) + index as u64;
    if label % label_step(count) != 0 {
        return Ok(());
    }
    ticks.push(Tick {
        label,
        x: order_x(index, count),
    })?;
    Ok(())
}

/// The labels of so many orders.
fn order_ticks(alloc: Global, first: u32, count: usize) -> Result<Vec<Tick>, AllocError>
    requires { count ≤ max_orders }
    ensures { IfOk result (λ ticks. ticks.items ≡ order_ticks first count) }
{
    let mut ticks = Vec::new(alloc);
    for index in 0..count {
        push_tick(&mut ticks, first, count, index)?;
    }
    Ok(ticks)
}

/// The label of a moment so long after the first, where so much passes in all.
fn tick_after(start: u64, elapsed: u64, passed: u64) -> Tick
    requires { start + elapsed < 2 ^ 64 }
    ensures { result ≡ tick_after start passed elapsed }
{
    Tick {
        label: start + elapsed,
        x: moment_x(elapsed, passed),
    }
}

/// The labels of five moments from the first to the last.
fn time_ticks(alloc: Global, start: u64, passed: u64) -> Result<Vec<Tick>, AllocError>
    requires { start + passed < 2 ^ 64 }
    ensures { IfOk result (λ ticks. ticks.items ≡ map (tick_after start passed) (elapsed passed)) }
{
    let quarter = passed / 4;
    let half = passed / 2;
    let mut ticks = Vec::new(alloc);
    ticks.push(tick_after(start, 0, passed))?;
    ticks.push(tick_after(start, quarter, passed))?;
    ticks.push(tick_after(start, half, passed))?;
    ticks.push(tick_after(start, half + quarter, passed))?;
    ticks.push(tick_after(start, passed, passed))?;
    Ok(ticks)
}

/// The labels below the orders or moments.
pub(crate) fn ticks(
    alloc: Global,
    scale: Scale,
    first: u32,
    frames: &[Frame],
) -> Result<Vec<Tick>, AllocError>
    requires { length frames.now ≤ max_orders }
    ensures { IfOk result (λ found. found.items ≡ ticks scale first frames.now) }
{
    match scale {
        Scale::Orders => order_ticks(alloc, first, frames.len()),
        Scale::Time => time_ticks(alloc, clock_at(frames, 0), passed(frames)),
    }
}
