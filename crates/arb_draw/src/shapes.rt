//! The shapes of a run, one after another.

ghost use Rattle.std.specs.Prelude.{◌≡◌, ◌+◌, ◌<◌, ◌≤◌, ◌≢◌, ◌^◌, ◌++◌, ◌∷◌, ◌==◌, [], map, length, slice_index, IfOk, OnOk};
ghost use Rattle.arb_config.specs.Machine.{cores_of};
ghost use Rattle.arb_share.specs.Limits.{applications};
ghost use Rattle.arb_draw.specs.Limits.{max_orders};
ghost use Rattle.arb_draw.specs.Shapes.{all_names, all_panels, all_rows, bar_shape, bar_width, bar_x, changes, heads_socket, layout_of, legend, line_end, line_shapes, line_steps, name_shapes, panel_shapes, row_shapes, shapes_of, step_at, tick_shape};

use crate::axis::{Tick, columns, ticks};
use crate::bar::{Bar, core_at};
use crate::cell::AppThreads;
use crate::frame::Frame;
use crate::layout::{LEFT, Layout, PLOT, value_y};
use crate::measure::{Measure, greatest, values};
use crate::part::Part;
use crate::scale::Scale;
use crate::shape::Shape;
use arb_config::Topology;
use std::alloc::{AllocError, Global};

/// How wide a bar is at least that has its thread's name on it.
const NAMED_WIDTH: u32 = 400;

/// Adds an entry of the legend for each application.
fn push_legend(shapes: &mut Vec<Shape>, apps: &[AppThreads]) -> Result<(), AllocError>
    requires { length apps.now ≤ applications }
    ensures { OnOk result (shapes.new.items ≡ shapes.old.items ++ legend apps.now) }
{
    for (index, entry) in apps.iter().enumerate() {
        shapes.push(Shape::Swatch {
            app: entry.app,
            threads: entry.threads,
            x: Layout::legend_x(index as u8),
            y: Layout::legend_y(index as u8),
        })?;
    }
    Ok(())
}

/// Adds the labels of orders or moments.
fn push_ticks(shapes: &mut Vec<Shape>, layout: Layout, ticks: &[Tick]) -> Result<(), AllocError>
    ensures { OnOk result (shapes.new.items ≡ shapes.old.items ++ map (tick_shape layout) ticks.now) }
{
    for tick in ticks {
        shapes.push(Shape::Tick {
            label: tick.label,
            x: tick.x,
            top: layout.cores_top(),
            bottom: layout.bottom(),
        })?;
    }
    Ok(())
}

/// Whether the core at a position is the first of its socket.
fn heads_socket(topology: &Topology, position: u8) -> bool
    requires { position < length (cores_of topology.now) }
    ensures { result ≡ heads_socket topology.now position }
{
    position == 0 || topology.socket_of(position - 1) != topology.socket_of(position)
}

/// Adds the row of the core at a position, with its socket's name where it is the first there.
fn push_row(
    shapes: &mut Vec<Shape>,
    topology: &Topology,
    layout: Layout,
    position: u8,
) -> Result<(), AllocError>
    requires { position < length (cores_of topology.now) }
    ensures { OnOk result (shapes.new.items ≡ shapes.old.items ++ row_shapes topology.now layout position) }
{
    let core = core_at(topology, position);
    let row = Shape::Row {
        core: core.number,
        y: layout.row_y(&core),
    };
    if heads_socket(topology, position) {
        shapes.push(Shape::Socket {
            number: core.socket,
            y: layout.row_y(&core),
        })?;
        shapes.push(row)?;
        return Ok(());
    }
    shapes.push(row)?;
    Ok(())
}

/// Adds the rows of all managed cores.
fn push_rows(shapes: &mut Vec<Shape>, topology: &Topology, layout: Layout) -> Result<(), AllocError>
    ensures { OnOk result (shapes.new.items ≡ shapes.old.items ++ all_rows topology.now layout) }
{
    for position in 0..topology.managed() {
        push_row(shapes, topology, layout, position)?;
    }
    Ok(())
}

/// The place of the order at an index, and 0 past the last.
fn column(xs: &[u32], index: u64) -> u32
    ensures { result ≡ slice_index xs.now index }
{
    match xs.get(index as usize) {
        Some(x) => *x,
        None => 0,
    }
}

/// Where bars stand.
#[derive(Clone, Copy)]
struct Grid<'a> {
    /// Which rows there are.
    layout: Layout,
    /// The number of the first order that is drawn.
    first: u32,
    /// The place of each order that is drawn, and of the end.
    xs: &'a [u32],
}

impl Grid<'_> {
    /// The left edge of a bar.
    fn bar_x(&self, bar: &Bar) -> u32
        ensures { result ≡ bar_x self.now.first self.now.xs.now bar.now }
    {
        column(self.xs, bar.from.saturating_sub(u64::from(self.first)))
    }

    /// How wide a bar is.
    fn bar_width(&self, bar: &Bar) -> u32
        ensures { result ≡ bar_width self.now.first self.now.xs.now bar.now }
    {
        let end = column(self.xs, bar.to.saturating_sub(u64::from(self.first)));
        end.saturating_sub(self.bar_x(bar))
    }
}

/// Adds all bars.
fn push_bars(shapes: &mut Vec<Shape>, grid: &Grid<'_>, bars: &[Bar]) -> Result<(), AllocError>
    ensures { OnOk result (shapes.new.items
        ≡ shapes.old.items ++ map (bar_shape grid.now.layout grid.now.first grid.now.xs.now) bars.now) }
{
    for bar in bars {
        shapes.push(Shape::Bar {
            bar: *bar,
            x: grid.bar_x(bar),
            y: grid.layout.row_y(&bar.core),
            width: grid.bar_width(bar),
        })?;
    }
    Ok(())
}

/// Adds the name of a bar's thread, where the bar is wide enough and no part of another.
fn push_name(shapes: &mut Vec<Shape>, grid: &Grid<'_>, bar: &Bar) -> Result<(), AllocError>
    ensures { OnOk result (shapes.new.items
        ≡ shapes.old.items ++ name_shapes grid.now.layout grid.now.first grid.now.xs.now bar.now) }
{
    if bar.part == Part::Asked || grid.bar_width(bar) < NAMED_WIDTH {
        return Ok(());
    }
    shapes.push(Shape::Name {
        thread: bar.thread,
        x: grid.bar_x(bar),
        y: grid.layout.row_y(&bar.core),
    })?;
    Ok(())
}

/// Adds the names of the threads on bars.
fn push_names(shapes: &mut Vec<Shape>, grid: &Grid<'_>, bars: &[Bar]) -> Result<(), AllocError>
    ensures { OnOk result (shapes.new.items
        ≡ shapes.old.items ++ all_names grid.now.layout grid.now.first grid.now.xs.now bars.now) }
{
    for bar in bars {
        push_name(shapes, grid, bar)?;
    }
    Ok(())
}

/// Adds a step at an index where the value isn't the one before it.
fn push_step(
    shapes: &mut Vec<Shape>,
    xs: &[u32],
    values: &[u16],
    base: u32,
    peak: u16,
    index: usize,
) -> Result<(), AllocError>
    requires { index < length values.now }
    ensures { OnOk result (shapes.new.items ≡ shapes.old.items ++ step_at xs.now values.now base peak index) }
{
    if index > 0 && values[index] == values[index - 1] {
        return Ok(());
    }
    shapes.push(Shape::Step {
        x: column(xs, index as u64),
        y: value_y(base, peak, values[index]),
    })?;
    Ok(())
}

/// Adds the steps of a line.
fn push_steps(
    shapes: &mut Vec<Shape>,
    xs: &[u32],
    values: &[u16],
    base: u32,
    peak: u16,
) -> Result<(), AllocError>
    ensures { OnOk result (shapes.new.items ≡ shapes.old.items ++ line_steps xs.now values.now base peak) }
{
    for index in 0..values.len() {
        push_step(shapes, xs, values, base, peak, index)?;
    }
    Ok(())
}

/// The end of a line of steps.
fn line_end(measure: Measure, base: u32) -> Shape
    ensures { result ≡ line_end measure base }
{
    let x = LEFT + PLOT;
    match measure {
        Measure::Waits => Shape::AreaEnd { x, base },
        _ => Shape::LineEnd { x },
    }
}

/// Adds a line of steps.
fn push_line(
    shapes: &mut Vec<Shape>,
    measure: Measure,
    xs: &[u32],
    values: &[u16],
    base: u32,
    peak: u16,
) -> Result<(), AllocError>
    ensures { OnOk result (shapes.new.items ≡ shapes.old.items ++ line_shapes measure xs.now values.now base peak) }
{
    shapes.push(Shape::Line { measure, base })?;
    push_steps(shapes, xs, values, base, peak)?;
    shapes.push(line_end(measure, base))?;
    Ok(())
}

/// Adds the panel of an application, whose top is `y`.
fn push_panel(
    alloc: Global,
    shapes: &mut Vec<Shape>,
    xs: &[u32],
    frames: &[Frame],
    app: u8,
    y: u32,
) -> Result<(), AllocError>
    requires { y + 560 < 2 ^ 32 }
    ensures { OnOk result (shapes.new.items ≡ shapes.old.items ++ panel_shapes xs.now frames.now app y) }
{
    let waits = values(alloc, frames, Measure::Waits, app)?;
    let wants = values(alloc, frames, Measure::Wants, app)?;
    let due = values(alloc, frames, Measure::Due, app)?;
    let owns = values(alloc, frames, Measure::Owns, app)?;
    let peak = greatest(waits.as_slice())
        .max(greatest(wants.as_slice()))
        .max(greatest(due.as_slice()))
        .max(greatest(owns.as_slice()));
    let base = y + 560;
    shapes.push(Shape::Panel { app, peak, y })?;
    push_line(shapes, Measure::Waits, xs, waits.as_slice(), base, peak)?;
    push_line(shapes, Measure::Wants, xs, wants.as_slice(), base, peak)?;
    push_line(shapes, Measure::Due, xs, due.as_slice(), base, peak)?;
    push_line(shapes, Measure::Owns, xs, owns.as_slice(), base, peak)
}

/// Adds the panels of all applications.
fn push_panels(
    alloc: Global,
    shapes: &mut Vec<Shape>,
    layout: Layout,
    xs: &[u32],
    frames: &[Frame],
    apps: &[AppThreads],
) -> Result<(), AllocError>
    requires { length apps.now ≤ applications }
    ensures { OnOk result (shapes.new.items ≡ shapes.old.items ++ all_panels layout xs.now frames.now apps.now) }
{
    for (index, entry) in apps.iter().enumerate() {
        push_panel(
            alloc,
            shapes,
            xs,
            frames,
            entry.app,
            layout.panel_y(index as u8),
        )?;
    }
    Ok(())
}

/// How much is drawn.
fn layout_of(topology: &Topology, apps: &[AppThreads]) -> Layout
    requires { length apps.now ≤ applications }
    ensures { result ≡ layout_of topology.now apps.now }
{
    Layout {
        managed: topology.managed(),
        sockets: topology.sockets(),
        apps: apps.len() as u8,
    }
}

/// The shapes of a run: of its frames, whose first is after the order of the number `first`, of the applications that it has,
/// and of its bars.
///
/// # Errors
/// An allocation failed.
pub(crate) fn shapes(
    alloc: Global,
    topology: &Topology,
    scale: Scale,
    first: u32,
    frames: &[Frame],
    apps: &[AppThreads],
    bars: &[Bar],
) -> Result<Vec<Shape>, AllocError>
    requires few { length frames.now ≤ max_orders }
    requires apps { length apps.now ≤ applications }
    ensures { IfOk result (λ shapes. shapes.items ≡ shapes_of topology.now scale first frames.now apps.now bars.now) }
{
    let layout = layout_of(topology, apps);
    let xs = columns(alloc, scale, frames)?;
    let ticks = ticks(alloc, scale, first, frames)?;
    let mut shapes = Vec::new(alloc);
    shapes.push(Shape::Begin {
        first: u64::from(first),
        last: (u64::from(first) + frames.len() as u64).saturating_sub(1),
        height: layout.height(),
    })?;
    push_legend(&mut shapes, apps)?;
    shapes.push(Shape::Key { y: layout.key_y() })?;
    shapes.push(Shape::Axis {
        scale,
        y: layout.axis_y(),
    })?;
    push_rows(&mut shapes, topology, layout)?;
    push_ticks(&mut shapes, layout, ticks.as_slice())?;
    let grid = Grid {
        layout,
        first,
        xs: xs.as_slice(),
    };
    push_bars(&mut shapes, &grid, bars)?;
    push_names(&mut shapes, &grid, bars)?;
    push_panels(alloc, &mut shapes, layout, xs.as_slice(), frames, apps)?;
    shapes.push(Shape::End)?;
    Ok(shapes)
}
