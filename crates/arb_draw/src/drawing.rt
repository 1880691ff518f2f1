//! The picture of a run.

ghost use Rattle.std.specs.Prelude.{◌≡◌, ◌≢◌, ◌⊎◌, ◌<◌, ◌≤◌, ◌+◌, ◌++◌, ℕ, List, Ok, length, OnOk, IfOk, IfErr, IfSome, IsErrOf, MatchResult};
ghost use Rattle.std.specs.Io.KnownBytes.{Appends};
ghost use Rattle.std.specs.String.{string_bytes};
ghost use Rattle.arb_share.specs.Streams.{AppendsPrefix, ConsumesUpTo};
ghost use Rattle.arb_script.specs.Limits.{max_script};
ghost use Rattle.arb_draw.specs.Choice.{chosen};
ghost use Rattle.arb_draw.specs.Limits.{max_bars, max_orders};
ghost use Rattle.arb_draw.specs.Picture.{CanBeDrawn, IsUndrawn, picture, run_bars};
ghost use Rattle.arb_draw.specs.ShapeText.{text_of};

use crate::bar::bars;
use crate::choice::{Choice, Orders, chosen};
use crate::fault::DrawFault;
use crate::limits::MAX_BARS;
use crate::recording::recorded;
use crate::scale::Scale;
use crate::shape::Shape;
use crate::shapes::shapes;
use arb_config::Topology;
use arb_script::{ReadFault, RunFault, Script, read_script};
use arb_share::streams::write_all;
use arb_share::{Failed, Sink, Source};
use std::alloc::{AllocError, Global};
use std::fmt::Write;

/// The text of shapes, one after another.
fn text_of(alloc: Global, shapes: &[Shape]) -> Result<String, AllocError>
    ensures { IfOk result (λ text. string_bytes text ≡ text_of shapes.now) }
{
    let mut text = String::new(alloc);
    for shape in shapes {
        write!(text, "{shape}")?;
    }
    Ok(text)
}

/// The picture of orders of a script on a machine.
///
/// # Errors
/// [`DrawFault::TooManyBars`] where the orders have more bars than [`MAX_BARS`](crate::MAX_BARS), and
/// [`DrawFault::Memory`] where an allocation failed.
pub fn picture(
    alloc: Global,
    topology: &Topology,
    script: &Script,
    scale: Scale,
    orders: Orders,
) -> Result<String, DrawFault>
    requires some { 1 ≤ orders.first }
    requires few { orders.count ≤ max_orders }
    requires within { orders.first + orders.count ≤ length script.now + 1 }
    ensures picture { IfOk result (λ text. string_bytes text ≡ picture topology.now scale script.now orders) }
    ensures few { OnOk result (length (run_bars topology.now script.now orders) ≤ max_bars) }
    ensures fault { IfErr result (λ fault. (fault ≡ DrawFault.Memory)
        ⊎ ((fault ≡ DrawFault.TooManyBars (length (run_bars topology.now script.now orders)))
        × (max_bars < length (run_bars topology.now script.now orders)))) }
{
    let recording = recorded(alloc, topology, script, orders)?;
    let frames = recording.frames.as_slice();
    let bars = bars(alloc, topology, orders.first, frames)?;
    if bars.len() > MAX_BARS {
        return Err(DrawFault::TooManyBars { bars: bars.len() });
    }
    let shapes = shapes(
        alloc,
        topology,
        scale,
        orders.first,
        frames,
        recording.apps.as_slice(),
        bars.as_slice(),
    )?;
    Ok(text_of(alloc, shapes.as_slice())?)
}

/// Reads a script whole, runs it through the arbiter of a machine, and writes the picture of the chosen orders: an SVG that
/// shows who had which core, and what each application owned, was due and wanted.
///
/// # Errors
/// [`DrawFault`] says why there is no whole picture. Nothing is written before the whole picture is there, and after
/// [`RunFault::Write`] a prefix of it was written.
///
/// ```
/// let mut source = Watched::new(b"0.0 join\n0.0 ask 2\n0.0 block\n".as_slice());
/// let mut sink = Watched::new(Vec::new(alloc));
/// let choice = Choice { from: None, to: None, scale: Scale::Orders };
/// draw(alloc, &mut source, &mut sink, &topology, &choice)?;
/// ```
pub fn draw<R: Source, W: Sink>(
    alloc: Global,
    reader: &mut R,
    writer: &mut W,
    topology: &Topology,
    choice: &Choice,
) -> Result<(), DrawFault>
    // what is written is the picture of the chosen orders of the script that was read
    ensures written { OnOk result (IfSome (R.remaining reader.old) (λ input.
        (drawn : CanBeDrawn topology.now choice.now input)
        × Appends (W.contents writer.old) (W.contents writer.new)
        (picture topology.now choice.now.scale drawn.has.script drawn.has.orders))) }

    // a fault of the input or of the choice is there
    ensures refused { IfErr result (λ fault. IfSome (R.remaining reader.old) (IsUndrawn topology.now choice.now fault)) }
    ensures taken { ConsumesUpTo (max_script + 1) (R.remaining reader.old) (R.remaining reader.new) }

    // a fault of reading or writing comes where a call of this drawing failed, and only there
    ensures read { IsErrOf result (DrawFault.Run (RunFault.Read ReadFault.Read)) → R.failures reader.new ≢ R.failures reader.old }
    ensures read_else { IsErrOf result (DrawFault.Run (RunFault.Read ReadFault.Read)) ⊎ (R.failures reader.new ≡ R.failures reader.old) }
    ensures write { IsErrOf result (DrawFault.Run RunFault.Write) → W.failures writer.new ≢ W.failures writer.old }
    ensures write_else { IsErrOf result (DrawFault.Run RunFault.Write) ⊎ (W.failures writer.new ≡ W.failures writer.old) }

    // what stands in the writer after a fault
    ensures prefix { IsErrOf result (DrawFault.Run RunFault.Write) → IfSome (R.remaining reader.old) (λ input.
        (drawn : CanBeDrawn topology.now choice.now input)
        × AppendsPrefix (W.contents writer.old) (W.contents writer.new)
        (picture topology.now choice.now.scale drawn.has.script drawn.has.orders)) }
    ensures untouched { IfErr result (λ fault. (fault ≡ DrawFault.Run RunFault.Write) ⊎ (writer.new ≡ writer.old)) }
{
    let script = read_script(alloc, reader).map_err(DrawFault::Run)?;
    let orders = chosen(choice, script.len()).map_err(DrawFault::Choice)?;
    let text = picture(alloc, topology, &script, choice.scale, orders)?;
    match write_all(writer, text.as_str().as_bytes()) {
        Ok(()) => Ok(()),
        Err(Failed) => Err(DrawFault::Run(RunFault::Write)),
    }
}
