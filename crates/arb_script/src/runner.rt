//! A script, run through the arbiter on one thread.

ghost use Rattle.std.specs.Prelude.{◌≡◌, ◌≢◌, ◌⊎◌, ◌<◌, ◌≤◌, ◌+◌, ◌++◌, [], ℕ, List, None, length, OnOk, IfOk, IfErr, IfSome, IsErrOf};
ghost use Rattle.std.specs.Str.{IsUtf8};
ghost use Rattle.std.specs.Io.KnownBytes.{Appends};
ghost use Rattle.arb_share.specs.Streams.{AppendsPrefix, ConsumesUpTo, Writes};
ghost use Rattle.arb_model.specs.Posting.{next_stale_of};
ghost use Rattle.arb_script.specs.declared.given.ClientOrder.{ClientOrder};
ghost use Rattle.arb_script.specs.Table.{table_text};
ghost use Rattle.arb_script.specs.Limits.{max_script};
ghost use Rattle.arb_script.specs.Output.{Sends};
ghost use Rattle.arb_script.specs.Report.{order_line, order_lines, report, standing_after, standing_next};
ghost use Rattle.arb_script.specs.Run.{IsAccepted, IsRefused};

use crate::fault::{ScriptFault, WriteFault};
use crate::input::{ReadFault, read_text};
use crate::limits::MAX_SCRIPT;
use crate::output::Output;
use crate::script::Script;
use crate::table::core_line;
use crate::text_line::TextLine;
use arb_config::Topology;
use arb_core::Core;
use arb_model::{ClientId, Order};
use arb_share::{Sink, Source};
use std::alloc::Global;
use std::error::Error;
use std::fmt;

/// Why there is no complete report.
#[derive(Clone, Copy, Debug, PartialEq, Eq)]
pub enum RunFault {
    /// The script could not be read.
    Read(ReadFault),
    /// A line of the script is faulty, or found no memory.
    Script(ScriptFault),
    /// A call of the writer failed.
    Write,
}

impl fmt::Display for RunFault {
    ghost use Rattle.std.specs.Prelude.{Some};
    ghost use Rattle.arb_script.specs.FaultText.{run_fault_text};

    ghost output = { λ fault. Some (run_fault_text fault) };

    fn fmt<W: fmt::Write>(&self, f: &mut fmt::Formatter<W>) -> fmt::Result {
        match self {
            RunFault::Read(fault) => write!(f, "{fault}"),
            RunFault::Script(fault) => write!(f, "{fault}"),
            RunFault::Write => write!(f, "write fault"),
        }
    }
}

impl Error for RunFault {}

/// Reads a script to the end of the input.
///
/// # Errors
/// [`RunFault::Read`] where it could not be read, and [`RunFault::Script`] where a line is faulty or found no memory.
///
/// ```
/// let mut source = Watched::new(b"0.0 join\n0.0 ask 2\n".as_slice());
/// let script = read_script(alloc, &mut source)?;
/// ```
pub fn read_script<R: Source>(alloc: Global, reader: &mut R) -> Result<Script, RunFault>
    ensures accepted { IfOk result (λ script. IfSome (R.remaining reader.old) (IsAccepted script)) }
    ensures refused { IfErr result (λ fault. IfSome (R.remaining reader.old) (IsRefused fault)) }
    ensures not_text { IfSome (R.remaining reader.old) (λ input. length input ≤ max_script → ¬ IsUtf8 input
        → IsErrOf result (RunFault.Read ReadFault.NotText)
        ⊎ (IsErrOf result (RunFault.Read ReadFault.Read) ⊎ IsErrOf result (RunFault.Read ReadFault.Memory))) }
    ensures taken { ConsumesUpTo (max_script + 1) (R.remaining reader.old) (R.remaining reader.new) }
    ensures read { IsErrOf result (RunFault.Read ReadFault.Read) → R.failures reader.new ≢ R.failures reader.old }
    ensures read_else { IsErrOf result (RunFault.Read ReadFault.Read) ⊎ (R.failures reader.new ≡ R.failures reader.old) }
    ensures no_write { ¬ IsErrOf result RunFault.Write }
{
    let text = read_text(alloc, reader, MAX_SCRIPT).map_err(RunFault::Read)?;
    Script::from_text(alloc, text.as_str()).map_err(RunFault::Script)
}

/// Enters an order, posts what it changed, and makes `line` its line of the report, whatever it was before; past the limit
/// on orders, the line of an order that came too late. May be called only while no word is stale.
pub fn answer(core: &mut Core, client: ClientId, order: &Order, line: &mut TextLine)
    requires settled { next_stale_of core.old.standing core.old.posted ≡ None }
    ensures line { line.new ≡ order_line core.old.machine core.old.standing (record { client = client; order = order.now }) }
    ensures standing { core.new.standing ≡ standing_next core.old.machine core.old.standing (record { client = client; order = order.now }) }
    ensures machine { core.new.machine ≡ core.old.machine }
    ensures settled { next_stale_of core.new.standing core.new.posted ≡ None }
{
    if core.is_full() {
        line.set_full(client, order);
        return;
    }
    let reply = core.step(client, order);
    core.settle();
    line.set_entry(client, order, &reply);
}

/// Gives all orders of a script to an arbiter and writes their lines, but for what is left in `output`.
// (all its goals are answered, so that a wrong body is refused at once)
#[tactic(none)]
fn write_orders<W: Sink>(
    writer: &mut W,
    output: &mut Output,
    core: &mut Core,
    script: &Script,
) -> Result<(), WriteFault>
    requires opening { core.old.standing ≡ standing_after core.old.machine [] }
    requires settled { next_stale_of core.old.standing core.old.posted ≡ None }
    ensures sent { Sends W.contents W.failures writer.old writer.new result (output.old ++ order_lines core.old.machine script.now) output.new }
    ensures standing { OnOk result (core.new.standing ≡ standing_after core.old.machine script.now) }
    ensures machine { core.new.machine ≡ core.old.machine }
{
    let mut line = TextLine::new();
    for index in 0..script.len() {
        let order = script.order(index);
        answer(core, script.client(index), &order, &mut line);
        output.put(writer, &line)?;
    }
    Ok(())
}

/// Writes what is left in `output`, and the owner table.
pub fn write_table<W: Sink>(
    writer: &mut W,
    output: &mut Output,
    core: &Core,
    topology: &Topology,
) -> Result<(), WriteFault>
    requires { core.now.machine ≡ topology.now }
    ensures { Writes W.contents W.failures writer.old writer.new result (output.old ++ table_text topology.now core.now.standing.seats) }
{
    for position in 0..topology.managed() {
        output.put(writer, &core_line(core, topology, position))?;
    }
    output.write(writer)
}

/// Writes the report of a script.
fn write_report<W: Sink>(
    writer: &mut W,
    script: &Script,
    topology: &Topology,
) -> Result<(), WriteFault>
    ensures { Writes W.contents W.failures writer.old writer.new result (report topology.now script.now) }
{
    let mut core = Core::new(topology);
    let mut output = Output::new();
    write_orders(writer, &mut output, &mut core, script)?;
    write_table(writer, &mut output, &core, topology)
}

/// Reads a script to its end, gives its orders one after another to the arbiter of a machine, and writes the report. Each
/// order has a line, in line order, with its reply, or with `full` from the limit on orders on. Then comes the owner table.
/// After each order all words that it changed are posted.
///
/// # Errors
/// [`RunFault`] says why there is no complete report; the reader is read until one byte past [`MAX_SCRIPT`] at most.
/// Nothing is written before the complete script was accepted, and after [`RunFault::Write`] a prefix of the report was
/// written.
///
/// ```
/// let mut source = Watched::new(b"0.0 join\n0.0 ask 2\n".as_slice());
/// let mut sink = Watched::new(Vec::new(alloc));
/// run(alloc, &mut source, &mut sink, &topology)?;
/// ```
pub fn run<R: Source, W: Sink>(
    alloc: Global,
    reader: &mut R,
    writer: &mut W,
    topology: &Topology,
) -> Result<(), RunFault>
    // what is written is the report of the script that was read
    ensures written { OnOk result (IfSome (R.remaining reader.old) (λ input.
        (script : List ClientOrder) × IsAccepted script input
        × Appends (W.contents writer.old) (W.contents writer.new) (report topology.now script))) }

    // a fault of the input is there, and an input that is too long or isn't text has no other answer than that, a failed
    // call or a failed allocation
    ensures refused { IfErr result (λ fault. IfSome (R.remaining reader.old) (IsRefused fault)) }
    ensures too_long { IfSome (R.remaining reader.old) (λ input. max_script < length input
        → IsErrOf result (RunFault.Read ReadFault.TooLong)
        ⊎ (IsErrOf result (RunFault.Read ReadFault.Read) ⊎ IsErrOf result (RunFault.Read ReadFault.Memory))) }
    ensures not_text { IfSome (R.remaining reader.old) (λ input. length input ≤ max_script → ¬ IsUtf8 input
        → IsErrOf result (RunFault.Read ReadFault.NotText)
        ⊎ (IsErrOf result (RunFault.Read ReadFault.Read) ⊎ IsErrOf result (RunFault.Read ReadFault.Memory))) }
    ensures taken { ConsumesUpTo (max_script + 1) (R.remaining reader.old) (R.remaining reader.new) }

    // a fault of reading or writing comes where a call of this run failed, and only there
    ensures read { IsErrOf result (RunFault.Read ReadFault.Read) → R.failures reader.new ≢ R.failures reader.old }
    ensures read_else { IsErrOf result (RunFault.Read ReadFault.Read) ⊎ (R.failures reader.new ≡ R.failures reader.old) }
    ensures write { IsErrOf result RunFault.Write → W.failures writer.new ≢ W.failures writer.old }
    ensures write_else { IsErrOf result RunFault.Write ⊎ (W.failures writer.new ≡ W.failures writer.old) }

    // what stands in the writer after a fault
    ensures prefix { IsErrOf result RunFault.Write → IfSome (R.remaining reader.old) (λ input.
        (script : List ClientOrder) × IsAccepted script input
        × AppendsPrefix (W.contents writer.old) (W.contents writer.new) (report topology.now script)) }
    ensures untouched { IfErr result (λ fault. (fault ≡ RunFault.Write) ⊎ (writer.new ≡ writer.old)) }
{
    let script = read_script(alloc, reader)?;
    match write_report(writer, &script, topology) {
        Ok(()) => Ok(()),
        Err(WriteFault) => Err(RunFault::Write),
    }
}
