//! A script, run through a server and its clients on threads.

ghost use Rattle.std.specs.Prelude.{◌≡◌, ◌≢◌, ◌⊎◌, ◌<◌, ◌++◌, length, ℕ, List, OnOk, IfErr, IsErrOf};
ghost use Rattle.std.specs.Io.KnownBytes.{Appends};
ghost use Rattle.arb_share.specs.Streams.{AppendsPrefix, Writes};
ghost use Rattle.arb_play.specs.GivingUp.{MayBeLetThrough};
ghost use Rattle.arb_play.specs.Outcomes.{IsOutcome, full_orders};
ghost use Rattle.arb_play.specs.Performing.{FaultSays};
ghost use Rattle.arb_play.specs.JournalReport.{ReportsJournal, entry_lines, full_at, full_lines};
ghost use Rattle.arb_script.specs.Output.{Sends};

use crate::gate::Gate;
use crate::outcome::{Outcome, PlayFault};
use crate::performing::perform;
use arb_config::Topology;
use arb_model::{CLIENTS, Entry};
use arb_script::{Output, Script, WriteFault, entry_line, full_line, write_table};
use arb_share::Sink;
use std::alloc::Global;
use std::sync::Wait;
use std::thread::Threads;

/// Writes the lines of entries, but for what is left in `output`.
fn write_entries<W: Sink>(
    writer: &mut W,
    output: &mut Output,
    journal: &[Entry],
) -> Result<(), WriteFault>
    ensures { Sends W.contents W.failures writer.old writer.new result (output.old ++ entry_lines journal.now) output.new }
{
    for index in 0..journal.len() {
        let entry = &journal[index];
        let line = entry_line(entry.client, &entry.order, &entry.reply);
        output.put(writer, &line)?;
    }
    Ok(())
}

/// Writes the line of the order at an index, where it is past the limit. (In the loop itself each line would be copied once more.)
fn write_if_full<W: Sink>(
    writer: &mut W,
    output: &mut Output,
    script: &Script,
    full_from: &[usize; CLIENTS],
    index: usize,
) -> Result<(), WriteFault>
    requires { index < length script.now }
    ensures { Sends W.contents W.failures writer.old writer.new result (output.old ++ full_lines (full_at full_from.now script.now index)) output.new }
{
    let client = script.client(index);
    if index < full_from[client.index()] {
        return Ok(());
    }
    output.put(writer, &full_line(client, &script.order(index)))
}

/// Writes the lines of the orders past the limit, but for what is left in `output`.
fn write_full<W: Sink>(
    writer: &mut W,
    output: &mut Output,
    script: &Script,
    full_from: &[usize; CLIENTS],
) -> Result<(), WriteFault>
    ensures { Sends W.contents W.failures writer.old writer.new result (output.old ++ full_lines (full_orders full_from.now script.now)) output.new }
{
    for index in 0..script.len() {
        write_if_full(writer, output, script, full_from, index)?;
    }
    Ok(())
}

/// Writes the journal report of an outcome.
fn write_journal_report<W: Sink>(
    writer: &mut W,
    script: &Script,
    topology: &Topology,
    outcome: &Outcome,
) -> Result<(), WriteFault>
    requires { IsOutcome topology.now script.now outcome.now }
    ensures { (text : List ℕ) × ReportsJournal topology.now script.now text
        × Writes W.contents W.failures writer.old writer.new result text }
{
    let mut output = Output::new();
    write_entries(writer, &mut output, outcome.journal.as_slice())?;
    write_full(writer, &mut output, script, &outcome.full_from)?;
    write_table(writer, &mut output, &outcome.core, topology)
}

/// Runs a script by a server and its clients, and writes the journal report. First comes a line for each order that was
/// entered, with its reply, in the order in which they were entered. Then comes a line for each order past the limit, in
/// script order, and then the owner table.
///
/// The server runs on a thread, and each client that the script names on a thread of its own. It takes its orders in
/// script order, by the turns of the gate. No order is begun before all threads are started. With a
/// [`TurnGate`](crate::TurnGate) the orders of all clients go in script order. With a [`FreeGate`](crate::FreeGate)
/// all clients call at once, and how their orders mix is left to the schedule. In some long plays they take turns: [`perform`] says in
/// which.
///
/// # Errors
/// [`PlayFault`] says why there is no complete journal report, the first that applies in its order. Nothing is written before
/// all but [`PlayFault::Write`] are excluded; after that a prefix of the journal report was written.
///
/// ```
/// let script = Script::from_text(alloc, "0.0 join\n1.0 join\n")?;
/// let mut sink = Watched::new(Vec::new(alloc));
/// play(rt, alloc, &topology, &script, &TurnGate::new(), &mut sink)?;
/// ```
pub fn play<G: Gate, R: Threads + Wait + Sync, W: Sink>(
    rt: &R,
    alloc: Global,
    topology: &Topology,
    script: &Script,
    gate: &G,
    writer: &mut W,
) -> Result<(), PlayFault>
    // what is written is the journal report of a legal history, which has the first orders of each client of the script,
    // and of all its other orders
    ensures written { OnOk result ((text : List ℕ) × ReportsJournal topology.now script.now text
        × Appends (W.contents writer.old) (W.contents writer.new) text) }

    // where all is written, each order of the script is one that the gate may let through
    ensures let_through { OnOk result (MayBeLetThrough (G.may_let_through gate.now) (length script.now)) }

    // opening fails only out of memory; an order that is given up is one that the gate may give up, and each earlier
    // order of the script is one that it may let through; where the threads ended early, or a call of the writer failed,
    // all orders are such
    ensures fault { IfErr result (FaultSays (G.may_give_up gate.now) (G.may_let_through gate.now) script.now) }

    // a fault of writing comes where a call of this run failed, and only there
    ensures write { IsErrOf result PlayFault.Write → W.failures writer.new ≢ W.failures writer.old }
    ensures write_else { IsErrOf result PlayFault.Write ⊎ (W.failures writer.new ≡ W.failures writer.old) }

    // what stands in the writer after a fault
    ensures prefix { IsErrOf result PlayFault.Write → (text : List ℕ) × ReportsJournal topology.now script.now text
        × AppendsPrefix (W.contents writer.old) (W.contents writer.new) text }
    ensures untouched { IfErr result (λ fault. (fault ≡ PlayFault.Write) ⊎ (writer.new ≡ writer.old)) }
{
    let outcome = perform(rt, alloc, topology, script, gate)?;
    match write_journal_report(writer, script, topology, &outcome) {
        Ok(()) => Ok(()),
        Err(WriteFault) => Err(PlayFault::Write),
    }
}
