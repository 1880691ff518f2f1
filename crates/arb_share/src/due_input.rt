//! The input and output of `due`: request rows in, due numbers out.

ghost use Rattle.std.specs.Prelude.{◌≡◌, ◌≢◌, ◌⊎◌, ◌<◌, ◌≤◌, ◌+◌, ℕ, List, Option, Err, length, OnOk, IfOk, IfErr, IfSome, IsErrOf};
ghost use Rattle.std.specs.Io.KnownBytes.{Appends};
ghost use Rattle.arb_share.specs.Limits.{max_input};
ghost use Rattle.arb_share.specs.Due.{due_of};
ghost use Rattle.arb_share.specs.DueLine.{due_line};
ghost use Rattle.arb_share.specs.Streams.{AppendsPrefix, ConsumesUpTo};
ghost use Rattle.arb_share.specs.DueInput.{IsAccepted, IsRefused};

use crate::due_numbers::due;
use crate::limits::{APPLICATIONS, MAX_INPUT};
use crate::request::Request;
use crate::rows::{RowFault, rows_of};
use crate::streams::{Failed, Sink, Source, fill, write_all};
use arrayvec::ArrayString;
use itoa::Buffer;
use std::error::Error;

/// Why there was no answer.
#[derive(Clone, Copy, Debug, PartialEq, Eq)]
pub enum DueFault {
    /// A line is faulty.
    Row(RowFault),
    /// A call of the reader failed.
    Read,
    /// The input has more than [`MAX_INPUT`] bytes.
    TooLong,
    /// A call of the writer failed.
    Write,
}

impl Error for DueFault {}

/// The most bytes of a line of due numbers: a number has three digits at most, and a byte follows it.
const LINE_BYTES: usize = 4 * APPLICATIONS;

/// The due numbers with one space between them, and LF.
fn due_line(due: &[u8; APPLICATIONS]) -> ArrayString<LINE_BYTES>
    ensures { result.bytes ≡ due_line due.now }
{
    let mut line = ArrayString::new();
    let mut digits = Buffer::new();
    line.push_str(digits.format(due[0]));
    for app in 1..APPLICATIONS {
        line.push(' ');
        line.push_str(digits.format(due[app]));
    }
    line.push('\n');
    line
}

/// Reads all of an input, and gives the requests that its rows state.
fn read_rows<R: Source>(reader: &mut R) -> Result<[Option<Request>; APPLICATIONS], DueFault>
    ensures accepted { IfOk result (λ rows. IfSome (R.remaining reader.old) (IsAccepted rows)) }
    ensures refused { IfErr result (λ fault. IfSome (R.remaining reader.old) (IsRefused fault)) }
    ensures too_long { IfSome (R.remaining reader.old) (λ input.
        max_input < length input → IsErrOf result DueFault.TooLong ⊎ IsErrOf result DueFault.Read) }
    ensures taken { ConsumesUpTo (max_input + 1) (R.remaining reader.old) (R.remaining reader.new) }
    ensures read { IsErrOf result DueFault.Read → R.failures reader.new ≢ R.failures reader.old }
    ensures no_write { ¬ IsErrOf result DueFault.Write }
    ensures kept { IsErrOf result DueFault.Read ⊎ (R.failures reader.new ≡ R.failures reader.old) }
{
    let mut buffer = [0; MAX_INPUT + 1];
    let Ok(length) = fill(reader, &mut buffer) else {
        return Err(DueFault::Read);
    };
    if length > MAX_INPUT {
        return Err(DueFault::TooLong);
    }
    rows_of(&buffer[..length]).map_err(DueFault::Row)
}

/// Reads request rows to the end of the input, and writes the numbers due on a machine with `managed` cores. They are one
/// line: the sixteen numbers in decimal with one space between them, and LF. Takes no memory.
///
/// # Errors
/// [`DueFault`] says why. At most [`MAX_INPUT`] bytes and one more are read. Nothing is written before the complete input
/// was accepted. After [`DueFault::Write`] a prefix of the line was written.
///
/// ```
/// let mut source = Watched::new(b"0 1 5\n1 0 5\n".as_slice());
/// let mut sink = Watched::new(Vec::new(alloc));
/// due_run(&mut source, &mut sink, 4)?;
/// ```
pub fn due_run<R: Source, W: Sink>(
    reader: &mut R,
    writer: &mut W,
    managed: u8,
) -> Result<(), DueFault>
    // What is written is the line of the due numbers of the rows that were read.
    ensures written { OnOk result (IfSome (R.remaining reader.old) (λ input.
        (rows : List (Option (List ℕ))) × IsAccepted rows input
        × Appends (W.contents writer.old) (W.contents writer.new) (due_line (due_of rows managed)))) }

    // A fault of the input is there, and a longer input has no other answer than that, or a failed read.
    ensures refused { IfErr result (λ fault. IfSome (R.remaining reader.old) (IsRefused fault)) }
    ensures too_long { IfSome (R.remaining reader.old) (λ input.
        max_input < length input → IsErrOf result DueFault.TooLong ⊎ IsErrOf result DueFault.Read) }
    ensures taken { ConsumesUpTo (max_input + 1) (R.remaining reader.old) (R.remaining reader.new) }

    // A fault of reading or writing comes where a call of this run failed, and only there.
    ensures read { IsErrOf result DueFault.Read → R.failures reader.new ≢ R.failures reader.old }
    ensures read_else { IsErrOf result DueFault.Read ⊎ (R.failures reader.new ≡ R.failures reader.old) }
    ensures write { IsErrOf result DueFault.Write → W.failures writer.new ≢ W.failures writer.old }
    ensures write_else { IsErrOf result DueFault.Write ⊎ (W.failures writer.new ≡ W.failures writer.old) }

    // What stands in the writer after a fault.
    ensures prefix { IsErrOf result DueFault.Write → IfSome (R.remaining reader.old) (λ input.
        (rows : List (Option (List ℕ))) × IsAccepted rows input
        × AppendsPrefix (W.contents writer.old) (W.contents writer.new) (due_line (due_of rows managed))) }
    ensures untouched { IfErr result (λ fault. (fault ≡ DueFault.Write) ⊎ (writer.new ≡ writer.old)) }
{
    let rows = read_rows(reader)?;
    let line = due_line(&due(&rows, managed));
    match write_all(writer, line.as_str().as_bytes()) {
        Ok(()) => Ok(()),
        Err(Failed) => Err(DueFault::Write),
    }
}
