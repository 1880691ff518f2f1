//! Lines on their way to a writer.

ghost use Rattle.std.specs.Prelude.{◌≡◌, ◌+◌, ◌≤◌, ◌++◌, [], length, OnOk};
ghost use Rattle.arb_share.specs.Streams.{Writes};
ghost use Rattle.arb_script.specs.Output.{Sends};

use crate::fault::WriteFault;
use crate::text_line::{LINE_BYTES, TextLine};
use arb_share::streams::write_all;
use arb_share::{Failed, Sink};
use arrayvec::ArrayString;
use std::marker::Model;

/// How many bytes are gathered at most.
const OUTPUT_BYTES: usize = 32_768;

/// Lines that are gathered before they are written, so that a writer is called once for many lines.
#[derive(Drop)]
pub struct Output {
    gathered: ArrayString<OUTPUT_BYTES>,
}

impl Model for Output {
    ghost use Rattle.std.specs.Prelude.{List, ℕ};

    ghost Value = { List ℕ };

    ghost view = { λ o. o.gathered.bytes };
}

impl Output {
    /// Nothing is gathered yet.
    pub fn new() -> Output
        ensures { result ≡ [] }
    {
        Output {
            gathered: ArrayString::new(),
        }
    }

    /// Gathers a line; where there is no room for it, what was gathered is written first.
    pub fn put<W: Sink>(&mut self, writer: &mut W, line: &TextLine) -> Result<(), WriteFault>
        ensures { Sends W.contents W.failures writer.old writer.new result (self.old ++ line.now) self.new }
    {
        self.make_room(writer)?;
        self.gathered.push_str(line.as_str());
        Ok(())
    }

    /// Writes what was gathered where there is no room for a line more.
    fn make_room<W: Sink>(&mut self, writer: &mut W) -> Result<(), WriteFault>
        ensures sent { Sends W.contents W.failures writer.old writer.new result self.old self.new }
        ensures room { OnOk result (length self.new + LINE_BYTES ≤ OUTPUT_BYTES) }
    {
        if self.gathered.remaining_capacity() < LINE_BYTES {
            return self.write(writer);
        }
        Ok(())
    }

    /// Writes what was gathered.
    pub fn write<W: Sink>(&mut self, writer: &mut W) -> Result<(), WriteFault>
        ensures written { Writes W.contents W.failures writer.old writer.new result self.old }
        ensures empty { OnOk result (self.new ≡ []) }
    {
        match write_all(writer, self.gathered.as_str().as_bytes()) {
            Ok(()) => {
                self.gathered.clear();
                Ok(())
            }
            Err(Failed) => Err(WriteFault),
        }
    }
}
