//! Why there is no script, and why a text wasn't written.

use std::error::Error;
use std::fmt;

/// The most bytes of what is wrong with a line.
pub const KIND_BYTES: usize = 24;

/// What is wrong with a line of a script.
#[derive(Clone, Copy, Debug, PartialEq, Eq)]
pub enum ScriptKind {
    /// Its first word isn't a client.
    BadClient,
    /// Its second word isn't an order.
    UnknownOrder,
    /// A word after the order isn't a number in its range.
    BadNumber,
    /// It has no second word, or too few or too many words after the order.
    WordCount,
    /// It has more than [`MAX_LINE`](crate::MAX_LINE) bytes before its LF.
    LongLine,
    /// Nothing is wrong with it, but an allocation failed.
    Memory,
}

/// A faulty line of a script, or the line that found no memory.
#[derive(Clone, Copy, Debug, PartialEq, Eq)]
pub struct ScriptFault {
    /// The line's number, counted from 1; skipped lines count too.
    pub line: usize,
    /// What is wrong with it.
    pub kind: ScriptKind,
}

impl ScriptKind {
    ghost use Rattle.std.specs.Prelude.{◌≡◌, ◌≤◌, length};
    ghost use Rattle.arb_script.specs.FaultText.{kind_text};

    /// What is wrong, in at most [`KIND_BYTES`] bytes.
    pub fn as_str(self) -> &'static str
        ensures text { result.now ≡ kind_text self }
        ensures fits { length result.now ≤ KIND_BYTES }
    {
        match self {
            ScriptKind::BadClient => "S1 bad client",
            ScriptKind::UnknownOrder => "S2 unknown order",
            ScriptKind::BadNumber => "S3 bad number",
            ScriptKind::WordCount => "S4 wrong number of words",
            ScriptKind::LongLine => "S5 line too long",
            ScriptKind::Memory => "out of memory",
        }
    }
}

impl fmt::Display for ScriptKind {
    ghost use Rattle.std.specs.Prelude.{Some};
    ghost use Rattle.arb_script.specs.FaultText.{kind_text};

    ghost output = { λ kind. Some (kind_text kind) };

    fn fmt<W: fmt::Write>(&self, f: &mut fmt::Formatter<W>) -> fmt::Result {
        let kind = *self;
        f.write_str(kind.as_str())
    }
}

impl fmt::Display for ScriptFault {
    ghost use Rattle.std.specs.Prelude.{Some};
    ghost use Rattle.arb_script.specs.FaultText.{fault_text};

    ghost output = { λ fault. Some (fault_text fault) };

    fn fmt<W: fmt::Write>(&self, f: &mut fmt::Formatter<W>) -> fmt::Result {
        let line = self.line;
        match &self.kind {
            ScriptKind::Memory => write!(f, "out of memory"),
            kind => write!(f, "line {line}: {kind}"),
        }
    }
}

impl Error for ScriptFault {}

/// A call of a writer failed.
#[derive(Clone, Copy, Debug, PartialEq, Eq)]
pub struct WriteFault;

impl fmt::Display for WriteFault {
    ghost use Rattle.std.specs.Prelude.{Some};
    ghost use Rattle.arb_script.specs.FaultText.{write_fault_text};

    ghost output = { λ _. Some write_fault_text };

    fn fmt<W: fmt::Write>(&self, f: &mut fmt::Formatter<W>) -> fmt::Result {
        write!(f, "write fault")
    }
}

impl Error for WriteFault {}
