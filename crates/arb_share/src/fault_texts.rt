//! Faults as the texts that a user reads.

use crate::due_input::DueFault;
use crate::limits::MAX_ENTRY;
use crate::request::TooMany;
use crate::rows::{RowFault, RowKind};
use crate::streams::Failed;
use std::fmt;

impl fmt::Display for TooMany {
    ghost use Rattle.std.specs.Prelude.{Some};
    ghost use Rattle.arb_share.specs.FaultText.{too_many_text};

    ghost output = { λ fault. Some (too_many_text fault) };

    fn fmt<W: fmt::Write>(&self, f: &mut fmt::Formatter<W>) -> fmt::Result {
        let level = self.level;
        let value = self.value;
        write!(f, "entry {level} is {value}, above {MAX_ENTRY}")
    }
}

impl fmt::Display for RowKind {
    ghost use Rattle.std.specs.Prelude.{Some};
    ghost use Rattle.arb_share.specs.FaultText.{kind_text};

    ghost output = { λ kind. Some (kind_text kind) };

    fn fmt<W: fmt::Write>(&self, f: &mut fmt::Formatter<W>) -> fmt::Result {
        match self {
            RowKind::BadApp => write!(f, "Q1 bad application"),
            RowKind::EntryCount => write!(f, "Q2 one to eight entries"),
            RowKind::BadNumber => write!(f, "Q3 bad number"),
            RowKind::Above { level, value } => {
                write!(f, "Q4 entry {level} is {value}, above {MAX_ENTRY}")
            }
            RowKind::AppTwice => write!(f, "Q5 application twice"),
        }
    }
}

impl fmt::Display for RowFault {
    ghost use Rattle.std.specs.Prelude.{Some};
    ghost use Rattle.arb_share.specs.FaultText.{fault_text};

    ghost output = { λ fault. Some (fault_text fault) };

    fn fmt<W: fmt::Write>(&self, f: &mut fmt::Formatter<W>) -> fmt::Result {
        let line = self.line;
        let kind = &self.kind;
        write!(f, "line {line}: {kind}")
    }
}

impl fmt::Display for DueFault {
    ghost use Rattle.std.specs.Prelude.{Some};
    ghost use Rattle.arb_share.specs.FaultText.{due_fault_text};

    ghost output = { λ fault. Some (due_fault_text fault) };

    fn fmt<W: fmt::Write>(&self, f: &mut fmt::Formatter<W>) -> fmt::Result {
        match self {
            DueFault::Row(fault) => write!(f, "{fault}"),
            DueFault::Read => write!(f, "read fault"),
            DueFault::TooLong => write!(f, "input too long"),
            DueFault::Write => write!(f, "write fault"),
        }
    }
}

impl fmt::Display for Failed {
    ghost use Rattle.std.specs.Prelude.{Some};
    ghost use Rattle.arb_share.specs.FaultText.{failed_text};

    ghost output = { λ _. Some failed_text };

    fn fmt<W: fmt::Write>(&self, f: &mut fmt::Formatter<W>) -> fmt::Result {
        write!(f, "a call failed")
    }
}
