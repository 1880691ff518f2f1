//! Why a live arbiter ended before its input did.

use std::error::Error;
use std::fmt;

/// Why a live arbiter ended before its input did.
#[derive(Clone, Copy, Debug, PartialEq, Eq)]
pub enum LiveFault {
    /// A call of reading failed.
    Read,
    /// A call of writing or of flushing failed.
    Write,
    /// Input was asked for 2^51 times.
    TooManyReads,
}

impl fmt::Display for LiveFault {
    ghost use Rattle.std.specs.Prelude.{Some};
    ghost use Rattle.arb_live.specs.FaultText.{live_fault_text};

    ghost output = { λ fault. Some (live_fault_text fault) };

    fn fmt<W: fmt::Write>(&self, f: &mut fmt::Formatter<W>) -> fmt::Result {
        f.write_str(match self {
            LiveFault::Read => "read fault",
            LiveFault::Write => "write fault",
            LiveFault::TooManyReads => "too many reads",
        })
    }
}

impl Error for LiveFault {}
