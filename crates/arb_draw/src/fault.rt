//! Why there is no picture.

use crate::choice::ChoiceFault;
use crate::limits::MAX_BARS;
use arb_script::RunFault;
use std::alloc::AllocError;
use std::error::Error;
use std::fmt;

/// Why there is no whole picture.
#[derive(Clone, Copy, Debug, PartialEq, Eq)]
pub enum DrawFault {
    /// The script could not be read, a line of it is faulty, or a call of the writer failed.
    Run(RunFault),
    /// These orders can't be drawn.
    Choice(ChoiceFault),
    /// There are more bars than [`MAX_BARS`].
    TooManyBars { bars: usize },
    /// An allocation failed.
    Memory,
}

impl fmt::Display for DrawFault {
    ghost use Rattle.std.specs.Prelude.{Some};
    ghost use Rattle.arb_draw.specs.FaultText.{draw_fault_text};

    ghost output = { λ fault. Some (draw_fault_text fault) };

    fn fmt<W: fmt::Write>(&self, f: &mut fmt::Formatter<W>) -> fmt::Result {
        match self {
            DrawFault::Run(fault) => write!(f, "{fault}"),
            DrawFault::Choice(fault) => write!(f, "{fault}"),
            DrawFault::TooManyBars { bars } => write!(
                f,
                "{bars} bars are too many for a picture, which shows {MAX_BARS}: choose fewer orders by --from and --to"
            ),
            DrawFault::Memory => write!(f, "out of memory"),
        }
    }
}

impl Error for DrawFault {}

impl From<AllocError> for DrawFault {
    ghost use Rattle.std.specs.Prelude.{◌≡◌};
    ghost use Rattle.arb_draw.specs.declared.fault.DrawFault.TheVariants.{Memory};

    ghost from_gives = { λ _ fault. fault ≡ Memory };

    fn from(_: AllocError) -> DrawFault {
        DrawFault::Memory
    }
}
