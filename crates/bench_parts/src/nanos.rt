//! How a time is printed.

use std::fmt;
use std::fmt::Display;
use std::time::Duration;

/// The nanoseconds of one piece of work, printed to a tenth, or below 10 to a hundredth.
#[derive(Drop)]
pub struct Nanos {
    hundredths: u64,
}

impl Nanos {
    /// What each piece of work took where so many took a time. None counts as one.
    pub fn each(time: Duration, pieces: u64) -> Nanos {
        let hundredths = time.as_nanos().saturating_mul(100) / u128::from(pieces.max(1));
        Nanos {
            hundredths: u64::try_from(hundredths).unwrap_or(u64::MAX),
        }
    }

    /// How many such pieces of work fill a second. No time counts as a hundredth of a nanosecond.
    pub fn per_second(&self) -> u64 {
        100_000_000_000 / self.hundredths.max(1)
    }
}

impl Display for Nanos {
    fn fmt<W: fmt::Write>(&self, f: &mut fmt::Formatter<W>) -> fmt::Result {
        let whole = self.hundredths / 100;
        let rest = self.hundredths % 100;
        if whole < 10 {
            return write!(f, "{whole}.{rest:02}");
        }
        let tenth = rest / 10;
        write!(f, "{whole}.{tenth}")
    }
}
