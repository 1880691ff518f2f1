//! What is drawn of an application over a run.

ghost use Rattle.std.specs.Prelude.{◌≡◌, ◌≤◌, length, IfOk};
ghost use Rattle.std.specs.List.{fold};
ghost use Rattle.arb_draw.specs.Measures.{amount, greatest, values_of};
ghost use Rattle.arb_draw.specs.ShapeText.{measure_class};

use crate::cell::Amounts;
use crate::frame::Frame;
use std::alloc::{AllocError, Global};

/// What is drawn of an application over a run.
#[derive(Clone, Copy, Debug, PartialEq, Eq)]
pub enum Measure {
    /// How many of its threads wait.
    Waits,
    /// How many cores it wants.
    Wants,
    /// How many cores are due to it.
    Due,
    /// How many cores it owns.
    Owns,
}

impl Measure {
    /// The class of its line.
    pub(crate) fn class(self) -> &'static str
        ensures { result.now ≡ measure_class self }
    {
        match self {
            Measure::Waits => "waits",
            Measure::Wants => "wants",
            Measure::Due => "due",
            Measure::Owns => "owns",
        }
    }
}

/// The amount of a measure.
fn amount(measure: Measure, amounts: &Amounts) -> u16
    ensures { result ≡ amount measure amounts.now }
{
    match measure {
        Measure::Waits => u16::from(amounts.waits),
        Measure::Wants => amounts.wants,
        Measure::Due => u16::from(amounts.due),
        Measure::Owns => u16::from(amounts.owns),
    }
}

/// A measure of an application after each order.
pub(crate) fn values(
    alloc: Global,
    frames: &[Frame],
    measure: Measure,
    app: u8,
) -> Result<Vec<u16>, AllocError>
    ensures { IfOk result (λ values. values.items ≡ values_of frames.now measure app) }
{
    let mut values = Vec::new(alloc);
    for frame in frames {
        values.push(amount(measure, &frame.amounts(app)))?;
    }
    Ok(values)
}

/// The greatest of values, and 0 of none.
pub(crate) fn greatest(values: &[u16]) -> u16
    ensures { result ≡ greatest values.now }
{
    let mut most = 0;
    for value in values {
        most = most.max(*value);
    }
    most
}
