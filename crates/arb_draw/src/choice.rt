//! Which orders of a script are drawn.

ghost use Rattle.std.specs.Prelude.{◌≡◌, ◌+◌, ◌≤◌, ◌<◌, IfOk};
ghost use Rattle.arb_draw.specs.Choice.{chosen};
ghost use Rattle.arb_draw.specs.Limits.{max_orders};

use crate::limits::MAX_ORDERS;
use crate::scale::Scale;
use std::error::Error;
use std::fmt;

/// What is to be drawn of a script.
#[derive(Clone, Copy, Debug, PartialEq, Eq)]
pub struct Choice {
    /// The first order that is drawn, counted from 1; the script's first if it is left out.
    pub from: Option<u32>,
    /// The last order that is drawn; the script's last if it is left out.
    pub to: Option<u32>,
    /// What runs to the right.
    pub scale: Scale,
}

/// Orders of a script in a row.
#[derive(Clone, Copy, Debug, PartialEq, Eq)]
pub struct Orders {
    /// The number of the first, counted from 1.
    pub first: u32,
    /// How many they are, one at least.
    pub count: usize,
}

/// Why orders can't be drawn.
#[derive(Clone, Copy, Debug, PartialEq, Eq)]
pub enum ChoiceFault {
    /// There is no such order: so many there are.
    NoOrder { order: usize, orders: usize },
    /// The first is above the last.
    Backwards { from: usize, to: usize },
    /// There are more than [`MAX_ORDERS`].
    TooMany { orders: usize },
}

impl fmt::Display for ChoiceFault {
    ghost use Rattle.std.specs.Prelude.{Some};
    ghost use Rattle.arb_draw.specs.FaultText.{choice_fault_text};

    ghost output = { λ fault. Some (choice_fault_text fault) };

    fn fmt<W: fmt::Write>(&self, f: &mut fmt::Formatter<W>) -> fmt::Result {
        match self {
            ChoiceFault::NoOrder { order, orders } => {
                write!(f, "no order {order}: the script has {orders}")
            }
            ChoiceFault::Backwards { from, to } => write!(f, "--from {from} is above --to {to}"),
            ChoiceFault::TooMany { orders } => write!(
                f,
                "{orders} orders are too many for a picture, which shows {MAX_ORDERS}: choose fewer by --from and --to"
            ),
        }
    }
}

impl Error for ChoiceFault {}

/// The orders that are drawn of a script that has so many.
///
/// # Errors
/// [`ChoiceFault`], the first that applies: there is no such first order, no such last one, the first is above the last,
/// or they are more than [`MAX_ORDERS`].
pub fn chosen(choice: &Choice, orders: usize) -> Result<Orders, ChoiceFault>
    ensures chosen { result ≡ chosen choice.now.from choice.now.to orders }
    ensures some { IfOk result (λ chosen. 1 ≤ chosen.first) }
    ensures few { IfOk result (λ chosen. chosen.count ≤ max_orders) }
    ensures within { IfOk result (λ chosen. chosen.first + chosen.count ≤ orders + 1) }
{
    let first = choice.from.unwrap_or(1);
    let from = first as usize;
    let to = match choice.to {
        Some(to) => to as usize,
        None => orders,
    };
    if from == 0 || from > orders {
        return Err(ChoiceFault::NoOrder {
            order: from,
            orders,
        });
    }
    if to > orders {
        return Err(ChoiceFault::NoOrder { order: to, orders });
    }
    if from > to {
        return Err(ChoiceFault::Backwards { from, to });
    }
    let count = to - from + 1;
    if count > MAX_ORDERS {
        return Err(ChoiceFault::TooMany { orders: count });
    }
    Ok(Orders { first, count })
}
