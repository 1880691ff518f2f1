//! The machines of the jobs.

ghost use Rattle.std.specs.Prelude.{◌≡◌, IfOk};

use crate::dice::Dice;
use anyhow::{Context, Result};
use arb_config::Topology;
use arb_page::{Blank, Pages};
use std::alloc::{AllocError, Global};
use std::fmt;
use std::fmt::Display;

/// A machine of eight sockets. Its managed cores are numbered from 1, and core 0 is unmanaged. It is printed as its
/// configuration.
#[derive(Clone, Copy)]
pub struct Machine {
    /// How many managed cores a socket has.
    pub socket: u8,
    /// The grace, in microseconds.
    pub grace: u32,
    /// The limit on orders.
    pub orders: u32,
}

/// 64 managed cores.
pub const NARROW: Machine = Machine {
    socket: 8,
    grace: 10_000,
    orders: 1_000_000,
};

/// As many managed cores as a machine may have.
pub const WIDE: Machine = Machine {
    socket: 16,
    ..NARROW
};

/// Eight managed cores.
pub const SMALL: Machine = Machine {
    socket: 1,
    ..NARROW
};

/// A grace so short that each tick moves many threads.
pub const HASTY: Machine = Machine { grace: 1, ..WIDE };

/// Most orders of a script come after the limit.
pub const SHORT: Machine = Machine {
    orders: 1000,
    ..NARROW
};

/// The machine of each second round is the wide one.
pub fn of_round(round: u64) -> Machine {
    if round % 2 == 0 { NARROW } else { WIDE }
}

impl Machine {
    /// The machine, read from its configuration.
    pub fn topology(&self, alloc: Global) -> Result<Topology> {
        let text = format!(in alloc; "{self}")?;
        Ok(Topology::from_text(alloc, text.as_str())?)
    }
}

impl Display for Machine {
    fn fmt<W: fmt::Write>(&self, f: &mut fmt::Formatter<W>) -> fmt::Result {
        let Machine {
            socket,
            grace,
            orders,
        } = *self;
        writeln!(f, "grace = {grace}\norders = {orders}")?;
        for number in 0..8u32 {
            let first = number * u32::from(socket) + 1;
            write!(f, "\n[[socket]]\nmanaged = [{first}")?;
            for more in 1..u32::from(socket) {
                write!(f, ", {}", first + more)?;
            }
            let unmanaged = if number == 0 { "0" } else { "" };
            writeln!(f, "]\nunmanaged = [{unmanaged}]")?;
        }
        Ok(())
    }
}

/// New pages of a machine.
pub fn open_pages(alloc: Global, topology: &Topology) -> Result<Blank>
    ensures { IfOk result (λ blank. blank.machine ≡ topology.now) }
{
    Pages::open(alloc, topology).ok().context("out of memory")
}

/// How many core numbers there are.
const NUMBERS: usize = 1024;

/// All core numbers, in any order.
fn shuffled(dice: &mut Dice) -> [u16; NUMBERS] {
    let mut numbers = [0; NUMBERS];
    for index in 0..NUMBERS {
        numbers[index] = index as u16;
    }
    for index in 0..NUMBERS {
        let other = dice.roll(NUMBERS as u64) as usize;
        numbers.swap(index, other);
    }
    numbers
}

/// Appends a list of core numbers with a name, a comment behind each number.
fn push_list(
    alloc: Global,
    text: &mut String,
    name: &str,
    numbers: &[u16],
    dice: &mut Dice,
) -> Result<(), AllocError> {
    text.push_str(name)?;
    text.push_str(" = [\n")?;
    for number in numbers {
        let (core, rack) = (*number, dice.roll(10_000));
        let line = format!(in alloc; "  {core}, # of rack {rack}, which has a cable of its own\n")?;
        text.push_str(line.as_str())?;
    }
    text.push_str("]\n")
}

/// A configuration with each core number there is, in any order and with comments: near the most bytes that it may have.
pub fn commented(alloc: Global, dice: &mut Dice) -> Result<String, AllocError> {
    let numbers = shuffled(dice);
    let mut text = String::from_str(
        alloc,
        "# all that this machine has\ngrace = 5000 # microseconds\n",
    )?;
    for socket in 0..8 {
        let first = socket * 128;
        text.push_str("\n[[socket]]\n")?;
        push_list(
            alloc,
            &mut text,
            "managed",
            &numbers[first..first + 16],
            dice,
        )?;
        push_list(
            alloc,
            &mut text,
            "unmanaged",
            &numbers[first + 16..first + 128],
            dice,
        )?;
    }
    Ok(text)
}
