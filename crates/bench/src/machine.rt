//! The machines that are measured.

ghost use Rattle.std.specs.Prelude.{◌≡◌, IfOk};

use anyhow::{Context, Result};
use arb_config::Topology;
use arb_page::{Blank, Pages};
use std::alloc::Global;
use std::fmt;
use std::fmt::Display;

/// A machine. Its managed cores are numbered from 1, and core 0, on its first socket, is unmanaged. It is printed as its
/// configuration.
#[derive(Clone, Copy)]
pub struct Machine {
    /// What the lines of its runs begin with.
    pub label: &'static str,
    /// What its times are named by.
    pub name: &'static str,
    /// How many sockets it has.
    sockets: u8,
    /// How many managed cores a socket has.
    socket: u8,
}

/// The machine that is measured first: 64 managed cores.
pub const NARROW: Machine = Machine {
    label: "",
    name: "mixed",
    sockets: 8,
    socket: 8,
};

/// As many managed cores as a machine may have.
pub const WIDE: Machine = Machine {
    label: "on 128 cores: ",
    name: "wide",
    sockets: 8,
    socket: 16,
};

/// All cores on one socket: a search among sockets has the one alone.
const ONE_SOCKET: Machine = Machine {
    label: "on one socket: ",
    name: "one_socket",
    sockets: 1,
    socket: 64,
};

/// One core on each socket: a search among sockets finds one core at each.
const SINGLE_CORES: Machine = Machine {
    label: "on 8 sockets of one core: ",
    name: "single_cores",
    sockets: 8,
    socket: 1,
};

/// The machines that the same orders are given on.
pub const MACHINES: [Machine; 4] = [NARROW, WIDE, ONE_SOCKET, SINGLE_CORES];

impl Machine {
    /// A machine of so many sockets, with so many managed cores each.
    pub fn new(sockets: u8, socket: u8) -> Machine {
        Machine {
            label: "",
            name: "",
            sockets,
            socket,
        }
    }

    /// The machine, read from its configuration.
    pub fn topology(&self, alloc: Global) -> Result<Topology> {
        let text = format!(in alloc; "{self}")?;
        Ok(Topology::from_text(alloc, text.as_str())?)
    }

    /// Writes the lines of a socket.
    fn write_socket<W: fmt::Write>(&self, f: &mut fmt::Formatter<W>, socket: u8) -> fmt::Result {
        let first = u32::from(socket) * u32::from(self.socket) + 1;
        write!(f, "\n[[socket]]\nmanaged = [{first}")?;
        for more in 1..u32::from(self.socket) {
            write!(f, ", {}", first + more)?;
        }
        let unmanaged = if socket == 0 { "0" } else { "" };
        writeln!(f, "]\nunmanaged = [{unmanaged}]")
    }
}

impl Display for Machine {
    fn fmt<W: fmt::Write>(&self, f: &mut fmt::Formatter<W>) -> fmt::Result {
        writeln!(f, "grace = 10000")?;
        for socket in 0..self.sockets {
            self.write_socket(f, socket)?;
        }
        Ok(())
    }
}

/// New pages of a machine.
pub fn open_pages(alloc: Global, topology: &Topology) -> Result<Blank>
    ensures { IfOk result (λ blank. blank.machine ≡ topology.now) }
{
    Pages::open(alloc, topology).ok().context("out of memory")
}
