//! The part `grow`: what an order takes as the machine grows, the applications, or the threads that wait.

use crate::machine::Machine;
use crate::roles::ask;
use crate::step::{Tally, give_all, owned_and_waiting, time_orders};
use anyhow::{Result, ensure};
use arb_config::Topology;
use arb_core::{ClientId, Core, Order};
use bench_parts::Given;
use std::alloc::{AllocError, Global};
use std::rt::Clock;

/// How many orders are timed in a run.
const TIMED: usize = 20_000;

/// Applications that contend for the cores of a machine. Each asks for all cores.
#[derive(Drop)]
struct Crowd {
    /// How many sockets the machine has.
    sockets: u8,
    /// How many managed cores a socket has.
    socket: u8,
    /// How many applications have joined.
    apps: u8,
    /// How many threads of each application wait for a core.
    waiting: u8,
}

/// The crowds, as [`Crowd::of`] takes them: the machine grows, then the number of waiting threads, then the number of
/// applications.
const CROWDS: [(u8, u8, u8, u8); 8] = [
    (1, 1, 16, 16),
    (8, 1, 16, 16),
    (8, 8, 16, 16),
    (8, 16, 16, 16),
    (8, 1, 16, 0),
    (8, 1, 16, 1),
    (8, 1, 16, 30),
    (8, 1, 1, 16),
];

/// The kinds of orders that are timed.
const KINDS: [Kind; 3] = [Kind::Block, Kind::Ask, Kind::Status];

/// A kind of order.
#[derive(Clone, Copy)]
enum Kind {
    /// The threads on the cores block in turn. Each gives its core to the thread that waits longest, or gets it again.
    Block,
    /// The first application asks for one core less than is due to it, then for all again.
    Ask,
    /// The first application asks for the status.
    Status,
}

impl Kind {
    /// Its name.
    fn name(self) -> &'static str {
        match self {
            Kind::Block => "block",
            Kind::Ask => "ask",
            Kind::Status => "status",
        }
    }
}

impl Crowd {
    /// A machine of so many sockets, with so many managed cores each, and so many applications, of each of which so many
    /// threads wait.
    fn of((sockets, socket, apps, waiting): (u8, u8, u8, u8)) -> Crowd {
        Crowd {
            sockets,
            socket,
            apps,
            waiting,
        }
    }

    /// How many managed cores the machine has.
    fn cores(&self) -> u8 {
        self.sockets.saturating_mul(self.socket)
    }

    /// How many threads wait.
    fn waiters(&self) -> u32 {
        u32::from(self.apps) * u32::from(self.waiting)
    }

    /// The machine.
    fn topology(&self, alloc: Global) -> Result<Topology> {
        Machine::new(self.sockets, self.socket).topology(alloc)
    }

    /// How many cores are due to an application where each asks for all: an even share, and one more to the first ones.
    fn due(&self, app: u8) -> u8 {
        let apps = self.apps.max(1);
        let more = u8::from(app < self.cores() % apps);
        (self.cores() / apps).saturating_add(more)
    }

    /// The orders that make the crowd: each application joins and asks for all cores, and then its threads block, as many as
    /// are to be on cores and to wait.
    fn orders(&self, alloc: Global) -> Result<Vec<Given>, AllocError> {
        let mut orders = Vec::new(alloc);
        for app in 0..self.apps {
            orders.push(given(app, 0, Order::Join))?;
            orders.push(given(app, 0, ask(self.cores())))?;
        }
        for app in 0..self.apps {
            for thread in 0..self.due(app).saturating_add(self.waiting) {
                orders.push(given(app, thread, Order::Block))?;
            }
        }
        Ok(orders)
    }

    /// The order of a kind that comes next.
    fn next_order(&self, core: &Core, kind: Kind, k: usize) -> Given {
        match kind {
            Kind::Block => {
                let number = 1 + k % usize::from(self.cores().max(1));
                let thread = core.owner(u16::try_from(number).unwrap_or(1));
                (thread.unwrap_or(ClientId::clock()), Order::Block)
            }
            Kind::Ask => {
                let fewer = k % 2 == 0;
                let cores = if fewer {
                    self.due(0).saturating_sub(1)
                } else {
                    self.cores()
                };
                given(0, 0, ask(cores))
            }
            Kind::Status => given(0, 0, Order::Status),
        }
    }
}

/// An order of a thread of an application.
fn given(app: u8, thread: u8, order: Order) -> Given {
    (
        ClientId::app(app, thread).unwrap_or(ClientId::clock()),
        order,
    )
}

/// Gives orders of each kind to the arbiter of each crowd. Prints what that did, or how long an order took.
pub fn grow<R: Print + Clock + AllocGlobal>(rt: &R, timed: bool) -> Result<()> {
    for crowd in CROWDS {
        let crowd = Crowd::of(crowd);
        let topology = crowd.topology(rt.alloc())?;
        let before = crowd.orders(rt.alloc())?;
        for kind in KINDS {
            measure(rt, &crowd, &topology, before.as_slice(), kind, timed)?;
        }
    }
    Ok(())
}

/// The arbiter of a crowd, whose cores are taken, with as many threads that wait as its name says.
fn arbiter_of(crowd: &Crowd, topology: &Topology, before: &[Given]) -> Result<Core> {
    let mut core = Core::new(topology);
    let tally = give_all(&mut core, before);
    let found = owned_and_waiting(&core);
    ensure!(
        tally.refused == 0 && found.0 == u32::from(crowd.cores()) && found.1 == crowd.waiters(),
        "the crowd is another one"
    );
    Ok(core)
}

/// Gives the last of some orders.
fn give_last(core: &mut Core, orders: &[Given]) {
    if let Some(last) = orders.last() {
        give_all(core, &[*last]);
    }
}

/// The orders of a kind, as the arbiter of a crowd meets them.
fn next_orders(
    alloc: Global,
    crowd: &Crowd,
    topology: &Topology,
    before: &[Given],
    kind: Kind,
) -> Result<Vec<Given>> {
    let mut core = Core::new(topology);
    give_all(&mut core, before);
    let mut orders = Vec::new(alloc);
    for k in 0..TIMED {
        orders.push(crowd.next_order(&core, kind, k))?;
        give_last(&mut core, orders.as_slice());
    }
    Ok(orders)
}

/// The same of one crowd and kind.
fn measure<R: Print + Clock + AllocGlobal>(
    rt: &R,
    crowd: &Crowd,
    topology: &Topology,
    before: &[Given],
    kind: Kind,
    timed: bool,
) -> Result<()> {
    let orders = next_orders(rt.alloc(), crowd, topology, before, kind)?;
    let name = name(rt.alloc(), crowd, kind)?;
    let mut core = arbiter_of(crowd, topology, before)?;
    if timed {
        return time_orders(rt, name.as_str(), topology, before, orders.as_slice());
    }
    let Tally {
        orders,
        refused,
        posts,
        checksum,
    } = give_all(&mut core, orders.as_slice());
    println!(rt; "{name}: given {orders}, refused {refused}, posts {posts}, checksum {checksum}")?;
    Ok(())
}

/// The name of the measure of a crowd and a kind.
fn name(alloc: Global, crowd: &Crowd, kind: Kind) -> Result<String, AllocError> {
    let (kind, apps) = (kind.name(), crowd.apps);
    let (cores, waiters) = (crowd.cores(), crowd.waiters());
    format!(in alloc; "grow.{kind}.cores_{cores}.apps_{apps}.waiting_{waiters}")
}
