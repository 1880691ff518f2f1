//! The parts `step` and `feed`: orders given to the arbiter, with their posts, and nothing else.

use crate::machine::MACHINES;
use crate::times::{RUNS, print_times};
use anyhow::{Result, ensure};
use arb_config::Topology;
use arb_core::{APPLICATIONS, Core, Order, Reply};
use bench_parts::Given;
use std::rt::Clock;
use std::time::{Duration, Instant};

/// Gives orders to the arbiter of each machine. Prints what each did, or how long an order took.
pub fn step<R: Print + Clock + AllocGlobal>(rt: &R, orders: &[Given], timed: bool) -> Result<()> {
    if !timed {
        print_kinds(rt, orders)?;
    }
    for machine in MACHINES {
        let topology = machine.topology(rt.alloc())?;
        if timed {
            let name = format!(in rt.alloc(); "step.{}.posts", machine.name)?;
            time_orders(rt, name.as_str(), &topology, &[], orders)?;
        } else {
            report(rt, machine.label, &topology, orders)?;
        }
    }
    Ok(())
}

/// Prints how many orders of each kind there are. No order sets a cap.
fn print_kinds(rt: &impl Print, orders: &[Given]) -> Result<()> {
    let mut kinds: [u64; 7] = [0; 7];
    for given in orders {
        let kind = match given.1 {
            Order::Block => 0,
            Order::Ask(_) => 1,
            Order::Tick(_) => 2,
            Order::Retire => 3,
            Order::Status => 4,
            Order::Join => 5,
            Order::Leave => 6,
            Order::Cap(_) => continue,
        };
        kinds[kind] = kinds[kind].wrapping_add(1);
    }
    let [block, ask, tick, retire, status, join, leave] = kinds;
    println!(rt;
        "orders: block {block}, ask {ask}, tick {tick}, retire {retire}, status {status}, join {join}, leave {leave}"
    )?;
    Ok(())
}

/// Gives the orders to the arbiter of a machine, and prints what that did.
fn report(rt: &impl Print, label: &str, topology: &Topology, orders: &[Given]) -> Result<()> {
    let mut core = Core::new(topology);
    let Tally {
        orders,
        refused,
        posts,
        checksum,
    } = give_all(&mut core, orders);
    let (owned, _) = owned_and_waiting(&core);
    println!(rt;
        "{label}given {orders}, refused {refused}, posts {posts}, owned at the end {owned}, checksum {checksum}"
    )?;
    Ok(())
}

/// How many cores all applications own, and how many of their threads wait.
pub fn owned_and_waiting(core: &Core) -> (u32, u32) {
    let (mut owned, mut waiting) = (0u32, 0u32);
    for app in 0..APPLICATIONS as u8 {
        owned = owned.wrapping_add(u32::from(core.owned(app)));
        waiting = waiting.wrapping_add(u32::from(core.waiting(app)));
    }
    (owned, waiting)
}

/// Gives orders to the arbiter of a machine again and again, each time after those that come before. Prints how long an order
/// took.
pub fn time_orders<R: Print + Clock + AllocGlobal>(
    rt: &R,
    name: &str,
    topology: &Topology,
    before: &[Given],
    orders: &[Given],
) -> Result<()> {
    let (first, _) = time_once(rt, topology, before, orders)?;
    let mut times = Vec::new(rt.alloc());
    for _ in 0..RUNS {
        let (tally, time) = time_once(rt, topology, before, orders)?;
        times.push(time)?;
        ensure!(tally == first, "a run gave other replies or posts");
    }
    print_times(rt, name, times, first.orders, "ns/order")
}

/// Gives orders once. Gives what they did, and how long they took.
fn time_once(
    rt: &impl Clock,
    topology: &Topology,
    before: &[Given],
    orders: &[Given],
) -> Result<(Tally, Duration)> {
    let mut core = Core::new(topology);
    give_all(&mut core, before);
    let start = Instant::now(rt)?;
    let tally = give_all(&mut core, orders);
    Ok((tally, start.elapsed(rt)?))
}

/// What a run did.
#[derive(Clone, Copy, PartialEq, Default)]
pub struct Tally {
    /// How many orders were given.
    pub orders: u64,
    /// How many of them were refused.
    pub refused: u64,
    /// How many words were posted.
    pub posts: u64,
    /// The sum of a number for each post, of its word and value.
    pub checksum: u64,
}

impl Tally {
    /// One post more, of a word and its value.
    fn post(&mut self, w: usize, value: u64) {
        self.posts = self.posts.wrapping_add(1);
        let both = value.wrapping_mul(1_000_003).wrapping_add(w as u64);
        self.checksum = self
            .checksum
            .wrapping_add(both.wrapping_mul(0x9e37_79b9_7f4a_7c15));
    }
}

/// Gives the orders, and posts all words after each. Stops where the limit on orders is reached.
pub fn give_all(core: &mut Core, orders: &[Given]) -> Tally {
    let mut tally = Tally::default();
    core.post_all(&mut |w, value| tally.post(w, value));
    'orders: for given in orders {
        if core.is_full() {
            break;
        }
        let (client, order) = *given;
        let reply = core.step(client, &order);
        tally.orders = tally.orders.wrapping_add(1);
        if matches!(reply, Reply::Refused(_)) {
            tally.refused = tally.refused.wrapping_add(1);
        }
        core.post_all(&mut |w, value| tally.post(w, value));
    }
    tally
}
