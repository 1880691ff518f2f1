//! The `example_clock` program: a clock tells the time, and a thread that keeps its core too long is moved.
//!
//! The machine has one core. 0.0 gets it, and keeps it though 1.0 wants it at a more important level. A core counts as asked
//! back at the tick before that. So 0.0 is moved by the first tick that comes five milliseconds later, and 1.0 gets the core.
#![tactic(auto)]

ghost use Rattle.std.specs.Prelude.{◌≡◌, []};

use anyhow::{Context, Result, bail};
use arb_house::{Blank, Client, ClientId, House, Order, Pages, Reply, Request, Set, Topology};
use std::marker::Brand;
use std::rt::Clock;
use std::sync::Wait;
use std::thread::{Threads, sleep, spawn};
use std::time::{Duration, Instant};

/// The grace is in microseconds.
const MACHINE: &str = "grace = 5000
[[socket]]
managed = [1]
unmanaged = [0]
";

/// How many ticks are given at most.
const MOST_TICKS: u64 = 10_000;

/// Tells the microseconds since it began, each millisecond, until a thread is moved by that.
fn tell_time<K: Set, R: Wait + Clock>(rt: &R, clock: &mut Client<K>) -> Result<()>
    requires { clock.old.out ≡ [] }
{
    let start = Instant::now(rt)?;
    for _ in 0..MOST_TICKS {
        let moment = u64::try_from(start.elapsed(rt)?.as_micros())?;
        if let Reply::Moved(1..) = clock.call(rt, Order::Tick(moment))? {
            return Ok(());
        }
        sleep(rt, Duration::from_millis(1));
    }
    bail!("no thread was moved")
}

/// Joins, asks for one core at a level, and waits for it.
fn take_core<K: Set, R: Wait>(rt: &R, client: &mut Client<K>, level: usize) -> Result<()>
    requires { client.old.out ≡ [] }
{
    client.call(rt, Order::Join)?;
    client.call(rt, Order::Ask(Request::at(level, 1).unwrap_or_default()))?;
    client.wait_for_core(rt)?;
    Ok(())
}

/// Opens a house of two threads and the clock. The server and the clock have threads of their own.
fn share<K, R>(rt: R, topology: &Topology, blank: Blank) -> Result<()>
where
    K: Set + Send + Sync + 'static,
    R: Threads + Wait + Clock + AllocGlobal + Print + Copy + Send + 'static,
    requires name { (blank.table ≡ K.table) × (blank.machine ≡ K.machine) }
    requires topology { blank.machine ≡ topology.now }
{
    let ids = [
        ClientId::of_thread(0),
        ClientId::of_thread(32),
        ClientId::clock(),
    ];
    let (server, clients) = House::open::<K>(&rt, rt.alloc(), blank, topology, &ids)?;
    let mut clients = clients.into_iter();
    let (Some(mut keeper), Some(mut guest), Some(mut clock)) = (
        clients.next(),
        clients.next(),
        clients.next(),
    ) else {
        bail!("a client is missing");
    };
    let serving = spawn(&rt, move || server.serve(&rt))?;
    // where this thread can't be started the clients are dropped without `close`, and the server is cut off when `main`
    // returns
    let ticking = spawn(&rt, move || {
        let told = tell_time(&rt, &mut clock);
        clock.close(&rt);
        told
    })?;
    let kept = take_core(&rt, &mut keeper, 1);
    let taken = take_core(&rt, &mut guest, 0);
    let (first, second) = (keeper.place(), guest.place());
    // in any case: the server ends once all have closed
    keeper.close(&rt);
    guest.close(&rt);
    serving.join(&rt);
    ticking.join(&rt)?;
    kept.and(taken)?;
    println!(rt; "0.0: {first}\n1.0: {second}")?;
    Ok(())
}

fn main(rt: HostRuntime) -> Result<()> {
    let topology = Topology::from_text(rt.alloc(), MACHINE)?;
    let blank = Pages::open(rt.alloc(), &topology).ok().context("no pages")?;
    share::<Brand, _>(rt, &topology, blank)
}
