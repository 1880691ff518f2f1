//! The `example_two_runtimes` program: two runtimes of user threads share the cores of a machine by the arbiter's service.
//!
//! Application 0 runs in the background, with three threads and at the lowest level. Once both cores are its own,
//! application 1 comes, with two threads and at the highest level. So the cores are asked back from application 0, whose
//! threads give them back between two slices, wait, and go on. What is printed is the same whatever the schedule.
#![tactic(auto)]

ghost use Rattle.std.specs.Prelude.{◌≡◌, [], All, IfOk};
ghost use Rattle.arb_house.specs.OwnPasts.{IsOwnPast};

mod runtime;

use crate::runtime::{Done, Left, Runtime};
use anyhow::{Context, Result, bail};
use arb_house::{
    Blank, Client, ClientId, Ended, House, LeavesPast, Pages, Server, Set, Topology, audit_own,
};
use std::alloc::Global;
use std::marker::Brand;
use std::snapshot::Snapshot;
use std::sync::Wait;
use std::sync::atomic::Ordering::SeqCst;
use std::thread::{Threads, scope, scope_env, yield_now};

/// One socket, with two managed cores and one that the ordinary scheduler keeps.
const MACHINE: &str = "[[socket]]
managed = [1, 2]
unmanaged = [0]
";

/// A client's thread. One of application 1 comes once application 0 has both cores, and application 0 outlasts it.
fn run<K: Set, R: Wait>(rt: &R, runtimes: &[Runtime; 2], client: Client<K>) -> Left
    requires { client.out ≡ [] }
    ensures { IsOwnPast K.table K.machine client.queue result.1 }
{
    let [background, service] = runtimes;
    if client.id().app_no() == Some(0) {
        return background.run(rt, client);
    }
    for _ in rt.forever() {
        if background.given.load(SeqCst) >= 2 {
            break;
        }
        yield_now();
    }
    let left = service.run(rt, client);
    background.guests.fetch_sub(1, SeqCst);
    left
}

/// Runs each client on a thread of its own, and the server on this one. The server starts last: where a thread can't be
/// started it is dropped, and the clients see that it has ended. Each thread promises the past of its client.
fn run_all<K: Set + Send + Sync, R: Threads + Wait + Sync>(
    rt: &R,
    alloc: Global,
    server: Server<K>,
    clients: Vec<Client<K>>,
    runtimes: &[Runtime; 2],
) -> Result<(Ended<K>, Vec<Left>)>
    requires { All (λ c. (c.out ≡ []) × (c.queue ≡ server.queue)) clients.items }
    ensures { IfOk result (λ r. All (λ left. IsOwnPast K.table K.machine r.0.served.queue left.1) r.1.items) }
{
    scope(
        scope_env(),
        rt,
        move |scope| -> Result<(Ended<K>, Vec<Left>)>
            requires { All (λ c. (c.out ≡ []) × (c.queue ≡ server.queue)) clients.items }
            ensures { IfOk result (λ r. All (λ left. IsOwnPast K.table K.machine r.0.served.queue left.1) r.1.items) }
        {
            let mut threads = Vec::with_capacity(alloc, clients.len())?;
            for client in clients {
                let promise = LeavesPast(Snapshot::of(&client));
                let thread = move || -> Left
                    requires { client.out ≡ [] }
                    ensures { IsOwnPast K.table K.machine client.queue result.1 }
                { run(rt, runtimes, client) };
                threads.push(scope.spawn_with(promise, thread)?)?;
            }
            // returns once all clients have closed; its journal is the entries of one legal history
            let ended = server.serve(rt);
            let mut left = Vec::with_capacity(alloc, threads.len())?;
            for thread in threads {
                left.push(thread.join(rt))?;
            }
            Ok((ended, left))
        },
    )
}

/// Opens a house on the pages, runs both runtimes in it, and prints what they did.
fn share<K: Set + Send + Sync, R: Threads + Wait + Print + Sync>(
    rt: &R,
    alloc: Global,
    topology: &Topology,
    blank: Blank,
) -> Result<()>
    requires name { (blank.table ≡ K.table) × (blank.machine ≡ K.machine) }
    requires topology { blank.machine ≡ topology.now }
{
    let mut ids = Vec::new(alloc);
    for (app, thread) in [(0, 0), (0, 1), (0, 2), (1, 0), (1, 1)] {
        ids.push(ClientId::app(app, thread).context("no such thread")?)?;
    }
    // a server, and the clients in the order of the list, which have seen and put nothing
    let Ok((server, clients)) = House::open::<K>(rt, alloc, blank, topology, ids.as_slice()) else {
        bail!("no house");
    };
    let runtimes = [Runtime::new(7, 1000, 3, 2), Runtime::new(0, 100, 2, 0)];
    let (mut ended, left) = run_all(rt, alloc, server, clients, &runtimes)?;
    let mut totals = [Done::default(); 2];
    let mut pasts = Vec::new(alloc);
    for (done, past) in left {
        let background = past.client.app_no() == Some(0);
        let app = if background { 0 } else { 1 };
        totals[app].add(done.ok().context("a thread failed")?);
        pasts.push(past)?;
    }
    for app in 0..2 {
        let total = totals[app];
        println!(rt; "application {app}: {total:?}")?;
    }
    // `Ok` says that each client's entries in the journal are its past's orders and replies, in order; that they differ is never
    // answered of a house's own pasts
    let mut lists = Vec::with_capacity(alloc, pasts.len())?;
    let audited = audit_own(&mut ended, pasts, &mut lists);
    println!(rt;
        "audit: {audited:?}, with the lists of {} clients",
        lists.len()
    )?;
    Ok(())
}

fn main(rt: HostRuntime) -> Result<()> {
    let topology = Topology::from_text(rt.alloc(), MACHINE)?;
    // the page words that the threads read, all 0
    let blank = Pages::open(rt.alloc(), &topology);
    let blank = blank.ok().context("no pages")?;
    // at `Brand` the proof says which pages `K` names: these
    share::<Brand, _>(&rt, rt.alloc(), &topology, blank)
}
