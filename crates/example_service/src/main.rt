//! The `example_service` program: two applications get cores through the service, each for one thread.
#![tactic(auto)]

ghost use Rattle.std.specs.Prelude.{◌≡◌, []};

use anyhow::{Context, Result};
use arb_house::{Blank, Client, ClientId, House, Order, Pages, Place, Request, Set, Topology};
use std::marker::Brand;
use std::sync::Wait;
use std::thread::{Threads, spawn};

/// Joins, asks for one core at level 0, and waits for it. Then it reads its place: one load, no lock and no order.
fn work<K: Set, R: Wait>(rt: &R, client: &mut Client<K>) -> Result<Place>
    requires { client.old.out ≡ [] }
{
    client.call(rt, Order::Join)?;
    client.call(rt, Order::Ask(Request::at(0, 1).unwrap_or_default()))?;
    client.wait_for_core(rt)?;
    Ok(client.place())
}

/// Prints where a thread is.
fn tell<R: Print>(rt: &R, id: ClientId, place: Result<Place>) -> Result<()> {
    let place = place?;
    println!(rt; "{id} is on {place}")?;
    Ok(())
}

/// Opens a house of two clients. The server has a thread of its own; so may each client, which here take turns.
fn share<K, R>(rt: R, topology: &Topology, blank: Blank) -> Result<()>
where
    K: Set + Send + Sync + 'static,
    R: Threads + Wait + AllocGlobal + Print + Copy + Send + 'static,
    requires name { (blank.table ≡ K.table) × (blank.machine ≡ K.machine) }
    requires topology { blank.machine ≡ topology.now }
{
    let ids = [ClientId::of_thread(0), ClientId::of_thread(32)]; // the first threads of applications 0 and 1
    let (server, clients) = House::open::<K>(&rt, rt.alloc(), blank, topology, &ids)?;
    let serving = spawn(&rt, move || server.serve(&rt))?;
    let mut told = Ok(());
    for mut client in clients {
        let (id, place) = (client.id(), work(&rt, &mut client));
        client.close(&rt); // whatever came: the server ends once all have closed
        told = told.and(tell(&rt, id, place));
    }
    serving.join(&rt);
    told
}

fn main(rt: HostRuntime) -> Result<()> {
    let machine = "[[socket]]\nmanaged = [1, 2]\nunmanaged = [0]\n";
    let topology = Topology::from_text(rt.alloc(), machine)?;
    let blank = Pages::open(rt.alloc(), &topology).ok().context("no pages")?;
    share::<Brand, _>(rt, &topology, blank)
}
