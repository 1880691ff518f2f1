//! Threads that call the service.

ghost use Rattle.std.specs.Prelude.{◌≡◌, []};

use crate::dice::Dice;
use crate::digest::{Number, place_number, reply_number};
use crate::machines::{Machine, SMALL, WIDE, open_pages};
use crate::mix::{Crowd, Kind, Mix, thread_of};
use anyhow::{Context, Result, ensure};
use arb_config::Topology;
use arb_house::{Client, ClientId, House, MOST_OPEN, Order, Past, Request, Server, Set, audit};
use arb_page::Blank;
use std::marker::Brand;
use std::sync::Wait;
use std::thread::{Threads, join, map_vec};

/// What the clients of a house do.
#[derive(Clone, Copy, PartialEq, Eq)]
pub enum Habit {
    /// Each calls, and reads its place between two calls.
    Call,
    /// Each keeps as many orders open as it may.
    KeepOpen,
    /// Each waits for a core and gives it back at once, and there are more threads than cores.
    WaitForCores,
}

/// A house, and what its clients do.
#[derive(Clone, Copy)]
pub struct Setting {
    /// How many clients there are: one of each application, and then the next one.
    pub clients: u16,
    /// How many applications there are.
    pub apps: u16,
    /// How many orders each gives beside its first two, or how often it waits for a core.
    pub orders: u64,
    /// What they do.
    pub habit: Habit,
}

/// The only thread of its application, as it orders.
const ALONE: Crowd = Crowd {
    apps: 1,
    threads: 1,
    active: 1,
};

/// The client at an index, of so many applications.
fn client_at(index: u16, apps: u16) -> ClientId {
    let apps = apps.max(1);
    thread_of(index % apps, index / apps)
}

/// An order of a mixture of one application, for whatever client.
fn own(mix: &mut Mix) -> Order {
    match mix.next_order().1 {
        // the clock is no client of the house
        Order::Tick(_) => Order::Status,
        order => order,
    }
}

/// Calls so often, and reads its place between two calls. Gives a digest of what it was answered.
fn call_often<K: Set, R: Wait>(rt: &R, client: &mut Client<K>, mut mix: Mix, orders: u64) -> u64 {
    let mut digest = Number::default();
    for _ in 0..orders {
        if client.out() != 0 {
            break;
        }
        match client.call(rt, own(&mut mix)) {
            Ok(reply) => digest.add(reply_number(&reply)),
            Err(_) => digest.add(7),
        }
        digest.add(match client.must_release() {
            Some(asked) => u64::from(asked),
            None => 2,
        });
        digest.add(place_number(client.place()));
    }
    digest.value
}

/// Gives so many orders, with as many open as may be. Gives a digest of what it was answered.
fn keep_open<K: Set, R: Wait>(rt: &R, client: &mut Client<K>, mut mix: Mix, orders: u64) -> u64 {
    let mut digest = Number::default();
    for _ in 0..orders {
        let order = own(&mut mix);
        if client.out() == MOST_OPEN {
            collect_one(rt, client, &mut digest);
        }
        post_one(rt, client, &order, &mut digest);
    }
    for _ in 0..MOST_OPEN {
        collect_one(rt, client, &mut digest);
    }
    digest.value
}

/// Posts an order. The queue may be full: then it collects what is open, and calls once nothing is.
fn post_one<K: Set, R: Wait>(rt: &R, client: &mut Client<K>, order: &Order, digest: &mut Number) {
    for _ in 0..MOST_OPEN {
        if client.post(rt, *order).is_ok() {
            return;
        }
        collect_one(rt, client, digest);
    }
    if client.out() != 0 {
        return;
    }
    if let Ok(reply) = client.call(rt, *order) {
        digest.add(reply_number(&reply));
    }
}

/// Collects a reply, where an order is open.
fn collect_one<K: Set, R: Wait>(rt: &R, client: &mut Client<K>, digest: &mut Number) {
    if client.out() == 0 {
        return;
    }
    if let Ok(reply) = client.collect(rt) {
        digest.add(reply_number(&reply));
    }
}

/// Waits for a core so often, and gives it back each time. Gives how often it got one.
fn wait_often<K: Set, R: Wait>(rt: &R, client: &mut Client<K>, times: u64) -> u64 {
    if client.out() != 0 {
        return 0;
    }
    let _joined = client.call(rt, Order::Join);
    let _due = client.call(
        rt,
        Order::Ask(Request::at(0, 16).unwrap_or(Request::default())),
    );
    let mut got = 0u64;
    for _ in 0..times {
        if client.out() != 0 {
            break;
        }
        if client.wait_for_core(rt).is_ok() {
            got = got.wrapping_add(1);
        }
        let _done = client.call(rt, Order::Retire);
    }
    got
}

/// What one client does until it closes. With its past it leaves a digest.
fn visit<K: Set, R: Wait>(
    rt: &R,
    mut client: Client<K>,
    setting: Setting,
    dice: Dice,
) -> (Past, u64) {
    let mix = Mix::new(dice, Kind::Usual, ALONE);
    let digest = match setting.habit {
        Habit::Call => call_often(rt, &mut client, mix, setting.orders),
        Habit::KeepOpen => keep_open(rt, &mut client, mix, setting.orders),
        Habit::WaitForCores => wait_often(rt, &mut client, setting.orders),
    };
    (client.close(rt), digest)
}

/// A new house of the first clients.
fn open_house<K: Set, R: Wait + AllocGlobal>(
    rt: &R,
    topology: &Topology,
    blank: Blank,
    setting: &Setting,
) -> Result<(Server<K>, Vec<Client<K>>)>
    requires name { (blank.table ≡ K.table) × (blank.machine ≡ K.machine) }
    requires topology { blank.machine ≡ topology.now }
{
    let mut ids = Vec::new(rt.alloc());
    for index in 0..setting.clients {
        ids.push(client_at(index, setting.apps))?;
    }
    let opened = House::open::<K>(rt, rt.alloc(), blank, topology, ids.as_slice());
    opened.ok().context("out of memory")
}

/// What one client is answered where others order too hangs on the schedule. So of several only a number of their orders
/// counts.
fn digest_of(pasts: &[(Past, u64)], setting: &Setting) -> u64 {
    let mut digest = Number::default();
    for (past, own) in pasts {
        digest.add(past.mine.len() as u64);
        if setting.clients == 1 || setting.habit == Habit::WaitForCores {
            digest.add(*own);
        }
    }
    digest.value
}

/// Opens a house over new pages, and lets its clients do what a setting says.
fn serve_named<K: Set + Send + Sync, R: Threads + Wait + AllocGlobal + Sync>(
    rt: &R,
    topology: &Topology,
    blank: Blank,
    setting: Setting,
    dice: Dice,
) -> Result<u64>
    requires name { (blank.table ≡ K.table) × (blank.machine ≡ K.machine) }
    requires topology { blank.machine ≡ topology.now }
{
    let (server, clients) = open_house::<K, _>(rt, topology, blank, &setting)?;
    let (ended, visits) = join(
        rt,
        move || server.serve(rt),
        move || map_vec(rt, clients, &|client| visit(rt, client, setting, dice)),
    );
    let visits = visits?;
    let digest = digest_of(visits.as_slice(), &setting);
    let mut pasts = Vec::new(rt.alloc());
    for (past, _) in visits {
        pasts.push(past)?;
    }
    ensure!(
        audit(&ended, pasts.as_slice()).is_ok(),
        "the journal has other orders"
    );
    Ok(digest)
}

/// Opens a house, and lets its clients do what a setting says. Gives a digest of what they were answered.
pub fn serve<R: Threads + Wait + AllocGlobal + Sync>(
    rt: &R,
    setting: Setting,
    dice: Dice,
) -> Result<u64> {
    let machine = match setting.habit {
        Habit::WaitForCores => SMALL,
        _ => WIDE,
    };
    let topology = machine.topology(rt.alloc())?;
    let blank = open_pages(rt.alloc(), &topology)?;
    serve_named::<Brand, _>(rt, &topology, blank, setting, dice)
}
