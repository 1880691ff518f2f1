//! Clients that close right behind their last order, again and again: whatever their server looks at meanwhile, it takes no memory for
//! the close mark. Nor does it for the marks of several that close at once, or where no order was given.

ghost use Rattle.std.specs.Prelude.{◌≡◌};

use crate::tests::same::same;
use arb_config::Topology;
use arb_house::{Client, House};
use arb_model::{ClientId, Order};
use arb_page::{Blank, Pages, Set};
use std::alloc::Global;
use std::marker::Brand;
use std::process::Abort;
use std::rt::Clock;
use std::sync::Wait;
use std::test::*;
use std::thread::{Threads, join, sleep};
use std::time::Duration;
use test_parts::{TWO_SOCKETS, thread};

/// How long a server is left alone before its clients close, in milliseconds, where it is to sleep then.
const ALONE: u64 = 5;

/// Gives so many orders.
fn give<K: Set, R: Wait + Abort>(rt: &R, client: &mut Client<K>, orders: usize) {
    for _ in 0..orders {
        assert!(rt; client.out() == 0);
        assert!(rt; client.call(rt, Order::Status).is_ok());
    }
}

/// The first client gives so many orders. Then all close, one right behind the other: at once, or when the server sleeps.
fn give_and_close<K: Set, R: Wait + Clock + Abort>(
    rt: &R,
    mut clients: Vec<Client<K>>,
    orders: usize,
    asleep: bool,
) {
    for client in clients.iter_mut().take(1) {
        give(rt, client, orders);
    }
    if asleep {
        sleep(rt, Duration::from_millis(ALONE));
    }
    for client in clients {
        assert!(rt; client.close(rt).whole);
    }
}

/// A house whose clients close behind the orders of the first one. Gives for how many entries its journal has room.
fn room_behind<R: Threads + Wait + Clock + Abort + AllocGlobal + Sync>(
    rt: &R,
    topology: &Topology,
    ids: &[ClientId],
    orders: usize,
    asleep: bool,
) -> Option<usize> {
    let Ok(blank) = Pages::open(rt.alloc(), topology) else {
        return None;
    };
    serves_in_a_hurry::<Brand, _>(rt, rt.alloc(), topology, blank, ids, orders, asleep)
}

fn serves_in_a_hurry<K: Set + Send + Sync, R: Threads + Wait + Clock + Abort + Sync>(
    rt: &R,
    alloc: Global,
    topology: &Topology,
    blank: Blank,
    ids: &[ClientId],
    orders: usize,
    asleep: bool,
) -> Option<usize>
    requires name { (blank.table ≡ K.table) × (blank.machine ≡ K.machine) }
    requires topology { blank.machine ≡ topology.now }
{
    let Ok((server, clients)) = House::open::<K>(rt, alloc, blank, topology, ids) else {
        return None;
    };
    same(rt, "clients", clients.len(), ids.len());
    let (ended, ()) = join(
        rt,
        move || server.serve(rt),
        move || give_and_close(rt, clients, orders, asleep),
    );
    assert!(rt; ended.fault.is_none());
    same(rt, "entries", ended.journal.len(), orders);
    Some(ended.journal.capacity())
}

/// How many orders the client gives: the server's journal has no room for one more then, since it doubles each time it grows. Or it
/// gives none, and the journal has no room from the start.
const ORDERS: [usize; 2] = [16, 0];

/// How many houses of each kind come one after another, in each of four rows that go on side by side.
const HOUSES: usize = 500;

/// One house of one client after another.
fn row<R: Threads + Wait + Clock + Abort + AllocGlobal + Sync>(rt: &R, topology: &Topology) {
    let ids = [thread(0, 0)];
    for _ in 0..HOUSES {
        for orders in ORDERS {
            let room = room_behind(rt, topology, &ids, orders, false);
            same(rt, "room", room, Some(orders));
        }
    }
}

/// Two rows side by side.
fn two_rows<R: Threads + Wait + Clock + Abort + AllocGlobal + Sync>(rt: &R, topology: &Topology) {
    join(rt, move || row(rt, topology), move || row(rt, topology));
}

/// A client says that it closes before it puts its mark, and its server looks for a message before it looks for that.
#[test]
fn a_close_mark_takes_no_memory_in_a_hurry(rt: HostRuntime) -> Result<(), Fail> {
    let (rt, topology) = (&rt, &Topology::from_text(rt.alloc(), TWO_SOCKETS)?);
    join(
        rt,
        move || two_rows(rt, topology),
        move || two_rows(rt, topology),
    );
    Ok(())
}

/// How many orders the first of three clients gives before all close at once.
const GIVEN: usize = 16;

/// How many houses are tried at most. In most of them the sleeping server wakes when all have said that they close.
const TRIES: usize = 400;

/// Where all clients have said that they close before the server looks, it takes no memory for any of their marks.
#[test]
fn marks_of_all_clients_take_no_memory(rt: HostRuntime) -> Result<(), Fail> {
    let topology = Topology::from_text(rt.alloc(), TWO_SOCKETS)?;
    let ids = [thread(0, 0), thread(0, 1), thread(1, 0)];
    let mut seen = false;
    for _ in 0..TRIES {
        let room = room_behind(&rt, &topology, &ids, GIVEN, true);
        seen = room.ok_or("no house")? == GIVEN;
        if seen {
            break;
        }
    }
    assert!(rt; seen, "the server took memory in each house");
    Ok(())
}
