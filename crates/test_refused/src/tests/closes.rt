//! A house in which each allocation from one on is refused: a server that was given all orders needs no memory for close marks,
//! and for an order that still comes it does.

use crate::tests::courses::{Course, in_a_house};
use arb_house::{Client, Ended, Past, Server, audit};
use arb_model::Order;
use arb_page::Set;
use std::alloc::Global;
use std::process::Abort;
use std::sync::Wait;
use std::thread::{Threads, scope, scope_env, yield_now};

/// How many orders all clients give together. The server's journal has no room for one more then, as the test sees: it doubles each
/// time it grows.
const ORDERS: usize = 16;

/// How many the last client gives while the others are there: one. Its own lists have room for the others then.
const FIRST: usize = 1;

/// How many it gives when the others have closed, but for one more in some courses.
const LAST: usize = 1;

/// How often it yields then: meanwhile the server looks for a message, and finds none.
const YIELDS: u32 = 1_000;

/// Once each order was answered, the server takes no memory: neither while no message is there, nor for the close mark of the last
/// client. So it ends without a fault, also where memory is refused from then on.
#[test]
fn a_close_mark_takes_no_memory(rt: HostRuntime) {
    in_a_house(&rt, Course::Closes);
}

/// Where the last client gives one order more, the server takes memory for its entry. Where that is refused, it ends early, and the
/// order is lost.
#[test]
fn an_order_behind_close_marks_takes_memory(rt: HostRuntime) {
    in_a_house(&rt, Course::OneMore);
}

/// So it does where the last client closes with that order open: who says that it closes has been answered.
#[test]
fn an_open_order_behind_close_marks_takes_memory(rt: HostRuntime) {
    in_a_house(&rt, Course::OneOpen);
}

/// What came of the last client.
#[derive(Drop)]
struct Left {
    /// Whether all its orders were answered.
    answered: bool,
    /// Whether memory was refused then.
    refused: bool,
    /// Whether the order more was answered, if there was one.
    more: Option<bool>,
    past: Past,
}

/// Gives some orders. Gives whether each was answered.
fn give<K: Set, R: Wait>(rt: &R, client: &mut Client<K>, orders: usize) -> bool {
    let mut answered = 0usize;
    for _ in 0..orders {
        if client.out() == 0 && client.call(rt, Order::Status).is_ok() {
            answered = answered.wrapping_add(1);
        }
    }
    answered == orders
}

/// Gives the last orders, yields, asks for memory, gives one order more if it is to, and closes.
fn give_and_close<K: Set, R: Wait>(
    rt: &R,
    alloc: Global,
    mut client: Client<K>,
    course: Course,
    before: bool,
) -> Left {
    let answered = give(rt, &mut client, LAST) && before;
    for _ in 0..YIELDS {
        yield_now();
    }
    let refused = Vec::<u8>::with_capacity(alloc, 1).is_err();
    let called = course == Course::OneMore && give(rt, &mut client, 1);
    let posted = course == Course::OneOpen && client.post(rt, Order::Status).is_ok();
    let past = client.close(rt);
    let collected = posted && past.mine.len() > FIRST + LAST;
    let more = match course {
        Course::OneMore | Course::OneOpen => Some(called || collected),
        _ => None,
    };
    Left {
        answered,
        refused,
        more,
        past,
    }
}

/// The clients of the house.
pub type Three<K> = (Client<K>, Client<K>, Client<K>);

/// Two clients close behind their orders: one gave all but those of the last client, the other none. Then the last one goes on.
fn take_turns<K: Set, R: Wait>(
    rt: &R,
    alloc: Global,
    clients: Three<K>,
    course: Course,
) -> ((Past, Past), Left) {
    let (mut most, none, mut last) = clients;
    let first = give(rt, &mut last, FIRST);
    let others = give(rt, &mut most, ORDERS - FIRST - LAST);
    let closed = (most.close(rt), none.close(rt));
    (
        closed,
        give_and_close(rt, alloc, last, course, first && others),
    )
}

/// What came of all.
type Came<K> = (Ended<K>, (Past, Past), Left);

/// The server on a thread of its own, and the clients on this one. None where no thread could be started.
fn run<K: Set + Send + Sync, R: Threads + Wait + Sync>(
    rt: &R,
    alloc: Global,
    server: Server<K>,
    clients: Three<K>,
    course: Course,
) -> Option<Came<K>> {
    scope(scope_env(), rt, move |scope| -> Option<Came<K>> {
        let serving = scope.spawn(move || server.serve(rt)).ok()?;
        let (closed, left) = take_turns(rt, alloc, clients, course);
        Some((serving.join(rt), closed, left))
    })
}

/// Three clients of a house give their orders, and close, one after another. Gives what came of it.
pub fn closing_clients<K: Set + Send + Sync, R: Threads + Wait + Abort + Sync>(
    rt: &R,
    alloc: Global,
    server: Server<K>,
    clients: Three<K>,
    course: Course,
) -> &'static str {
    match run(rt, alloc, server, clients, course) {
        Some(came) => told(rt, came),
        None => "no thread",
    }
}

/// What came of all. Where an order was lost the server ended early, and the last client's past isn't whole; else all is as it is to be,
/// also where memory was refused.
fn told<K: Set>(rt: &impl Abort, came: Came<K>) -> &'static str {
    let (ended, (most, none), left) = came;
    let Left {
        answered,
        refused,
        more,
        past,
    } = left;
    if !answered {
        return "fewer orders";
    }
    let lost = more == Some(false);
    let entered = match more {
        Some(true) => ORDERS + 1,
        _ => ORDERS,
    };
    assert!(rt; lost || more.is_none() || !refused);
    let fails = (ended.fault.is_some(), past.whole);
    assert_eq!(rt; fails, (lost, !lost));
    let grows = ended.journal.capacity() > ORDERS;
    assert_eq!(rt; (ended.journal.len(), grows), (entered, entered > ORDERS));
    assert!(rt; audit(&ended, &[most, none, past]).is_ok() != lost);
    match (refused, lost) {
        (false, false) => "all orders",
        (true, false) => "all orders, and no memory for a close mark",
        (_, true) => "no memory for an order behind close marks",
    }
}
