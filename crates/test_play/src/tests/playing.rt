//! Scripts on threads whose gates hold orders back, or give them up.

use crate::tests::setting::{played, plays_as};
use arb_config::Topology;
use arb_model::{ClientId, Entry, Order, Reply};
use arb_play::{Gate, HoldGate, Outcome, PlayFault, TurnGate, perform};
use arb_script::Script;
use std::process::Abort;
use std::sync::Wait;
use std::sync::atomic::{AtomicBool, AtomicUsize, Ordering};
use std::test::Fail;
use std::thread::Threads;
use std::{array, thread};
use test_parts::{THREE_ORDERS, TWO_SOCKETS, thread as client};

const TWO_JOIN: &str = "0.0 join\n1.0 join\n";

/// The threads really overlap: whichever of two clients is held back for the other, the other's order comes. A play that
/// ran its clients one after the other would give one of the two up.
#[test]
fn each_of_two_clients_waits_for_the_other(rt: HostRuntime) -> Result<(), Fail> {
    let topology = Topology::from_text(rt.alloc(), TWO_SOCKETS)?;
    for (held, until, lines) in [
        (0, 1, "1.0 join -> joined\n0.0 join -> joined\n"),
        (1, 0, "0.0 join -> joined\n1.0 join -> joined\n"),
    ] {
        let gate = HoldGate::new(held, until, 10_000_000);
        plays_as(&rt, &topology, TWO_JOIN, &gate, lines)?;
    }
    Ok(())
}

/// The entry of a client's first order, by which it joins.
fn joined(client: ClientId) -> Entry {
    Entry {
        client,
        number: 0,
        order: Order::Join,
        reply: Reply::Joined,
    }
}

/// All is left of two clients that joined: both entries in turn, the arbiter after them, and that none came past the limit.
fn is_left(rt: &impl Abort, left: &Outcome, orders: usize) {
    let (first, second) = (client(0, 0), client(1, 0));
    let joins = [joined(first), joined(second)];
    assert_eq!(rt;
        (left.journal.as_slice(), left.core.orders()),
        (joins.as_slice(), 2)
    );
    let full_from = (
        left.full_from[first.index()],
        left.full_from[second.index()],
    );
    assert_eq!(rt; full_from, (orders, orders));
}

/// What is left of a play in turn, which writes no report.
#[test]
fn what_a_play_leaves(rt: HostRuntime) -> Result<(), Fail> {
    let topology = Topology::from_text(rt.alloc(), TWO_SOCKETS)?;
    let script = Script::from_text(rt.alloc(), TWO_JOIN)?;
    let left = perform(&rt, rt.alloc(), &topology, &script, &TurnGate::new())?;
    is_left(&rt, &left, script.len());
    Ok(())
}

/// Holds order 0 until order 2 is asked for, and order 2 until it is told of order 1, which takes long.
#[derive(Drop)]
struct CrossGate {
    asked: AtomicBool,
    told: AtomicBool,
}

/// Waits until a flag is set.
fn wait_for<R: Wait>(rt: &R, flag: &AtomicBool) {
    for _ in rt.forever() {
        if flag.load(Ordering::SeqCst) {
            break;
        }
        thread::yield_now();
    }
}

impl Gate for CrossGate {
    ghost use Rattle.std.specs.Prelude.{⊤};

    ghost may_give_up = { λ _ _. ⊥ };

    ghost may_let_through = { λ _ _. ⊤ };

    fn before<R: Wait>(&self, rt: &R, order: usize) -> bool {
        match order {
            0 => wait_for(rt, &self.asked),
            2 => {
                self.asked.store(true, Ordering::SeqCst);
                wait_for(rt, &self.told);
            }
            _ => {}
        }
        true
    }

    fn after<R: Wait>(&self, _rt: &R, order: usize) {
        if order != 1 {
            return;
        }
        self.told.store(true, Ordering::SeqCst);
        for _ in 0..1_000 {
            thread::yield_now();
        }
    }
}

/// A gate is asked before an order is given, and told once it was answered. Here order 2 comes last. If it was given before the
/// gate is asked, it would come before order 1, which isn't given until then. If the gate was told of order 1 before that was
/// given, order 2 would come before it as well.
#[test]
fn orders_are_given_between_their_gates(rt: HostRuntime) -> Result<(), Fail> {
    let topology = Topology::from_text(rt.alloc(), TWO_SOCKETS)?;
    let script = "0.0 join\n0.0 status\n1.0 join\n";
    let gate = CrossGate {
        asked: AtomicBool::new(false),
        told: AtomicBool::new(false),
    };
    let lines = "0.0 join -> joined
0.0 status -> counts due 0 owned 0 asked 0 waiting 0
1.0 join -> joined
";
    plays_as(&rt, &topology, script, &gate, lines)
}

/// Gives all orders from one on up.
#[derive(Drop)]
struct ShutGate(usize);

impl Gate for ShutGate {
    ghost use Rattle.std.specs.Prelude.{◌<◌, ◌≤◌};

    ghost may_give_up = { λ gate order. gate.0 ≤ order };

    ghost may_let_through = { λ gate order. order < gate.0 };

    fn before<R: Wait>(&self, _rt: &R, order: usize) -> bool {
        order < self.0
    }

    fn after<R: Wait>(&self, _rt: &R, _order: usize) {}
}

/// A play names an order that was given up, and writes nothing.
fn gives_up<G: Gate, R: Threads + Wait + Abort + AllocGlobal + Sync>(
    rt: &R,
    topology: &Topology,
    script: &str,
    gate: &G,
    order: usize,
) -> Result<(), Fail> {
    let (answer, written) = played(rt, topology, script, gate)?;
    assert_eq!(rt; (answer, written.len()), (Err(PlayFault::GaveUp(order)), 0));
    Ok(())
}

/// The least order that was given up is named, whichever client's it is, and then nothing is written.
#[test]
fn the_least_order_that_is_given_up(rt: HostRuntime) -> Result<(), Fail> {
    let topology = Topology::from_text(rt.alloc(), TWO_SOCKETS)?;
    let script = "0.0 join\n1.0 join\n2.0 join\n1.0 status\n0.0 status\n";
    for shut in 0..5 {
        gives_up(&rt, &topology, script, &ShutGate(shut), shut)?;
    }
    // an order that waits for itself
    gives_up(&rt, &topology, TWO_JOIN, &HoldGate::new(1, 1, 50), 1)?;
    let (answer, _) = played(&rt, &topology, TWO_JOIN, &ShutGate(2))?;
    assert_eq!(rt; answer, Ok(()));
    Ok(())
}

/// Counts how often it is called for each of five orders, and for any past them, and gives all from one on up, until it opens again.
/// It also counts calls that come too early: to tell it of an order for which it wasn't asked, or to ask for one while a client's
/// earlier order wasn't told.
#[derive(Drop)]
struct CountingGate {
    shut: usize,
    open: usize,
    /// Whose each order is.
    clients: [u8; 5],
    before: [AtomicUsize; 5],
    after: [AtomicUsize; 5],
    past: AtomicUsize,
    early: AtomicUsize,
}

impl CountingGate {
    /// A gate that gives up all orders from one on, and lets all through from another one on.
    fn new((shut, open): (usize, usize), clients: [u8; 5]) -> CountingGate {
        CountingGate {
            shut,
            open,
            clients,
            before: array::from_fn(|_| AtomicUsize::new(0)),
            after: array::from_fn(|_| AtomicUsize::new(0)),
            past: AtomicUsize::new(0),
            early: AtomicUsize::new(0),
        }
    }

    /// Whether an earlier order of the same client wasn't told yet.
    fn is_early(&self, order: usize) -> bool {
        let client = self.clients.get(order);
        for earlier in 0..order {
            let Some(after) = self.after.get(earlier) else {
                return false;
            };
            if self.clients.get(earlier) == client && after.load(Ordering::SeqCst) == 0 {
                return true;
            }
        }
        false
    }
}

impl Gate for CountingGate {
    ghost use Rattle.std.specs.Prelude.{◌<◌, ◌≤◌, ◌⊎◌};

    ghost may_give_up = { λ gate order. (gate.shut ≤ order) × (order < gate.open) };

    ghost may_let_through = { λ gate order. (order < gate.shut) ⊎ (gate.open ≤ order) };

    fn before<R: Wait>(&self, _rt: &R, order: usize) -> bool {
        let count = self.before.get(order).unwrap_or(&self.past);
        if self.is_early(order) {
            self.early.fetch_add(1, Ordering::SeqCst);
        }
        count.fetch_add(1, Ordering::SeqCst);
        order < self.shut || order >= self.open
    }

    fn after<R: Wait>(&self, _rt: &R, order: usize) {
        let asked = self.before.get(order).unwrap_or(&self.past);
        if asked.load(Ordering::SeqCst) == 0 {
            self.early.fetch_add(1, Ordering::SeqCst);
        }
        let count = self.after.get(order).unwrap_or(&self.past);
        count.fetch_add(1, Ordering::SeqCst);
    }
}

/// Three clients give five orders, and whose each is.
const OF_THREE: (&str, [u8; 5]) = (
    "0.0 join\n1.0 join\n2.0 join\n1.0 status\n0.0 status\n",
    [0, 1, 2, 1, 0],
);

/// Client 1.0 gives four orders of the five.
const FOUR_OF_ONE: (&str, [u8; 5]) = (
    "1.0 join\n1.0 status\n0.0 join\n1.0 status\n1.0 status\n",
    [1, 1, 0, 1, 1],
);

/// Client 1.0 gives all five.
const ALL_OF_ONE: (&str, [u8; 5]) = (
    "1.0 join\n1.0 status\n1.0 status\n1.0 status\n1.0 status\n",
    [1, 1, 1, 1, 1],
);

/// The machine of two sockets, for two orders at most.
const TWO_ORDERS: &str = "orders = 2
socket = [{ managed = [1, 2, 3], unmanaged = [0] }, { managed = [5, 6, 7], unmanaged = [4] }]
";

/// Machines, the orders of five, and from which one on a gate gives orders up until which.
const COURSES: &[(&str, (&str, [u8; 5]), (usize, usize))] = &[
    (TWO_SOCKETS, OF_THREE, (5, 5)),
    (THREE_ORDERS, OF_THREE, (5, 5)),
    (THREE_ORDERS, OF_THREE, (4, 5)),
    (TWO_SOCKETS, OF_THREE, (2, 5)),
    (TWO_SOCKETS, OF_THREE, (1, 5)),
    (TWO_SOCKETS, OF_THREE, (0, 5)),
    (THREE_ORDERS, FOUR_OF_ONE, (5, 5)),
    (THREE_ORDERS, ALL_OF_ONE, (4, 5)),
    (TWO_SOCKETS, FOUR_OF_ONE, (1, 5)),
    (TWO_SOCKETS, FOUR_OF_ONE, (0, 5)),
    (TWO_SOCKETS, ALL_OF_ONE, (1, 2)),
    (TWO_SOCKETS, ALL_OF_ONE, (0, 4)),
    (THREE_ORDERS, ALL_OF_ONE, (0, 1)),
    (TWO_SOCKETS, FOUR_OF_ONE, (1, 3)),
    (TWO_SOCKETS, OF_THREE, (0, 2)),
    (TWO_ORDERS, ALL_OF_ONE, (0, 1)),
    (TWO_ORDERS, ALL_OF_ONE, (2, 3)),
];

/// A play of five orders names the first that its gate gave up, and asks and tells the gate once of each.
fn asks_once<R: Threads + Wait + Abort + AllocGlobal + Sync>(
    rt: &R,
    machine: &str,
    (script, clients): (&str, [u8; 5]),
    (shut, open): (usize, usize),
) -> Result<(), Fail> {
    let topology = Topology::from_text(rt.alloc(), machine)?;
    let gate = CountingGate::new((shut, open), clients);
    let (answer, _) = played(rt, &topology, script, &gate)?;
    let want = if shut == 5 {
        Ok(())
    } else {
        Err(PlayFault::GaveUp(shut))
    };
    assert_eq!(rt; answer, want);
    // calls that come too early, and calls for orders that the script doesn't have
    let strange = (
        gate.early.load(Ordering::SeqCst),
        gate.past.load(Ordering::SeqCst),
    );
    assert_eq!(rt; strange, (0, 0));
    for order in 0..5 {
        let calls = (
            gate.before[order].load(Ordering::SeqCst),
            gate.after[order].load(Ordering::SeqCst),
        );
        assert_eq!(rt; calls, (1, 1), "before and after order {order}");
    }
    Ok(())
}

/// A gate is asked once before each order of the script and told once after it, before it is asked for the client's next, and of no
/// other. So it is whatever comes of the order: it is answered, it comes past the limit of three, it is given up, or its client had
/// one or more given up before, or past the limit, or both. Behind one that was given up, the others are given up too, or let through
/// again.
#[test]
fn a_gate_is_told_of_each_order_once(rt: HostRuntime) -> Result<(), Fail> {
    for (machine, orders, gate) in COURSES {
        asks_once(&rt, machine, *orders, *gate)?;
    }
    Ok(())
}
