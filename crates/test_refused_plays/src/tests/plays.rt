//! Plays by turns, of which a whole report is written or nothing, and a play without turns.

use arb_config::{ConfigFault, Topology};
use arb_house::OpenFault;
use arb_play::{FreeGate, Gate, PlayFault, TurnGate, play};
use arb_script::{Script, ScriptKind};
use arb_share::Watched;
use arrayvec::ArrayVec;
use std::alloc::{AllocError, Global};
use std::io;
use std::io::Write;
use std::process::Abort;
use std::sync::Wait;
use std::sync::atomic::Ordering::SeqCst;
use std::sync::atomic::{AtomicBool, AtomicUsize};
use std::thread::Threads;
use test_parts::{THREE_APPLICATIONS, THREE_REPORT, TWO_SOCKETS};

/// Prints what came of a test.
fn tell(rt: &impl Print, what: &str) {
    println!(rt; "{what}").ok();
}

/// A gate that notes for each order of a script whether it was asked for it, and told of it after that.
#[derive(Drop)]
struct Counted<G> {
    gate: G,
    /// Of each order: 0 at first, 1 once it was asked for, 2 once it was told of.
    marks: Vec<AtomicUsize>,
    /// Whether an order was asked for twice, told of twice or before it was asked for, or isn't one of the script.
    is_wrong: AtomicBool,
}

impl<G> Counted<G> {
    fn new(gate: G, marks: Vec<AtomicUsize>) -> Counted<G> {
        Counted {
            gate,
            marks,
            is_wrong: AtomicBool::new(false),
        }
    }

    /// Notes an order that has this mark.
    fn note(&self, order: usize, mark: usize) {
        let found = self.marks.get(order).map(|it| it.fetch_add(1, SeqCst));
        if found != Some(mark) {
            self.is_wrong.store(true, SeqCst);
        }
    }

    /// Whether it was asked for each order once, and then told of it once; or asked for none.
    fn saw(&self, all: bool) -> bool {
        let mark = if all { 2 } else { 0 };
        let has = |it: &AtomicUsize| it.load(SeqCst) == mark;
        !self.is_wrong.load(SeqCst) && self.marks.iter().all(has)
    }
}

impl<G: Gate> Gate for Counted<G> {
    ghost use Rattle.std.specs.Prelude.{⊤};

    ghost may_give_up = { λ gate order. ⊤ };

    ghost may_let_through = { λ gate order. ⊤ };

    fn before<R: Wait>(&self, rt: &R, order: usize) -> bool {
        self.note(order, 0);
        self.gate.before(rt, order)
    }

    fn after<R: Wait>(&self, rt: &R, order: usize) {
        self.note(order, 1);
        self.gate.after(rt, order);
    }

    fn holds_back(&self) -> bool {
        self.gate.holds_back()
    }
}

/// A gate of turns that gives up each second order from one on, in its turn.
#[derive(Drop)]
struct UpTo {
    turns: TurnGate,
    orders: usize,
}

impl Gate for UpTo {
    ghost use Rattle.std.specs.Prelude.{⊤};

    ghost may_give_up = { λ gate order. ⊤ };

    ghost may_let_through = { λ gate order. ⊤ };

    fn before<R: Wait>(&self, rt: &R, order: usize) -> bool {
        self.turns.before(rt, order)
            && (order < self.orders || order.wrapping_sub(self.orders) % 2 == 1)
    }

    fn after<R: Wait>(&self, rt: &R, order: usize) {
        self.turns.after(rt, order);
    }
}

/// The marks of so many orders.
fn marks(alloc: Global, orders: usize) -> Result<Vec<AtomicUsize>, AllocError> {
    let mut marks = Vec::with_capacity(alloc, orders)?;
    for _ in 0..orders {
        marks.push(AtomicUsize::new(0))?;
    }
    Ok(marks)
}

/// All orders, as none is given up.
const ALL: usize = usize::MAX;

/// So many orders of the example go by turns, so that there is one report; the writer takes no memory. The whole journal report is
/// written, or nothing. Where the house or a thread found none, no order was begun. Else the gate was asked for each order and told of
/// it once, also where the server or a client found no memory. Gives what came of it.
fn in_turn<R: Threads + Wait + Abort + AllocGlobal + Sync>(rt: &R, orders: usize) -> &'static str {
    let topology = match Topology::from_text(rt.alloc(), TWO_SOCKETS) {
        Ok(topology) => topology,
        Err(fault) => {
            assert_eq!(rt; fault, ConfigFault::Memory);
            return "no topology";
        }
    };
    let script = match Script::from_text(rt.alloc(), THREE_APPLICATIONS) {
        Ok(script) => script,
        Err(fault) => {
            assert_eq!(rt; fault.kind, ScriptKind::Memory);
            return "no script";
        }
    };
    let Ok(marks) = marks(rt.alloc(), script.len()) else {
        return "no gate";
    };
    let turns = TurnGate::new();
    let gate = Counted::new(UpTo { turns, orders }, marks);
    plays_in_turn(rt, &topology, &script, &gate, orders)
}

/// What comes of a play in which orders may be given up from one on.
fn plays_in_turn<R: Threads + Wait + Abort + AllocGlobal + Sync>(
    rt: &R,
    topology: &Topology,
    script: &Script,
    gate: &Counted<UpTo>,
    orders: usize,
) -> &'static str {
    let mut sink = Watched::new(ArrayVec::<u8, 1024>::new());
    let (what, want, begun) = match play(rt, rt.alloc(), topology, script, gate, &mut sink) {
        Ok(()) => ("the whole report", THREE_REPORT, true),
        Err(PlayFault::Open(OpenFault::Memory)) => ("no house", "", false),
        Err(PlayFault::Start) => ("no threads", "", false),
        Err(PlayFault::Ended) => ("ended early", "", true),
        Err(PlayFault::GaveUp(order)) if order == orders => ("an order was given up", "", true),
        Err(fault) => {
            assert!(rt; false, "{fault:?}");
            ("another fault", "", false)
        }
    };
    assert!(rt; gate.saw(begun), "{what}");
    assert_eq!(rt; sink.inner.as_slice(), want.as_bytes());
    what
}

/// Nothing is given up: there is a whole report, where no memory was refused.
#[test]
fn the_whole_report_or_nothing(rt: HostRuntime) {
    tell(&rt, in_turn(&rt, ALL));
}

/// How many orders are let through before each second one is given up: of each client that gives more than one, some are. Client 2.0
/// loses an order for want of memory behind one that was given up.
const SOME: usize = 10;

/// The same. Here it loses one before, and an order is let through behind both; and client 1.0 loses one before its first is given up.
const FEWER: usize = 9;

/// The gate gives orders up, and some of the clients that go on have lost an order for want of memory: no turn is left out.
#[test]
fn all_turns_pass_where_orders_are_given_up(rt: HostRuntime) {
    tell(&rt, in_turn(&rt, SOME));
}

/// The same, where other orders are given up.
#[test]
fn all_turns_pass_where_others_are_given_up(rt: HostRuntime) {
    tell(&rt, in_turn(&rt, FEWER));
}

/// How many clients play, and how many orders each gives: a long script of more clients than the queue has places, so that they take
/// turns on the floor.
const CLIENTS: usize = 66;

const OWN_ORDERS: usize = 66;

/// The numbers of applications, as they are written.
const APPS: [&str; 16] = [
    "0", "1", "2", "3", "4", "5", "6", "7", "8", "9", "10", "11", "12", "13", "14", "15",
];

/// The bytes of a line at most.
const LINE_BYTES: usize = 12;

/// A script by which they join, and then count their cores. It takes memory once.
fn crowd(alloc: Global) -> Result<String, AllocError> {
    let mut script = String::with_capacity(alloc, CLIENTS * OWN_ORDERS * LINE_BYTES)?;
    for number in 0..OWN_ORDERS {
        let order = if number == 0 { " join\n" } else { " status\n" };
        for client in 0..CLIENTS {
            script.push_str(APPS[client % 16])?;
            script.push('.')?;
            script.push_str(APPS[client / 16])?;
            script.push_str(order)?;
        }
    }
    Ok(script)
}

/// A writer that counts lines, and takes no memory.
#[derive(Drop)]
struct Lines(usize);

impl Write for Lines {
    fn write(&mut self, bytes: &[u8]) -> io::Result<usize> {
        let ends = bytes.iter().filter(|byte| **byte == b'\n').count();
        self.0 = self.0.wrapping_add(ends);
        Ok(bytes.len())
    }

    fn flush(&mut self) -> io::Result<()> {
        Ok(())
    }
}

/// Clients play freely on the floor, and where the server or a client finds no memory, all of them end: each makes room for the
/// next, and the gate is asked for each order and told of it once. A line for each order and core is written, or nothing.
#[test]
fn a_free_play_ends_for_all(rt: HostRuntime) {
    tell(&rt, on_the_floor(&rt));
}

fn on_the_floor<R: Threads + Wait + Abort + AllocGlobal + Sync>(rt: &R) -> &'static str {
    let Ok(topology) = Topology::from_text(rt.alloc(), TWO_SOCKETS) else {
        return "no topology";
    };
    let Ok(text) = crowd(rt.alloc()) else {
        return "no text";
    };
    let Ok(script) = Script::from_text(rt.alloc(), text.as_str()) else {
        return "no script";
    };
    let Ok(marks) = marks(rt.alloc(), script.len()) else {
        return "no gate";
    };
    let gate = Counted::new(FreeGate, marks);
    plays_freely(rt, &topology, &script, &gate)
}

/// What comes of a play without turns.
fn plays_freely<R: Threads + Wait + Abort + AllocGlobal + Sync>(
    rt: &R,
    topology: &Topology,
    script: &Script,
    gate: &Counted<FreeGate>,
) -> &'static str {
    let mut sink = Watched::new(Lines(0));
    let lines = script.len().wrapping_add(topology.managed() as usize);
    let (what, want, begun) = match play(rt, rt.alloc(), topology, script, gate, &mut sink) {
        Ok(()) => ("the whole report", lines, true),
        Err(PlayFault::Open(OpenFault::Memory)) => ("no house", 0, false),
        Err(PlayFault::Start) => ("no threads", 0, false),
        Err(PlayFault::Ended) => ("the play ended early", 0, true),
        Err(fault) => {
            assert!(rt; false, "{fault:?}");
            ("another fault", 0, false)
        }
    };
    assert!(rt; gate.saw(begun), "{what}");
    assert_eq!(rt; sink.inner.0, want);
    what
}
