//! A long play in turn. Its gate holds orders back, so no client waits for the floor there.

use crate::tests::setting::printed;
use arb_config::Topology;
use arb_play::{Gate, TurnGate, play};
use arb_script::Script;
use arb_share::Watched;
use std::alloc::{AllocError, Global};
use std::rt::Clock;
use std::sync::Wait;
use std::sync::atomic::{AtomicBool, AtomicUsize, Ordering};
use std::test::Fail;
use std::thread;
use std::time::Duration;
use test_parts::TWO_SOCKETS;

/// How many clients play: more than the queue has places.
const CLIENTS: usize = 96;

/// How many orders each gives by turns with the others, and how many more it gives at once, which come past the limit. So the script is
/// long.
const OWN_FIRST: usize = 4;

const OWN_REST: usize = 76;

/// How many orders are entered at most.
const LIMIT: usize = OWN_FIRST * CLIENTS;

/// How many orders the script has.
const ORDERS: usize = LIMIT + OWN_REST * CLIENTS;

/// How long a watch sleeps, in milliseconds. After as many sleeps in which no order was done, the play stands still.
const NAP: u64 = 100;

const QUIET: usize = 50;

/// How often it sleeps at most.
const NAPS: usize = 400;

/// A gate of turns. Once the play stands still it lets nobody wait, and gives all orders up: so the play ends.
#[derive(Drop)]
struct WatchedGate {
    turns: TurnGate,
    done: AtomicUsize,
    stands_still: AtomicBool,
}

impl Gate for WatchedGate {
    ghost use Rattle.std.specs.Prelude.{⊤};

    ghost may_give_up = { λ _ _. ⊤ };

    ghost may_let_through = { λ _ _. ⊤ };

    fn before<R: Wait>(&self, rt: &R, order: usize) -> bool {
        let goes = self.turns.before(rt, order);
        goes && !self.stands_still.load(Ordering::SeqCst)
    }

    fn after<R: Wait>(&self, rt: &R, order: usize) {
        self.done.fetch_add(1, Ordering::SeqCst);
        self.turns.after(rt, order);
    }
}

/// Watches a play until all its orders are done, or it stands still.
fn watch<R: Wait + Clock>(rt: &R, gate: &WatchedGate) {
    let (mut last, mut quiet) = (0usize, 0usize);
    for _ in 0..NAPS {
        thread::sleep(rt, Duration::from_millis(NAP));
        let done = gate.done.load(Ordering::SeqCst);
        if done >= ORDERS {
            return;
        }
        quiet = if done == last {
            quiet.wrapping_add(1)
        } else {
            0
        };
        last = done;
        if quiet == QUIET {
            break;
        }
    }
    gate.stands_still.store(true, Ordering::SeqCst);
    for order in 0..ORDERS {
        gate.turns.after(rt, order);
    }
}

/// A script in which each client's first order comes, then each one's second, and so on. Behind the limit each gives the rest of its
/// own at once, which takes less time. Each joins, and then asks for its status.
fn crowd(alloc: Global) -> Result<String, AllocError> {
    let mut script = String::new(alloc);
    for place in 0..ORDERS {
        let client = if place < LIMIT {
            place % CLIENTS
        } else {
            place.saturating_sub(LIMIT) / OWN_REST
        };
        let order = if place < CLIENTS { "join" } else { "status" };
        let (app, thread) = (client % 16, client / 16);
        script.push_str(format!(in alloc; "{app}.{thread} {order}\n")?.as_str())?;
    }
    Ok(script)
}

/// All orders go in script order, and the play ends. If a few clients had the floor, all of them would wait for the turns of others,
/// and these for the floor.
#[test]
fn a_long_play_in_turn_goes_on(rt: HostRuntime) -> Result<(), Fail> {
    let config = format!(in rt.alloc(); "orders = {LIMIT}\n{TWO_SOCKETS}")?;
    let topology = Topology::from_text(rt.alloc(), config.as_str())?;
    let text = crowd(rt.alloc())?;
    let script = Script::from_text(rt.alloc(), text.as_str())?;
    let want = printed(&rt, &topology, text.as_str())?;
    let gate = WatchedGate {
        turns: TurnGate::new(),
        done: AtomicUsize::new(0),
        stands_still: AtomicBool::new(false),
    };
    let mut sink = Watched::new(Vec::new(rt.alloc()));
    let (runtime, machine, orders, turns, out) = (&rt, &topology, &script, &gate, &mut sink);
    let (answer, ()) = thread::join(
        runtime,
        move || play(runtime, runtime.alloc(), machine, orders, turns, out),
        move || watch(runtime, turns),
    );
    let stands_still = gate.stands_still.load(Ordering::SeqCst);
    let is_whole = sink.inner.as_slice() == want.as_slice();
    assert_eq!(rt;
        (stands_still, answer, is_whole),
        (false, Ok(()), true),
        "whether it stands still, its answer, and whether its report is whole"
    );
    Ok(())
}
