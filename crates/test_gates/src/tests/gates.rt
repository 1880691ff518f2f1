//! Gates: which orders they hold back, and which they give up.

use arb_play::{FreeGate, Gate, HoldGate, TurnGate};
use std::process::Abort;
use std::rt::Clock;
use std::sync::Wait;
use std::sync::atomic::{AtomicU64, AtomicUsize, Ordering};
use std::test::Fail;
use std::thread::Threads;
use std::time::{Duration, Instant};
use std::{hint, thread};

/// A call of a gate.
#[derive(Clone, Copy)]
enum Call {
    /// An order is about to be given, and is let through or not.
    Before(usize, bool),
    /// An order was given.
    After(usize),
}

use Call::{After, Before};

/// Calls a gate, and compares its answers.
fn answers<G: Gate, R: Wait + Abort>(rt: &R, gate: &G, name: &str, calls: &[Call]) {
    for call in calls {
        match *call {
            Before(order, goes) => {
                assert_eq!(rt; gate.before(rt, order), goes, "{name}: order {order}")
            }
            After(order) => gate.after(rt, order),
        }
    }
}

/// How orders go by turns, with the calls of a gate.
const BY_TURNS: &[(&str, &[Call])] = &[
    (
        "orders are counted",
        &[
            Before(0, true),
            After(0),
            Before(1, true),
            After(1),
            Before(2, true),
        ],
    ),
    (
        "whichever they are",
        &[After(5), After(usize::MAX), Before(2, true)],
    ),
    (
        "more than stand before it",
        &[
            After(7),
            After(7),
            After(7),
            Before(1, true),
            Before(0, true),
        ],
    ),
];

/// How an order is held for another one, with the two, the turns, whether it is let through in the end, and the calls of the gate.
const HELD: &[(&str, usize, usize, u64, bool, &[Call])] = &[
    (
        "given up when its turns are used up, and the awaited order comes too late; others go at once",
        3,
        5,
        10,
        false,
        &[
            Before(3, false),
            Before(5, true),
            Before(4, true),
            After(5),
            Before(3, false),
        ],
    ),
    (
        "held while other orders are given, also the one behind the awaited one",
        3,
        5,
        10,
        false,
        &[After(4), After(6), After(3), Before(3, false)],
    ),
    (
        "goes once the awaited order was given, in whichever order, and takes no turn then",
        3,
        5,
        1,
        true,
        &[
            After(6),
            After(5),
            After(4),
            Before(3, true),
            Before(3, true),
        ],
    ),
    (
        "given up without a turn, also where the awaited order was given",
        0,
        1,
        0,
        false,
        &[After(1), Before(0, false), Before(1, true)],
    ),
    (
        "held while the awaited order was only asked for",
        3,
        5,
        10,
        false,
        &[Before(5, true), Before(3, false)],
    ),
    (
        "others go at once, whatever the limit",
        3,
        5,
        u64::MAX,
        true,
        &[Before(4, true), Before(5, true), After(5), Before(3, true)],
    ),
];

#[test]
fn gates_on_one_thread(rt: HostRuntime) {
    let calls = [
        Before(0, true),
        After(0),
        Before(7, true),
        After(7),
        Before(usize::MAX, true),
        After(usize::MAX),
    ];
    answers(&rt, &FreeGate, "nothing is held back", &calls);
    for (name, calls) in BY_TURNS {
        answers(&rt, &TurnGate::new(), name, calls);
    }
    for (name, held, until, turns, goes, calls) in HELD {
        let gate = HoldGate::new(*held, *until, *turns);
        answers(&rt, &gate, name, calls);
        assert_eq!(rt; gate.is_let_through(*held), *goes, "{name}");
    }
}

/// A play asks a gate whether it may hold an order back. One that doesn't say so itself may.
#[test]
fn gates_that_may_hold_an_order_back(rt: HostRuntime) {
    let (turns, hold) = (TurnGate::new(), HoldGate::new(3, 5, 10));
    let given = (FreeGate.holds_back(), turns.holds_back(), hold.holds_back());
    assert_eq!(rt; given, (false, true, true));
}

/// A gate, and how many orders it let through or was told of.
#[derive(Drop)]
struct Turns {
    gate: TurnGate,
    count: AtomicUsize,
}

impl Turns {
    fn new() -> Turns {
        Turns {
            gate: TurnGate::new(),
            count: AtomicUsize::new(0),
        }
    }
}

/// How many orders two threads give by turns.
const ORDERS: usize = 1_000;

/// Gives each second order from the first one on, by turns. Gives whether each found as many orders given as stand before it.
fn give_by_turns<R: Wait>(rt: &R, turns: &Turns, first: usize) -> bool {
    let mut in_turn = true;
    for order in (first..ORDERS).step_by(2) {
        in_turn &= turns.gate.before(rt, order) && turns.count.load(Ordering::SeqCst) == order;
        turns.count.store(order.wrapping_add(1), Ordering::SeqCst);
        turns.gate.after(rt, order);
    }
    in_turn
}

/// Two threads give the orders in turn: each waits for the other's, and sees what the other did before it told the gate. A
/// gate that counts an order twice, or lets one through before its turn, would let a thread give its own orders one after
/// another.
#[test]
fn two_threads_take_turns(rt: HostRuntime) {
    let (runtime, turns) = (&rt, &Turns::new());
    let (even, odd) = thread::join(
        runtime,
        move || give_by_turns(runtime, turns, 0),
        move || give_by_turns(runtime, turns, 1),
    );
    assert_eq!(rt; (even, odd), (true, true));
}

/// Threads that take turns: how many, how many orders they give, and the longest pause of an order before it passes its turn on, as a
/// number of looks.
#[derive(Clone, Copy)]
struct Crew {
    threads: usize,
    orders: usize,
    pauses: usize,
}

/// More threads than processors: most sleep, and those whose turn is near are woken before it. And two and three that pass their
/// turns on at each moment of the next one's wait: while it looks, between its last look and its sleep, and while it sleeps. A
/// wait that is wrong only between look and sleep loses some ten wakes of a hundred thousand.
const CREWS: [Crew; 3] = [
    Crew {
        threads: 24,
        orders: 24_000,
        pauses: 1,
    },
    Crew {
        threads: 2,
        orders: 100_000,
        pauses: 300,
    },
    Crew {
        threads: 3,
        orders: 60_000,
        pauses: 500,
    },
];

/// A turn that comes as many milliseconds after the one before has most likely lost a wake: who sleeps through its ring looks again
/// after a second.
const SLOW: u64 = 900;

/// Turns, and when the last one was passed on.
#[derive(Drop)]
struct TimedTurns {
    turns: Turns,
    began: Instant,
    /// In nanoseconds after the beginning.
    passed: AtomicU64,
}

impl TimedTurns {
    /// How many nanoseconds have gone since the beginning.
    fn now<R: Clock>(&self, rt: &R) -> u64 {
        let gone = self.began.elapsed(rt).unwrap_or(Duration::MAX);
        u64::try_from(gone.as_nanos()).unwrap_or(u64::MAX)
    }
}

/// What a thread found.
#[derive(Clone, Copy)]
struct Found {
    /// Whether each of its orders found as many orders given as stand before it.
    in_turn: bool,
    /// The longest that one of its turns came after the one before, in nanoseconds.
    longest: u64,
}

/// Gives each order of a thread's own, by turns.
fn give_own<R: Wait + Clock>(rt: &R, timed: &TimedTurns, crew: Crew, first: usize) -> Found {
    let turns = &timed.turns;
    let mut found = Found {
        in_turn: true,
        longest: 0,
    };
    for order in (first..crew.orders).step_by(crew.threads.max(1)) {
        found.in_turn &= turns.gate.before(rt, order)
            && turns.count.load(Ordering::SeqCst) == order;
        let late = timed
            .now(rt)
            .saturating_sub(timed.passed.load(Ordering::SeqCst));
        found.longest = found.longest.max(late);
        for _ in 0..order.wrapping_mul(7_919) % crew.pauses.max(1) {
            hint::spin_loop();
        }
        turns.count.store(order.wrapping_add(1), Ordering::SeqCst);
        timed.passed.store(timed.now(rt), Ordering::SeqCst);
        turns.gate.after(rt, order);
    }
    found
}

/// A crew takes turns: none is let through early. Gives whether a turn was slow.
fn is_slow<R: Threads + Wait + Clock + Abort + AllocGlobal + Sync>(
    rt: &R,
    crew: Crew,
) -> Result<bool, Fail> {
    let mut firsts = Vec::new(rt.alloc());
    for first in 0..crew.threads {
        firsts.push(first)?;
    }
    let timed = &TimedTurns {
        turns: Turns::new(),
        began: Instant::now(rt)?,
        passed: AtomicU64::new(0),
    };
    let all = thread::map_vec(rt, firsts, &|first| give_own(rt, timed, crew, first))?;
    let mut slow = false;
    for found in all {
        assert!(rt; found.in_turn);
        slow |= found.longest > SLOW.saturating_mul(1_000_000);
    }
    Ok(slow)
}

/// Threads take turns, and none sleeps through its own. A machine may stand still once: so a crew with a slow turn is tried once more.
#[test]
fn many_threads_take_turns(rt: HostRuntime) -> Result<(), Fail> {
    for crew in CREWS {
        let slow = is_slow(&rt, crew)? && is_slow(&rt, crew)?;
        assert!(rt; !slow, "a thread slept on");
    }
    Ok(())
}

/// How many orders stand before the one that sleeps.
const FAR: usize = 10_000;

/// Tells the gate of so many orders. The pauses give who sleeps the time to fall asleep, and to wake.
fn tell_slowly<R: Wait + Clock>(rt: &R, turns: &Turns) {
    for order in 0..FAR {
        if order % 100 == 0 {
            thread::sleep(rt, Duration::from_millis(1));
        }
        turns.count.store(order.wrapping_add(1), Ordering::SeqCst);
        turns.gate.after(rt, order);
    }
}

/// An order that sleeps is woken some times before its turn: a bell is that of each 1,024th order. It goes only once the gate
/// was told of all that stand before it.
#[test]
fn who_wakes_too_soon_sleeps_again(rt: HostRuntime) {
    let (runtime, turns) = (&rt, &Turns::new());
    let (found, ()) = thread::join(
        runtime,
        move || {
            let goes = turns.gate.before(runtime, FAR);
            (goes, turns.count.load(Ordering::SeqCst))
        },
        move || tell_slowly(runtime, turns),
    );
    assert_eq!(rt; found, (true, FAR));
}

/// Asks a gate for the order that it holds back. The awaited one is given at the pause of this number, from 1. Gives whether
/// it goes, and after how many pauses.
fn ask_held<R: Wait>(rt: &R, gate: &HoldGate, given_at: u64) -> (bool, u64) {
    let mut pauses: u64 = 0;
    let goes = gate.is_let_through_by(
        3,
        &mut || {
            pauses = pauses.wrapping_add(1);
            if pauses == given_at {
                gate.after(rt, 5);
            }
        },
    );
    (goes, pauses)
}

/// What never comes.
const NEVER: u64 = u64::MAX;

/// When the awaited order is given, with the limit, its pause, and whether the held one goes, after how many pauses.
const PAUSES: &[(&str, u64, u64, bool, u64)] = &[
    ("given at a pause in the middle", 10, 7, true, 7),
    ("before the last look", 10, 9, true, 9),
    ("behind the last look", 10, 10, false, 10),
    ("far on", 1_000, 777, true, 777),
    ("never", 10, NEVER, false, 10),
    ("never, and there is one turn", 1, NEVER, false, 1),
    ("never, and there is none", 0, NEVER, false, 0),
];

/// A held order pauses until the awaited one was given, and as often as its limit says before it gives up. Asked for once
/// more, it pauses no more.
#[test]
fn a_held_order_takes_its_turns(rt: HostRuntime) {
    for (name, limit, given_at, goes, pauses) in PAUSES {
        let gate = HoldGate::new(3, 5, *limit);
        let (first, again) = (ask_held(&rt, &gate, *given_at), ask_held(&rt, &gate, NEVER));
        assert_eq!(rt; (first, again), ((*goes, *pauses), (*goes, 0)), "{name}");
    }
    let gate = HoldGate::new(3, 5, 10);
    gate.after(&rt, 5);
    assert_eq!(rt; ask_held(&rt, &gate, NEVER), (true, 0), "given before");
}

/// The awaited order is given after a tenth of a second, in which a thread takes thousands of turns. The held one goes then, and
/// not before.
#[test]
fn a_held_order_waits_for_long(rt: HostRuntime) {
    let gate = HoldGate::new(0, 1, u64::MAX);
    let given = AtomicUsize::new(0);
    let (hold, count) = (&gate, &given);
    let runtime = &rt;
    let (found, ()) = thread::join(
        runtime,
        move || {
            let goes = hold.before(runtime, 0);
            (goes, count.load(Ordering::SeqCst))
        },
        move || {
            thread::sleep(runtime, Duration::from_millis(100));
            count.store(1, Ordering::SeqCst);
            hold.after(runtime, 1);
        },
    );
    assert_eq!(rt; found, (true, 1));
}

/// How many orders each of two threads is done with at once.
const AT_ONCE: usize = 300_000;

/// Two threads tell the gate at once, and none of their orders is lost: the order behind them all is let through.
#[test]
fn two_threads_tell_at_once(rt: HostRuntime) {
    let gate = TurnGate::new();
    let turns = &gate;
    let runtime = &rt;
    thread::join(
        runtime,
        move || tell_often(runtime, turns),
        move || tell_often(runtime, turns),
    );
    assert!(rt; gate.before(&rt, 2 * AT_ONCE));
}

fn tell_often<R: Wait>(rt: &R, gate: &TurnGate) {
    for order in 0..AT_ONCE {
        gate.after(rt, order);
    }
}
