//! A turn that comes just as the thread that waits for it is about to sleep.

use arb_play::{Gate, TurnGate};
use std::process::Abort;
use std::rt::Clock;
use std::sync::Wait;
use std::sync::atomic::{AtomicU64, AtomicUsize, Ordering};
use std::test::Fail;
use std::thread::Threads;
use std::time::{Duration, Instant};
use std::{hint, thread};

/// How many pairs of threads try it. Each pair is new: so the system puts it on other processors.
const PAIRS: usize = 20;

/// How many orders a pair has at most, and for how many nanoseconds. It has time for all, unless the machine has other work.
const ORDERS: usize = 2_000;

const LONG: u64 = 300_000_000;

/// A turn that comes as many nanoseconds late has most likely lost its wake: a thread that sleeps through its ring looks again after a
/// second.
const SLOW: u64 = 900_000_000;

/// A thread that finds its turn as many nanoseconds late has slept.
const SLEPT: u64 = 3_000;

/// For how many looks a turn is kept at most.
const MOST_LOOKS: usize = 800;

/// How often a thread looks for the other one before it lets others run.
const LOOKS: usize = 1_000;

/// Two threads: the first one waits for turns, one after another. The second one keeps each for some looks, and then passes it on.
#[derive(Drop)]
struct Pair {
    gate: TurnGate,
    began: Instant,
    /// The order that the first thread is about to wait for, or a larger one at the end.
    wanted: AtomicUsize,
    /// The order whose turn the second thread keeps.
    kept: AtomicUsize,
    /// For how many looks it keeps it, and how many nanoseconds that took.
    looks: AtomicUsize,
    took: AtomicU64,
}

impl Pair {
    /// How many nanoseconds have gone since the beginning.
    fn now<R: Clock>(&self, rt: &R) -> u64 {
        let gone = self.began.elapsed(rt).unwrap_or(Duration::MAX);
        u64::try_from(gone.as_nanos()).unwrap_or(u64::MAX)
    }

    /// Takes aim, by how late a turn was found. Turns are kept longer and longer until the first thread sleeps, and then less: so
    /// they come again and again between its last look and its sleep.
    fn aim(&self, late: u64) {
        let looks = self.looks.load(Ordering::SeqCst);
        let next = if late > SLEPT || looks > MOST_LOOKS {
            looks / 4 * 3
        } else {
            looks.wrapping_add(1)
        };
        self.looks.store(next, Ordering::SeqCst);
    }
}

/// Waits until a number is there, or a larger one. Gives which. It never sleeps: the other thread may be on another processor, and
/// goes on there at once.
fn meet<R: Wait>(rt: &R, number: &AtomicUsize, wanted: usize) -> usize {
    let mut found = 0;
    for _ in rt.forever() {
        for _ in 0..LOOKS {
            found = number.load(Ordering::SeqCst);
            if found >= wanted {
                return found;
            }
            hint::spin_loop();
        }
        thread::yield_now();
    }
    found
}

/// Waits for each order. Gives whether one came slowly.
fn wait_for_each<R: Wait + Clock>(rt: &R, pair: &Pair) -> bool {
    let mut is_slow = false;
    for order in 1..ORDERS {
        pair.wanted.store(order, Ordering::SeqCst);
        meet(rt, &pair.kept, order);
        let began = pair.now(rt);
        pair.gate.before(rt, order);
        let ended = pair.now(rt);
        let kept = began.saturating_add(pair.took.load(Ordering::SeqCst));
        let late = ended.saturating_sub(kept);
        is_slow |= late > SLOW;
        if is_slow || ended > LONG {
            break;
        }
        pair.aim(late);
    }
    pair.wanted.store(usize::MAX, Ordering::SeqCst);
    is_slow
}

/// Passes each turn on.
fn pass_each<R: Wait + Clock>(rt: &R, pair: &Pair) {
    for order in 1..ORDERS {
        if meet(rt, &pair.wanted, order) > order {
            break;
        }
        pair.kept.store(order, Ordering::SeqCst);
        let began = pair.now(rt);
        for _ in 0..pair.looks.load(Ordering::SeqCst) {
            hint::spin_loop();
        }
        let took = pair.now(rt).saturating_sub(began);
        pair.took.store(took, Ordering::SeqCst);
        pair.gate.after(rt, order);
    }
}

/// A pair takes its turns. Gives whether one was slow.
fn is_slow<R: Threads + Wait + Clock + Sync>(rt: &R) -> Result<bool, Fail> {
    let pair = &Pair {
        gate: TurnGate::new(),
        began: Instant::now(rt)?,
        wanted: AtomicUsize::new(0),
        kept: AtomicUsize::new(0),
        looks: AtomicUsize::new(0),
        took: AtomicU64::new(0),
    };
    let (is_slow, ()) = thread::join(
        rt,
        move || wait_for_each(rt, pair),
        move || pass_each(rt, pair),
    );
    Ok(is_slow)
}

/// A thread doesn't sleep through a turn that comes between its last look and its sleep. A machine may stand still once: so it counts
/// where two turns are slow. On one processor the threads don't run at the same time, and this shows nothing.
#[test]
fn a_turn_comes_just_before_the_sleep(rt: HostRuntime) -> Result<(), Fail> {
    let mut slow: usize = 0;
    for _ in 0..PAIRS {
        if is_slow(&rt)? {
            slow = slow.wrapping_add(1);
        }
        assert!(rt; slow < 2, "two threads slept through their turns");
    }
    Ok(())
}
