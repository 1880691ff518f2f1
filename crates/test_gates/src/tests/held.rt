//! What it costs to be held back: who waits for its turn sleeps, and is woken only where its turn is near.

use arb_play::{Gate, TurnGate};
use std::rt::{Clock, Files};
use std::sync::Wait;
use std::test::Fail;
use std::thread;
use std::time::{Duration, Instant};
use test_parts::{Used, used_so_far};

/// How many orders stand before the one that is held.
const BEFORE: usize = 100;

/// How many milliseconds pass before each of them is told of: who is woken falls asleep again meanwhile.
const PAUSE: u64 = 10;

/// How many more pass before the last one is. The held order is the next one then, so that its thread was woken, and looked for
/// its turn.
const LAST_PAUSE: u64 = 1_000;

/// How often the held thread sleeps at most, and once more for each second: until its turn is near, and then until it comes. Who is
/// woken for each of the last 64 orders sleeps four times as often.
const MOST_SLEEPS: u64 = 16;

/// Its processor time at most, in milliseconds. Who looks for the last second uses more, also where fifteen others share its
/// processor.
const MOST_MILLIS: u64 = 50;

/// Asks for the order behind all others. Gives what that used.
fn hold<R: Wait + Files + AllocGlobal>(rt: &R, gate: &TurnGate) -> Option<Used> {
    let before = used_so_far(rt)?;
    let goes = gate.before(rt, BEFORE);
    goes.then_some(used_so_far(rt)?.since(&before))
}

/// Tells the gate of all orders before that one, slowly.
fn tell<R: Wait + Clock>(rt: &R, gate: &TurnGate) {
    for order in 0..BEFORE {
        thread::sleep(rt, Duration::from_millis(PAUSE));
        if order == BEFORE - 1 {
            thread::sleep(rt, Duration::from_millis(LAST_PAUSE));
        }
        gate.after(rt, order);
    }
}

/// A held order takes next to no processor time, neither while its turn is far off nor while it is the next one. The turns of
/// others don't wake it.
#[test]
fn a_held_order_sleeps(rt: HostRuntime) -> Result<(), Fail> {
    let (run, gate) = (&rt, &TurnGate::new());
    let began = Instant::now(&rt)?;
    let (cost, ()) = thread::join(run, move || hold(run, gate), move || tell(run, gate));
    let cost = cost.ok_or("Linux does not tell what a thread used")?;
    let seconds = began.elapsed(&rt)?.as_secs();
    let (sleeps, millis) = (cost.sleeps, cost.millis);
    let most = MOST_SLEEPS.saturating_add(seconds);
    assert!(rt; sleeps <= most, "it slept {sleeps} times in {seconds} s");
    assert!(rt; millis < MOST_MILLIS, "it used {millis} ms");
    Ok(())
}
