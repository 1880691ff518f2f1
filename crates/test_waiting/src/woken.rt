//! Threads that sleep until they have a core, and are woken by what another thread orders: soon. A sleep that nobody ends lasts
//! a second.

ghost use Rattle.std.specs.Prelude.{◌<◌};
ghost use Rattle.arb_model.specs.Limits.{all_threads};

use arb_waiting::{ClientId, Order, Place, Topology, WaitingMember};
use std::process::Abort;
use std::rt::Clock;
use std::sync::Wait;
use std::test::*;
use std::thread::{Threads, join, sleep, yield_now};
use std::time::{Duration, Instant};
use test_parts::ask;

/// A machine with one core to share.
const ONE_CORE: &str = "[[socket]]
managed = [1]
unmanaged = [0]
";

/// How long a thread has to fall asleep, in milliseconds.
const ASLEEP: u64 = 50;

/// How soon after the order it is awake, in milliseconds.
const SOON: u64 = 400;

/// How often that is tried, since the machine may stand still once.
const TRIES: u32 = 2;

/// How often each thread hands on the core.
const ROUNDS: u32 = 200;

/// How long it keeps the core, in microseconds: the other one falls asleep.
const KEEPS: u64 = 50;

/// Two members of an arbiter with one core, which one application asks for.
fn two_members<R: Wait + Abort + AllocGlobal>(
    rt: &R,
) -> Result<(WaitingMember, WaitingMember), Fail> {
    let topology = Topology::from_text(rt.alloc(), ONE_CORE)?;
    let mut one = WaitingMember::open(rt.alloc(), &topology, u64::MAX)?;
    assert!(rt; one.give(rt, ClientId::of_thread(0), &Order::Join).is_some());
    assert!(rt; one.give(rt, ClientId::of_thread(0), &ask(1)).is_some());
    let two = one.another()?;
    Ok((one, two))
}

/// Gives an order once the other thread has waited for a while. Gives when it did.
fn order_later<R: Wait + Clock + Abort>(
    rt: &R,
    mut member: WaitingMember,
    order: &Order,
) -> Option<Instant> {
    let (own, other) = (ClientId::of_thread(0), ClientId::of_thread(1));
    for _ in rt.forever() {
        if member.place(other) == Place::Waiting {
            break;
        }
        yield_now();
    }
    sleep(rt, Duration::from_millis(ASLEEP));
    let now = Instant::now(rt).ok();
    assert!(rt; member.give(rt, own, order).is_some());
    now
}

/// Blocks, and waits for a core. Gives the place that ended the wait, and when that was.
fn wait<R: Wait + Clock + Abort>(rt: &R, mut member: WaitingMember) -> (Place, Option<Instant>) {
    let own = ClientId::of_thread(1);
    assert!(rt; member.give(rt, own, &Order::Block).is_some());
    let place = member.wait_for_core(rt, own);
    (place, Instant::now(rt).ok())
}

/// How long after the order the wait of the other thread ended, with that place.
fn woken_after<R: Threads + Wait + Clock + Abort + AllocGlobal + Sync>(
    rt: &R,
    order: &Order,
    want: Place,
) -> Result<Option<Duration>, Fail> {
    let (mut one, two) = two_members(rt)?;
    assert!(rt;
        one.give(rt, ClientId::of_thread(0), &Order::Block)
            .is_some()
    );
    let (ordered, (place, woken)) = join(
        rt,
        move || order_later(rt, one, order),
        move || wait(rt, two),
    );
    assert_eq!(rt; place, want);
    let (Some(ordered), Some(woken)) = (ordered, woken) else {
        return Ok(None);
    };
    Ok(Some(woken.duration_since(ordered)))
}

/// The thread on the core retires, so the waiting one gets the core; or the application leaves, and none waits any more.
#[test]
fn a_thread_that_waits_is_woken_soon(rt: HostRuntime) -> Result<(), Fail> {
    let core = Place::On {
        core: 1,
        asked: false,
    };
    for (order, want) in [(Order::Retire, core), (Order::Leave, Place::Unmanaged)] {
        let mut soon = false;
        for _ in 0..TRIES {
            let took = woken_after(&rt, &order, want)?;
            soon = took.is_some_and(|took| took < Duration::from_millis(SOON));
            if soon {
                break;
            }
        }
        assert!(&rt; soon, "it was woken late");
    }
    Ok(())
}

/// Blocks and waits for the core again and again, keeps it for a little each time, and retires. A long wait is the last.
/// Gives whether there was one.
fn hand_on<R: Wait + Clock + Abort>(rt: &R, mut member: WaitingMember, own: ClientId) -> bool
    requires { own < all_threads }
{
    let mut late = false;
    for _ in 0..ROUNDS {
        assert!(rt; member.give(rt, own, &Order::Block).is_some());
        let begun = Instant::now(rt).ok();
        let place = member.wait_for_core(rt, own);
        let took = begun.and_then(|begun| begun.elapsed(rt).ok());
        assert_eq!(rt;
            place,
            Place::On {
                core: 1,
                asked: false
            }
        );
        if took.is_none_or(|took| took >= Duration::from_millis(SOON)) {
            late = true;
            break;
        }
        sleep(rt, Duration::from_micros(KEEPS));
    }
    assert!(rt; member.give(rt, own, &Order::Retire).is_some());
    late
}

/// Two threads hand a core to and fro, and each sleeps until it has it.
#[test]
fn a_core_is_handed_on_without_delay(rt: HostRuntime) -> Result<(), Fail> {
    let mut late = (true, true);
    for _ in 0..TRIES {
        let (one, two) = two_members(&rt)?;
        let run = &rt;
        late = join(
            run,
            move || hand_on(run, one, ClientId::of_thread(0)),
            move || hand_on(run, two, ClientId::of_thread(1)),
        );
        if late == (false, false) {
            break;
        }
    }
    assert_eq!(&rt; late, (false, false));
    Ok(())
}
