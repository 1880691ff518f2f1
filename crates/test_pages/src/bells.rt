//! Bells: who sleeps is woken by the change that it looks for. The sleeps here may last an hour, so that a wake-up that
//! is lost stops the test.

ghost use Rattle.std.specs.Prelude.{◌≡◌};

use arb_config::Topology;
use arb_core::layout::{FIRST_CORE, FIRST_PLACE};
use arb_core::{ClientId, Order};
use arb_house::Publisher;
use arb_page::{Bell, Blank, Pages, Patience, Reader, Set, Waiters, Watch};
use std::hint;
use std::marker::Brand;
use std::process::Abort;
use std::sync::Wait;
use std::sync::atomic::AtomicU64;
use std::sync::atomic::Ordering::SeqCst;
use std::test::*;
use std::thread::{Threads, join, map_vec, yield_now};
use std::time::Duration;
use test_parts::{TWO_SOCKETS, ask, thread};

/// How often each thread hands on the number.
const ROUNDS: u64 = 3_000;

/// The longest sleep, in seconds.
const HOUR: u64 = 3_600;

/// Waits on a bell until the number is reached.
fn reach<R: Wait>(rt: &R, number: &AtomicU64, bell: &Bell, least: u64) {
    for _ in rt.forever() {
        if number.load(SeqCst) >= least {
            break;
        }
        let heard = bell.listen();
        if number.load(SeqCst) >= least {
            break;
        }
        bell.sleep(rt, heard, Duration::from_secs(HOUR));
    }
}

/// Hands on every other number from a first one on: waits for it on its own bell, and rings the other's.
fn hand_on<R: Wait>(rt: &R, number: &AtomicU64, own: &Bell, other: &Bell, first: u64) {
    let mut next = first;
    for _ in 0..ROUNDS {
        reach(rt, number, own, next);
        // so that the other thread is sometimes asleep and sometimes just about to
        for _ in 0..next % 300 {
            hint::spin_loop();
        }
        number.fetch_add(1, SeqCst);
        other.ring();
        next = next.wrapping_add(2);
    }
}

/// Two threads hand a number to and fro, and each waits for it on a bell of its own.
#[test]
fn a_ring_wakes_who_listened(rt: HostRuntime) -> Result<(), Fail> {
    let number = &AtomicU64::new(0);
    let (even, odd) = (&Bell::new(), &Bell::new());
    let run = &rt;
    join(
        run,
        move || hand_on(run, number, even, odd, 0),
        move || hand_on(run, number, odd, even, 1),
    );
    assert_eq!(&rt; number.load(SeqCst), 2 * ROUNDS);
    Ok(())
}

#[test]
fn a_wait_pauses_then_listens_and_then_sleeps(rt: HostRuntime) -> Result<(), Fail> {
    let bell = &Bell::new();
    let mut patience = Patience::new();
    let mut rests = 0u64;
    // a ring after each rest: it costs nothing while nobody listens, and ends the one sleep at once
    for _ in 0..100 {
        if patience.has_slept() {
            break;
        }
        patience.rest(&rt, bell);
        bell.ring();
        rests = rests.wrapping_add(1);
    }
    // 30 looks, one that listens, and one that sleeps
    assert_eq!(&rt; rests, 30 + 2);
    Ok(())
}

/// Nobody rings, and each wait ends its sleep by itself: within seconds, not an hour.
#[test]
fn a_sleep_ends_though_nobody_rings(rt: HostRuntime) -> Result<(), Fail> {
    let (bell, waiters) = (&Bell::new(), &Waiters::new());
    let (mut alone, mut among) = (Patience::new(), Patience::new());
    // 30 looks, one that listens or joins, and one that sleeps
    for _ in 0..30 + 2 {
        alone.rest(&rt, bell);
        among.rest_among(&rt, waiters);
    }
    assert_eq!(&rt; (alone.has_slept(), among.has_slept()), (true, true));
    Ok(())
}

/// How many changes were made while somebody was there.
fn count_changes(waiters: &Waiters) -> u32 {
    let changes = waiters.join();
    waiters.leave();
    changes
}

/// A wait among others joins once before each sleep, and leaves after it, or at the end where it didn't sleep. So a wake is
/// counted only between the two.
#[test]
fn who_waited_among_others_is_gone(rt: HostRuntime) -> Result<(), Fail> {
    for (rests, slept, changes) in [
        (30, false, 0),
        (31, false, 1),
        (32, true, 1),
        (33, true, 2),
        (34, true, 2),
    ] {
        let waiters = &Waiters::new();
        let mut patience = Patience::new();
        // the wake after the rest that joins ends the next one's sleep at once
        for _ in 0..rests {
            patience.rest_among(&rt, waiters);
            waiters.wake_one();
        }
        patience.leave(waiters);
        waiters.wake_one();
        waiters.wake_all();
        let counted = count_changes(waiters);
        assert_eq!(&rt;
            (patience.has_slept(), counted),
            (slept, changes),
            "{rests} rests"
        );
    }
    Ok(())
}

/// How many rests a server's wait takes up to the one that sleeps. A message is found then.
fn rests_up_to_sleep<R: Wait>(rt: &R, watch: &mut Watch) -> u64 {
    let bell = &Bell::new();
    let mut rests = 0u64;
    for _ in 0..2000 {
        if watch.has_slept() {
            break;
        }
        watch.rest(rt, bell);
        bell.ring();
        rests = rests.wrapping_add(1);
    }
    watch.found();
    rests
}

#[test]
fn a_server_waits_shortly_where_messages_come_seldom(rt: HostRuntime) -> Result<(), Fail> {
    let watch = &mut Watch::new();
    for _ in 0..3 {
        // a long wait in which no message came soon, and then two short ones
        assert_eq!(&rt; rests_up_to_sleep(&rt, watch), 1000 + 2);
        for _ in 0..2 {
            assert_eq!(&rt; rests_up_to_sleep(&rt, watch), 100 + 2);
        }
    }
    assert_eq!(&rt; rests_up_to_sleep(&rt, watch), 1000 + 2);
    // one that comes soon makes the next wait long
    watch.rest(&rt, &Bell::new());
    watch.found();
    assert_eq!(&rt; rests_up_to_sleep(&rt, watch), 1000 + 2);
    // so does one that comes in the first half of a long wait
    for (rests, looks) in [(499, 1000), (500, 100)] {
        let watch = &mut Watch::new();
        for _ in 0..rests {
            watch.rest(&rt, &Bell::new());
        }
        watch.found();
        assert_eq!(&rt; rests_up_to_sleep(&rt, watch), looks + 2);
    }
    Ok(())
}

/// Takes one of the tokens, if there is one.
fn try_take<R: Wait>(rt: &R, tokens: &AtomicU64) -> bool {
    for _ in rt.forever() {
        let count = tokens.load(SeqCst);
        if count == 0 {
            return false;
        }
        let fewer = count.wrapping_sub(1);
        if tokens
            .compare_exchange(count, fewer, SeqCst, SeqCst)
            .is_ok()
        {
            return true;
        }
    }
    false
}

/// Takes so many tokens, and waits among others where there is none.
fn take_often<R: Wait>(rt: &R, tokens: &AtomicU64, waiters: &Waiters) {
    for _ in 0..ROUNDS {
        for _ in rt.forever() {
            if try_take(rt, tokens) {
                break;
            }
            let heard = waiters.join();
            let taken = try_take(rt, tokens);
            if !taken {
                waiters.sleep(rt, heard, Duration::from_secs(HOUR));
            }
            waiters.leave();
            if taken {
                break;
            }
        }
    }
}

/// Gives as many tokens as three threads take, one at a time, and wakes one thread after each.
fn give_often(tokens: &AtomicU64, waiters: &Waiters) {
    for round in 0..3 * ROUNDS {
        // so that the others sometimes all sleep
        for _ in 0..round % 300 {
            hint::spin_loop();
        }
        tokens.fetch_add(1, SeqCst);
        waiters.wake_one();
    }
}

/// Three threads wait for what one of them can have.
#[test]
fn each_change_wakes_one_of_those_that_wait(rt: HostRuntime) -> Result<(), Fail> {
    let tokens = &AtomicU64::new(0);
    let waiters = &Waiters::new();
    let three = vec![in rt.alloc(); (), (), ()]?;
    let run = &rt;
    let ((), took) = join(
        run,
        move || give_often(tokens, waiters),
        move || map_vec(run, three, &|()| take_often(run, tokens, waiters)),
    );
    assert_eq!(&rt; took?.len(), 3);
    assert_eq!(&rt; tokens.load(SeqCst), 0);
    Ok(())
}

/// Says that it is there, and sleeps once.
fn sleep_once<R: Wait>(rt: &R, waiters: &Waiters, there: &AtomicU64) {
    let heard = waiters.join();
    there.fetch_add(1, SeqCst);
    waiters.sleep(rt, heard, Duration::from_secs(HOUR));
    waiters.leave();
}

/// Listens, says that it is there, and sleeps once.
fn listen_once<R: Wait>(rt: &R, bell: &Bell, there: &AtomicU64) {
    let heard = bell.listen();
    there.fetch_add(1, SeqCst);
    bell.sleep(rt, heard, Duration::from_secs(HOUR));
}

/// Comes back once two are there, and mostly asleep.
fn await_both<R: Wait>(rt: &R, there: &AtomicU64) {
    for _ in rt.forever() {
        if there.load(SeqCst) == 2 {
            break;
        }
        hint::spin_loop();
    }
    for _ in 0..100_000 {
        hint::spin_loop();
    }
}

/// Two threads sleep at one place, and a third one wakes them once both are there.
macro_rules! wake_both {
    ($rt:ident, $place:ident, $sleep:ident, $wake:ident) => {{
        let there = &AtomicU64::new(0);
        join(
            $rt,
            move || {
                await_both($rt, there);
                $place.$wake();
            },
            move || {
                join(
                    $rt,
                    move || $sleep($rt, $place, there),
                    move || $sleep($rt, $place, there),
                );
            },
        );
    }};
}

/// Two threads sleep, and one change wakes both.
#[test]
fn a_change_for_all_wakes_all(rt: HostRuntime) -> Result<(), Fail> {
    for _ in 0..20 {
        let (rt, waiters) = (&rt, &Waiters::new());
        wake_both!(rt, waiters, sleep_once, wake_all);
        assert_eq!(rt; count_changes(waiters), 1);
    }
    Ok(())
}

/// Two threads sleep on one bell, and one ring wakes both.
#[test]
fn a_ring_wakes_all_that_listened(rt: HostRuntime) -> Result<(), Fail> {
    for _ in 0..20 {
        let (rt, bell) = (&rt, &Bell::new());
        wake_both!(rt, bell, listen_once, ring);
        assert_eq!(rt; bell.listen(), 3);
    }
    Ok(())
}

/// A ring for all reaches the bells of the first threads, of the last one and of the clock.
#[test]
fn a_ring_for_all_reaches_each_bell(rt: HostRuntime) -> Result<(), Fail> {
    let topology = Topology::from_text(rt.alloc(), TWO_SOCKETS)?;
    let blank = Pages::open(rt.alloc(), &topology).ok().ok_or("memory")?;
    rings_all::<Brand, _>(&rt, blank);
    Ok(())
}

fn rings_all<K: Set, R: Abort>(rt: &R, blank: Blank)
    requires name { (blank.table ≡ K.table) × (blank.machine ≡ K.machine) }
{
    let (pages, _writer) = blank.name::<K>();
    for client in [
        thread(0, 0),
        thread(0, 1),
        thread(15, 31),
        ClientId::clock(),
    ] {
        // its count is 1 with the listening, 2 with the ring, and 3 with the next listening; nobody listens at the second ring
        assert_eq!(rt; pages.bell(client).listen(), 1, "client {client}");
        pages.ring_all();
        pages.ring_all();
        assert_eq!(rt; pages.bell(client).listen(), 3, "client {client}");
    }
}

/// How often a thread waits for a core, and how often a core came.
#[derive(Drop)]
struct Cores {
    waits: AtomicU64,
    came: AtomicU64,
}

/// A thread waits for a core again and again, and each post that brings one ends its sleep.
#[test]
fn a_post_wakes_its_thread(rt: HostRuntime) -> Result<(), Fail> {
    let topology = Topology::from_text(rt.alloc(), TWO_SOCKETS)?;
    let blank = Pages::open(rt.alloc(), &topology).ok().ok_or("memory")?;
    let came = on_two_threads::<Brand, _>(&rt, &topology, blank);
    assert_eq!(&rt; came, ROUNDS);
    Ok(())
}

/// Yields until a count is reached.
fn await_count<R: Wait>(rt: &R, count: &AtomicU64, least: u64) {
    for _ in rt.forever() {
        if count.load(SeqCst) >= least {
            break;
        }
        yield_now();
    }
}

/// Has the thread wait, and gives it a core, again and again.
fn give_often_a_core<K: Set, R: Wait>(
    rt: &R,
    pages: &Pages<K>,
    mut publisher: Publisher<K>,
    cores: &Cores,
) {
    let client = thread(0, 0);
    publisher.publish(pages, client, &Order::Join);
    for round in 0..ROUNDS {
        for order in [ask(0), Order::Block] {
            publisher.publish(pages, client, &order);
        }
        let next = round.wrapping_add(1);
        cores.waits.store(next, SeqCst);
        // so that the thread is sometimes asleep and sometimes just about to
        for _ in 0..round % 49 {
            hint::spin_loop();
        }
        publisher.publish(pages, client, &ask(1));
        await_count(rt, &cores.came, next);
    }
}

/// Waits for a core again and again. Gives how often it was the first one.
fn wait_often_for_a_core<K: Set, R: Wait>(
    rt: &R,
    pages: &Pages<K>,
    mut reader: Reader<K>,
    cores: &Cores,
) -> u64 {
    let mut first = 0u64;
    for round in 0..ROUNDS {
        let next = round.wrapping_add(1);
        await_count(rt, &cores.waits, next);
        for _ in 0..round % 50 {
            hint::spin_loop();
        }
        if wait_for_core(rt, pages, &mut reader, thread(0, 0)) == FIRST_CORE {
            first = first.wrapping_add(1);
        }
        cores.came.store(next, SeqCst);
    }
    first
}

/// Sleeps on the thread's bell until its place word names a core.
fn wait_for_core<K: Set, R: Wait>(
    rt: &R,
    pages: &Pages<K>,
    reader: &mut Reader<K>,
    client: ClientId,
) -> u64 {
    let mut word = 0;
    for _ in rt.forever() {
        word = reader.read(pages, FIRST_PLACE);
        if word >= FIRST_CORE {
            break;
        }
        let heard = pages.bell(client).listen();
        word = reader.read(pages, FIRST_PLACE);
        if word >= FIRST_CORE {
            break;
        }
        pages
            .bell(client)
            .sleep(rt, heard, Duration::from_secs(HOUR));
    }
    word
}

/// One thread waits, and the other publishes the orders.
fn on_two_threads<K: Set + Send + Sync, R: Threads + Wait + Abort + Sync>(
    rt: &R,
    topology: &Topology,
    blank: Blank,
) -> u64
    requires name { (blank.table ≡ K.table) × (blank.machine ≡ K.machine) }
    requires topology { blank.machine ≡ topology.now }
{
    let (pages, mut writer) = blank.name::<K>();
    let reader = writer.tell(&pages).into_reader();
    let publisher = Publisher::new(topology, writer);
    let shared = &pages;
    let cores = &Cores {
        waits: AtomicU64::new(0),
        came: AtomicU64::new(0),
    };
    let ((), first) = join(
        rt,
        move || give_often_a_core(rt, shared, publisher, cores),
        move || wait_often_for_a_core(rt, shared, reader, cores),
    );
    first
}
