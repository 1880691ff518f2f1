//! Clients that wait, with what stands in for a server. Some are woken for nothing, again and again: each waits on, until what
//! it waits for comes. Others are left alone for seconds, and use next to no processor time, nor does a server.

ghost use Rattle.std.specs.Prelude.{◌≡◌, [], true};
ghost use Rattle.std.specs.Arc.{arc_value};
ghost use Rattle.crossbeam_queue.specs.Passes.{IsPassOf, view};
ghost use Rattle.arb_desk.specs.Passes.{client_view};

use crate::tests::same::same;
use crate::tests::stand_in::{Given, StandIn, beside, enter, enter_all, parts, send, stand_in};
use arb_config::Topology;
use arb_desk::{Answer, Body, Desk, Message, OrderPass, pass_for, put, take};
use arb_house::{Client, House, Past, Recorder, Server, WaitFault};
use arb_model::{ClientId, Order, Place, Reply};
use arb_page::{Blank, Pages, Set};
use std::alloc::{AllocError, Global};
use std::marker::Brand;
use std::process::Abort;
use std::rt::{Clock, Files};
use std::sync::Wait;
use std::test::*;
use std::thread::{Threads, scope, scope_env, sleep, yield_now};
use std::time::{Duration, Instant};
use test_parts::Gives::{Ask, Block, Join};
use test_parts::{Gives, TWO_SOCKETS, Used, thread, used_so_far};

/// How often each is woken for nothing, before it is counted how often it really was: where the wakes come quickly, it sleeps again
/// after some of them only.
const WAKES: u32 = 400;

/// How long it has to fall asleep again, in microseconds.
const PAUSE: u64 = 50;

/// How often it is really woken, at least, and how often the wakes for that are repeated at most.
const REALLY: u32 = 200;

const REPEATS: u32 = 20;

/// How long each is left alone, once or twice, in milliseconds: a sleep lasts a second at most, so each sleeps several times. The last
/// of them has just begun then.
const ALONE: u64 = 2_100;

/// How soon after its last client closes a server ends, in milliseconds. One that isn't woken sleeps on for longer.
const SOON: u64 = 400;

/// How often that is tried, since the machine may stand still once.
const TRIES: u32 = 2;

/// Its processor time at most, in milliseconds. Who looks for a second uses more, also where fifteen others share its processor.
const MOST_MILLIS: u64 = 50;

/// How many messages the queue holds.
const PLACES: usize = 64;

/// What happens to a client while it waits.
#[derive(Clone, Copy, PartialEq)]
pub enum Meanwhile {
    /// It is woken for nothing.
    Wakes,
    /// It is left alone for a while, before its answer too.
    Alone,
}

/// What client 0.0 does that has to wait.
#[derive(Clone, Copy)]
pub enum Waits {
    /// It waits for a core, and comes to this.
    ForACore(Result<u16, WaitFault>),
    /// It gives an order, while the queue is full for long.
    ToCall,
    /// It closes, while the queue is full for long.
    ToClose,
}

impl Waits {
    /// Whether the queue is full for long.
    fn for_room(self) -> bool {
        matches!(self, Waits::ToCall | Waits::ToClose)
    }
}

/// A client that waits, and what is entered beside its order.
#[derive(Clone, Copy)]
pub struct Case<'a> {
    pub waits: Waits,
    /// The orders that are entered before its order.
    pub before: &'a [Given],
    /// Those that are entered after it, before it is answered.
    pub with: &'a [Given],
    /// Those that are entered after it is answered, and the client was woken for nothing.
    pub after: &'a [Given],
    /// The order that it remembers, with the reply, if it remembers one.
    pub left: Option<(Gives, Reply)>,
}

const WOKEN: &[Case] = &[
    // its application has no core for long: another thread of it joins, and asks for one in the end
    Case {
        waits: Waits::ForACore(Ok(1)),
        before: &[((0, 1), Join)],
        with: &[],
        after: &[((0, 1), Ask(1))],
        left: Some((Block, Reply::Now(Place::Waiting))),
    },
    Case {
        waits: Waits::ToCall,
        before: &[],
        with: &[],
        after: &[],
        left: Some((Join, Reply::Joined)),
    },
    Case {
        waits: Waits::ToClose,
        before: &[],
        with: &[],
        after: &[],
        left: None,
    },
];

#[test]
fn clients_that_are_woken_for_nothing(rt: HostRuntime) -> Result<(), Fail> {
    wait(&rt, WOKEN, Meanwhile::Wakes)
}

/// Who waits for a core, for an answer or for room in the queue sleeps: it uses next to no processor time.
#[test]
fn clients_that_wait_for_long(rt: HostRuntime) -> Result<(), Fail> {
    wait(&rt, WOKEN, Meanwhile::Alone)
}

/// A server sleeps while no message comes: before its clients' first one, and when one of them has closed.
#[test]
fn a_server_that_waits_for_long(rt: HostRuntime) -> Result<(), Fail> {
    wait_in_a_server(&rt)
}

fn wait_in_a_server<R: Threads + Wait + Clock + Files + Abort + AllocGlobal + Sync>(
    rt: &R,
) -> Result<(), Fail> {
    let topology = Topology::from_text(rt.alloc(), TWO_SOCKETS)?;
    let mut soon = false;
    for _ in 0..TRIES {
        let blank = Pages::open(rt.alloc(), &topology).ok().ok_or("memory")?;
        let took = serves_seldom::<Brand, _>(rt, rt.alloc(), &topology, blank)?;
        soon = took < Duration::from_millis(SOON);
        if soon {
            break;
        }
    }
    assert!(rt; soon, "it ended late");
    Ok(())
}

/// Gives how long the server went on behind the last close.
fn serves_seldom<
    K: Set + Send + Sync,
    R: Threads + Wait + Clock + Files + Abort + AllocGlobal + Sync,
>(rt: &R, alloc: Global, topology: &Topology, blank: Blank) -> Result<Duration, Fail>
    requires name { (blank.table ≡ K.table) × (blank.machine ≡ K.machine) }
    requires topology { blank.machine ≡ topology.now }
{
    let ids = [thread(0, 0), thread(0, 1)];
    let Ok((server, mut clients)) = House::open::<K>(rt, alloc, blank, topology, &ids) else {
        return Err("no house".into());
    };
    let (Some(closes), Some(calls)) = (clients.pop(), clients.pop()) else {
        return Err("no clients".into());
    };
    let took = scope(scope_env(), rt, move |scope| -> Option<Duration> {
        let calling = scope.spawn(move || call_seldom(rt, calls, closes)).ok()?;
        serve_one(rt, server);
        calling.join(rt)?.elapsed(rt).ok()
    });
    Ok(took.ok_or("no thread")?)
}

/// Serves one order, and sleeps before it and behind it.
fn serve_one<K: Set, R: Wait + Files + Abort + AllocGlobal>(rt: &R, server: Server<K>) {
    let before = used_so_far(rt);
    let ended = server.serve(rt);
    has_slept(rt, before);
    assert!(rt; ended.fault.is_none());
    same(rt, "number of entries", ended.journal.len(), 1);
}

/// After a while one client closes. The other one calls then, and closes after a while more. Gives when it did.
fn call_seldom<K: Set, R: Wait + Clock + Abort>(
    rt: &R,
    mut calls: Client<K>,
    closes: Client<K>,
) -> Option<Instant> {
    leave_alone(rt);
    let first = closes.close(rt);
    assert!(rt; first.whole);
    assert!(rt; calls.out() == 0);
    same(rt, "call", calls.call(rt, Order::Join), Ok(Reply::Joined));
    leave_alone(rt);
    let closing = Instant::now(rt).ok();
    assert!(rt; calls.close(rt).whole);
    closing
}

/// A client waits as each case says, on pages of its own.
pub fn wait<R: Threads + Wait + Clock + Files + Abort + AllocGlobal + Sync>(
    rt: &R,
    cases: &[Case],
    meanwhile: Meanwhile,
) -> Result<(), Fail> {
    for case in cases {
        let topology = Topology::from_text(rt.alloc(), TWO_SOCKETS)?;
        let blank = Pages::open(rt.alloc(), &topology).ok().ok_or("memory")?;
        waits_on::<Brand, _>(rt, rt.alloc(), &topology, blank, case, meanwhile)?;
    }
    Ok(())
}

fn waits_on<K: Set + Send + Sync, R: Threads + Wait + Clock + Files + Abort + AllocGlobal + Sync>(
    rt: &R,
    alloc: Global,
    topology: &Topology,
    blank: Blank,
    case: &Case,
    meanwhile: Meanwhile,
) -> Result<(), AllocError>
    requires name { (blank.table ≡ K.table) × (blank.machine ≡ K.machine) }
    requires topology { blank.machine ≡ topology.now }
{
    let (stand_in, client) = stand_in(alloc, topology, parts::<K>(alloc, topology, blank)?)?;
    let (desk, mut server, recorder, answers, to) = stand_in;
    if case.waits.for_room() {
        let mut other = pass_for(&desk.orders, &mut server, ClientId::of_thread(32));
        fill(rt, &desk, &mut other);
    }
    let left = beside(
        rt,
        move || -> ()
            requires queue { IsPassOf (arc_value desk).orders server }
            requires server { (view server).is_server ≡ true }
        { serve_at_last(rt, (desk, server, recorder, answers, to), case, meanwhile) },
        move || wait_and_close(rt, client, case.waits, meanwhile),
    );
    let Some(past) = left else {
        assert!(rt; false, "no thread");
        return Ok(());
    };
    assert!(rt; past.whole);
    remembers(rt, past.mine.as_slice(), case.left);
    Ok(())
}

/// A client remembers one order with its reply, or none.
fn remembers(rt: &impl Abort, mine: &[(Order, Reply)], left: Option<(Gives, Reply)>) {
    let want = left.map(|(gives, reply)| (gives.order(), reply));
    same(rt, "answered orders", mine.len(), want.iter().count());
    same(rt, "answered order", mine.first().copied(), want);
}

/// Fills the queue with orders of another client, which nobody answers.
pub fn fill<K: Set, R: Wait + Abort>(rt: &R, desk: &Desk<K>, pass: &mut OrderPass)
    requires queue { IsPassOf desk.now.orders pass.old }
    requires new { view pass.old ≡ client_view 32 [] }
{
    let client = ClientId::of_thread(32);
    for _ in 0..PLACES {
        let body = Body::Put(Order::Join);
        let put = put(rt, &desk.orders, pass, Message { client, body });
        assert!(rt; put);
    }
}

/// The client waits, gets what it waits for, and closes. Where it is left alone meanwhile, it uses next to no processor time.
fn wait_and_close<K: Set, R: Wait + Files + Abort + AllocGlobal>(
    rt: &R,
    mut client: Client<K>,
    waits: Waits,
    meanwhile: Meanwhile,
) -> Past
    requires { client.out ≡ [] }
{
    let before = used_so_far(rt);
    match waits {
        Waits::ForACore(want) => same(rt, "wait", client.wait_for_core(rt), want),
        Waits::ToCall => same(rt, "call", client.call(rt, Order::Join), Ok(Reply::Joined)),
        Waits::ToClose => {}
    }
    let past = client.close(rt);
    if meanwhile == Meanwhile::Alone {
        has_slept(rt, before);
    }
    past
}

/// This thread used next to no processor time since a moment.
fn has_slept<R: Files + Abort + AllocGlobal>(rt: &R, before: Option<Used>) {
    let millis = match (before, used_so_far(rt)) {
        (Some(before), Some(now)) => now.since(&before).millis,
        _ => u64::MAX,
    };
    assert!(rt; millis < MOST_MILLIS, "it used {millis} ms");
}

/// Lets a client wait, and gives it only then what it waits for.
fn serve_at_last<K: Set, R: Wait + Clock + Abort>(
    rt: &R,
    stand_in: StandIn<K>,
    case: &Case,
    meanwhile: Meanwhile,
)
    requires queue { IsPassOf (arc_value stand_in.0).orders stand_in.1 }
    requires server { (view stand_in.1).is_server ≡ true }
{
    let (desk, mut server, mut recorder, mut answers, mut to) = stand_in;
    if case.waits.for_room() {
        let_wait(rt, &desk, meanwhile);
    }
    let Body::Put(order) = next_body(rt, &desk, &mut server, thread(0, 0)) else {
        assert!(rt; matches!(case.waits, Waits::ToClose));
        return;
    };
    let index = enter_beside(rt, &mut recorder, &desk.pages, &order, &mut answers, case);
    if meanwhile == Meanwhile::Alone {
        leave_alone(rt);
    }
    send(rt, &mut to, &mut answers, index);
    if !case.after.is_empty() {
        let_wait(rt, &desk, meanwhile);
    }
    enter_all(rt, &mut recorder, &desk.pages, case.after, &mut answers);
}

/// Enters the client's order, and others before and after it. Returns the index of its answer.
fn enter_beside<K: Set>(
    rt: &impl Abort,
    recorder: &mut Recorder<K>,
    pages: &Pages<K>,
    order: &Order,
    answers: &mut Vec<Answer<K>>,
    case: &Case,
) -> usize {
    enter_all(rt, recorder, pages, case.before, answers);
    let index = answers.len();
    enter(rt, recorder, pages, thread(0, 0), order, answers);
    enter_all(rt, recorder, pages, case.with, answers);
    index
}

/// Lets a client wait: it is woken for nothing, or left alone.
fn let_wait<K: Set, R: Clock + Abort>(rt: &R, desk: &Desk<K>, meanwhile: Meanwhile) {
    match meanwhile {
        Meanwhile::Wakes => wake_often(rt, desk),
        Meanwhile::Alone => leave_alone(rt),
    }
}

/// Lets a while pass.
fn leave_alone(rt: &impl Clock) {
    sleep(rt, Duration::from_millis(ALONE));
}

/// Wakes all that sleep, again and again.
fn wake<K: Set, R: Clock>(rt: &R, desk: &Desk<K>) {
    for _ in 0..WAKES {
        desk.pages.ring_all();
        desk.room.wake_all();
        sleep(rt, Duration::from_micros(PAUSE));
    }
}

/// Does so until the client that waits for a core or for room was really woken often enough.
fn wake_often<K: Set, R: Clock + Abort>(rt: &R, desk: &Desk<K>) {
    let mut woken = 0;
    for repeat in 0..REPEATS {
        wake(rt, desk);
        // a ring that finds a listener adds two, and whoever joins hears how many changes found somebody there
        let rings = (desk.pages.bell(thread(0, 0)).listen() / 2).saturating_sub(repeat);
        woken = rings.max(desk.room.join());
        desk.room.leave();
        if woken >= REALLY {
            break;
        }
    }
    assert!(rt; woken >= REALLY, "it was woken {woken} times");
}

/// What the next message of a client holds. Those of others are taken, and left.
pub fn next_body<K: Set, R: Wait>(
    rt: &R,
    desk: &Desk<K>,
    server: &mut OrderPass,
    client: ClientId,
) -> Body
    requires queue { IsPassOf desk.now.orders server.old }
    requires server { (view server.old).is_server ≡ true }
{
    for _ in rt.forever() {
        if let Some(Message { client: from, body }) = take(rt, &desk.orders, server)
            && from == client
        {
            return body;
        }
        yield_now();
    }
    unreachable!()
}
