//! Clients that wait for room in the queue: each message that is taken lets one of them go on, and the end all. None is left behind as
//! one that waits.

ghost use Rattle.std.specs.Prelude.{◌≡◌, [], true};
ghost use Rattle.std.specs.Arc.{arc_value};
ghost use Rattle.crossbeam_queue.specs.Passes.{IsPassOf, view};

use crate::tests::same::same;
use crate::tests::stand_in::{beside, parts, stand_in};
use crate::tests::woken::fill;
use arb_config::Topology;
use arb_desk::{Answer, Desk, OrderPass, Sender, pass_for, take};
use arb_house::{Client, House, Server};
use arb_model::{ClientId, Order};
use arb_page::{Blank, Pages, Patience, Set, Waiters};
use std::alloc::{AllocError, Global};
use std::hint;
use std::marker::Brand;
use std::process::Abort;
use std::rt::Clock;
use std::sync::atomic::AtomicU64;
use std::sync::atomic::Ordering::SeqCst;
use std::sync::{Arc, Wait};
use std::test::*;
use std::thread::{Threads, join, map_vec, sleep, yield_now};
use std::time::{Duration, Instant};
use test_parts::TWO_SOCKETS;

/// How many clients there are: twice as many as the queue has places.
const CROWD: u16 = 128;

/// How long their server lets them wait when all are there, in milliseconds: those that found no room sleep then.
const LATE: u64 = 100;

/// For how many milliseconds it waits for all to be there, at most.
const MOST_LATE: u64 = 5_000;

/// How soon all of them go on then, in milliseconds. One that isn't woken sleeps for a second.
const SOON: u64 = 700;

/// How often that is tried, since the machine may stand still.
const TRIES: u32 = 4;

/// What a crowd does, and its server.
#[derive(Clone, Copy)]
struct Crowd {
    /// Whether each client calls before it closes.
    calls: bool,
    /// Whether the server serves, or is dropped.
    serves: bool,
}

const CROWDS: &[Crowd] = &[
    Crowd {
        calls: false,
        serves: true,
    },
    Crowd {
        calls: true,
        serves: true,
    },
    Crowd {
        calls: false,
        serves: false,
    },
    Crowd {
        calls: true,
        serves: false,
    },
];

/// More clients than the queue has places call, or close, before their server serves or ends. Those that sleep are woken, one by each
/// message that is taken, or all by the end.
#[test]
fn a_crowd_that_waits_for_room_is_woken(rt: HostRuntime) -> Result<(), Fail> {
    for crowd in CROWDS {
        goes_on_soon(&rt, *crowd)?;
    }
    Ok(())
}

fn goes_on_soon<R: Threads + Wait + Clock + Abort + AllocGlobal + Sync>(
    rt: &R,
    crowd: Crowd,
) -> Result<(), Fail> {
    let topology = Topology::from_text(rt.alloc(), TWO_SOCKETS)?;
    let mut soon = false;
    for _ in 0..TRIES {
        let blank = Pages::open(rt.alloc(), &topology).ok().ok_or("memory")?;
        let took = goes_on::<Brand, _>(rt, rt.alloc(), &topology, blank, crowd)?;
        soon = took < Duration::from_millis(SOON);
        if soon {
            break;
        }
    }
    let Crowd { calls, serves } = crowd;
    assert!(rt; soon, "some slept on: calls {calls}, serves {serves}");
    Ok(())
}

/// Gives how long the crowd took from the moment at which its server began.
fn goes_on<K: Set + Send + Sync, R: Threads + Wait + Clock + Abort + Sync>(
    rt: &R,
    alloc: Global,
    topology: &Topology,
    blank: Blank,
    crowd: Crowd,
) -> Result<Duration, Fail>
    requires name { (blank.table ≡ K.table) × (blank.machine ≡ K.machine) }
    requires topology { blank.machine ≡ topology.now }
{
    let mut ids = Vec::new(alloc);
    for number in 0..CROWD {
        ids.push(ClientId::of_thread(number))?;
    }
    let Ok((server, clients)) = House::open::<K>(rt, alloc, blank, topology, ids.as_slice()) else {
        return Err("no house".into());
    };
    let there = &AtomicU64::new(0);
    let (began, done) = join(
        rt,
        move || serve_late(rt, server, there, crowd.serves),
        move || act_at_once(rt, clients, there, crowd),
    );
    let (began, done) = began.zip(done).ok_or("no time")?;
    Ok(done.saturating_duration_since(began))
}

/// Lets time pass until all are there, and a while more.
fn await_all<R: Clock>(rt: &R, there: &AtomicU64) {
    for _ in 0..MOST_LATE {
        if there.load(SeqCst) >= u64::from(CROWD) {
            break;
        }
        sleep(rt, Duration::from_millis(1));
    }
    sleep(rt, Duration::from_millis(LATE));
}

/// Serves, or ends, when all have waited for a while. Gives when that began.
fn serve_late<K: Set, R: Wait + Clock + Abort>(
    rt: &R,
    server: Server<K>,
    there: &AtomicU64,
    serves: bool,
) -> Option<Instant> {
    await_all(rt, there);
    let began = Instant::now(rt).ok();
    if serves {
        let ended = server.serve(rt);
        assert!(rt; ended.fault.is_none());
    } else {
        drop(server);
    }
    began
}

/// All clients call, if they are to, and then close, each on a thread of its own. Gives when the last one had called or closed.
fn act_at_once<K: Set + Send + Sync, R: Threads + Wait + Clock + Abort + Sync>(
    rt: &R,
    mut clients: Vec<Client<K>>,
    there: &AtomicU64,
    crowd: Crowd,
) -> Option<Instant> {
    let mut called = None;
    if crowd.calls {
        clients = map_vec(
            rt,
            clients,
            &|client| {
                there.fetch_add(1, SeqCst);
                call_first(rt, client, true)
            },
        )
        .ok()?;
        called = Instant::now(rt).ok();
    }
    let pasts = map_vec(
        rt,
        clients,
        &|client: Client<K>| {
            there.fetch_add(1, SeqCst);
            client.close(rt).whole
        },
    );
    let closed = Instant::now(rt).ok();
    assert!(rt; !crowd.serves || pasts.ok()?.iter().all(|whole| *whole));
    called.or(closed)
}

/// Calls, if it is to.
fn call_first<K: Set, R: Wait>(rt: &R, mut client: Client<K>, calls: bool) -> Client<K> {
    if calls && client.out() == 0 {
        let _reply = client.call(rt, Order::Status);
    }
    client
}

/// How often a client waits for room, on pages of its own, and for how many seconds at most.
const ROUNDS: u64 = 4_000;

const SECONDS: u64 = 6;

/// How often it is woken before it finds room, at most.
const WAKES: u64 = 197;

/// How many rests a wait makes up to the one after which it looks once more before it sleeps.
const RESTS: u32 = 31;

/// How a wait for room comes to its end.
#[derive(Clone, Copy)]
enum Room {
    /// A client that calls finds room.
    ToCall,
    /// One that closes does.
    ToClose,
    /// The end comes first, of one that closes.
    Never,
}

/// A client that found the queue full doesn't wait any more once it goes on, whenever in its wait it does: also where it looked once more
/// before it slept, and found room or the end. However often it looked, it says once that it closes.
#[test]
fn who_waited_for_room_is_gone(rt: HostRuntime) -> Result<(), Fail> {
    let topology = Topology::from_text(rt.alloc(), TWO_SOCKETS)?;
    let began = Instant::now(&rt)?;
    for round in 0..ROUNDS {
        if began.elapsed(&rt)? > Duration::from_secs(SECONDS) {
            break;
        }
        let room = match round % 4 {
            0 => Room::ToCall,
            1 => Room::Never,
            _ => Room::ToClose,
        };
        waits_once(&rt, &topology, room, round % WAKES)?;
    }
    Ok(())
}

fn waits_once<R: Threads + Wait + Abort + AllocGlobal + Sync>(
    rt: &R,
    topology: &Topology,
    room: Room,
    wakes: u64,
) -> Result<(), Fail> {
    let blank = Pages::open(rt.alloc(), topology).ok().ok_or("memory")?;
    waits_for_room::<Brand, _>(rt, rt.alloc(), topology, blank, room, wakes)?;
    Ok(())
}

fn waits_for_room<K: Set + Send + Sync, R: Threads + Wait + Abort + Sync>(
    rt: &R,
    alloc: Global,
    topology: &Topology,
    blank: Blank,
    room: Room,
    wakes: u64,
) -> Result<(), AllocError>
    requires name { (blank.table ≡ K.table) × (blank.machine ≡ K.machine) }
    requires topology { blank.machine ≡ topology.now }
{
    let (stand_in, client) = stand_in(alloc, topology, parts::<K>(alloc, topology, blank)?)?;
    let (desk, mut server, _recorder, _answers, to) = stand_in;
    let mut other = pass_for(&desk.orders, &mut server, ClientId::of_thread(32));
    fill(rt, &desk, &mut other);
    let left = Arc::try_clone(&desk)?;
    let calls = matches!(room, Room::ToCall);
    let there = &AtomicU64::new(0);
    let closed = beside(
        rt,
        move || -> ()
            requires queue { IsPassOf (arc_value desk).orders server }
            requires server { (view server).is_server ≡ true }
        {
            rest_as_long(rt, &desk, there, wakes);
            let_go_on(rt, desk, server, to, room)
        },
        move || {
            there.store(1, SeqCst);
            call_first(rt, client, calls).close(rt).client
        },
    );
    let came = (closed, left.closing(), is_there(&left.room));
    same(rt, "room", came, (Some(ClientId::of_thread(0)), 1, false));
    Ok(())
}

/// Lets a client that found no room go on. It takes two messages, so that an order and a close mark have room, or ends. It answers nothing.
fn let_go_on<K: Set, R: Wait>(
    rt: &R,
    desk: Arc<Desk<K>, Global>,
    server: OrderPass,
    to: Sender<Answer<K>>,
    room: Room,
)
    requires queue { IsPassOf (arc_value desk).orders server }
    requires server { (view server).is_server ≡ true }
{
    let mut server = server;
    if matches!(room, Room::Never) {
        desk.end();
    } else {
        take(rt, &desk.orders, &mut server);
        take(rt, &desk.orders, &mut server);
        desk.room.wake_one();
    }
    drop(to);
}

/// Comes back about when a client that is there looks once more before it sleeps, or somewhat later: rests as often as the client does,
/// looks meanwhile, and then wakes it so often. Where the client doesn't wait yet, that lets time pass.
fn rest_as_long<K: Set, R: Wait>(rt: &R, desk: &Desk<K>, there: &AtomicU64, wakes: u64) {
    await_one(rt, there);
    rest_and_look(rt, desk);
    for _ in 0..wakes {
        desk.room.wake_one();
        hint::spin_loop();
    }
}

/// Comes back when the client is there.
fn await_one<R: Wait>(rt: &R, there: &AtomicU64) {
    for _ in rt.forever() {
        if there.load(SeqCst) > 0 {
            break;
        }
        yield_now();
    }
}

/// Rests as often as a client does up to that look, among others of its own.
fn rest_and_look<K: Set, R: Wait>(rt: &R, desk: &Desk<K>) {
    let (mut patience, room) = (Patience::new(), Waiters::new());
    for _ in 0..RESTS {
        patience.rest_among(rt, &room);
        desk.has_ended();
    }
}

/// Whether somebody waits: only then a wake counts.
fn is_there(room: &Waiters) -> bool {
    let before = room.join();
    room.leave();
    room.wake_one();
    let after = room.join();
    room.leave();
    before != after
}
