//! A thread that reads its place without pause while another client's orders move it, beside a replay of the journal.

ghost use Rattle.std.specs.Prelude.{◌≡◌};

use crate::tests::same::same;
use arb_config::Topology;
use arb_core::Core;
use arb_house::{Client, Ended, House, Past, Server, audit};
use arb_model::layout::{WORDS, place_in_word};
use arb_model::{ClientId, Entry, Order, Place, Reply};
use arb_page::{Blank, Pages, Set};
use std::alloc::Global;
use std::marker::Brand;
use std::process::Abort;
use std::sync::Wait;
use std::sync::atomic::{AtomicBool, Ordering};
use std::test::*;
use std::thread;
use std::thread::{Threads, join};
use test_parts::{TWO_SOCKETS, ask, ask_for, thread};

/// The place word of the first thread of all.
const PLACE_WORD: usize = 33;

/// How often the thread is moved.
const MOVES: usize = 20;

/// A place of the thread, and how many of its own orders were answered by then.
#[derive(Clone, Copy, PartialEq, Eq)]
struct Shown {
    place: Place,
    answered: usize,
}

/// What the two threads tell each other without orders.
#[derive(Drop)]
struct Signs {
    /// The reading thread is on its core.
    begun: AtomicBool,
    /// It has read that its core is asked back.
    asked: AtomicBool,
    /// The other one has given its last order.
    done: AtomicBool,
}

#[test]
fn a_client_reads_its_place_without_pause(rt: HostRuntime) -> Result<(), Fail> {
    let ids = [thread(0, 0), thread(1, 0)];
    let topology = Topology::from_text(rt.alloc(), TWO_SOCKETS)?;
    let blank = Pages::open(rt.alloc(), &topology).ok().ok_or("memory")?;
    reads_beside::<Brand, _>(&rt, rt.alloc(), &topology, blank, ids)
}

/// The first client reads, and the second one moves it.
fn reads_beside<K: Set + Send + Sync, R: Threads + Wait + Abort + Sync>(
    rt: &R,
    alloc: Global,
    topology: &Topology,
    blank: Blank,
    ids: [ClientId; 2],
) -> Result<(), Fail>
    requires name { (blank.table ≡ K.table) × (blank.machine ≡ K.machine) }
    requires topology { blank.machine ≡ topology.now }
{
    let opened = House::open::<K>(rt, alloc, blank, topology, &ids);
    let (server, mut clients) = opened.ok().ok_or("memory")?;
    assert_eq!(rt; clients.len(), 2);
    let mover = clients.remove(1);
    let reader = clients.remove(0);
    let (ended, ((one, readings), two)) = serve_both(rt, alloc, server, reader, mover);
    same(rt, "audit", audit(&ended, &[one, two]), Ok(()));
    let points = replay(rt, alloc, topology, ended.journal.as_slice(), ids[0]);
    stand_in_order(rt, readings.as_slice(), points.as_slice());
    moved_often(rt, readings.as_slice());
    Ok(())
}

/// The server serves while the first client reads and the second one moves it.
fn serve_both<K: Set + Send + Sync, R: Threads + Wait + Abort + Sync>(
    rt: &R,
    alloc: Global,
    server: Server<K>,
    reader: Client<K>,
    mover: Client<K>,
) -> (Ended<K>, ((Past, Vec<Shown>), Past)) {
    let signs = Signs {
        begun: AtomicBool::new(false),
        asked: AtomicBool::new(false),
        done: AtomicBool::new(false),
    };
    let signs = &signs;
    join(
        rt,
        move || server.serve(rt),
        move || join(
            rt,
            move || read_and_block(rt, alloc, reader, signs),
            move || move_it(rt, mover, signs),
        ),
    )
}

/// The thread saw that it was moved as often as it was, and that its core was asked back.
fn moved_often(rt: &impl Abort, readings: &[Shown]) {
    let asked = Place::On {
        core: 1,
        asked: true,
    };
    let mut moves: usize = 0;
    let mut asks: usize = 0;
    for one in readings {
        if one.place == Place::Moved {
            moves = moves.saturating_add(1);
        }
        if one.place == asked {
            asks = asks.saturating_add(1);
        }
    }
    assert!(rt; moves >= MOVES);
    assert!(rt; asks >= 1);
}

/// Notes a place that isn't the last one of the list.
fn note(rt: &impl Abort, shown: &mut Vec<Shown>, next: Shown) {
    if shown.last().copied() != Some(next) {
        let kept = shown.push(next);
        assert!(rt; kept.is_ok());
    }
}

/// The thread joins its application, which wants a core at a low level, and blocks. Then it reads its place without pause,
/// and blocks again where it was moved, until the other client is done. Its readings are left beside its past.
fn read_and_block<K: Set, R: Wait + Abort>(
    rt: &R,
    alloc: Global,
    mut client: Client<K>,
    signs: &Signs,
) -> (Past, Vec<Shown>) {
    let low = ask_for([0, 1, 0, 0, 0, 0, 0, 0]);
    let mut readings = Vec::new(alloc);
    look(rt, &mut client, &mut readings);
    order(rt, &mut client, Order::Join, Reply::Joined);
    order(rt, &mut client, low, Reply::Due(1));
    block(rt, &mut client);
    signs.begun.store(true, Ordering::SeqCst);
    for _ in rt.forever() {
        let done = signs.done.load(Ordering::SeqCst);
        let place = look(rt, &mut client, &mut readings);
        if let Place::On { asked: true, .. } = place {
            signs.asked.store(true, Ordering::SeqCst);
        }
        if done {
            break;
        }
        if place == Place::Moved {
            block(rt, &mut client);
        }
    }
    (client.close(rt), readings)
}

/// The reply to a client's order, if there is one.
fn called<K: Set, R: Wait + Abort>(rt: &R, client: &mut Client<K>, order: Order) -> Option<Reply> {
    assert!(rt; client.out() == 0);
    client.call(rt, order).ok()
}

/// An order is answered so.
fn order<K: Set, R: Wait + Abort>(rt: &R, client: &mut Client<K>, order: Order, want: Reply) {
    same(rt, "reply", called(rt, client, order), Some(want));
}

/// The thread gives its core back, if it has one.
fn block<K: Set, R: Wait + Abort>(rt: &R, client: &mut Client<K>) {
    let now = called(rt, client, Order::Block);
    assert!(rt; now.is_some());
}

/// Reads the place, and notes it.
fn look<K: Set, R: Wait + Abort>(
    rt: &R,
    client: &mut Client<K>,
    readings: &mut Vec<Shown>,
) -> Place {
    let place = client.place();
    let answered = client.mine().len();
    note(rt, readings, Shown { place, answered });
    place
}

/// A client of another application wants all cores at a high level, so the thread's core is asked back; it lets the grace
/// pass, so the thread is moved; and it wants none any more. So it goes on until the thread was moved often enough.
fn move_it<K: Set, R: Wait + Abort>(rt: &R, mut client: Client<K>, signs: &Signs) -> Past {
    for _ in rt.forever() {
        if signs.begun.load(Ordering::SeqCst) {
            break;
        }
        thread::yield_now();
    }
    order(rt, &mut client, Order::Join, Reply::Joined);
    let mut clock: u64 = 0;
    let mut moves: usize = 0;
    for _ in rt.forever() {
        clock = clock.saturating_add(10_000);
        if move_once(rt, &mut client, clock) {
            moves = moves.saturating_add(1);
        }
        if moves >= MOVES && signs.asked.load(Ordering::SeqCst) {
            break;
        }
    }
    signs.done.store(true, Ordering::SeqCst);
    client.close(rt)
}

/// Asks for all cores and for none, and ticks in between. Whether the thread was moved.
fn move_once<K: Set, R: Wait + Abort>(rt: &R, client: &mut Client<K>, clock: u64) -> bool {
    order(rt, client, ask(6), Reply::Due(6));
    let reply = called(rt, client, Order::Tick(clock));
    let moved = reply == Some(Reply::Moved(1));
    assert!(rt; moved || reply == Some(Reply::Moved(0)));
    order(rt, client, ask(0), Reply::Due(0));
    moved
}

/// The places of the client's thread at the points of the journal's history, in their order. The points in the middle of
/// its own orders are left out, since it waits then and doesn't read.
fn replay(
    rt: &impl Abort,
    alloc: Global,
    topology: &Topology,
    journal: &[Entry],
    client: ClientId,
) -> Vec<Shown> {
    let mut core = Core::new(topology);
    let mut points = Vec::new(alloc);
    let mut answered: usize = 0;
    note_point(rt, topology, &core, answered, &mut points);
    for entry in journal {
        step(rt, &mut core, entry);
        let own = entry.client == client;
        for _ in 0..WORDS {
            let Some(w) = core.next_stale() else {
                break;
            };
            core.post(w);
            if !own {
                note_point(rt, topology, &core, answered, &mut points);
            }
        }
        if own {
            answered = answered.saturating_add(1);
            note_point(rt, topology, &core, answered, &mut points);
        }
    }
    points
}

/// An order that is entered is answered as the journal says.
fn step(rt: &impl Abort, core: &mut Core, entry: &Entry) {
    assert!(rt; !core.is_full());
    assert!(rt; core.next_stale().is_none());
    let reply = core.step(entry.client, &entry.order);
    same(rt, "reply", reply, entry.reply);
}

/// Notes where the thread's place word, as it is posted now, says that it is.
fn note_point(
    rt: &impl Abort,
    topology: &Topology,
    core: &Core,
    answered: usize,
    points: &mut Vec<Shown>,
) {
    let place = place_in_word(topology, core.posted(PLACE_WORD));
    assert!(rt; place.is_some());
    let place = place.unwrap();
    note(rt, points, Shown { place, answered });
}

/// Each reading is the place at some point, and each of these points stands behind that of the reading before.
fn stand_in_order(rt: &impl Abort, readings: &[Shown], points: &[Shown]) {
    let mut points = points.iter();
    for reading in readings {
        let found = points.any(|point| point == reading);
        assert!(rt; found);
    }
}
