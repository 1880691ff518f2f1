//! A writer and a reader, each on a thread of its own.

ghost use Rattle.std.specs.Prelude.{◌≡◌};

use arb_config::Topology;
use arb_core::Order;
use arb_house::Publisher;
use arb_page::{Blank, Note, Pages, Reader, Set};
use crossbeam_channel::{Receiver, Sender, bounded};
use std::alloc::Global;
use std::marker::Brand;
use std::process::Abort;
use std::sync::Wait;
use std::test::*;
use std::thread::{Threads, join};
use test_parts::{TWO_SOCKETS, ask, thread};

/// How many notes are sent.
const NOTES: u64 = 200;

#[test]
fn notes_go_from_thread_to_thread(rt: HostRuntime) -> Result<(), Fail> {
    let topology = Topology::from_text(rt.alloc(), TWO_SOCKETS)?;
    let blank = Pages::open(rt.alloc(), &topology).ok().ok_or("memory")?;
    let last = on_two_threads::<Brand, _>(&rt, rt.alloc(), &topology, blank)?;
    assert_eq!(&rt; last, 3 + 2 * NOTES);
    Ok(())
}

fn on_two_threads<K: Set + Send + Sync, R: Threads + Wait + Abort + Sync>(
    rt: &R,
    alloc: Global,
    topology: &Topology,
    blank: Blank,
) -> Result<u64, Fail>
    requires name { (blank.table ≡ K.table) × (blank.machine ≡ K.machine) }
    requires topology { blank.machine ≡ topology.now }
{
    let (to, from) = bounded(alloc, 4)?;
    let (pages, mut writer) = blank.name::<K>();
    let reader = writer.tell(&pages).into_reader();
    let publisher = Publisher::new(topology, writer);
    let shared = &pages;
    let (_, last) = join(
        rt,
        move || publish(rt, shared, publisher, to),
        move || watch(rt, shared, reader, from),
    );
    Ok(last)
}

/// Places a thread on a core, and then asks the core back and leaves it again and again, with a note after each round.
fn publish<K: Set, R: Wait + Abort>(
    rt: &R,
    pages: &Pages<K>,
    mut publisher: Publisher<K>,
    to: Sender<Note<K>>,
) {
    let client = thread(0, 0);
    for order in [Order::Join, ask(1), Order::Block] {
        publisher.publish(pages, client, &order);
    }
    for _ in 0..NOTES {
        publisher.publish(pages, client, &ask(0));
        publisher.publish(pages, client, &ask(1));
        let note = publisher.tell(pages);
        let sent = to.send(rt, note);
        assert!(rt; sent.is_ok());
    }
}

/// Learns each note, and reads at least as many orders as were entered before it was told, and never fewer than before;
/// the thread is on its core.
fn watch<K: Set, R: Wait + Abort>(
    rt: &R,
    pages: &Pages<K>,
    mut reader: Reader<K>,
    from: Receiver<Note<K>>,
) -> u64 {
    let mut last = 0;
    let mut entered = 3u64;
    for note in from.iter(rt) {
        reader.learn(pages, note);
        entered = entered.saturating_add(2);
        let orders = reader.read(pages, 0);
        assert!(rt; last <= orders && entered <= orders);
        let place = reader.read(pages, 33);
        assert!(rt; place == 4 || place == 5);
        last = orders;
    }
    last
}
