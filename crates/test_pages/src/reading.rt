//! Pages that are named, entered, told and read.

ghost use Rattle.std.specs.Prelude.{◌≡◌};

use crate::caller::tour;
use arb_config::Topology;
use arb_core::layout::{FIRST_CORE, FIRST_PLACE, WORDS};
use arb_core::{Order, Place, Reply};
use arb_house::{Admission, Publisher};
use arb_page::{Blank, Pages, Reader, Set};
use std::marker::Brand;
use std::process::Abort;
use std::test::*;
use test_parts::{TWO_SOCKETS, ask, thread};

#[test]
fn the_tour_ends_on_the_first_core(rt: HostRuntime) -> Result<(), Fail> {
    let topology = Topology::from_text(rt.alloc(), TWO_SOCKETS)?;
    let first = Place::On {
        core: 1,
        asked: false,
    };
    assert_eq!(&rt; tour(rt.alloc(), &topology), Ok(Some(first)));
    Ok(())
}

#[test]
fn readers_read_what_they_were_told(rt: HostRuntime) -> Result<(), Fail> {
    let topology = Topology::from_text(rt.alloc(), TWO_SOCKETS)?;
    let blank = Pages::open(rt.alloc(), &topology).ok().ok_or("memory")?;
    reads::<Brand, _>(&rt, &topology, blank);
    Ok(())
}

/// The words of the numbers have these values.
fn words_are<K: Set>(
    rt: &impl Abort,
    pages: &Pages<K>,
    reader: &mut Reader<K>,
    words: &[(usize, u64)],
) {
    for (w, value) in words {
        assert!(rt; *w < WORDS);
        assert_eq!(rt; reader.read(pages, *w), *value, "word {w}");
    }
}

fn reads<K: Set, R: Abort>(rt: &R, topology: &Topology, blank: Blank)
    requires name { (blank.table ≡ K.table) × (blank.machine ≡ K.machine) }
    requires topology { blank.machine ≡ topology.now }
{
    let (pages, mut writer) = blank.name::<K>();
    let mut reader = writer.tell(&pages).into_reader();
    let mut other = writer.tell(&pages).into_reader();
    for w in 0..WORDS {
        assert_eq!(rt; reader.read(&pages, w), 0);
    }

    // an order is told, and told on by the reader
    let mut publisher = Publisher::new(topology, writer);
    let client = thread(0, 0);
    match publisher.publish(&pages, client, &Order::Join) {
        Admission::Entered(entry, place) => {
            assert_eq!(rt; (entry.reply, place), (Reply::Joined, 0));
        }
        Admission::Full(..) => panic!(rt; "the limit is 1,000,000"),
    }
    reader.learn(&pages, publisher.tell(&pages));
    words_are(rt, &pages, &mut reader, &[(0, 1), (FIRST_PLACE, 0)]);
    let mut third = reader.tell(&pages).into_reader();
    words_are(rt, &pages, &mut third, &[(0, 1)]);

    // four orders, the cores at positions 0 and 1, and none of them asked back
    publisher.publish(&pages, client, &ask(2));
    publisher.publish(&pages, client, &Order::Block);
    publisher.publish(&pages, thread(0, 1), &Order::Block);
    reader.learn(&pages, publisher.tell(&pages));
    let placed = [
        (0, 4),
        (FIRST_PLACE, FIRST_CORE),
        (FIRST_PLACE + 1, FIRST_CORE + 2),
        (1, 0),
    ];
    words_are(rt, &pages, &mut reader, &placed);

    // the core at position 1 is asked back
    publisher.publish(&pages, client, &ask(1));
    reader.learn(&pages, publisher.tell(&pages));
    let asked_back = [(FIRST_PLACE + 1, FIRST_CORE + 3), (1, 2)];
    words_are(rt, &pages, &mut reader, &asked_back);

    // a reader learns from a reader; the writer learns from it nothing new, and goes on
    other.learn(&pages, reader.tell(&pages));
    words_are(rt, &pages, &mut other, &[(0, 5)]);
    publisher.learn(&pages, other.tell(&pages));
    publisher.publish(&pages, client, &Order::Leave);
    reader.learn(&pages, publisher.tell(&pages));
    words_are(rt, &pages, &mut reader, &[(0, 6)]);
}
