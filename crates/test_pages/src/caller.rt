//! The shortest whole caller: page words are opened, named, stored and read.

ghost use Rattle.std.specs.Prelude.{◌≡◌};

use arb_config::Topology;
use arb_core::layout::{place_in_word, place_index};
use arb_core::{ClientId, Order, Place};
use arb_house::Publisher;
use arb_page::{Blank, Memory, Pages, Set};
use arb_share::Request;
use std::alloc::Global;
use std::marker::Brand;

/// One thread joins, asks for a core and blocks. Then it reads off its page word where it is.
///
/// # Errors
/// [`Memory`] where an allocation failed.
pub fn tour(alloc: Global, topology: &Topology) -> Result<Option<Place>, Memory> {
    let blank = Pages::open(alloc, topology)?;
    Ok(named::<Brand>(topology, blank))
}

/// The tour on pages that `K` names. At [`Brand`] the proof picks what `K` names: the blank that is handed in.
fn named<K: Set>(topology: &Topology, blank: Blank) -> Option<Place>
    requires name { (blank.table ≡ K.table) × (blank.machine ≡ K.machine) }
    requires topology { blank.machine ≡ topology.now }
{
    let (pages, mut writer) = blank.name::<K>();
    let mut reader = writer.tell(&pages).into_reader();

    // the arbiter's side: each order and each post is one store
    let thread = ClientId::app(0, 0)?;
    let request = Request::at(0, 1)?;
    let mut publisher = Publisher::new(topology, writer);
    for order in [Order::Join, Order::Ask(request), Order::Block] {
        publisher.publish(&pages, thread, &order);
    }
    let note = publisher.tell(&pages);

    // the thread's side: what it was told it has seen, and it reads by one load
    reader.learn(&pages, note);
    let word = reader.read(&pages, place_index(thread));
    place_in_word(topology, word)
}
