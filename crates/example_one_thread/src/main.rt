//! The `example_one_thread` program: how a caller uses the arbiter on one thread.
//!
//! It reads a machine from its text, gives the arbiter orders, keeps the words that are posted on a page, and reads
//! off that page where a thread is.
#![tactic(auto)]

ghost use Rattle.std.specs.Prelude.{◌≡◌, ◌<◌, None};
ghost use Rattle.arb_core.specs.Limits.{all_threads};
ghost use Rattle.arb_core.specs.Posting.{next_stale_of};

use anyhow::{Context, Result};
use arb_config::Topology;
use arb_core::layout::{WORDS, place_in_word, place_index};
use arb_core::{ClientId, Core, Order, Place, Reply};
use arb_share::Request;

/// Two sockets, each with two managed cores and one that the ordinary scheduler keeps. Orders are counted up to 5.
const MACHINE: &str = "orders = 5

[[socket]]
managed = [1, 2]
unmanaged = [0]

[[socket]]
managed = [4, 5]
unmanaged = [3]
";

/// The page words as they were posted. In a service, threads read them while they are posted.
#[derive(Drop)]
struct Page {
    words: [u64; WORDS],
}

impl Page {
    /// A word becomes a value.
    fn post(&mut self, w: usize, value: u64) {
        if let Some(word) = self.words.get_mut(w) {
            *word = value;
        }
    }

    /// Where a thread is, as its word says.
    fn place(&self, topology: &Topology, client: ClientId) -> Option<Place>
        requires { client < all_threads }
    {
        let words = &self.words;
        place_in_word(topology, words[place_index(client)])
    }
}

/// Gives an order to the arbiter and posts what it changed. At the limit on orders it has them counted from 0 again.
fn give(core: &mut Core, page: &mut Page, client: ClientId, order: Order) -> Reply
    requires { next_stale_of core.old.standing core.old.posted ≡ None }
    ensures { next_stale_of core.new.standing core.new.posted ≡ None }
{
    if core.is_full() {
        core.renew();
    }
    let reply = core.step(client, &order);
    page.post(0, core.posted(0));
    core.post_all(&mut |w, value| page.post(w, value));
    reply
}

/// A request for so many cores at level 0, and none at the others.
fn cores(count: u8) -> Request {
    Request::at(0, count).unwrap_or_default()
}

fn main(rt: HostRuntime) -> Result<()> {
    let topology = Topology::from_text(rt.alloc(), MACHINE)?;
    let mut core = Core::new(&topology);
    let mut page = Page { words: [0; WORDS] };
    let first = ClientId::app(0, 0).context("no such thread")?;
    let second = ClientId::app(0, 1).context("no such thread")?;
    let other = ClientId::app(1, 0).context("no such thread")?;
    let orders = [
        (first, Order::Join),
        (first, Order::Ask(cores(2))),
        (first, Order::Block),
        (second, Order::Block),
        (other, Order::Join),
        (other, Order::Ask(cores(4))),
        (other, Order::Block),
        (first, Order::Ask(cores(1))),
    ];
    'orders: for (client, order) in orders {
        let reply = give(&mut core, &mut page, client, order);
        println!(rt; "{reply:?}")?;
    }
    let place = page.place(&topology, second);
    println!(rt; "the second thread: {place:?}")?;
    Ok(())
}
