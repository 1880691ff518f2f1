//! A publisher: the arbiter with the writer of its page words.

ghost use Rattle.std.specs.Prelude.{◌≡◌, ◌<◌, ◌++◌, ◌∷◌, [], IsFalse, IsTrue, sum};
ghost use mathlib.Core.List.{IsPrefix};
ghost use Rattle.arb_config.specs.Machine.{IsMachine};
ghost use Rattle.arb_model.specs.declared.orders.Event.TheVariants.{Entered};
ghost use Rattle.arb_model.specs.History.{IsLegal, IsSettled, orders_in, settled_from};
ghost use Rattle.arb_house.specs.Recording.{Admits, StandsAt, entry_of};

use arb_config::Topology;
use arb_core::Core;
use arb_desk::Admission;
use arb_model::{ClientId, Entry, Order};
use arb_page::{Note, Pages, Set, Writer};
use std::marker::Model;

/// An arbiter, and the writer of its page words. It takes orders, and publishes each with the posts that follow.
///
/// Contracts see it as the history so far, after which no word is stale.
#[derive(Drop)]
pub struct Publisher<K: Set> {
    core: Core,
    writer: Writer<K>,
}

impl<K: Set> Model for Publisher<K> {
    ghost use Rattle.arb_config.specs.Machine.{IsMachine};
    ghost use Rattle.arb_model.specs.History.{History, IsSettled};
    ghost use Rattle.arb_house.specs.Recording.{StandsAt};

    ghost Value = { History };

    ghost view = { λ p. p.writer.seen };

    ghost invariant = { λ p. StandsAt K.machine p.writer.seen p.core × IsSettled K.machine p.writer.seen × IsMachine K.machine };
}

impl<K: Set> Publisher<K> {
    /// The arbiter of the pages' machine, before all orders.
    pub fn new(topology: &Topology, writer: Writer<K>) -> Publisher<K>
        requires topology { topology.now ≡ K.machine }
        requires writer { writer.seen ≡ [] }
        ensures { result ≡ [] }
    {
        Publisher {
            core: Core::new(topology),
            writer,
        }
    }

    /// Whether the limit on orders is reached.
    pub fn is_full(&self) -> bool
        ensures full { IsTrue result → orders_in self.now ≡ K.machine.orders }
        ensures room { IsFalse result → orders_in self.now < K.machine.orders }
    {
        self.core.is_full()
    }

    /// Enters an order and posts all words that it leaves stale; or, where the limit on orders is reached, does nothing.
    pub fn publish(&mut self, pages: &Pages<K>, client: ClientId, order: &Order) -> Admission
        ensures admits { Admits K.machine self.old client order.now result self.new }
        ensures later { IsPrefix self.old self.new }
        ensures legal { IsLegal K.machine self.new }
        ensures settled { IsSettled K.machine self.new }
        ensures machine { IsMachine K.machine }
    {
        let place = self.core.orders();
        if self.core.is_full() {
            // a client's number is one of the arbiter's
            let _within = client.index();
            return Admission::Full(client, self.core.count_of(client));
        }
        let entry = enter(&mut self.core, &mut self.writer, pages, client, order);
        post_all(&mut self.core, &mut self.writer, pages);
        Admission::Entered(entry, place)
    }

    /// A note of the history so far.
    pub fn tell(&mut self, pages: &Pages<K>) -> Note<K>
        ensures note { result ≡ self.old }
        ensures same { self.new ≡ self.old }
    {
        self.writer.tell(pages)
    }

    /// Takes a note back: nobody had seen more than the writer.
    pub fn learn(&mut self, pages: &Pages<K>, note: Note<K>)
        ensures told { IsPrefix note self.new }
        ensures same { self.new ≡ self.old }
    {
        self.writer.learn(pages, note);
    }

    /// The arbiter and the writer.
    pub fn into_parts(self) -> (Core, Writer<K>)
        ensures seen { result.1.seen ≡ self }
        ensures stands { StandsAt K.machine self result.0 }
        ensures settled { IsSettled K.machine self }
    {
        (self.core, self.writer)
    }
}

/// Enters an order into the arbiter, and then into the history, with its reply.
fn enter<K: Set>(
    core: &mut Core,
    writer: &mut Writer<K>,
    pages: &Pages<K>,
    client: ClientId,
    order: &Order,
) -> Entry
    requires stands { StandsAt K.machine writer.old.seen core.old }
    requires settled { IsSettled K.machine writer.old.seen }
    requires room { sum core.old.standing.counts < core.old.machine.orders }
    ensures stands { StandsAt K.machine writer.new.seen core.new }
    ensures entry { result ≡ entry_of K.machine writer.old.seen client order.now }
    ensures seen { writer.new.seen ≡ writer.old.seen ++ Entered result ∷ [] }
{
    let number = core.count_of(client);
    let reply = core.step(client, order);
    writer.enter(pages, client, order, &reply);
    Entry {
        client,
        number,
        order: *order,
        reply,
    }
}

/// Posts the stale words one after another, each in the arbiter and then on the pages, until none is stale.
fn post_all<K: Set>(core: &mut Core, writer: &mut Writer<K>, pages: &Pages<K>)
    requires { StandsAt K.machine writer.old.seen core.old }
    ensures stands { StandsAt K.machine writer.new.seen core.new }
    ensures settled { IsSettled K.machine writer.new.seen }
    ensures seen { writer.new.seen ≡ settled_from K.machine writer.old.seen }
{
    while let Some(w) = core.next_stale() {
        let value = core.word(w);
        core.post(w);
        writer.post(pages, w, value);
    }
}
