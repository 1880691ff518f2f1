//! An arbiter with its machine.

ghost use Rattle.std.specs.Prelude.{◌≡◌, ◌<◌, ◌≤◌, ◌↔◌, IsTrue, None, Some, length, replicate, sum};
ghost use Rattle.arb_config.specs.Limits.{core_numbers};
ghost use Rattle.arb_model.specs.Arbiter.{opening_arbiter};
ghost use Rattle.arb_model.specs.Layout.{word_count};
ghost use Rattle.arb_model.specs.Limits.{clients};
ghost use Rattle.arb_model.specs.Posting.{next_stale_of};
ghost use Rattle.arb_model.specs.Words.{word_of};
ghost use Rattle.arb_c.specs.Calls.{posted_one, reply_of, stepped_one, with_room};
ghost use Rattle.arb_c.specs.Holding.{count_of, orders_of, posted_shown};

use crate::earlier::Earlier;
use crate::wire::WireCore;
use arb_config::{CORE_NUMBERS, Topology};
use arb_core::{ClientId, Core, Order, Reply};
use arrayvec::ArrayVec;
use std::marker::Model;

/// An arbiter, and the machine that it manages.
#[derive(Drop)]
pub struct Opened {
    core: Core,
    /// How many orders each client gave before the last renewal.
    earlier: Earlier,
    /// How many orders may be entered, those before renewals included.
    limit: u64,
    topology: Topology,
    /// The machine's unmanaged cores, in the order of its text. The topology keeps no sockets of theirs.
    unmanaged: ArrayVec<WireCore, CORE_NUMBERS>,
}

impl Model for Opened {
    ghost use Rattle.std.specs.Prelude.{◌≡◌, ◌+◌, ◌≤◌, sum};
    ghost use Rattle.arb_c.specs.Holding.{Holding};

    ghost Value = { Holding };

    ghost view = { λ o. record { arbiter = o.core; earlier = o.earlier; limit = o.limit; unmanaged = o.unmanaged.items } };

    ghost invariant = { λ o. (o.topology ≡ o.core.machine) × (sum o.earlier + sum o.core.standing.counts ≤ o.limit) };
}

impl Opened {
    /// The arbiter of a machine before all orders, with a limit on orders and the machine's unmanaged cores.
    pub fn new(topology: Topology, limit: u64, unmanaged: &[WireCore]) -> Opened
        requires { length unmanaged.now ≤ core_numbers }
        ensures { result ≡ record {
          arbiter = opening_arbiter topology;
          earlier = replicate clients 0;
          limit = limit;
          unmanaged = unmanaged.now;
        } }
    {
        Opened {
            core: Core::new(&topology),
            earlier: Earlier::new(),
            limit,
            topology,
            unmanaged: ArrayVec::try_from(unmanaged).unwrap(),
        }
    }

    /// The arbiter.
    pub fn core(&self) -> &Core
        ensures { result.now ≡ self.now.arbiter }
    {
        &self.core
    }

    /// The machine.
    pub fn topology(&self) -> &Topology
        ensures { result.now ≡ self.now.arbiter.machine }
    {
        &self.topology
    }

    /// The unmanaged cores.
    pub fn unmanaged(&self) -> &[WireCore]
        ensures { result.now ≡ self.now.unmanaged }
    {
        self.unmanaged.as_slice()
    }

    /// How many orders were entered, those before renewals included.
    pub fn orders(&self) -> u64
        ensures { result ≡ orders_of self.now }
    {
        // the sum is within the limit, which fits its type
        let _limit = self.limit;
        self.earlier.total() + self.core.orders()
    }

    /// How many orders of a client were entered, those before renewals included.
    pub fn count_of(&self, client: ClientId) -> u64
        ensures { result ≡ count_of self.now client }
    {
        // the sum is within the limit, which fits its type
        let _limit = self.limit;
        self.earlier.count_of(client) + u64::from(self.core.count_of(client))
    }

    /// The limit on orders, which is `u64::MAX` where the text states none.
    pub fn limit(&self) -> u64
        ensures { result ≡ self.now.limit }
    {
        self.limit
    }

    /// The value that a page word had when it was last posted; of word 0 all orders.
    pub fn posted(&self, word: usize) -> u64
        requires { word < word_count }
        ensures { result ≡ posted_shown self.now word }
    {
        if word == 0 {
            return self.orders();
        }
        self.core.posted(word)
    }

    /// Whether the limit on orders is reached.
    pub fn is_full(&self) -> bool
        ensures { IsTrue result ↔ (self.now.limit ≤ orders_of self.now) }
    {
        self.limit <= self.orders()
    }

    /// [`Core::step`], after a renewal where the arbiter takes no further order.
    pub fn step(&mut self, client: ClientId, order: &Order) -> Reply
        requires room { orders_of self.old < self.old.limit }
        requires settled { next_stale_of self.old.arbiter.standing self.old.arbiter.posted ≡ None }
        ensures reply { result ≡ reply_of self.old.arbiter client order.now }
        ensures step { self.new ≡ stepped_one (with_room self.old) client order.now }
    {
        self.make_room();
        self.enter(client, order)
    }

    /// [`Core::renew`], where the arbiter takes no further order.
    fn make_room(&mut self)
        requires { next_stale_of self.old.arbiter.standing self.old.arbiter.posted ≡ None }
        ensures made { self.new ≡ with_room self.old }
        ensures room { sum self.new.arbiter.standing.counts < self.new.arbiter.machine.orders }
        ensures same { orders_of self.new ≡ orders_of self.old }
        ensures settled { next_stale_of self.new.arbiter.standing self.new.arbiter.posted ≡ None }
    {
        if self.core.is_full() {
            self.earlier.add(&self.core);
            self.core.renew();
        }
    }

    /// [`Core::step`].
    fn enter(&mut self, client: ClientId, order: &Order) -> Reply
        requires limit { orders_of self.old < self.old.limit }
        requires room { sum self.old.arbiter.standing.counts < self.old.arbiter.machine.orders }
        requires settled { next_stale_of self.old.arbiter.standing self.old.arbiter.posted ≡ None }
        ensures reply { result ≡ reply_of self.old.arbiter client order.now }
        ensures step { self.new ≡ stepped_one self.old client order.now }
    {
        self.core.step(client, order)
    }

    /// [`Core::post`].
    pub fn post(&mut self, word: usize)
        requires { next_stale_of self.old.arbiter.standing self.old.arbiter.posted ≡ Some word }
        ensures { self.new ≡ record self.old {
          arbiter
              = posted_one self.old.arbiter word (word_of self.old.arbiter.standing word);
        } }
    {
        self.core.post(word);
    }
}
