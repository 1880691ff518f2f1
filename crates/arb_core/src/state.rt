//! The arbiter's state, and the order step on it.

ghost use Rattle.std.specs.Prelude.{◌≡◌, ◌<◌, ◌≤◌, ◌↔◌, ℕ, IsTrue, None, length, slice_index, slice_set, sum};
ghost use Rattle.arb_config.specs.Machine.{IsMachine};
ghost use Rattle.arb_model.specs.Arbiter.{opening_arbiter};
ghost use Rattle.arb_model.specs.Renewal.{renewed};
ghost use Rattle.arb_model.specs.Step.{answer_of, counted, due_now, refusal_of, rebalanced, step_of};
ghost use Rattle.arb_model.specs.Words.{seat_word};
ghost use Rattle.arb_seats.specs.NextPost.{PostsNext};
ghost use Rattle.arb_config.specs.Limits.{max_orders};
ghost use Rattle.arb_share.specs.Limits.{applications};
ghost use Rattle.arb_model.specs.Layout.{word_count};

mod parts;

use crate::order_cases;
use crate::requests::Requests;
use crate::tally::Tally;
use arb_config::Topology;
use arb_model::{APPLICATIONS, ClientId, Order, Reply};
use arb_seats::Seating;
use std::marker::Model;

/// Who asked for what and what is due, who is where, the clock, how many orders each client gave, and the words that were posted.
#[derive(Drop)]
pub struct ArbiterState {
    requests: Requests,
    /// The cores due to each application by the requests standing.
    due: [u8; APPLICATIONS],
    seats: Seating,
    clock: u64,
    /// How many orders may be entered.
    limit: u32,
    counts: Tally,
}

impl Model for ArbiterState {
    ghost use Rattle.std.specs.Prelude.{◌≡◌, length};
    ghost use Rattle.arb_share.specs.Due.{due_of};
    ghost use Rattle.arb_config.specs.Machine.{cores_of};
    ghost use Rattle.arb_model.specs.Arbiter.{Arbiter};
    ghost use Rattle.arb_model.specs.Standing.{requests_standing};

    ghost Value = { Arbiter };

    ghost view = { λ s. record {
      machine = s.seats.machine;
      standing = record {
        requests = s.requests.requests;
        caps = s.requests.caps;
        seats = s.seats.seats;
        clock = s.clock;
        counts = s.counts;
      };
      posted = s.seats.posted;
    } };

    ghost invariant = { λ s. (s.due ≡ due_of (requests_standing s.requests.requests s.requests.caps) (length (cores_of s.seats.machine)))
        × (s.limit ≡ s.seats.machine.orders) };
}

/// For each row of the table of orders, its answer.
macro_rules! answer_arms {
    (($state:ident $client:ident $order:ident) $({ $name:ident, $word:literal, [$($field:ident)?], $who:ident, $joined:ident, $change:ident })*) => {
        match $order {
            $(Order::$name $(($field))? => $state.answer_one($client, &Order::$name $((*$field))?),)*
        }
    };
}

impl ArbiterState {
    /// No application has joined, each thread is unmanaged, the clock is 0, and all words are 0.
    pub fn new(topology: &Topology) -> ArbiterState
        ensures opening { result ≡ opening_arbiter topology.now }
        ensures machine { IsMachine topology.now }
    {
        let requests = Requests::new();
        let due = requests.due(topology.managed());
        ArbiterState {
            requests,
            due,
            seats: Seating::new(topology),
            clock: 0,
            limit: topology.orders(),
            counts: Tally::new(),
        }
    }

    /// Enters an order of a client, and answers it; the order posts word 0 itself.
    pub fn step(&mut self, client: ClientId, order: &Order) -> Reply
        requires { sum self.old.standing.counts < max_orders }
        ensures step { record { reply = result; standing = self.new.standing }
            ≡ step_of self.old.machine self.old.standing client order.now }
        ensures rest { self.new ≡ record self.old {
          standing = self.new.standing;
          posted = slice_set self.old.posted 0 (sum self.new.standing.counts);
        } }
    {
        self.count(client);
        let reply = self.answer(client, order);
        self.post_count();
        reply
    }

    /// Counts orders from 0 again.
    pub fn renew(&mut self)
        ensures { self.new ≡ renewed self.old }
    {
        self.counts.clear();
        self.post_count();
    }

    /// Answers an order that was counted. Each kind of order has a copy of [`ArbiterState::answer_one`], in which nothing asks for
    /// the kind again: so a processor guesses one jump, not four.
    fn answer(&mut self, client: ClientId, order: &Order) -> Reply
        ensures answer { record { reply = result; standing = self.new.standing }
            ≡ answer_of self.old.machine self.old.standing client order.now
            (refusal_of self.old.standing client order.now) }
        ensures rest { self.new ≡ record self.old { standing = self.new.standing } }
    {
        order_cases!(answer_arms!(self client order))
    }

    /// The same of one order. It is refused, or it makes its own change. Then cores are asked back and granted, before it is
    /// replied to.
    #[inline(always)]
    fn answer_one(&mut self, client: ClientId, order: &Order) -> Reply
        ensures answer { record { reply = result; standing = self.new.standing }
            ≡ answer_of self.old.machine self.old.standing client order.now
            (refusal_of self.old.standing client order.now) }
        ensures rest { self.new ≡ record self.old { standing = self.new.standing } }
    {
        if let Some(refusal) = self.refusal(client, order) {
            return Reply::Refused(refusal);
        }
        let moved = self.change(client, order);
        self.rebalance();
        self.reply(client, order, moved)
    }

    /// Who is where on the machine, and the page words.
    pub fn seats(&self) -> &Seating
        ensures { result.now ≡ record {
          machine = self.now.machine;
          seats = self.now.standing.seats;
          posted = self.now.posted;
        } }
    {
        &self.seats
    }

    /// The latest moment, in microseconds.
    pub fn clock(&self) -> u64
        ensures { result ≡ self.now.standing.clock }
    {
        self.clock
    }

    /// What the applications ask for.
    pub fn requests(&self) -> &Requests
        ensures { result.now ≡ record { requests = self.now.standing.requests; caps = self.now.standing.caps } }
    {
        &self.requests
    }

    /// The cores due to an application.
    pub fn due(&self, app: usize) -> u8
        requires { app < applications }
        ensures { result ≡ slice_index (due_now self.now.machine self.now.standing) app }
    {
        self.due[app]
    }

    /// How many orders of a client were entered.
    pub fn count_of(&self, client: ClientId) -> u32
        ensures { result ≡ slice_index self.now.standing.counts client }
    {
        self.counts.count_of(client)
    }

    /// How many orders each client gave.
    pub fn counts(&self) -> &[u32]
        ensures { result.now ≡ self.now.standing.counts }
    {
        self.counts.counts()
    }

    /// How many orders were entered.
    pub fn entered(&self) -> u32
        ensures { result ≡ sum self.now.standing.counts }
    {
        self.counts.total()
    }

    /// Whether the limit on orders is reached.
    pub fn is_full(&self) -> bool
        ensures { IsTrue result ↔ (self.now.machine.orders ≤ sum self.now.standing.counts) }
    {
        self.limit <= self.counts.total()
    }

    /// Posts a page word but word 0.
    pub fn post(&mut self, w: usize)
        requires some { 0 < w }
        requires within { w < word_count }
        ensures { self.new ≡ record self.old {
          posted = slice_set self.old.posted w (seat_word self.old.standing.seats w);
        } }
    {
        self.seats.post(w);
    }

    /// Posts the stale page word that is to be posted next, if any is stale. Gives the word and its value.
    pub fn post_next(&mut self) -> Option<(usize, u64)>
        requires { sum self.old.standing.counts ≡ slice_index self.old.posted 0 }
        ensures rest { self.new ≡ record self.old { posted = self.new.posted } }
        ensures next { PostsNext self.old.standing self.old.posted self.new.posted result }
    {
        self.seats.post_next()
    }

    /// Posts all stale page words.
    pub fn settle(&mut self)
        ensures rest { self.new ≡ record self.old { posted = self.new.posted } }
        ensures long { length self.new.posted ≡ word_count }
        ensures counted { slice_index self.new.posted 0 ≡ slice_index self.old.posted 0 }
        ensures posted { (w : ℕ) → 0 < w → w < word_count
            → slice_index self.new.posted w ≡ seat_word self.old.standing.seats w }
    {
        self.seats.settle();
    }

    /// One order more of a client.
    fn count(&mut self, client: ClientId)
        requires { sum self.old.standing.counts < max_orders }
        ensures { self.new ≡ record self.old { standing = counted client self.old.standing } }
    {
        self.counts.count(client);
    }

    /// Posts the count of orders.
    fn post_count(&mut self)
        ensures { self.new ≡ record self.old {
          posted = slice_set self.old.posted 0 (sum self.old.standing.counts);
        } }
    {
        let total = self.counts.total() as u64;
        self.seats.post_count(total);
    }

    /// The asks and the grants that follow a change.
    fn rebalance(&mut self)
        ensures { self.new ≡ record self.old { standing = rebalanced self.old.machine self.old.standing } }
    {
        self.seats.rebalance(&self.due, self.clock);
    }
}
