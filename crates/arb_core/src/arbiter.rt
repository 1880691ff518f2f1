//! The arbiter on one thread.

ghost use Rattle.std.specs.Prelude.{◌≡◌, ℕ, ◌+◌, ◌<◌, ◌≤◌, ◌↔◌, IfSome, IsTrue, None, Some, fold, option_map, slice_index, slice_set, sum};
ghost use Rattle.std.specs.List.{FoldsTo};
ghost use Rattle.arb_share.specs.Limits.{applications};
ghost use Rattle.arb_model.specs.Arbiter.{IsArbiter, opening_arbiter, state_of};
ghost use Rattle.arb_model.specs.Owners.{ChangesOwners, IsOwner, KeepsUnasked};
ghost use Rattle.arb_model.specs.Renewal.{renewed};
ghost use Rattle.arb_model.specs.History.{MayEnter, NamesNoCoreTwice, state_next};
ghost use Rattle.arb_model.specs.Posting.{OnPost, next_stale_of, posts_of, stale_count};
ghost use Rattle.arb_model.specs.Step.{due_now, place_of, step_of};
ghost use Rattle.arb_model.specs.Words.{word_of};
ghost use Rattle.arb_model.specs.Limits.{all_threads};
ghost use Rattle.arb_model.specs.Standing.{asked_count, cap_of, cut_at, owned, request_of, the_clock, waiting_count};
ghost use Rattle.arb_model.specs.Layout.{word_count};
ghost use Rattle.arb_seats.specs.NextPost.{PostsNext};

use crate::state::ArbiterState;
use arb_config::Topology;
use arb_model::{ClientId, Order, Place, Reply};
use arb_share::Request;
use std::marker::Model;

/// The arbiter of a machine: it takes one order after another, and answers each.
///
/// It takes no memory beyond itself.
#[derive(Drop)]
pub struct Core {
    state: ArbiterState,
}

impl Model for Core {
    ghost use Rattle.arb_model.specs.Arbiter.{Arbiter, IsArbiter};

    ghost Value = { Arbiter };

    ghost view = { λ c. c.state };

    ghost invariant = { λ c. IsArbiter c.state };
}

impl Core {
    /// The arbiter of a machine before all orders: nobody has joined, the clock is 0, and all words are 0.
    /// So no word is stale.
    pub fn new(topology: &Topology) -> Core
        ensures opening { result ≡ opening_arbiter topology.now }
        ensures settled { next_stale_of result.standing result.posted ≡ None }
        ensures arbiter { IsArbiter result }
    {
        Core {
            state: ArbiterState::new(topology),
        }
    }

    /// Enters an order of a client, and answers it. May be called only while [`Core::is_full`] is false and
    /// [`Core::next_stale`] is `None`.
    ///
    /// An order that is refused changes nothing but the counts of orders. The order posts word 0 itself.
    pub fn step(&mut self, client: ClientId, order: &Order) -> Reply
        requires room { sum self.old.standing.counts < self.old.machine.orders }
        requires settled { next_stale_of self.old.standing self.old.posted ≡ None }
        ensures step { record { reply = result; standing = self.new.standing }
            ≡ step_of self.old.machine self.old.standing client order.now }
        ensures machine { self.new.machine ≡ self.old.machine }
        ensures arbiter { IsArbiter self.new }

        // a history may go on with the entry
        ensures enters { MayEnter self.old.machine (state_of self.old) (record {
          client = client;
          number = slice_index self.old.standing.counts client;
          order = order.now;
          reply = result;
        }) }
        ensures posted { self.new.posted ≡ slice_set self.old.posted 0 (word_of self.new.standing 0) }

        // a core keeps its owner
        ensures owners { ChangesOwners self.old.machine self.old.standing client order.now
            self.new.standing.seats }
        ensures unasked { KeepsUnasked client order.now self.old.standing.seats self.new.standing.seats }
    {
        // these two say that client and order are in range, as an entry of a history must be
        let _number = client.index();
        order.in_range();
        self.state.step(client, order)
    }

    /// Counts orders from 0 again: those of each client, and those of all clients, which word 0 posts. All else stays: requests,
    /// caps, threads on cores with their asking moments, the waiting threads in their order, moved threads and the clock. So
    /// each later order is answered as it would have been. May be called only while [`Core::next_stale`] is `None`, and no
    /// word is stale afterwards. Renewed each time that [`Core::is_full`] is true, an arbiter takes orders without end.
    pub fn renew(&mut self)
        requires settled { next_stale_of self.old.standing self.old.posted ≡ None }
        ensures renewed { self.new ≡ renewed self.old }
        ensures room { sum self.new.standing.counts < self.new.machine.orders }
        ensures settled { next_stale_of self.new.standing self.new.posted ≡ None }
        ensures arbiter { IsArbiter self.new }
    {
        self.state.renew();
    }

    /// The value that the standing has of a page word, which is below `layout::WORDS`.
    pub fn word(&self, w: usize) -> u64
        requires { w < word_count }
        ensures { result ≡ word_of self.now.standing w }
    {
        self.state.seats().words().word(w)
    }

    /// The value that a page word had when it was last posted; the word is below `layout::WORDS`.
    ///
    /// No two posted place words ever name one core, neither between two posts nor after the last.
    pub fn posted(&self, w: usize) -> u64
        requires { w < word_count }
        ensures value { result ≡ slice_index self.now.posted w }
        ensures apart { NamesNoCoreTwice self.now.posted }
    {
        self.state.seats().words().posted(w)
    }

    /// The number of the word that is to be posted next, or `None` where no word is stale. It is the first stale place word
    /// whose posted value names a core, or where there is none the first stale word.
    pub fn next_stale(&self) -> Option<usize>
        ensures next { result ≡ next_stale_of self.now.standing self.now.posted }
        ensures within { IfSome result (λ w. (0 < w) × (w < word_count)) }
        ensures arbiter { IsArbiter self.now }
        ensures up_to_date { result ≡ None
            → (w : ℕ) → w < word_count → slice_index self.now.posted w ≡ word_of self.now.standing w }
    {
        self.state.seats().words().next_stale()
    }

    /// Posts a word, which must be the one that [`Core::next_stale`] gives: its posted value becomes the
    /// standing's, and one word less is stale.
    pub fn post(&mut self, w: usize)
        requires { next_stale_of self.old.standing self.old.posted ≡ Some w }
        ensures posted { self.new
            ≡ record self.old { posted = slice_set self.old.posted w (word_of self.old.standing w) } }
        ensures one_less { stale_count self.new.standing self.new.posted + 1
            ≡ stale_count self.old.standing self.old.posted }
        ensures arbiter { IsArbiter self.new }
    {
        self.state.post(w);
    }

    /// Posts all stale words, one after another as [`Core::next_stale`] gives them. Right after each post it hands the word
    /// and its value to `each`. `each` has to be callable with any word and value: what it needs of them it tests itself.
    ///
    /// ```
    /// let reply = core.step(client, &Order::Block);
    /// core.post_all(&mut |w, value| page.post(w, value));
    /// ```
    pub fn post_all<F: FnMut(usize, u64)>(&mut self, each: &mut F)
        requires { F.IsAlwaysCallable each.old }
        ensures rest { self.new ≡ record self.old { posted = self.new.posted } }
        ensures settled { next_stale_of self.new.standing self.new.posted ≡ None }
        ensures up_to_date { (w : ℕ) → w < word_count → slice_index self.new.posted w ≡ word_of self.new.standing w }
        ensures arbiter { IsArbiter self.new }

        // exactly the posts that follow, each once and in their order
        ensures handed { FoldsTo (λ before post after. OnPost (λ w value. F.step before w value tt after) post)
            each.old (posts_of self.old.standing self.old.posted) each.new }
    {
        while let Some((w, value)) = self.post_next() {
            each(w, value);
        }
    }

    /// Posts the word that is to be posted next, if any is stale. Gives the word and its value.
    fn post_next(&mut self) -> Option<(usize, u64)>
        ensures rest { self.new ≡ record self.old { posted = self.new.posted } }
        ensures next { PostsNext self.old.standing self.old.posted self.new.posted result }
        ensures within { IfSome result (λ post. post.0 < word_count) }
        ensures one_less { IfSome result (λ _. stale_count self.new.standing self.new.posted + 1
            ≡ stale_count self.old.standing self.old.posted) }
        ensures up_to_date { result ≡ None
            → (w : ℕ) → w < word_count → slice_index self.new.posted w ≡ word_of self.new.standing w }
        ensures arbiter { IsArbiter self.new }
    {
        self.state.post_next()
    }

    /// Posts all stale words at once, for a caller whose words nobody reads. It leads where [`Core::post_all`] does, and
    /// hands on nothing.
    ///
    /// ```
    /// let reply = core.step(client, &Order::Block);
    /// core.settle();
    /// ```
    pub fn settle(&mut self)
        ensures rest { self.new ≡ record self.old { posted = self.new.posted } }
        ensures settled { next_stale_of self.new.standing self.new.posted ≡ None }
        ensures up_to_date { (w : ℕ) → w < word_count → slice_index self.new.posted w ≡ word_of self.new.standing w }
        ensures arbiter { IsArbiter self.new }

        // as after the posts that follow, one after another
        ensures posts { state_of self.new
            ≡ fold (state_next self.old.machine) (state_of self.old) (posts_of self.old.standing self.old.posted) }
    {
        self.state.settle();
    }

    /// Whether the limit on orders is reached.
    pub fn is_full(&self) -> bool
        ensures { IsTrue result ↔ (self.now.machine.orders ≤ sum self.now.standing.counts) }
    {
        self.state.is_full()
    }

    /// How many orders were entered since the last renewal, refused ones included: never more than the limit.
    pub fn orders(&self) -> u64
        ensures total { result ≡ sum self.now.standing.counts }
        ensures arbiter { IsArbiter self.now }
    {
        self.state.entered() as u64
    }

    /// How many orders of a client were entered since the last renewal, refused ones included.
    pub fn count_of(&self, client: ClientId) -> u32
        ensures { result ≡ slice_index self.now.standing.counts client }
    {
        self.state.count_of(client)
    }

    /// How many orders of each client were entered since the last renewal, refused ones included, by [`ClientId::index`].
    pub fn counts(&self) -> &[u32]
        ensures { result.now ≡ self.now.standing.counts }
    {
        self.state.counts()
    }

    /// The latest moment, in microseconds.
    pub fn clock(&self) -> u64
        ensures { result ≡ self.now.standing.clock }
    {
        self.state.clock()
    }

    /// Where a thread is; the clock counts as unmanaged.
    pub fn place(&self, client: ClientId) -> Place
        ensures thread { client < all_threads → result
            ≡ place_of self.now.machine self.now.standing.seats client }
        ensures clock { client ≡ the_clock → result ≡ Place.Unmanaged }
    {
        if client.is_clock() {
            return Place::Unmanaged;
        }
        self.state.seats().place_of(client.index() as u16)
    }

    /// The thread that is on the core of a number, or `None` where the core is free or not managed.
    pub fn owner(&self, core: u16) -> Option<ClientId>
        ensures { (thread : ℕ) → (result ≡ Some thread)
            ↔ IsOwner self.now.machine self.now.standing.seats core thread }
    {
        let cores = self.state.seats().cores();
        let position = cores.topology().position_of(core)?;
        let holder = cores.holder(position as usize)?;
        Some(ClientId::of_thread(holder.thread))
    }

    /// What an application, 0 to 15, asks for, as far as it counts: its request, cut at its cap where it has one. `None`
    /// where it hasn't joined.
    pub fn request(&self, app: u8) -> Option<Request>
        requires { app < applications }
        ensures { result ≡ option_map (cut_at (cap_of self.now.standing app)) (request_of self.now.standing app) }
    {
        self.state.requests().standing(app as usize)
    }

    /// How many cores are due to an application, 0 to 15.
    pub fn due(&self, app: u8) -> u8
        requires { app < applications }
        ensures { result ≡ slice_index (due_now self.now.machine self.now.standing) app }
    {
        self.state.due(app as usize)
    }

    /// How many cores an application, 0 to 15, owns, asked ones included.
    pub fn owned(&self, app: u8) -> u8
        requires { app < applications }
        ensures { result ≡ owned app self.now.standing.seats.cores }
    {
        self.state.seats().cores().owned(u16::from(app))
    }

    /// How many cores are asked back of an application, 0 to 15.
    pub fn asked(&self, app: u8) -> u8
        requires { app < applications }
        ensures { result ≡ asked_count app self.now.standing.seats.cores }
    {
        self.state.seats().cores().asked_count(u16::from(app))
    }

    /// How many threads of an application, 0 to 15, wait for a core.
    pub fn waiting(&self, app: u8) -> u8
        requires { app < applications }
        ensures { result ≡ waiting_count app self.now.standing.seats.waiting }
    {
        self.state.seats().waiting().count_of(u16::from(app))
    }
}
