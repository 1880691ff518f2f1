//! The parts of the order step: when an order is refused, what it changes by itself, and what it is replied.

ghost use Rattle.std.specs.Prelude.{◌≡◌, ◌<◌, ◌==◌, Some, None, count_by, is_some, length, slice_index, true};
ghost use Rattle.arb_share.specs.Due.{due_of};
ghost use Rattle.arb_config.specs.Machine.{cores_of};
ghost use Rattle.arb_model.specs.Standing.{app_of, has_joined, holds, is_waiting, requests_standing};
ghost use Rattle.arb_model.specs.Changes.{is_overdue, overdue_moved, own_change};
ghost use Rattle.arb_model.specs.Step.{due_now, moved_by, needs_joined, needs_thread, own_refusal, refusal_of, reply_by};
ghost use Rattle.arb_model.specs.declared.orders.Order.TheVariants.{Join, Ask, Cap, Block, Retire, Leave, Status, Tick};
ghost use Rattle.arb_model.specs.Limits.{all_threads};

use crate::order_cases;
use crate::requests::{MAX_CAP, Requests};
use crate::state::ArbiterState;
use arb_model::{APPLICATIONS, ClientId, Order, Refusal, Reply, THREADS};
use arb_seats::{Seating, application_of};
use arb_share::Request;

/// A pattern for what an order carries, where that isn't looked at.
macro_rules! ignored {
    ($field:ident) => {
        _
    };
}

/// Whether a row of the table of orders has a need.
macro_rules! is_needed {
    (needs_nothing) => {
        false
    };
    ($need:ident) => {
        true
    };
}

/// For each row of the table of orders, whether the order is for threads alone.
macro_rules! thread_arms {
    (($order:ident) $({ $name:ident, $word:literal, [$($field:ident)?], $who:ident, $joined:ident, $change:ident })*) => {
        match $order {
            $(Order::$name $((ignored!($field)))? => is_needed!($who),)*
        }
    };
}

/// For each row of the table of orders, whether the order needs an application that has joined.
macro_rules! joined_arms {
    (($order:ident) $({ $name:ident, $word:literal, [$($field:ident)?], $who:ident, $joined:ident, $change:ident })*) => {
        match $order {
            $(Order::$name $((ignored!($field)))? => is_needed!($joined),)*
        }
    };
}

/// For each row of the table of orders, the order's own change.
macro_rules! change_arms {
    (($state:ident $client:ident $order:ident) $({ $name:ident, $word:literal, [$($field:ident)?], $who:ident, $joined:ident, $change:ident })*) => {
        match $order {
            $(Order::$name $(($field))? => $state.$change($client $(, *$field)?),)*
        }
    };
}

/// Whether an order is for threads alone.
#[inline(always)]
fn needs_thread(order: &Order) -> bool
    ensures { result ≡ needs_thread order.now }
{
    order_cases!(thread_arms!(order))
}

/// Whether an order needs an application that has joined.
#[inline(always)]
fn needs_joined(order: &Order) -> bool
    ensures { result ≡ needs_joined order.now }
{
    order_cases!(joined_arms!(order))
}

impl ArbiterState {
    /// Why an order is refused, if it is: it isn't for the clock, the application has not joined, or the order's own
    /// refusal applies.
    #[inline(always)]
    pub(super) fn refusal(&self, client: ClientId, order: &Order) -> Option<Refusal>
        ensures { result ≡ refusal_of self.now.standing client order.now }
    {
        if needs_thread(order) && client.is_clock() {
            return Some(Refusal::NotAThread);
        }
        if needs_joined(order) && !self.has_joined(client) {
            return Some(Refusal::NotJoined);
        }
        self.own_refusal(client, order)
    }

    /// The refusal of an order's own.
    #[inline(always)]
    fn own_refusal(&self, client: ClientId, order: &Order) -> Option<Refusal>
        requires thread { needs_thread order.now ≡ true → client < all_threads }
        ensures { result ≡ own_refusal self.now.standing client order.now }
    {
        match order {
            Order::Join if self.has_joined(client) => Some(Refusal::AlreadyJoined),
            Order::Cap(cap) if *cap > MAX_CAP => Some(Refusal::CapTooLarge),
            Order::Block if self.is_waiting(client) => Some(Refusal::AlreadyWaiting),
            Order::Tick(moment) if *moment < self.clock => Some(Refusal::ClockBack(self.clock)),
            _ => None,
        }
    }

    /// Makes what an order changes by itself, and says how many threads were moved.
    #[inline(always)]
    pub(super) fn change(&mut self, client: ClientId, order: &Order) -> u8
        requires thread { needs_thread order.now ≡ true → client < all_threads }
        ensures change { self.new ≡ record self.old {
          standing = own_change self.old.machine self.old.standing client order.now;
        } }
        ensures moved { result ≡ moved_by self.old.machine self.old.standing order.now }
    {
        order_cases!(change_arms!(self client order))
    }

    /// The reply to an order that isn't refused, once all is settled; `moved` threads were moved by it.
    #[inline(always)]
    pub(super) fn reply(&self, client: ClientId, order: &Order, moved: u8) -> Reply
        requires thread { needs_thread order.now ≡ true → client < all_threads }
        ensures { result ≡ reply_by self.now.machine self.now.standing client moved order.now }
    {
        match order {
            Order::Join => Reply::Joined,
            Order::Ask(_) | Order::Cap(_) => Reply::Due(self.due_of(client)),
            Order::Block => Reply::Now(self.seats.place_of(client.index() as u16)),
            Order::Retire | Order::Leave => Reply::Done,
            Order::Status => self.counts_reply(client),
            Order::Tick(_) => Reply::Moved(moved),
        }
    }
}

/// The cores due to each application by the requests standing.
fn due_by(requests: &Requests, seats: &Seating) -> [u8; APPLICATIONS]
    ensures { result
        ≡ due_of (requests_standing requests.now.requests requests.now.caps) (length (cores_of seats.now.machine)) }
{
    requests.due(seats.cores().topology().managed())
}

/// The own changes. Each says how many threads it moved: a tick alone moves any.
impl ArbiterState {
    fn join(&mut self, client: ClientId) -> u8
        requires { client < all_threads }
        ensures change { self.new ≡ record self.old {
          standing = own_change self.old.machine self.old.standing client Join;
        } }
        ensures moved { result ≡ 0 }
    {
        self.requests.join(client.index() / THREADS);
        self.due = due_by(&self.requests, &self.seats);
        0
    }

    fn ask(&mut self, client: ClientId, request: Request) -> u8
        requires { client < all_threads }
        ensures change { self.new ≡ record self.old {
          standing = own_change self.old.machine self.old.standing client (Ask request);
        } }
        ensures moved { result ≡ 0 }
    {
        self.requests.ask(client.index() / THREADS, request);
        self.due = due_by(&self.requests, &self.seats);
        0
    }

    fn cap(&mut self, client: ClientId, cap: u8) -> u8
        requires { client < all_threads }
        ensures change { self.new ≡ record self.old {
          standing = own_change self.old.machine self.old.standing client (Cap cap);
        } }
        ensures moved { result ≡ 0 }
    {
        self.requests.cap(client.index() / THREADS, cap);
        self.due = due_by(&self.requests, &self.seats);
        0
    }

    fn block(&mut self, client: ClientId) -> u8
        requires { client < all_threads }
        ensures change { self.new ≡ record self.old {
          standing = own_change self.old.machine self.old.standing client Block;
        } }
        ensures moved { result ≡ 0 }
    {
        let thread = client.index() as u16;
        self.seats.block(thread);
        0
    }

    fn retire(&mut self, client: ClientId) -> u8
        requires { client < all_threads }
        ensures change { self.new ≡ record self.old {
          standing = own_change self.old.machine self.old.standing client Retire;
        } }
        ensures moved { result ≡ 0 }
    {
        let thread = client.index() as u16;
        self.seats.unplace(thread);
        0
    }

    fn leave(&mut self, client: ClientId) -> u8
        requires { client < all_threads }
        ensures change { self.new ≡ record self.old {
          standing = own_change self.old.machine self.old.standing client Leave;
        } }
        ensures moved { result ≡ 0 }
    {
        let app = application_of(client.index() as u16);
        self.seats.unplace_application(app);
        self.requests.leave(client.index() / THREADS);
        self.due = due_by(&self.requests, &self.seats);
        0
    }

    fn status(&mut self, _client: ClientId) -> u8
        ensures change { self.new ≡ self.old }
        ensures moved { result ≡ 0 }
    {
        0
    }

    fn tick(&mut self, _client: ClientId, moment: u64) -> u8
        ensures change { self.new ≡ record self.old {
          standing = record self.old.standing {
            clock = moment;
            seats = overdue_moved self.old.machine.grace moment self.old.standing.seats;
          };
        } }
        ensures moved { result
            ≡ count_by (holds (is_overdue self.old.machine.grace moment)) self.old.standing.seats.cores }
    {
        self.clock = moment;
        self.seats.move_overdue(moment)
    }
}

/// What the refusals and the replies ask.
impl ArbiterState {
    /// Whether the client's application has joined.
    fn has_joined(&self, client: ClientId) -> bool
        requires { client < all_threads }
        ensures { result ≡ has_joined self.now.standing client }
    {
        self.requests.has_joined(client.index() / THREADS)
    }

    /// Whether a thread waits.
    fn is_waiting(&self, client: ClientId) -> bool
        requires { client < all_threads }
        ensures { result ≡ is_waiting self.now.standing.seats client }
    {
        self.seats.is_waiting(client.index() as u16)
    }

    /// The cores due to the client's application.
    fn due_of(&self, client: ClientId) -> u8
        requires { client < all_threads }
        ensures { result ≡ slice_index (due_now self.now.machine self.now.standing) (app_of client) }
    {
        self.due(client.index() / THREADS)
    }

    /// What the client's application has.
    fn counts_reply(&self, client: ClientId) -> Reply
        requires { client < all_threads }
        ensures { result ≡ reply_by self.now.machine self.now.standing client 0 Status }
    {
        let app = application_of(client.index() as u16);
        Reply::Counts {
            due: self.due_of(client),
            owned: self.seats.cores().owned(app),
            asked: self.seats.cores().asked_count(app),
            waiting: self.seats.waiting().count_of(app),
        }
    }
}
