//! The rule of the queue, what a pass knows, and what each step tells.

use crate::message::Message;
use crossbeam_queue::protocol::{Join, Lesson, Outcome, Protocol, Split};
use crossbeam_queue::{Pass, RuledArrayQueue};
use std::collections::LinkedList;
use std::marker::{Brand, PhantomData};

/// The queue of orders.
pub type Orders = RuledArrayQueue<Message, PassView, InTurn>;

/// A thread's pass to the queue.
pub type OrderPass = Pass<Message, PassView>;

/// What a pass knows. No value of it is made.
pub struct PassView {
    /// Whether it takes messages: whether it is the server's.
    pub is_server: bool,
    /// The messages that it took, in their order.
    pub taken: LinkedList<Message>,
    /// The clients for which it made passes.
    pub made: LinkedList<u16>,
    /// Whether it puts messages: whether it is a client's.
    pub is_client: bool,
    /// That client.
    pub client: u16,
    /// The messages that it put, in their order.
    pub put: LinkedList<Message>,
}

/// The rule: what a client put is what was taken of it, and then what the queue holds of it.
pub struct InTurn;

impl Protocol<Message, PassView> for InTurn {
    ghost use Rattle.std.specs.Prelude.{[]};
    ghost use Rattle.arb_desk.specs.Passes.{server_view};
    ghost use Rattle.arb_desk.specs.Rule.{IsInTurn};

    ghost holds = { IsInTurn };

    ghost first = { server_view [] [] };
}

/// A push by a client. One that finds no place teaches nothing.
pub struct Putting;

impl Outcome<Message, PassView> for Putting {
    ghost use Rattle.std.specs.Prelude.{◌≡◌};
    ghost use Rattle.arb_desk.specs.Passes.{puts};

    ghost then = { λ v x w. w ≡ puts v x };
}

impl Lesson<Message, PassView> for Putting {
    ghost use Rattle.std.specs.Prelude.{⊤};

    ghost fact = { λ v held. ⊤ };
}

/// A pop by the server. One that finds no message teaches nothing.
pub struct Taking;

impl Outcome<Message, PassView> for Taking {
    ghost use Rattle.arb_desk.specs.Rule.{Takes};

    ghost then = { Takes };
}

impl Lesson<Message, PassView> for Taking {
    ghost use Rattle.std.specs.Prelude.{⊤};

    ghost fact = { λ v held. ⊤ };
}

/// A look at what a pass knows that takes and puts.
pub struct Accounting;

impl Lesson<Message, PassView> for Accounting {
    ghost use Rattle.arb_desk.specs.Rule.{Accounts};

    ghost fact = { Accounts };
}

/// Names the client of a new pass. The call picks it, since a [`Split`] is told no more than the old view.
pub trait Named {
    ghost use Rattle.std.specs.Prelude.{ℕ};

    ghost client: { ℕ };
}

impl Named for Brand {
    ghost client = { 0 };
}

/// The server's pass makes that of the client which `N` names.
pub struct Admitting<N> {
    of: PhantomData<N>,
}

impl<N: Named> Split<PassView> for Admitting<N> {
    ghost use Rattle.std.specs.Prelude.{[]};
    ghost use Rattle.arb_desk.specs.Passes.{client_view, makes};

    ghost left = { λ v. makes v N.client };

    ghost right = { λ v. client_view N.client [] };
}

/// The server's pass takes in a client's, which is spent.
pub struct Absorbing;

impl Join<PassView> for Absorbing {
    ghost use Rattle.arb_desk.specs.Passes.{absorbs, spent_view};

    ghost both = { absorbs };

    ghost spent = { spent_view };
}
