//! The table: the page words, the lock word behind them, and a slot for the arbiter.

ghost use Rattle.std.specs.Prelude.{◌≡◌};
ghost use Rattle.arb_common.specs.Limits.{with_limit};

use arb_config::Topology;
use arb_core::Core;
use arb_model::Event;
use arb_model::layout::WORDS;
use atomic_table::{Join, Play, Seat, Shared, Split, Table, TableRule};
use std::alloc::Global;
use std::collections::LinkedList;
use std::marker::{Brand, Model, PhantomData};

/// The number of the lock word: it stands behind the page words. 0 where the lock is free.
pub const LOCK: usize = WORDS;

/// How many words the table has.
pub const TABLE_WORDS: usize = WORDS + 1;

/// A machine with any limit on orders: the key of the table. Contracts see that machine.
#[derive(Drop)]
pub struct Limited {
    topology: Topology,
    limit: u64,
}

impl Model for Limited {
    ghost use Rattle.arb_config.specs.Machine.{Machine};
    ghost use Rattle.arb_common.specs.Limits.{with_limit};

    ghost Value = { Machine };

    ghost view = { λ l. with_limit l.topology l.limit };
}

impl Limited {
    /// The machine of a topology, with a limit on orders.
    pub fn of(topology: &Topology, limit: u64) -> Limited
        ensures { result ≡ with_limit topology.now limit }
    {
        Limited {
            topology: topology.copied(),
            limit,
        }
    }
}

/// What a seat knows. No value of it is made.
pub struct SeatView {
    /// Whether it has the lock.
    pub holds: bool,
    /// Whether another seat took it in.
    pub spent: bool,
    /// The table's machine.
    pub machine: Limited,
    /// The history that it has seen.
    pub seen: LinkedList<Event>,
    /// The history that it was told, until its next load.
    pub told: LinkedList<Event>,
    /// What it did.
    pub own: Own,
}

/// What a seat did. No value of it is made.
pub struct Own {
    /// The places of its own entries among those of the history.
    pub mine: LinkedList<u64>,
    /// How many steps it has made.
    pub steps: u64,
    /// How often it found the lock taken.
    pub busy: u64,
}

/// The table with its memory.
pub type TableWords = Table<Core, SeatView, Limited, Law, Global>;

/// A seat at the table.
pub type TableSeat = Seat<Core, SeatView>;

/// The table's steps.
pub type TableShared = Shared<Core, SeatView, Limited, Law>;

/// The rule of the table.
pub struct Law;

impl TableRule<Core, SeatView, Limited> for Law {
    ghost use Rattle.std.specs.Prelude.{[]};
    ghost use Rattle.arb_common.specs.Rule.{SharesOneHistory};
    ghost use Rattle.arb_common.specs.Views.{free_view, newcomer};

    ghost holds = { λ m s. SharesOneHistory m s };

    ghost first = { λ m. free_view m [] newcomer };
}

/// The lock is taken, or was taken already.
pub struct Take;

impl Play<Core, SeatView> for Take {
    ghost use Rattle.arb_common.specs.Steps.{Takes};

    ghost then = { Takes };
}

/// Names the event of one store. The call picks it, since a [`Play`] is told no more than word and value.
pub trait Happening {
    ghost use Rattle.arb_model.specs.declared.orders.Event.{Event};

    ghost event: { Event };
}

impl Happening for Brand {
    ghost use Rattle.arb_model.specs.declared.orders.Event.TheVariants.{Posted};

    ghost event = { Posted 0 0 };
}

/// A store by the seat that has the lock, with which the event happens.
pub struct Append<E> {
    of: PhantomData<E>,
}

impl<E: Happening> Play<Core, SeatView> for Append<E> {
    ghost use Rattle.arb_common.specs.Steps.{Appends};

    ghost then = { Appends E.event };
}

/// The lock is given up.
pub struct GiveUp;

impl Play<Core, SeatView> for GiveUp {
    ghost use Rattle.arb_common.specs.Steps.{GivesUp};

    ghost then = { GivesUp };
}

/// A load by the seat that has the lock.
pub struct Check;

impl Play<Core, SeatView> for Check {
    ghost use Rattle.arb_common.specs.Steps.{Checks};

    ghost then = { Checks };
}

/// A load of a page word by any other seat.
pub struct Look;

impl Play<Core, SeatView> for Look {
    ghost use Rattle.arb_common.specs.Steps.{Looks};

    ghost then = { Looks };
}

/// A copy of what a seat has seen, for a new seat.
pub struct Copying;

impl Split<SeatView> for Copying {
    ghost use Rattle.arb_common.specs.Views.{copied, free_view, newcomer};

    ghost left = { copied };

    ghost right = { λ v. free_view v.machine v.seen newcomer };
}

/// A seat takes in another, which is spent.
pub struct Telling;

impl Join<SeatView> for Telling {
    ghost use Rattle.arb_common.specs.Views.{spent, told_by};

    ghost both = { told_by };

    ghost spent = { spent };
}
