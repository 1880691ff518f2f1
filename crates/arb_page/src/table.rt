//! The table of page words: what a seat knows, the rule, and what each step tells.

use crate::set::Set;
use arb_config::Topology;
use arb_model::Event;
use atomic_table::{Join, Play, Seat, Split, Table, TableRule};
use std::alloc::Global;
use std::collections::LinkedList;
use std::marker::{Brand, PhantomData};

/// The table. It has no slots.
pub type Words = Table<(), SeatView, Topology, Law, Global>;

/// A seat at the table.
pub type TableSeat = Seat<(), SeatView>;

/// What a seat knows. No value of it is made.
pub struct SeatView {
    /// Whether it is the writer's.
    pub writes: bool,
    /// The history that it has seen.
    pub seen: LinkedList<Event>,
    /// The history that it was told, until its next load.
    pub told: LinkedList<Event>,
    /// How many steps it has made.
    pub steps: u64,
}

/// The rule of the table.
pub struct Law;

impl TableRule<(), SeatView, Topology> for Law {
    ghost use Rattle.std.specs.Prelude.{[]};
    ghost use Rattle.arb_page.specs.Rule.{ShowsOneHistory};
    ghost use Rattle.arb_page.specs.Views.{writer_view};

    ghost holds = { λ m s. ShowsOneHistory m s };

    ghost first = { λ m. writer_view [] 0 };
}

/// A load by a reader.
pub struct Look<K> {
    of: PhantomData<K>,
}

impl<K: Set> Play<(), SeatView> for Look<K> {
    ghost use Rattle.arb_page.specs.Steps.{Looks};

    ghost then = { Looks K.machine };
}

/// A load by the writer.
pub struct Check;

impl Play<(), SeatView> for Check {
    ghost use Rattle.arb_page.specs.Steps.{Checks};

    ghost then = { Checks };
}

/// Names the event of one store. The call picks it, since a [`Play`] is told no more than word and value.
pub trait Happening {
    ghost use Rattle.arb_model.specs.declared.orders.Event.{Event};

    ghost event: { Event };
}

impl Happening for Brand {
    ghost use Rattle.arb_model.specs.declared.orders.Event.TheVariants.{Posted};

    ghost event = { Posted 0 0 };
}

/// A store by the writer, with which the event happens.
pub struct Append<E> {
    of: PhantomData<E>,
}

impl<E: Happening> Play<(), SeatView> for Append<E> {
    ghost use Rattle.std.specs.Prelude.{◌∷◌, []};
    ghost use Rattle.arb_page.specs.Steps.{Appends};

    ghost then = { Appends (E.event ∷ []) };
}

/// A copy of what a seat has seen, for a new seat.
pub struct Copying;

impl Split<SeatView> for Copying {
    ghost use Rattle.arb_page.specs.Views.{reader_view, stepped};

    ghost left = { stepped };

    ghost right = { λ v. reader_view v.seen 0 };
}

/// A seat takes in another, which is spent.
pub struct Telling;

impl Join<SeatView> for Telling {
    ghost use Rattle.std.specs.Prelude.{[]};
    ghost use Rattle.arb_page.specs.Views.{reader_view, told_by};

    ghost both = { told_by };

    ghost spent = { reader_view [] 0 };
}
