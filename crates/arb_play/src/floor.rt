//! A few clients at a time, where more would only wait for the queue or for a processor.

ghost use Rattle.std.specs.Prelude.{◌<◌};

use crate::turns::Turns;
use std::sync::Wait;
use std::sync::atomic::{AtomicUsize, Ordering};
use std::thread::{Threads, available_parallelism};

/// How many of more clients than the queue has places have the floor at a time.
const PLACES: usize = 8;

/// How many orders each of these gives in a turn, before another one has its place. With more of them a wake would serve more,
/// but the orders of fewer clients would mix.
const ORDERS: u32 = 3;

/// How many of fewer clients have the floor at a time, beside as many as there are processors: so some of them always wait to
/// be woken while the others run.
const MORE_PLACES: usize = 2;

/// On fewer processors than so many, all clients call at once if the queue has a place for each. There a turn costs more than the
/// sleep that it saves.
const MANY_PROCESSORS: usize = 4;

/// How many orders a client gives before its first turn.
const FIRST_ORDERS: u32 = 1;

/// Up to so many orders for each client, a script is short.
const SHORT: usize = 64;

/// Who gives orders in a long play of many clients, where no gate holds any back.
///
/// Where many clients call at once, most sleep until their answer comes, and the server has to wake each. Where the queue hasn't a
/// place for each, some find it full besides, and sleep twice for an order. With a few at a time the queue has room, and most answers
/// come before a client sleeps. So clients take turns on the floor, in the order in which they came. Each gives an order or a few, and
/// then makes room for the one that has waited for longest: all clients go forward together.
#[derive(Drop)]
pub(crate) struct Floor {
    /// How many numbers were drawn.
    drawn: AtomicUsize,
    turns: Turns,
    /// How many orders a client gives in a turn.
    orders: u32,
}

impl Floor {
    /// The floor of a play of so many clients and orders, or `None` where all call at once: where each finds a place and
    /// processors are few, and where a script is short, so that nothing waits for time.
    pub(crate) fn of<R: Threads>(rt: &R, clients: usize, orders: usize) -> Option<Floor> {
        if clients == 0 || orders / clients <= SHORT {
            None
        } else if clients > arb_desk::PLACES {
            Some(Floor::with(PLACES, ORDERS))
        } else {
            Floor::of_a_few(clients, processors_of(rt))
        }
    }

    /// The floor of no more clients than the queue has places for, on so many processors.
    fn of_a_few(clients: usize, processors: usize) -> Option<Floor> {
        let places = processors.saturating_add(MORE_PLACES);
        if processors < MANY_PROCESSORS || clients <= places {
            return None;
        }
        Some(Floor::with(places, orders_of_a_few(clients, places)))
    }

    /// A floor with so many places, on which a client gives so many orders in a turn.
    fn with(places: usize, orders: u32) -> Floor {
        Floor {
            drawn: AtomicUsize::new(0),
            turns: Turns::new(places.saturating_sub(1), 0),
            orders,
        }
    }

    /// The number at which a client has its next turn.
    fn draw(&self) -> usize {
        self.drawn.fetch_add(1, Ordering::SeqCst)
    }
}

/// How many orders each of fewer clients gives in a turn: one, where fewer wait for a place than have one, so that the same ones come
/// again soon. Where as many wait, two orders mix enough, and take half as many wakes.
fn orders_of_a_few(clients: usize, places: usize) -> u32 {
    if clients.saturating_sub(places) < places {
        1
    } else {
        2
    }
}

/// How many processors this process may use, or one where the system doesn't tell.
fn processors_of<R: Threads>(rt: &R) -> usize {
    match available_parallelism(rt) {
        Ok(processors) => processors.get(),
        Err(_) => 1,
    }
}

/// A client's turns on the floor, where there is one.
#[derive(Drop)]
pub(crate) struct Visit<'a> {
    floor: Option<&'a Floor>,
    /// Whether it has a place now.
    placed: bool,
    /// How many orders it gives yet before its next turn.
    left: u32,
}

impl<'a> Visit<'a> {
    /// A client's first order takes no place: so each can begin, whoever has the floor.
    pub(crate) fn begin(floor: Option<&'a Floor>) -> Visit<'a>
        ensures { 0 < result.left }
    {
        Visit {
            floor,
            placed: false,
            left: FIRST_ORDERS,
        }
    }

    /// Before an order: where this client gave those of its turn, it waits for the next one.
    pub(crate) fn go_on<R: Wait>(&mut self, rt: &R) {
        if self.left == 0 {
            self.take_turn(rt);
        }
        self.left = self.left.saturating_sub(1);
    }

    /// Makes room, and waits for a place. It draws its number first: nobody who draws one later passes it.
    fn take_turn<R: Wait>(&mut self, rt: &R) {
        if let Some(floor) = self.floor {
            let number = floor.draw();
            self.end();
            floor.turns.wait(rt, number);
            self.placed = true;
            self.left = floor.orders;
        }
    }

    /// Makes room for the next one, if it has a place.
    pub(crate) fn end(&mut self) {
        if let Some(floor) = self.floor
            && self.placed
        {
            floor.turns.pass();
            self.placed = false;
        }
    }
}
