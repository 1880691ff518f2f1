//! Long plays of many clients. A few have the floor at a time, each for an order or a few.

use crate::tests::crowd::{
    CROWD, Crowd, FEW, FIRST_ORDERS, ORDERS, OWN_ORDERS, PLACES, places_of_a_few,
};
use crate::tests::setting::report_of;
use arb_config::Topology;
use arb_play::Gate;
use std::process::Abort;
use std::sync::Wait;
use std::sync::atomic::{AtomicU64, AtomicUsize, Ordering};
use std::test::Fail;
use std::thread::Threads;
use std::time::Duration;
use test_parts::TWO_SOCKETS;

/// How often all clients of a play sleep together until all places of the floor are taken, at most: for so many milliseconds each time.
const NAPS: usize = 5_000;

const NAP: u64 = 1;

/// How many plays a test makes.
const PLAYS: usize = 2;

/// Holds nothing back, and counts the clients that are in the middle of a turn: from before its first order to after its last one. Until
/// all places were taken at once, the first order of each turn waits for that. All together sleep for that so often at most: so each
/// returns, whatever other threads do.
#[derive(Drop)]
struct WatchingGate {
    crowd: Crowd,
    places: usize,
    /// How many orders a client is to give in a turn.
    orders: usize,
    naps: AtomicUsize,
    never: AtomicU64,
    on_floor: AtomicUsize,
    most: AtomicUsize,
}

impl WatchingGate {
    /// For a play by a crowd, of which so many clients are to be on the floor, each for so many orders.
    fn new(crowd: Crowd, places: usize, orders: usize) -> WatchingGate {
        WatchingGate {
            crowd,
            places,
            orders,
            naps: AtomicUsize::new(0),
            never: AtomicU64::new(0),
            on_floor: AtomicUsize::new(0),
            most: AtomicUsize::new(0),
        }
    }

    /// Whether all places were taken at once, or all have slept so often.
    fn may_go(&self) -> bool {
        self.most.load(Ordering::SeqCst) >= self.places
            || self.naps.fetch_add(1, Ordering::SeqCst) >= NAPS
    }

    /// The place of an order in its client's turn, counted from one, or `None` for one that is given before all turns.
    fn place_in_turn(&self, order: usize) -> Option<usize> {
        let number = order.checked_div(self.crowd.clients)?;
        let place = number.checked_sub(FIRST_ORDERS)?.checked_rem(self.orders)?;
        Some(place.wrapping_add(1))
    }
}

impl Gate for WatchingGate {
    ghost use Rattle.std.specs.Prelude.{⊤};

    ghost may_give_up = { λ _ _. ⊥ };

    ghost may_let_through = { λ _ _. ⊤ };

    fn before<R: Wait>(&self, rt: &R, order: usize) -> bool {
        if self.place_in_turn(order) == Some(1) {
            let now = self.on_floor.fetch_add(1, Ordering::SeqCst).wrapping_add(1);
            self.most.fetch_max(now, Ordering::SeqCst);
            for _ in 0..NAPS {
                if self.may_go() {
                    break;
                }
                self.never.park_timeout(rt, 0, Duration::from_millis(NAP));
            }
        }
        true
    }

    fn after<R: Wait>(&self, _rt: &R, order: usize) {
        if self.place_in_turn(order) == Some(self.orders) {
            self.on_floor.fetch_sub(1, Ordering::SeqCst);
        }
    }

    fn holds_back(&self) -> bool {
        false
    }
}

/// A crowd plays, again and again. All places of the floor are taken at once, and never are more clients than places in the middle of a
/// turn: so a client that has a place gives so many orders before another one has it.
fn takes_places<R: Threads + Wait + Abort + AllocGlobal + Sync>(
    rt: &R,
    crowd: Crowd,
    places: usize,
    orders: usize,
) -> Result<(), Fail> {
    let topology = Topology::from_text(rt.alloc(), TWO_SOCKETS)?;
    let script = crowd.script(rt.alloc())?;
    for _ in 0..PLAYS {
        let gate = WatchingGate::new(crowd, places, orders);
        let _report = report_of(rt, &topology, script.as_str(), &gate)?;
        let counts = (
            gate.most.load(Ordering::SeqCst),
            gate.on_floor.load(Ordering::SeqCst),
        );
        assert_eq!(rt; counts, (places, 0));
    }
    Ok(())
}

#[test]
fn so_many_clients_have_the_floor(rt: HostRuntime) -> Result<(), Fail> {
    takes_places(&rt, CROWD, PLACES, ORDERS)
}

/// Where the queue has room for all clients, they take turns only on several processors. Otherwise all call at once.
#[test]
fn fewer_clients_have_it_by_the_processors(rt: HostRuntime) -> Result<(), Fail> {
    let places = match places_of_a_few(&rt)? {
        Some(places) => places.min(FEW),
        None => FEW,
    };
    let crowd = Crowd {
        clients: FEW,
        orders: OWN_ORDERS,
    };
    takes_places(&rt, crowd, places, 1)
}
