//! Which free plays have a floor. They are played as `arbiter play` does, and their journals show it.

use crate::tests::crowd::{CLIENTS, CROWD, Crowd, ORDERS, OWN_ORDERS, PLACES, places_of_a_few};
use crate::tests::setting::{OpenGate, report_of};
use crate::tests::turns::Turns;
use arb_config::Topology;
use arb_play::{FreeGate, Gate};
use std::process::Abort;
use std::sync::Wait;
use std::test::Fail;
use std::thread::Threads;
use test_parts::TWO_SOCKETS;

/// How many orders each client of a short script gives at most.
const SHORT: usize = 64;

/// How many messages the queue has room for.
const QUEUE: usize = 64;

/// How many plays a test makes at most until it has seen what it looks for. It mostly comes in the first one. On two processors a client
/// may give many orders before another one comes.
const MOST_PLAYS: usize = 100;

/// A floor of so many places, on which each client gives so many orders in a turn.
#[derive(Clone, Copy)]
struct Floor {
    places: usize,
    orders: usize,
}

/// The floor of more clients than the queue has room for.
const OF_MANY: Floor = Floor {
    places: PLACES,
    orders: ORDERS,
};

/// Plays the script of a crowd. Gives what its journal shows of turns of so many orders.
fn turns_of<G: Gate, R: Threads + Wait + Abort + AllocGlobal + Sync>(
    rt: &R,
    crowd: Crowd,
    orders: usize,
    gate: &G,
) -> Result<Turns, Fail> {
    let topology = Topology::from_text(rt.alloc(), TWO_SOCKETS)?;
    let script = crowd.script(rt.alloc())?;
    let report = String::from_utf8(report_of(rt, &topology, script.as_str(), gate)?)?;
    Turns::of(report.as_str(), crowd, orders)
}

/// A crowd plays freely until one play shows this floor: clients come again and again while others have orders left. In no play are more
/// clients in the middle of a turn than the floor has places. In none does a client come again before those that waited had a turn.
fn has_floor<R: Threads + Wait + Abort + AllocGlobal + Sync>(
    rt: &R,
    crowd: Crowd,
    floor: Floor,
) -> Result<(), Fail> {
    // others may have the other places when a client makes room, and when it comes again: all the rest had a turn meanwhile
    let places = floor.places;
    let others = crowd
        .clients
        .saturating_add(1)
        .saturating_sub(2usize.wrapping_mul(places));
    let mut seen = false;
    for _ in 0..MOST_PLAYS {
        let turns = turns_of(rt, crowd, floor.orders, &FreeGate)?;
        let (most, fewest) = (turns.most, turns.fewest);
        assert!(rt;
            most <= places && fewest >= others,
            "{most} of {places} had a turn at once; one came again after {fewest} turns, not {others}"
        );
        seen = turns.returns >= crowd.clients;
        if seen {
            break;
        }
    }
    assert!(rt; seen, "clients came but once");
    Ok(())
}

/// A crowd plays until more clients were in the middle of a turn at once than this floor has places. So they don't have this floor.
fn has_no_such_floor<G: Gate, R: Threads + Wait + Abort + AllocGlobal + Sync>(
    rt: &R,
    crowd: Crowd,
    floor: Floor,
    gate: &G,
) -> Result<(), Fail> {
    let mut most = 0;
    for _ in 0..MOST_PLAYS {
        most = turns_of(rt, crowd, floor.orders, gate)?.most;
        if most > floor.places {
            break;
        }
    }
    let places = floor.places;
    assert!(rt;
        most > places,
        "only {most} had a turn at once, of {places}"
    );
    Ok(())
}

/// The floor of fewer clients than the queue has room for, or `None` on few processors. Each gives two orders in a turn, or one.
fn floor_of_a_few<R: Threads>(rt: &R) -> Result<Option<Floor>, Fail> {
    match places_of_a_few(rt)? {
        Some(places) => Ok(Some(Floor { places, orders: 2 })),
        None => Ok(None),
    }
}

/// Each client gives one order more than in a short script.
#[test]
fn a_long_free_play_of_many_has_a_floor(rt: HostRuntime) -> Result<(), Fail> {
    assert!(rt; !FreeGate.holds_back());
    let crowd = Crowd {
        clients: CLIENTS,
        orders: SHORT + 1,
    };
    has_floor(&rt, crowd, OF_MANY)
}

/// Here as many clients as have a place wait for one, or more: each gives two orders in a turn.
#[test]
fn a_long_free_play_of_a_few_has_a_floor(rt: HostRuntime) -> Result<(), Fail> {
    let Some(floor) = floor_of_a_few(&rt)? else {
        return Ok(());
    };
    let crowd = Crowd {
        clients: floor.places.saturating_mul(4).min(QUEUE),
        orders: OWN_ORDERS,
    };
    if crowd.clients < floor.places.saturating_mul(2) {
        return Ok(());
    }
    has_floor(&rt, crowd, floor)
}

/// Where fewer wait for a place than have one, each gives one order in a turn, not two.
#[test]
fn where_few_wait_a_place_is_handed_on_after_each_order(rt: HostRuntime) -> Result<(), Fail> {
    let Some(floor) = floor_of_a_few(&rt)? else {
        return Ok(());
    };
    let crowd = Crowd {
        clients: floor.places.saturating_mul(2).saturating_sub(1),
        orders: OWN_ORDERS,
    };
    if crowd.clients > QUEUE {
        return Ok(());
    }
    has_no_such_floor(&rt, crowd, floor, &FreeGate)
}

#[test]
fn a_short_free_play_has_no_floor(rt: HostRuntime) -> Result<(), Fail> {
    let crowd = Crowd {
        clients: CLIENTS,
        orders: SHORT,
    };
    has_no_such_floor(&rt, crowd, OF_MANY, &FreeGate)
}

/// A play whose gate may hold orders back has none, however long it is.
#[test]
fn a_play_that_may_be_held_back_has_no_floor(rt: HostRuntime) -> Result<(), Fail> {
    has_no_such_floor(&rt, CROWD, OF_MANY, &OpenGate)
}
