//! Free plays, played as `arbiter play` does: all their clients are at once in the middle of their orders.
//!
//! How the orders of one play mix is left to the schedule. So each test plays until it has seen what it looks for, and fails
//! where that doesn't come within ten thousand plays. It comes in each play on one processor, in two of three on four, and in
//! one of ten on two.

use crate::tests::crowd::Crowd;
use crate::tests::setting::report_of;
use arb_config::Topology;
use arb_play::FreeGate;
use std::alloc::Global;
use std::process::Abort;
use std::sync::Wait;
use std::test::Fail;
use std::thread::Threads;
use test_parts::TWO_SOCKETS;

/// How many plays a test makes at most.
const MOST_PLAYS: usize = 10_000;

/// How many entries a client has before it counts as being in the middle of its orders: more than come before its first turn,
/// where clients take turns.
const BEFORE: usize = 4;

/// Where a client's entries stand in a journal: the places of the fourth and of the last one.
#[derive(Clone, Copy)]
struct Span {
    fourth: usize,
    last: usize,
}

impl Span {
    /// Whether the client is in the middle of its orders at a place: four stand before it, and one behind it.
    fn surrounds(&self, place: usize) -> bool {
        self.fourth < place && place < self.last
    }
}

/// A journal: the application of each entry, and where each application's entries stand.
#[derive(Drop)]
struct Journal {
    apps: Vec<usize>,
    spans: Vec<Span>,
}

impl Journal {
    /// The journal of a report, in which so many applications have four entries each at least.
    fn of(alloc: Global, report: &str, clients: usize) -> Result<Journal, Fail> {
        let mut apps = Vec::new(alloc);
        for line in report.lines() {
            if line.contains(" -> ") {
                let (app, _) = line.split_once(".").ok_or("no client")?;
                apps.push(app.parse::<usize>()?)?;
            }
        }
        let mut spans = Vec::new(alloc);
        for client in 0..clients {
            let (mut entries, mut fourth, mut last): (usize, usize, usize) = (0, 0, 0);
            for (place, app) in apps.iter().enumerate() {
                if *app == client {
                    entries = entries.wrapping_add(1);
                    last = place;
                    if entries == BEFORE {
                        fourth = place;
                    }
                }
            }
            if entries < BEFORE {
                return Err("too few entries".into());
            }
            spans.push(Span { fourth, last })?;
        }
        Ok(Journal { apps, spans })
    }

    /// Whether some entry of a client comes while all, the client too, are in the middle of their orders.
    fn comes_among_all(&self, client: usize) -> bool {
        self.apps.iter().enumerate().any(|(place, app)| {
            *app == client && self.spans.iter().all(|span| span.surrounds(place))
        })
    }

    /// Whether each client has four entries before any has its last one.
    fn all_begin_before_one_ends(&self) -> bool {
        let ends = self.spans.iter().map(|span| span.last).min();
        self.spans.iter().all(|span| Some(span.fourth) < ends)
    }
}

/// Plays a script of so many clients once.
fn journal_of_play<R: Threads + Wait + Abort + AllocGlobal + Sync>(
    rt: &R,
    topology: &Topology,
    script: &str,
    clients: usize,
) -> Result<Journal, Fail> {
    let report = String::from_utf8(report_of(rt, topology, script, &FreeGate)?)?;
    Journal::of(rt.alloc(), report.as_str(), clients)
}

/// Three clients, which each give so many orders, play until an order of each was entered while the two others were in the middle
/// of theirs.
fn three_meet<R: Threads + Wait + Abort + AllocGlobal + Sync>(
    rt: &R,
    orders: usize,
) -> Result<(), Fail> {
    let topology = Topology::from_text(rt.alloc(), TWO_SOCKETS)?;
    let script = Crowd { clients: 3, orders }.script(rt.alloc())?;
    let mut seen = [false; 3];
    for _ in 0..MOST_PLAYS {
        let journal = journal_of_play(rt, &topology, script.as_str(), 3)?;
        for client in 0..3 {
            seen[client] |= journal.comes_among_all(client);
        }
        if seen == [true; 3] {
            break;
        }
    }
    assert_eq!(rt; seen, [true; 3]);
    Ok(())
}

/// In a short play all three are in the middle at once. A play that lets two clients at a time go to their ends never comes to
/// that.
#[test]
fn three_clients_are_in_the_middle_at_once(rt: HostRuntime) -> Result<(), Fail> {
    three_meet(&rt, 12)
}

/// So they are in a long one: it has the least number of orders of each client that a long play has.
#[test]
fn three_clients_of_a_long_play_are_in_the_middle_at_once(rt: HostRuntime) -> Result<(), Fail> {
    three_meet(&rt, 65)
}

/// Of sixteen clients each has four orders entered before any has its last one entered.
#[test]
fn sixteen_clients_begin_before_one_ends(rt: HostRuntime) -> Result<(), Fail> {
    let topology = Topology::from_text(rt.alloc(), TWO_SOCKETS)?;
    let crowd = Crowd {
        clients: 16,
        orders: 50,
    };
    let script = crowd.script(rt.alloc())?;
    let mut seen = false;
    for _ in 0..MOST_PLAYS {
        seen = journal_of_play(&rt, &topology, script.as_str(), 16)?.all_begin_before_one_ends();
        if seen {
            break;
        }
    }
    assert!(&rt;
        seen,
        "some client had given all its orders before another began"
    );
    Ok(())
}
