//! Plays of many clients in which a lost wake costs time.

use crate::tests::crowd::{CLIENTS, CROWD, Crowd, FIRST_ORDERS, ORDERS, OWN_ORDERS, PLACES};
use crate::tests::setting::{OpenGate, millis_used, report_of};
use arb_config::Topology;
use arb_play::{FreeGate, Gate};
use std::process::Abort;
use std::rt::{Clock, Files};
use std::sync::Wait;
use std::sync::atomic::{AtomicU64, AtomicUsize, Ordering};
use std::test::Fail;
use std::thread::Threads;
use std::time::{Duration, Instant};
use std::{hint, thread};
use test_parts::TWO_SOCKETS;

/// The most seconds of any play. It takes some tenths of a second at most. Where nobody is woken, each order takes a second.
const LONGEST_PLAY: u64 = 10;

/// Where the machine has other work, or the build is slow, a play may take longer: so many times the processor time that it used. A
/// client that sleeps on uses none.
const SHARE: u32 = 30;

/// A play on the floor that takes as many milliseconds has most likely lost a wake: who sleeps through its ring looks again after a
/// second.
const SLOW: u64 = 900;

/// Where the machine has other work, a play may take as long for that. There it takes at most so many times as long as one in which
/// all clients call at once.
const TIMES: u32 = 5;

/// How many plays a test times.
const PLAYS: usize = 12;

/// So many clients fill the queue where all call at once: it has room for 64 orders.
const TO_FILL: Crowd = Crowd {
    clients: 120,
    orders: OWN_ORDERS,
};

/// How many plays by them are timed.
const FILLING_PLAYS: usize = 3;

/// How often a gate looks for others, with a yield after each so many looks, before it sleeps: a millisecond in all, or as many slices
/// of other work as yields.
const LOOKS: usize = 50;

const MEETING_YIELDS: usize = 400;

/// How long a gate sleeps before it looks once more, in milliseconds, and after how many such sleeps in which nobody came it gives
/// up: that is sooner than one wakes whose ring was lost.
const NAP: u64 = 100;

const NAPS: usize = 5;

/// Plays the script of a crowd. It ends soon, and each order has its line. Gives how long it took.
fn time_play<G: Gate, R: Threads + Wait + Clock + Files + Abort + AllocGlobal + Sync>(
    rt: &R,
    topology: &Topology,
    crowd: Crowd,
    gate: &G,
) -> Result<Duration, Fail> {
    let script = crowd.script(rt.alloc())?;
    let (began, before) = (Instant::now(rt)?, millis_used(rt)?);
    let report = report_of(rt, topology, script.as_str(), gate)?;
    let (took, after) = (began.elapsed(rt)?, millis_used(rt)?);
    let ends = report.iter().filter(|byte| **byte == b'\n').count();
    let lines = crowd.all_orders().wrapping_add(topology.managed() as usize);
    let used = Duration::from_millis(after.saturating_sub(before));
    let is_soon = took < Duration::from_secs(LONGEST_PLAY).max(used.saturating_mul(SHARE));
    assert_eq!(rt; (ends, is_soon), (lines, true));
    Ok(took)
}

/// How long a play on the floor may take, where one in which all clients call at once took so long.
fn longest(at_once: Duration) -> Duration {
    Duration::from_millis(SLOW).max(at_once.saturating_mul(TIMES))
}

/// A crowd plays, again and again, on a machine with this line of a limit on orders, and loses no wake. A machine may stand still
/// once, or have more work than before: so after a slow play both kinds of plays are timed once more.
fn crowd_plays<R: Threads + Wait + Clock + Files + Abort + AllocGlobal + Sync>(
    rt: &R,
    limit: &str,
) -> Result<(), Fail> {
    let machine = format!(in rt.alloc(); "{limit}{TWO_SOCKETS}")?;
    let topology = Topology::from_text(rt.alloc(), machine.as_str())?;
    let mut at_once = time_play(rt, &topology, CROWD, &OpenGate)?;
    for _ in 0..PLAYS {
        let mut took = time_play(rt, &topology, CROWD, &FreeGate)?;
        if took > longest(at_once) {
            at_once = time_play(rt, &topology, CROWD, &OpenGate)?;
            took = time_play(rt, &topology, CROWD, &FreeGate)?;
        }
        assert!(rt; took <= longest(at_once), "a client slept on");
    }
    Ok(())
}

/// No wake is lost on the floor.
#[test]
fn many_clients_play_freely(rt: HostRuntime) -> Result<(), Fail> {
    crowd_plays(&rt, "")
}

/// The limit on orders is reached while some have the floor and others wait for it. A client with an order past it makes room, or this
/// never ends.
#[test]
fn many_clients_play_freely_past_the_limit(rt: HostRuntime) -> Result<(), Fail> {
    crowd_plays(&rt, "orders = 1000\n")
}

/// Without a floor all clients call at once: here so many that most find the queue full. That a single wake is lost isn't seen: a
/// client that finds the queue full looks again after a second.
#[test]
fn many_clients_call_at_once(rt: HostRuntime) -> Result<(), Fail> {
    let topology = Topology::from_text(rt.alloc(), TWO_SOCKETS)?;
    for _ in 0..FILLING_PLAYS {
        time_play(&rt, &topology, TO_FILL, &OpenGate)?;
    }
    Ok(())
}

/// Holds nothing back. Who has given the last order of its turn waits until all others on the floor have: so they make room at the
/// same time. Once somebody waited in vain, nobody waits any more.
#[derive(Drop)]
struct MeetingGate {
    came: AtomicU64,
    late: AtomicUsize,
}

impl MeetingGate {
    fn new() -> MeetingGate {
        MeetingGate {
            came: AtomicU64::new(0),
            late: AtomicUsize::new(0),
        }
    }

    /// Whether so many have come, or none waits any more.
    fn has_met(&self, all: u64) -> bool {
        self.came.load(Ordering::SeqCst) >= all || self.late.load(Ordering::SeqCst) > 0
    }

    /// Waits until so many have come: it looks, and then sleeps. Gives whether they have.
    fn meet<R: Wait>(&self, rt: &R, all: u64) -> bool {
        for _ in 0..MEETING_YIELDS {
            for _ in 0..LOOKS {
                if self.has_met(all) {
                    return true;
                }
                hint::spin_loop();
            }
            thread::yield_now();
        }
        let mut quiet = 0usize;
        for _ in 0..NAPS * PLACES {
            let came = self.came.load(Ordering::SeqCst);
            if self.has_met(all) {
                return true;
            }
            let heard = (came % (1 << 32)) as u32;
            self.came
                .park_timeout(rt, heard, Duration::from_millis(NAP));
            if self.came.load(Ordering::SeqCst) == came {
                quiet = quiet.wrapping_add(1);
            }
            if quiet == NAPS {
                return false;
            }
        }
        true
    }
}

/// Whether an order of the script is the last one of its client's turn on the floor.
fn ends_turn(order: usize) -> bool {
    match (order / CLIENTS).checked_sub(FIRST_ORDERS) {
        Some(place) => place % ORDERS == ORDERS - 1,
        None => false,
    }
}

impl Gate for MeetingGate {
    ghost use Rattle.std.specs.Prelude.{⊤};

    ghost may_give_up = { λ _ _. ⊥ };

    ghost may_let_through = { λ _ _. ⊤ };

    fn before<R: Wait>(&self, _rt: &R, _order: usize) -> bool {
        true
    }

    fn after<R: Wait>(&self, rt: &R, order: usize) {
        if ends_turn(order) {
            let places = PLACES as u64;
            let before = self.came.fetch_add(1, Ordering::SeqCst);
            let all = (before / places).wrapping_add(1).wrapping_mul(places);
            if before.wrapping_add(1) == all {
                self.came.wake_all();
            } else if !self.meet(rt, all) {
                self.late.fetch_add(1, Ordering::SeqCst);
            }
        }
    }

    fn holds_back(&self) -> bool {
        false
    }
}

/// How many plays are looked at in which all make room at the same time.
const MEETINGS: usize = 4;

/// Plays the crowd's script so that all on the floor make room at the same time, hundreds of times. Gives whether each place then went
/// to the next client at once: nobody waited for one that slept on.
fn all_places_are_taken<R: Threads + Wait + Abort + AllocGlobal + Sync>(
    rt: &R,
    topology: &Topology,
    script: &str,
) -> Result<bool, Fail> {
    let gate = MeetingGate::new();
    let _report = report_of(rt, topology, script, &gate)?;
    Ok(gate.late.load(Ordering::SeqCst) == 0)
}

/// Where all make room at once, each place goes to the next client. If two who leave wake the same client, or one wakes none, another
/// one sleeps on, and its place stays empty for a second. A machine may stand still for as long: so a play is tried once more.
#[test]
fn all_make_room_at_once(rt: HostRuntime) -> Result<(), Fail> {
    let topology = Topology::from_text(rt.alloc(), TWO_SOCKETS)?;
    let script = CROWD.script(rt.alloc())?;
    for _ in 0..MEETINGS {
        let well = all_places_are_taken(&rt, &topology, script.as_str())?
            || all_places_are_taken(&rt, &topology, script.as_str())?;
        assert!(rt; well, "a place stayed empty");
    }
    Ok(())
}
