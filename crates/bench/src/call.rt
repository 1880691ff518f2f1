//! The part `call`: orders through the service, from a client's thread to the server's and back.
//!
//! One client calls for its application's status again and again, each time when the reply before has come. Beside it two
//! threads hand one word to and fro: no answer of one thread to another comes sooner on the machine. Then one client
//! and three keep as many orders open as a client may. Beside each stands its floor: the same messages without an arbiter.

use crate::floor::{time_floor, time_hands};
use crate::house::{AT_ONCE, add_one, one_each, run, thread, threads};
use crate::machine::NARROW;
use crate::roles::{Calls, Role};
use crate::times::{RUNS, print_count, print_pieces, print_rates};
use anyhow::{Result, ensure};
use arb_config::Topology;
use arb_house::MOST_OPEN;
use std::rt::{Clock, Files};
use std::sync::Wait;
use std::thread::Threads;
use std::time::Duration;

/// How many calls are made for one time.
const CALLS: u64 = 50_000;

/// How many orders each client gives for one time, beside that to join.
const ORDERS: u64 = 100_000;

/// How many clients keep orders open, with a name.
const SETTINGS: [(&str, u8); 2] = [("one_client", 1), ("three_clients", 3)];

/// How long so many calls take, made again and again: each time after a pause, by the one client of a house.
pub fn time_calls<R: Threads + Wait + Clock + Files + AllocGlobal + Sync>(
    rt: &R,
    topology: &Topology,
    calls: Calls,
) -> Result<Vec<Duration>> {
    let mut teams = Vec::new(rt.alloc());
    add_one(rt.alloc(), &mut teams, thread(0, 0)?, 1, Role::Call(calls))?;
    let ran = run(rt, topology, AT_ONCE, teams.as_slice())?;
    let mut times = Vec::new(rt.alloc());
    for span in ran.spans_of(1)? {
        ensure!(span.good, "a call was not answered");
        times.push(span.length())?;
    }
    Ok(times)
}

/// How long the orders of so many clients took that keep orders open.
fn time_open<R: Threads + Wait + Clock + Files + AllocGlobal + Sync>(
    rt: &R,
    topology: &Topology,
    clients: u8,
) -> Result<Duration> {
    let ids = threads(rt.alloc(), clients, 0, 1)?;
    let teams = one_each(rt.alloc(), ids, 1, Role::KeepOpen(ORDERS))?;
    let ran = run(rt, topology, AT_ONCE, teams.as_slice())?;
    let all = u64::from(clients) * (ORDERS + 1);
    ensure!(ran.answered as u64 == all, "an order was not answered");
    Ok(ran.first(0)?.ended)
}

/// Prints the calls of one client, the floor under them, and the word that two threads hand to and fro.
fn call_one<R: Threads + Wait + Clock + Files + Print + AllocGlobal + Sync>(
    rt: &R,
    topology: &Topology,
    timed: bool,
) -> Result<()> {
    let calls = Calls {
        times: RUNS,
        count: CALLS,
        pause: 0,
    };
    let times = time_calls(rt, topology, calls)?;
    let counted = "calls, each answered";
    print_pieces(rt, "call.status", times, CALLS, counted, timed)?;
    let times = time_floor(rt, 1, CALLS, 1)?;
    let counted = "messages, each answered";
    print_pieces(rt, "call.floor", times, CALLS, counted, timed)?;
    let times = time_hands(rt, CALLS)?;
    let counted = "times to and fro";
    print_pieces(rt, "call.hand_over", times, CALLS, counted, timed)
}

/// Prints how many orders a setting's clients gave, or how many fill a second.
fn print_orders<R: Print + AllocGlobal>(
    rt: &R,
    name: &str,
    setting: (&str, u8),
    times: Vec<Duration>,
    counted: &str,
    timed: bool,
) -> Result<()> {
    let (clients_name, clients) = setting;
    let orders = ORDERS * u64::from(clients);
    let name = format!(in rt.alloc(); "{name}.{clients_name}")?;
    if timed {
        return print_rates(rt, name.as_str(), times, orders);
    }
    print_count(rt, name.as_str(), orders, counted)
}

/// Prints the orders of a setting's clients, and the floor under them.
fn call_open<R: Threads + Wait + Clock + Files + Print + AllocGlobal + Sync>(
    rt: &R,
    topology: &Topology,
    setting: (&str, u8),
    timed: bool,
) -> Result<()> {
    let (_, clients) = setting;
    let mut times = Vec::new(rt.alloc());
    for _ in 0..RUNS {
        times.push(time_open(rt, topology, clients)?)?;
    }
    let counted = "orders, each answered";
    print_orders(rt, "call.open", setting, times, counted, timed)?;
    let times = time_floor(rt, clients, ORDERS, MOST_OPEN as u64)?;
    let counted = "messages, each answered";
    print_orders(rt, "call.floor", setting, times, counted, timed)
}

/// Gives orders through the service: one client calls, and then clients keep orders open. Prints what was answered, or how
/// long it took.
pub fn call<R: Threads + Wait + Clock + Files + Print + AllocGlobal + Sync>(
    rt: &R,
    timed: bool,
) -> Result<()> {
    let topology = &NARROW.topology(rt.alloc())?;
    call_one(rt, topology, timed)?;
    for setting in SETTINGS {
        call_open(rt, topology, setting, timed)?;
    }
    Ok(())
}
