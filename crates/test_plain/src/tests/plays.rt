//! Scripts at random, which real threads play without turns. However the orders of the clients interleave, each journal
//! report is what the plain arbiter makes of them in that order.

use crate::tests::arbiter::{CLIENTS, CORES, Plain, Spot, THREADS};
use crate::tests::dice::Dice;
use crate::tests::machines::{BOTH_CORES, SIX_CORES, TWO_CORES};
use crate::tests::seen::Seen;
use arb_config::Topology;
use arb_core::{ClientId, Order};
use arb_play::{FreeGate, play};
use arb_script::{Script, entry_line, full_line, order_line};
use arb_share::Watched;
use std::alloc::Global;
use std::process::Abort;
use std::sync::Wait;
use std::test::Fail;
use std::thread::Threads;
use test_parts::TWO_SOCKETS;

/// The seed of the scripts of each crew.
const SEED: u64 = 7;

/// How many scripts each crew plays.
const SCRIPTS: usize = 4;

/// How often it plays each.
const PLAYS: usize = 5;

/// The crews: how many applications give orders, and how many threads of each. These are 2 to 6 clients, and the clock.
const CREWS: [(u64, u64); 6] = [(2, 1), (3, 1), (2, 2), (4, 1), (2, 3), (3, 2)];

/// A crew of 96 clients, and the clock: more than the queue has places. `tests/full-size` plays its scripts once more, with
/// a server that begins late, and counts who waits for room.
const CROWD: [(u64, u64); 1] = [(16, 6)];

/// A machine, of which a script is played.
#[derive(Clone, Copy)]
struct Machine {
    config: &'static str,
    cores: &'static [(u16, u8)],
    grace: u64,
    /// The limit on orders.
    limit: usize,
}

/// A thread of an application.
fn thread_of(app: u64, thread: u64) -> ClientId {
    let (app, thread) = (u8::try_from(app), u8::try_from(thread));
    ClientId::app(app.unwrap_or(0), thread.unwrap_or(0)).unwrap_or(ClientId::clock())
}

/// The text of a script: each application joins and asks, and then orders of any kind follow. That of a crew has 10 to 40 orders,
/// that of a crowd more, and one at least of each client.
fn script_text(alloc: Global, dice: &mut Dice) -> Result<String, Fail> {
    let mut text = String::new(alloc);
    for app in 0..dice.apps {
        let ask = Order::Ask(dice.request());
        let first = thread_of(app, 0);
        text.push_str(order_line(first, &Order::Join).as_str())?;
        text.push_str(order_line(first, &ask).as_str())?;
    }
    let mut clock = 0;
    let clients = dice.apps.wrapping_mul(dice.threads);
    let times = (clients / 16).wrapping_add(1);
    if times > 1 {
        clock = 1;
        text.push_str(order_line(ClientId::clock(), &Order::Tick(clock)).as_str())?;
        for app in 0..dice.apps {
            for thread in 0..dice.threads {
                text.push_str(order_line(thread_of(app, thread), &Order::Block).as_str())?;
            }
        }
    }
    let more = dice.roll(27).wrapping_add(6);
    for _ in 0..more.wrapping_mul(times) {
        let client = dice.client();
        let order = dice.order(clock);
        if let Order::Tick(moment) = order {
            clock = moment.max(clock);
        }
        text.push_str(order_line(client, &order).as_str())?;
    }
    Ok(text)
}

/// The journal report of a play of a script.
fn played<R: Threads + Wait + AllocGlobal + Abort + Sync>(
    rt: &R,
    topology: &Topology,
    script: &Script,
) -> Result<String, Fail> {
    let mut sink = Watched::new(Vec::new(rt.alloc()));
    let answer = play(rt, rt.alloc(), topology, script, &FreeGate, &mut sink);
    assert_eq!(rt; answer, Ok(()));
    let Watched { inner, failures: _ } = sink;
    Ok(String::from_utf8(inner)?)
}

/// The orders that were entered, as they stand in a journal report.
fn journal_of(alloc: Global, report: &str) -> Result<Script, Fail> {
    let mut orders = String::new(alloc);
    for line in report.lines() {
        if let Some((order, came)) = line.split_once(" -> ") {
            if came != "full" {
                orders.push_str(order)?;
                orders.push_str("\n")?;
            }
        }
    }
    Ok(Script::from_text(alloc, orders.as_str())?)
}

/// The first order of a client from a place of a script on, and the place after it.
fn next_order(script: &Script, client: ClientId, from: usize) -> Option<(Order, usize)> {
    for place in from..script.len() {
        if script.client(place) == client {
            return Some((script.order(place), place.wrapping_add(1)));
        }
    }
    None
}

/// A report that is put together from a script and a journal.
#[derive(Drop)]
struct Retold {
    text: String,
    /// The place in the script after the last order of each client in the journal.
    after: [usize; CLIENTS],
}

impl Retold {
    /// The lines of the journal, with the replies of the plain arbiter. Each order is the client's next in the script.
    fn journal(
        &mut self,
        rt: &impl Abort,
        script: &Script,
        journal: &Script,
        plain: &mut Plain,
        seen: &mut Seen,
    ) -> Result<(), Fail> {
        for place in 0..journal.len() {
            let client = journal.client(place);
            let order = journal.order(place);
            let next = next_order(script, client, self.after[client.index()]);
            let (given, after) = next.ok_or("an order that no script has")?;
            assert_eq!(rt; order, given);
            self.after[client.index()] = after;
            let reply = plain.step(client.index(), &order);
            seen.reply(&reply);
            self.text
                .push_str(entry_line(client, &order, &reply).as_str())?;
        }
        Ok(())
    }

    /// The lines of the other orders, in script order.
    fn full(&mut self, script: &Script) -> Result<(), Fail> {
        for place in 0..script.len() {
            let client = script.client(place);
            if self.after[client.index()] <= place {
                self.text
                    .push_str(full_line(client, &script.order(place)).as_str())?;
            }
        }
        Ok(())
    }

    /// Who has each core of the plain arbiter.
    fn table(&mut self, alloc: Global, plain: &Plain) -> Result<(), Fail> {
        for position in 0..CORES as u32 {
            if let Some((number, socket)) = plain.core(position) {
                let owner = owner_text(alloc, plain, position)?;
                let line = format!(in alloc; "core {number} socket {socket} {owner}\n")?;
                self.text.push_str(line.as_str())?;
            }
        }
        Ok(())
    }
}

/// Who has the core at a position, and whether it is asked back.
fn owner_text(alloc: Global, plain: &Plain, position: u32) -> Result<String, Fail> {
    let Some(owner) = plain.owner(position) else {
        return Ok(format!(in alloc; "free")?);
    };
    let asked = match plain.spot(owner) {
        Spot::On(_, Some(_)) => " asked",
        _ => "",
    };
    let (app, thread) = (owner / THREADS, owner % THREADS);
    Ok(format!(in alloc; "owner {app}.{thread}{asked}")?)
}

/// A play's report is the one that the plain arbiter makes of its journal, and the limit was reached where not all orders
/// of the script stand there.
fn same_report<R: AllocGlobal + Abort>(
    rt: &R,
    machine: Machine,
    script: &Script,
    report: &str,
    seen: &mut Seen,
) -> Result<(), Fail> {
    let journal = journal_of(rt.alloc(), report)?;
    assert_eq!(rt; journal.len(), script.len().min(machine.limit));
    let mut plain = Plain::new(machine.cores, machine.grace);
    let mut retold = Retold {
        text: String::new(rt.alloc()),
        after: [0; CLIENTS],
    };
    retold.journal(rt, script, &journal, &mut plain, seen)?;
    retold.full(script)?;
    retold.table(rt.alloc(), &plain)?;
    assert_eq!(rt; report, retold.text.as_str());
    Ok(())
}

/// Plays scripts of each crew.
fn same_plays<R: Threads + Wait + AllocGlobal + Abort + Sync>(
    rt: &R,
    machine: Machine,
    crews: &[(u64, u64)],
) -> Result<Seen, Fail> {
    let config = format!(in rt.alloc(); "orders = {}\n{}", machine.limit, machine.config)?;
    let topology = Topology::from_text(rt.alloc(), config.as_str())?;
    let mut seen = Seen::default();
    for (apps, threads) in crews {
        let mut dice = Dice {
            state: SEED,
            apps: *apps,
            threads: *threads,
            step: machine.grace / 2,
        };
        for _ in 0..SCRIPTS {
            let text = script_text(rt.alloc(), &mut dice)?;
            let script = Script::from_text(rt.alloc(), text.as_str())?;
            for _ in 0..PLAYS {
                let report = played(rt, &topology, &script)?;
                same_report(rt, machine, &script, report.as_str(), &mut seen)?;
            }
        }
    }
    Ok(seen)
}

/// Plays scripts of each crew on a machine without a limit; the plays are no idle ones.
fn lively_plays<R: Threads + Wait + AllocGlobal + Abort + Sync>(
    rt: &R,
    machine: Machine,
) -> Result<(), Fail> {
    let seen = same_plays(rt, machine, &CREWS)?;
    assert!(rt; seen.refused > 300, "{}", seen.refused);
    assert!(rt; seen.blocked > 300, "{}", seen.blocked);
    assert!(rt; seen.moved > 0, "{}", seen.moved);
    Ok(())
}

#[test]
fn plays_on_two_sockets(rt: HostRuntime) -> Result<(), Fail> {
    let machine = Machine {
        config: TWO_SOCKETS,
        cores: SIX_CORES,
        grace: 10_000,
        limit: 1_000_000,
    };
    lively_plays(&rt, machine)
}

/// A machine of two cores, with a limit on orders.
fn two_cores(limit: usize) -> Machine {
    Machine {
        config: TWO_CORES,
        cores: BOTH_CORES,
        grace: 2000,
        limit,
    }
}

#[test]
fn plays_on_two_cores(rt: HostRuntime) -> Result<(), Fail> {
    lively_plays(&rt, two_cores(1_000_000))
}

/// Each script has more orders than may be entered.
#[test]
fn plays_past_the_limit(rt: HostRuntime) -> Result<(), Fail> {
    let seen = same_plays(&rt, two_cores(9), &CREWS)?;
    assert!(rt; seen.blocked > 0);
    let seen = same_plays(&rt, two_cores(90), &CROWD)?;
    assert!(rt; seen.blocked > 0);
    Ok(())
}

/// More clients call at once than the queue has places.
#[test]
fn plays_of_a_crowd(rt: HostRuntime) -> Result<(), Fail> {
    let seen = same_plays(&rt, two_cores(1_000_000), &CROWD)?;
    assert!(rt; seen.refused > 300, "{}", seen.refused);
    assert!(rt; seen.blocked > 300, "{}", seen.blocked);
    Ok(())
}
