//! The part `wait`: what it costs to wait, and how soon who waits goes on.

use crate::call::time_calls;
use crate::house::{AT_ONCE, Setting, Team, add_one, one_each, run, thread, threads};
use crate::machine::Machine;
use crate::roles::{Calls, Role, Span, Trial, Wake};
use crate::times::{ensure_woken, print_waits};
use anyhow::{Result, ensure};
use arb_config::Topology;
use arb_house::MOST_OPEN;
use std::alloc::{AllocError, Global};
use std::rt::{Clock, Files};
use std::sync::Wait;
use std::thread::Threads;
use std::time::Duration;

/// How many milliseconds pass until who waits surely sleeps.
const ASLEEP: u64 = 2;

/// The same for a server that has just begun: its first wait is a long one, of ten times as many looks.
const SERVER_ASLEEP: u64 = 10 * ASLEEP;

/// How much is done, and on which machine.
#[derive(Drop)]
struct Plan {
    /// The machine.
    topology: Topology,
    /// Whether times are printed.
    timed: bool,
    /// For how many milliseconds a house does nothing.
    idle: u64,
    /// How often a core is given, and a server called.
    rounds: u64,
    /// How many houses are closed, and how many queues filled.
    houses: usize,
}

/// Waits, of all kinds. Prints what was waited for, or how long that took.
pub fn wait<R: Threads + Wait + Clock + Files + Print + AllocGlobal + Sync>(
    rt: &R,
    timed: bool,
) -> Result<()> {
    // where nothing is timed, little is done
    let (idle, rounds, houses) = if timed {
        (2000, 1000, 100)
    } else {
        (1000, 20, 20)
    };
    let plan = &Plan {
        topology: Machine::new(1, 1).topology(rt.alloc())?,
        timed,
        idle,
        rounds,
        houses,
    };
    for (apps, waiting, name) in IDLE {
        do_nothing(rt, plan, apps, waiting, name)?;
    }
    for (name, pause, wake) in WAITS {
        end_waits(rt, plan, name, pause, wake)?;
    }
    call_a_sleeping_server(rt, plan)?;
    close_at_sleeping_servers(rt, plan)?;
    wait_for_room(rt, plan)
}

/// How many applications there are in a house that does nothing, how many threads of each wait, and the setting's name.
const IDLE: [(u8, u8, &str); 2] = [(1, 1, "one"), (16, 30, "many")];

/// Lets a house do nothing, while threads wait for a core that never comes. Prints how many waited, or how much processor time
/// that took.
fn do_nothing<R: Threads + Wait + Clock + Files + Print + AllocGlobal + Sync>(
    rt: &R,
    plan: &Plan,
    apps: u8,
    waiting: u8,
    name: &str,
) -> Result<()> {
    let used = time_idle(rt, plan, apps, waiting)?.as_millis();
    let length = plan.idle;
    // one thread that looks on uses more, also where nine others share its processor
    ensure!(
        used < u128::from(length / 10),
        "a house that does nothing uses the processor"
    );
    let waiters = u32::from(apps) * u32::from(waiting);
    if plan.timed {
        println!(rt; "wait.idle.{name} {used} ms of processor time in {length} ms")?;
    } else {
        println!(rt; "wait.idle.{name}: threads that waited for a core: {waiters}")?;
    }
    Ok(())
}

/// The processor time of a house that does nothing.
fn time_idle<R: Threads + Wait + Clock + Files + AllocGlobal + Sync>(
    rt: &R,
    plan: &Plan,
    apps: u8,
    waiting: u8,
) -> Result<Duration> {
    // each of these waits until its application leaves
    let trial = Trial {
        count: 1,
        pause: 0,
        wake: Wake::Leave,
    };
    let ids = threads(rt.alloc(), apps, 1, waiting)?;
    let teams = one_each(rt.alloc(), ids, 0, Role::Wait(trial))?;
    let setting = Setting {
        led: apps,
        waiting,
        idle: plan.idle,
        ..AT_ONCE
    };
    let ran = run(rt, &plan.topology, setting, teams.as_slice())?;
    Ok(ran.used)
}

/// The waits that are ended: a name, for how many milliseconds one lasts at least, and what ends it.
const WAITS: [(&str, u64, Wake); 3] = [
    ("wait.core.awake", 0, Wake::Core),
    ("wait.core.asleep", ASLEEP, Wake::Core),
    ("wait.leave.asleep", ASLEEP, Wake::Leave),
];

/// Ends the waits of the last thread of the last application. Prints how many ended, or how soon.
fn end_waits<R: Threads + Wait + Clock + Files + Print + AllocGlobal + Sync>(
    rt: &R,
    plan: &Plan,
    name: &str,
    pause: u64,
    wake: Wake,
) -> Result<()> {
    let trial = Trial {
        count: plan.rounds,
        pause,
        wake,
    };
    let mut teams = Vec::new(rt.alloc());
    add_one(rt.alloc(), &mut teams, thread(15, 30)?, 1, Role::End(trial))?;
    add_one(
        rt.alloc(),
        &mut teams,
        thread(15, 31)?,
        0,
        Role::Wait(trial),
    )?;
    let ran = run(rt, &plan.topology, AT_ONCE, teams.as_slice())?;
    print_soon(rt, plan.timed, name, ran.spans_of(1)?, ran.spans_of(2)?)
}

/// Prints how many waits ended, or how soon after the orders that ended them and after their answers.
fn print_soon<R: Print + AllocGlobal>(
    rt: &R,
    timed: bool,
    name: &str,
    given: &[Span],
    came: &[Span],
) -> Result<()> {
    let from_order = how_soon(rt.alloc(), given, came, false)?;
    ensure_woken(from_order.as_slice())?;
    if timed {
        print_from(rt, name, "from_order", from_order)?;
        let from_answer = how_soon(rt.alloc(), given, came, true)?;
        return print_from(rt, name, "from_answer", from_answer);
    }
    let count = from_order.len();
    println!(rt; "{name}: waits that ended: {count}")?;
    Ok(())
}

/// How soon each wait ended: after the order was about to be posted, or after it was answered; 0 where the wait ended before.
fn how_soon(
    alloc: Global,
    given: &[Span],
    came: &[Span],
    from_answer: bool,
) -> Result<Vec<Duration>, AllocError> {
    let mut times = Vec::new(alloc);
    for (given, came) in given.iter().zip(came) {
        let from = if from_answer {
            given.ended
        } else {
            given.began
        };
        times.push(came.ended.saturating_sub(from))?;
    }
    Ok(times)
}

/// Prints the times of a measure from some moment on.
fn print_from<R: Print + AllocGlobal>(
    rt: &R,
    name: &str,
    moment: &str,
    times: Vec<Duration>,
) -> Result<()> {
    let name = format!(in rt.alloc(); "{name}.{moment}")?;
    print_waits(rt, name.as_str(), times)
}

/// Prints how often something was waited for, or how long that took. Refuses the times of who wasn't woken.
fn print_wakes(
    rt: &impl Print,
    plan: &Plan,
    name: &str,
    counted: &str,
    times: Vec<Duration>,
) -> Result<()> {
    ensure_woken(times.as_slice())?;
    if plan.timed {
        return print_waits(rt, name, times);
    }
    let count = times.len();
    println!(rt; "{name}: {counted}: {count}")?;
    Ok(())
}

/// Calls a server that sleeps. Prints how often, or how long the calls took.
fn call_a_sleeping_server<R: Threads + Wait + Clock + Files + Print + AllocGlobal + Sync>(
    rt: &R,
    plan: &Plan,
) -> Result<()> {
    let calls = Calls {
        times: plan.rounds as usize,
        count: 1,
        pause: ASLEEP,
    };
    let times = time_calls(rt, &plan.topology, calls)?;
    let counted = "calls that were answered";
    print_wakes(rt, plan, "wait.call.asleep", counted, times)
}

/// Closes the clients of servers that sleep. Prints how many servers ended, or how soon.
fn close_at_sleeping_servers<R: Threads + Wait + Clock + Files + Print + AllocGlobal + Sync>(
    rt: &R,
    plan: &Plan,
) -> Result<()> {
    let mut times = Vec::new(rt.alloc());
    for _ in 0..plan.houses {
        let mut teams = Vec::new(rt.alloc());
        let role = Role::Rest(SERVER_ASLEEP);
        add_one(rt.alloc(), &mut teams, thread(0, 0)?, 0, role)?;
        let ran = run(rt, &plan.topology, AT_ONCE, teams.as_slice())?;
        times.push(ran.first(0)?.ended.saturating_sub(ran.first(1)?.ended))?;
    }
    print_wakes(rt, plan, "wait.close.asleep", "servers that ended", times)
}

/// How many clients fill the queue, each with as many orders as it may have open.
const FILLERS: u8 = 8;

/// Fills the queue of a house, and has two clients more call. Gives how long it took until both calls came back, from when the
/// server takes orders, or else is dropped.
fn time_full<R: Threads + Wait + Clock + Files + AllocGlobal + Sync>(
    rt: &R,
    topology: &Topology,
    serves: bool,
) -> Result<Duration> {
    let mut teams = Vec::new(rt.alloc());
    teams.push(Team {
        ids: threads(rt.alloc(), 1, 0, FILLERS)?,
        joins: MOST_OPEN,
        role: Role::Rest(SERVER_ASLEEP),
    })?;
    let call = Role::Call(Calls {
        times: 1,
        count: 1,
        pause: 0,
    });
    let callers = threads(rt.alloc(), 1, FILLERS, 2)?;
    teams.append(&mut one_each(rt.alloc(), callers, 1, call)?)?;
    let setting = Setting {
        pause: ASLEEP,
        serves,
        ..AT_ONCE
    };
    let ran = run(rt, topology, setting, teams.as_slice())?;
    let places = usize::from(FILLERS) * MOST_OPEN;
    ensure!(ran.put == places, "the queue has room");
    let (one, other) = (ran.first(2)?, ran.first(3)?);
    let expected = one.good == serves && other.good == serves;
    ensure!(expected, "a call came to nothing");
    let last = one.ended.max(other.ended);
    Ok(last.saturating_sub(ran.first(0)?.began))
}

/// What two clients wait for that found the queue full: a name, whether the server takes orders or else is dropped, and what
/// is counted.
const FULL: [(&str, bool, &str); 2] = [
    (
        "wait.room.asleep",
        true,
        "pairs of calls that were answered",
    ),
    ("wait.end.asleep", false, "pairs of calls that failed"),
];

/// Lets clients wait for room in the queue. Prints how often, or how soon they went on.
fn wait_for_room<R: Threads + Wait + Clock + Files + Print + AllocGlobal + Sync>(
    rt: &R,
    plan: &Plan,
) -> Result<()> {
    for (name, serves, counted) in FULL {
        let mut times = Vec::new(rt.alloc());
        for _ in 0..plan.houses {
            times.push(time_full(rt, &plan.topology, serves)?)?;
        }
        print_wakes(rt, plan, name, counted, times)?;
    }
    Ok(())
}
