//! The `example_members` program: threads of two runtimes share the cores of a machine, without a server.
//!
//! Application 0 has three threads, in the background at the lowest level. Application 1 has two, at the highest level, for which
//! cores are asked back. Each thread has a member of the one arbiter. What is printed is the same whatever the schedule.
#![tactic(auto)]

use anyhow::{Context, Result};
use arb_waiting::{ClientId, Order, Request, Topology, WaitingMember};
use std::sync::Wait;
use std::sync::atomic::AtomicU64;
use std::sync::atomic::Ordering::SeqCst;
use std::thread::map_vec;

/// Two cores to share, and one that the ordinary scheduler keeps.
const MACHINE: &str = "[[socket]]\nmanaged = [1, 2]\nunmanaged = [0]\n";

/// How many numbers each runtime adds up.
const NUMBERS: u64 = 100_000;

/// What the threads of a runtime share: its level, how many of them haven't ended, the next number, and the sum so far.
#[derive(Drop)]
struct Runtime {
    level: usize,
    working: AtomicU64,
    next: AtomicU64,
    sum: AtomicU64,
}

impl Runtime {
    fn new(level: usize, threads: u64) -> Runtime {
        Runtime {
            level,
            working: AtomicU64::new(threads),
            next: AtomicU64::new(0),
            sum: AtomicU64::new(0),
        }
    }

    /// A thread, from its first order to its last. `None` where the limit on orders is reached.
    fn run<R: Wait>(&self, rt: &R, own: (u8, u8), mut member: WaitingMember) -> Option<()> {
        let own = ClientId::app(own.0, own.1)?;
        let ask = Order::Ask(Request::at(self.level, 2).unwrap_or_default());
        // each reply stands in the one history, past all that the member had seen; after the first thread this is a refusal
        member.give(rt, own, &Order::Join)?;
        member.give(rt, own, &ask)?;
        for _ in rt.forever() {
            // one load and no wait: whether its core is asked back; `None` on no core
            if member.must_release(own) != Some(false) {
                // gives back the core that it has, and sleeps until it is on one
                member.give(rt, own, &Order::Block)?;
                let _place = member.wait_for_core(rt, own);
            }
            let number = self.next.fetch_add(1, SeqCst);
            if number >= NUMBERS {
                break;
            }
            self.sum.fetch_add(number, SeqCst);
        }
        // gives the core back for good; the application leaves by its last thread's order
        member.give(rt, own, &Order::Retire)?;
        if self.working.fetch_sub(1, SeqCst) == 1 {
            member.give(rt, own, &Order::Leave)?;
        }
        Some(())
    }
}

fn main(rt: HostRuntime) -> Result<()> {
    let topology = Topology::from_text(rt.alloc(), MACHINE)?;
    let mut first = WaitingMember::open(rt.alloc(), &topology, u64::MAX)?;
    let runtimes = [Runtime::new(7, 3), Runtime::new(0, 2)];
    let [background, service] = &runtimes;
    let mut threads = Vec::new(rt.alloc());
    for own in [(0, 0), (0, 1), (0, 2), (1, 0), (1, 1)] {
        threads.push((own, first.another()?))?;
    }
    let runtime = |app| if app == 0 { background } else { service };
    let run = &rt;
    for done in map_vec(
        run,
        threads,
        &|(own, member)| runtime(own.0).run(run, own, member),
    )? {
        done.context("an order had no reply")?;
    }
    let sums = (background.sum.load(SeqCst), service.sum.load(SeqCst));
    println!(rt; "the sums of both runtimes: {sums:?}")?;
    Ok(())
}
