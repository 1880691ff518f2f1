//! Many members on threads of their own, which give orders at once and wait for the lock.

use arb_waiting::{ClientId, Order, Topology, WaitingMember};
use std::alloc::Global;
use std::rt::Clock;
use std::sync::Wait;
use std::test::*;
use std::thread::{Threads, map_vec};
use std::time::{Duration, Instant};
use test_parts::TWO_SOCKETS;

/// How many orders each thread gives.
const ORDERS: u64 = 5_000;

/// An order that takes so long, in milliseconds, waited for a wake-up that was lost: such a sleep lasts a second.
const LATE: u64 = 800;

/// How often that is tried, since the machine may stand still once.
const TRIES: u32 = 2;

/// What a thread saw.
#[derive(Drop)]
struct Saw {
    /// How many of its orders were answered.
    answered: u64,
    /// How many took long.
    late: u64,
    /// Whether word 0 never fell, and was never less than its own answered orders.
    rose: bool,
}

/// Members of one arbiter, of which the first is kept.
fn members(
    alloc: Global,
    topology: &Topology,
    count: u64,
    limit: u64,
) -> Result<(WaitingMember, Vec<WaitingMember>), Fail> {
    let mut first = WaitingMember::open(alloc, topology, limit)?;
    let mut others = Vec::new(alloc);
    for _ in 0..count {
        others.push(first.another()?)?;
    }
    Ok((first, others))
}

/// Gives the same order again and again, so often at most, and reads word 0 after each.
fn work<R: Wait + Clock>(rt: &R, mut member: WaitingMember, most: u64) -> Saw {
    let mut saw = Saw {
        answered: 0,
        late: 0,
        rose: true,
    };
    let mut orders = 0;
    for _ in 0..most {
        let begun = Instant::now(rt).ok();
        let reply = member.give(rt, ClientId::of_thread(0), &Order::Status);
        let took = begun.and_then(|begun| begun.elapsed(rt).ok());
        if took.is_none_or(|took| took >= Duration::from_millis(LATE)) {
            saw.late = saw.late.saturating_add(1);
        }
        if reply.is_none() {
            break;
        }
        saw.answered = saw.answered.saturating_add(1);
        let now = member.read(0);
        saw.rose = saw.rose && now >= orders && now >= saw.answered;
        orders = now;
    }
    saw
}

#[test]
fn four_members_step_one_arbiter(rt: HostRuntime) -> Result<(), Fail> {
    let topology = Topology::from_text(rt.alloc(), TWO_SOCKETS)?;
    let (mut first, four) = members(rt.alloc(), &topology, 4, u64::MAX)?;
    let run = &rt;
    let saw = map_vec(run, four, &|member| work(run, member, ORDERS))?;
    for saw in &saw {
        assert_eq!(&rt; (saw.answered, saw.rose), (ORDERS, true));
    }
    // no order was lost or entered twice
    assert_eq!(&rt; first.read(0), 4 * ORDERS);
    Ok(())
}

/// Four times as many as there are processors, mostly: so one is preempted while it has the lock, and others sleep.
#[test]
fn many_wait_for_the_lock(rt: HostRuntime) -> Result<(), Fail> {
    let topology = Topology::from_text(rt.alloc(), TWO_SOCKETS)?;
    let mut late = 0;
    for _ in 0..TRIES {
        let (mut first, many) = members(rt.alloc(), &topology, 16, u64::MAX)?;
        let run = &rt;
        let saw = map_vec(run, many, &|member| work(run, member, ORDERS))?;
        assert_eq!(&rt; first.read(0), 16 * ORDERS);
        late = 0;
        for saw in &saw {
            late = saw.late.saturating_add(late);
        }
        if late == 0 {
            break;
        }
    }
    assert_eq!(&rt; late, 0);
    Ok(())
}

#[test]
fn all_meet_the_limit(rt: HostRuntime) -> Result<(), Fail> {
    let topology = Topology::from_text(rt.alloc(), TWO_SOCKETS)?;
    let (mut first, four) = members(rt.alloc(), &topology, 4, ORDERS)?;
    let run = &rt;
    let mut answered: u64 = 0;
    for saw in map_vec(run, four, &|member| work(run, member, ORDERS + 1))? {
        assert!(&rt; saw.rose);
        answered = saw.answered.saturating_add(answered);
    }
    assert_eq!(&rt; answered, ORDERS);
    assert_eq!(&rt; first.read(0), ORDERS);
    assert_eq!(&rt;
        first.give(&rt, ClientId::of_thread(0), &Order::Status),
        None
    );
    Ok(())
}
