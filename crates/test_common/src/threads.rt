//! Two members on two threads, which give orders at once.

use arb_common::{Given, Member};
use arb_config::Topology;
use arb_core::{ClientId, Order};
use std::test::*;
use std::thread::join;
use test_parts::{TWO_SOCKETS, thread};

/// How often each thread tries.
const TRIES: u32 = 20_000;

/// What a thread saw.
#[derive(Drop)]
struct Saw {
    /// How many of its orders were answered.
    answered: u64,
    /// How often another had the lock.
    busy: u64,
    /// Whether word 0 never fell, and was never less than its own answered orders.
    rose: bool,
}

#[test]
fn two_members_step_one_arbiter(rt: HostRuntime) -> Result<(), Fail> {
    let topology = Topology::from_text(rt.alloc(), TWO_SOCKETS)?;
    let mut last = Member::open(rt.alloc(), &topology, u64::MAX)?;
    let one = last.another()?;
    let two = last.another()?;
    let (first, second) = join(
        &rt,
        move || work(one, thread(0, 0)),
        move || work(two, thread(1, 0)),
    );
    assert!(&rt; first.rose && second.rose);
    assert_eq!(&rt; first.answered.saturating_add(first.busy), u64::from(TRIES));
    assert_eq!(&rt;
        second.answered.saturating_add(second.busy),
        u64::from(TRIES)
    );

    // no order was lost or entered twice
    assert_eq!(&rt;
        last.read(0),
        first.answered.saturating_add(second.answered)
    );
    Ok(())
}

/// Gives the same order again and again, and reads word 0 after each.
fn work(mut member: Member, client: ClientId) -> Saw {
    let mut saw = Saw {
        answered: 0,
        busy: 0,
        rose: true,
    };
    let mut orders = 0;
    for _ in 0..TRIES {
        match member.give(client, &Order::Status) {
            Given::Answered(_) => saw.answered = saw.answered.saturating_add(1),
            Given::Busy => saw.busy = saw.busy.saturating_add(1),
            Given::Full => saw.rose = false,
        }
        let now = member.read(0);
        saw.rose = saw.rose && now >= orders && now >= saw.answered;
        orders = now;
    }
    saw
}
