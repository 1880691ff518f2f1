//! The counts of orders.

use crate::tests::setting::Line::{Gives, Holds};
use crate::tests::setting::{FIRST, WAITS, after, arbiter_of, gives, plays, takes};
use arb_core::{ClientId, Order, Reply};
use std::test::Fail;
use test_parts::{ask, thread};

#[test]
fn orders_are_counted(rt: HostRuntime) -> Result<(), Fail> {
    let core = after(&rt, rt.alloc(), FIRST)?;
    assert_eq!(rt; (core.orders(), core.clock()), (6, 0));
    let counts = [thread(0, 0), thread(0, 1), thread(3, 0), ClientId::clock()].map(
        |client| core.count_of(client),
    );
    assert_eq!(rt; counts, [3, 2, 1, 0]);
    Ok(())
}

#[test]
fn third_order_fills_the_limit(rt: HostRuntime) -> Result<(), Fail> {
    let three_orders = "orders = 3\nsocket = [{managed = [1], unmanaged = [0]}]";
    let mut core = arbiter_of(rt.alloc(), three_orders)?;
    let two = [
        Gives(0, 0, Order::Join, Reply::Joined),
        Gives(0, 0, ask(1), Reply::Due(1)),
    ];
    plays(&rt, "two orders", &mut core, &two);
    assert!(rt; !core.is_full());
    gives(&rt, &mut core, 0, 0, Order::Block);
    assert!(rt; core.is_full());
    Ok(())
}

#[test]
fn renewed_arbiter_goes_on(rt: HostRuntime) -> Result<(), Fail> {
    let three_orders = "orders = 3\nsocket = [{managed = [1], unmanaged = [0]}]";
    let mut core = arbiter_of(rt.alloc(), three_orders)?;
    let three = [
        Gives(0, 0, Order::Join, Reply::Joined),
        Gives(0, 0, ask(1), Reply::Due(1)),
        Gives(0, 0, Order::Block, takes(1)),
    ];
    plays(&rt, "three orders", &mut core, &three);
    assert!(rt; core.is_full() && core.next_stale().is_none());
    core.renew();
    let counts = [
        core.orders(),
        core.posted(0),
        u64::from(core.count_of(thread(0, 0))),
    ];
    assert_eq!(rt; counts, [0, 0, 0]);
    let more = [
        Holds(0, 0, 1),
        Gives(0, 1, Order::Block, WAITS),
        Gives(0, 0, Order::Retire, Reply::Done),
        Holds(0, 1, 1),
    ];
    plays(&rt, "three more", &mut core, &more);
    assert_eq!(rt; core.orders(), 2);
    Ok(())
}
