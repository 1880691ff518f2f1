//! Waiting members on one thread, one call after another: none has to wait.

use arb_waiting::layout::{FIRST_CORE, FIRST_PLACE};
use arb_waiting::{ClientId, Order, Place, Reply, Topology, WaitingMember};
use std::process::Abort;
use std::sync::Wait;
use std::test::*;
use test_parts::{TWO_SOCKETS, ask};

/// The first thread's place.
const KEPT: Place = Place::On {
    core: 1,
    asked: false,
};

/// The second thread's place.
const ASKED_BACK: Place = Place::On {
    core: 2,
    asked: true,
};

/// After five orders the first thread has a core, and the second one's is asked back.
fn reads<R: Wait + Abort>(rt: &R, member: &mut WaitingMember) {
    let (first, second) = (ClientId::of_thread(0), ClientId::of_thread(1));
    assert_eq!(rt; member.read(0), 5);
    assert_eq!(rt; member.read(FIRST_PLACE + 1), FIRST_CORE + 3);
    assert_eq!(rt; member.place(first), KEPT);
    assert_eq!(rt; member.must_release(first), Some(false));
    assert_eq!(rt; member.wait_for_core(rt, first), KEPT);
    assert_eq!(rt; member.place(second), ASKED_BACK);
    assert_eq!(rt; member.must_release(second), Some(true));
    assert_eq!(rt; member.wait_for_core(rt, second), ASKED_BACK);
}

#[test]
fn members_read_what_any_of_them_gave(rt: HostRuntime) -> Result<(), Fail> {
    let topology = Topology::from_text(rt.alloc(), TWO_SOCKETS)?;
    let mut one = WaitingMember::open(rt.alloc(), &topology, u64::MAX)?;
    let mut two = one.another()?;
    let (first, second) = (ClientId::of_thread(0), ClientId::of_thread(1));
    assert_eq!(&rt; one.place(first), Place::Unmanaged);
    assert_eq!(&rt; one.must_release(first), None);
    assert_eq!(&rt; one.wait_for_core(&rt, first), Place::Unmanaged);

    // two cores are due, and then one
    assert_eq!(&rt; one.give(&rt, first, &Order::Join), Some(Reply::Joined));
    assert_eq!(&rt; two.give(&rt, first, &ask(2)), Some(Reply::Due(2)));
    assert_eq!(&rt; one.give(&rt, first, &Order::Block), Some(Reply::Now(KEPT)));
    assert!(&rt; two.give(&rt, second, &Order::Block).is_some());
    assert_eq!(&rt; one.give(&rt, first, &ask(1)), Some(Reply::Due(1)));
    reads(&rt, &mut one);
    reads(&rt, &mut two);
    Ok(())
}

/// The limit is three orders.
fn is_full<R: Wait + Abort>(rt: &R, member: &mut WaitingMember) {
    assert_eq!(rt;
        member.give(rt, ClientId::of_thread(0), &Order::Retire),
        None
    );
    assert_eq!(rt; member.read(0), 3);
    assert_eq!(rt; member.read(FIRST_PLACE), FIRST_CORE);
}

#[test]
fn an_order_past_the_limit_has_no_reply(rt: HostRuntime) -> Result<(), Fail> {
    let topology = Topology::from_text(rt.alloc(), TWO_SOCKETS)?;
    let mut one = WaitingMember::open(rt.alloc(), &topology, 3)?;
    let mut two = one.another()?;
    for order in [Order::Join, ask(1), Order::Block] {
        assert!(&rt; one.give(&rt, ClientId::of_thread(0), &order).is_some());
    }
    // the lock is free again after each
    is_full(&rt, &mut one);
    is_full(&rt, &mut two);
    Ok(())
}
