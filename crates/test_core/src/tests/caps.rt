//! Caps: how much of an application's request stands, how long, and which caps are refused.

use crate::tests::setting::Line::{Dues, Gives, Posts};
use crate::tests::setting::{
    ALL_GONE, CLOCK, FIRST, SECOND, TWO_ASKED, TWO_SPARED, after, plays, refused,
};
use arb_core::{MAX_CAP, Order, Refusal, Reply};
use std::test::Fail;
use test_parts::{ask, ask_for};

/// All four cores of application 1 are asked back.
const ALL_ASKED: &[(usize, u64)] = &[(65, 9), (66, 11), (67, 13), (68, 15), (3, 60)];

/// None of the four is any longer.
const ALL_SPARED: &[(usize, u64)] = &[(65, 8), (66, 10), (67, 12), (68, 14), (3, 0)];

#[test]
fn cap_cuts_the_request_and_keeps_it(rt: HostRuntime) -> Result<(), Fail> {
    let levels = ask_for([1, 4, 0, 0, 0, 0, 0, 0]);
    let too_large = refused(Refusal::CapTooLarge);
    for (name, start, lines) in [
        (
            "a greater cap lets more of the request stand, and lets cores that were asked back go",
            SECOND,
            [
                Posts(1, 0, Order::Cap(2), Reply::Due(2), TWO_ASKED),
                Posts(1, 0, levels, Reply::Due(2), &[]),
                Posts(1, 0, Order::Cap(129), too_large, &[]),
                Posts(1, 0, Order::Cap(128), Reply::Due(4), TWO_SPARED),
                Posts(1, 0, Order::Cap(0), Reply::Due(0), ALL_ASKED),
                Posts(1, 0, Order::Cap(128), Reply::Due(4), ALL_SPARED),
                Posts(1, 0, Order::Cap(0), Reply::Due(0), ALL_ASKED),
                Posts(1, 0, Order::Leave, Reply::Done, ALL_GONE),
                Posts(1, 0, Order::Join, Reply::Joined, &[]),
                Posts(1, 0, ask(6), Reply::Due(4), &[]),
            ]
            .as_slice(),
        ),
        (
            "a cap holds for the asks before it and after it, until another comes",
            0,
            &[
                Gives(0, 0, Order::Join, Reply::Joined),
                Gives(0, 0, Order::Cap(2), Reply::Due(0)),
                Gives(0, 0, ask(6), Reply::Due(2)),
                Gives(0, 0, ask(1), Reply::Due(1)),
                Gives(0, 0, ask(5), Reply::Due(2)),
                Gives(0, 0, Order::Cap(3), Reply::Due(3)),
                Gives(0, 0, Order::Cap(5), Reply::Due(5)),
                Gives(0, 0, Order::Cap(128), Reply::Due(5)),
                Gives(0, 0, ask(6), Reply::Due(6)),
            ],
        ),
        (
            "a cap is its application's, and ends where it leaves, whichever thread gave it",
            0,
            &[
                Gives(0, 0, Order::Join, Reply::Joined),
                Gives(0, 0, Order::Cap(1), Reply::Due(0)),
                Gives(1, 0, Order::Join, Reply::Joined),
                Gives(1, 0, Order::Cap(2), Reply::Due(0)),
                Gives(0, 1, ask(6), Reply::Due(1)),
                Gives(1, 1, ask(6), Reply::Due(2)),
                Gives(0, 1, Order::Leave, Reply::Done),
                Gives(0, 0, Order::Join, Reply::Joined),
                Gives(0, 0, ask(6), Reply::Due(4)),
                Gives(1, 1, ask(6), Reply::Due(2)),
            ],
        ),
    ] {
        let mut core = after(&rt, rt.alloc(), start)?;
        plays(&rt, name, &mut core, lines);
    }
    Ok(())
}

/// A cap is refused from the clock first, then from an application that has not joined, and then above 128.
#[test]
fn caps_are_refused_in_order(rt: HostRuntime) -> Result<(), Fail> {
    let mut core = after(&rt, rt.alloc(), FIRST)?;
    for (app, number, cap, refusal) in [
        (CLOCK, 0, 1, Refusal::NotAThread),
        (CLOCK, 0, 129, Refusal::NotAThread),
        (3, 0, 1, Refusal::NotJoined),
        (3, 0, 129, Refusal::NotJoined),
        (0, 1, 129, Refusal::CapTooLarge),
        (0, 1, 255, Refusal::CapTooLarge),
    ] {
        let line = Posts(app, number, Order::Cap(cap), refused(refusal), &[]);
        plays(&rt, "refused", &mut core, &[line]);
    }
    assert_eq!(rt; core.orders(), 12);
    assert_eq!(rt; MAX_CAP, 128);
    let stands = [Dues(&[(0, 2)]), Gives(0, 1, Order::Cap(128), Reply::Due(2))];
    plays(&rt, "refused", &mut core, &stands);
    Ok(())
}
