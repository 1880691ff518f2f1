//! How cores are shared among applications, and how they change hands.

use crate::tests::setting::Line::{At, Dues, Free, Gives, Holds, Posts};
use crate::tests::setting::{
    ALL_GONE, CLOCK, FIRST, SECOND, THIRD, TWO_SPARED, WAITS, after, arbiter_of, asked_on, due,
    gives, on, plays, refused, takes,
};
use arb_core::{Order, Place, Refusal, Reply};
use std::test::Fail;
use test_parts::{WIDE, ask};

/// One socket with 64 managed cores.
const SIXTY_FOUR_CORES: &str = "[[socket]]
managed = [
   1,  2,  3,  4,  5,  6,  7,  8,  9, 10, 11, 12, 13, 14, 15, 16,
  17, 18, 19, 20, 21, 22, 23, 24, 25, 26, 27, 28, 29, 30, 31, 32,
  33, 34, 35, 36, 37, 38, 39, 40, 41, 42, 43, 44, 45, 46, 47, 48,
  49, 50, 51, 52, 53, 54, 55, 56, 57, 58, 59, 60, 61, 62, 63, 64,
]
unmanaged = [0]
";

#[test]
fn cores_are_taken(rt: HostRuntime) -> Result<(), Fail> {
    let no_thread = refused(Refusal::NotAThread);
    for (name, start, lines) in [
        (
            "the clock is no thread",
            0,
            [
                Gives(CLOCK, 0, Order::Join, no_thread),
                Gives(CLOCK, 0, Order::Leave, no_thread),
                At(CLOCK, 0, Place::Unmanaged),
            ]
            .as_slice(),
        ),
        (
            "its own core is taken again, and retiring twice changes nothing",
            FIRST,
            &[
                At(0, 0, on(1)),
                At(0, 1, on(2)),
                Posts(0, 0, Order::Block, takes(1), &[]),
                At(0, 0, on(1)),
                At(0, 1, on(2)),
                Posts(0, 1, Order::Retire, Reply::Done, &[(34, 0)]),
                At(0, 0, on(1)),
                At(0, 1, Place::Unmanaged),
                Posts(0, 1, Order::Retire, Reply::Done, &[]),
                At(0, 0, on(1)),
                At(0, 1, Place::Unmanaged),
            ],
        ),
        (
            "a thread on a core retires",
            FIRST,
            &[
                Posts(0, 1, Order::Retire, Reply::Done, &[(34, 0)]),
                Posts(0, 1, Order::Retire, Reply::Done, &[]),
            ],
        ),
        (
            "the second application leaves the first its cores",
            SECOND,
            &[
                Holds(0, 0, 1),
                Holds(0, 1, 2),
                Holds(1, 0, 3),
                Holds(1, 1, 5),
                Holds(1, 2, 6),
                Holds(1, 3, 7),
                Free(&[0, 4, 8, 65535]),
            ],
        ),
    ] {
        let mut core = after(&rt, rt.alloc(), start)?;
        plays(&rt, name, &mut core, lines);
    }
    Ok(())
}

/// Application 1 has four cores, and application 2 has just asked for some of them.
#[test]
fn cores_change_hands(rt: HostRuntime) -> Result<(), Fail> {
    let counts = Reply::Counts {
        due: 2,
        owned: 4,
        asked: 2,
        waiting: 0,
    };
    for (name, lines) in [
        (
            "two cores are asked back",
            [
                Dues(&[(0, 2), (1, 2), (2, 2)]),
                At(0, 0, on(1)),
                At(0, 1, on(2)),
                At(1, 0, asked_on(3)),
                At(1, 1, on(5)),
                At(1, 2, on(6)),
                At(1, 3, asked_on(7)),
                At(2, 0, Place::Unmanaged),
                Gives(1, 0, Order::Status, counts),
            ]
            .as_slice(),
        ),
        (
            "a core that is given back is handed over",
            &[
                Posts(2, 0, Order::Block, WAITS, &[(97, 1)]),
                Posts(1, 0, Order::Block, WAITS, &[(65, 1), (3, 32), (97, 8)]),
                At(2, 0, on(3)),
            ],
        ),
        (
            "both asks are withdrawn",
            &[
                Posts(2, 0, ask(0), Reply::Due(0), TWO_SPARED),
                Dues(&[(0, 2), (1, 4), (2, 0)]),
                At(1, 0, on(3)),
                At(1, 3, on(7)),
            ],
        ),
        (
            "one of two asks is withdrawn",
            &[
                Posts(2, 0, ask(1), Reply::Due(1), &[(68, 14), (3, 4)]),
                Dues(&[(0, 2), (1, 3), (2, 1)]),
                At(1, 0, asked_on(3)),
                At(1, 3, on(7)),
            ],
        ),
        (
            "the thread that waits longest takes the core",
            &[
                Gives(2, 0, Order::Block, WAITS),
                Gives(2, 1, Order::Block, WAITS),
                Gives(1, 0, Order::Block, WAITS),
                At(2, 0, on(3)),
                At(2, 1, Place::Waiting),
                Gives(1, 3, Order::Block, WAITS),
                At(2, 0, on(3)),
                At(2, 1, on(7)),
            ],
        ),
        (
            "the smaller application is granted first",
            &[
                Gives(3, 0, Order::Join, Reply::Joined),
                Gives(3, 0, ask(6), Reply::Due(1)),
                Dues(&[(0, 2), (1, 2), (2, 1), (3, 1)]),
                Gives(2, 0, Order::Block, WAITS),
                Gives(3, 0, Order::Block, WAITS),
                Gives(1, 0, Order::Block, WAITS),
                At(2, 0, on(3)),
                At(3, 0, Place::Waiting),
            ],
        ),
        (
            "leaving frees all cores",
            &[
                Posts(1, 0, Order::Leave, Reply::Done, ALL_GONE),
                At(1, 0, Place::Unmanaged),
                At(1, 1, Place::Unmanaged),
                At(1, 2, Place::Unmanaged),
                At(1, 3, Place::Unmanaged),
                Gives(1, 0, Order::Status, refused(Refusal::NotJoined)),
                Gives(2, 0, Order::Block, takes(3)),
            ],
        ),
    ] {
        let mut core = after(&rt, rt.alloc(), THIRD)?;
        plays(&rt, name, &mut core, lines);
    }
    Ok(())
}

/// Sixteen applications want all cores of a machine. Where one of them is capped, the others share what it leaves: 124
/// cores are 8 for each, and 4 more.
#[test]
fn sixteen_applications_share_all(rt: HostRuntime) -> Result<(), Fail> {
    for (text, cores, share) in [(SIXTY_FOUR_CORES, 64, 4), (WIDE, 128, 8)] {
        let mut core = arbiter_of(rt.alloc(), text)?;
        for app in 0..16 {
            assert_eq!(rt; gives(&rt, &mut core, app, 0, Order::Join), Reply::Joined);
            gives(&rt, &mut core, app, 0, ask(cores));
        }
        for app in 0..16 {
            assert_eq!(rt; due(&rt, &mut core, app), Some(share));
        }
        if cores == 128 {
            let capped = gives(&rt, &mut core, 0, 0, Order::Cap(4));
            assert_eq!(rt; capped, Reply::Due(4));
            for app in 1..16 {
                let share = if app <= 4 { 9 } else { 8 };
                assert_eq!(rt; due(&rt, &mut core, app), Some(share));
            }
        }
    }
    Ok(())
}
