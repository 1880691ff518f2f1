//! Asking moments and the grace: who is moved when.

use crate::tests::setting::Line::{At, Clock, Dues, Free, Gives, Holds, Posts, Ticks};
use crate::tests::setting::{
    GRACE, SECOND, THIRD, TWO_ASKED, TWO_MOVED, WAITS, after, asked_on, on, plays, refused,
};
use arb_core::{Order, Place, Refusal, Reply};
use std::test::Fail;
use test_parts::ask;

#[test]
fn asked_cores_are_kept_for_the_grace(rt: HostRuntime) -> Result<(), Fail> {
    for (name, start, lines) in [
        (
            "two threads are moved",
            GRACE,
            [
                At(1, 0, Place::Moved),
                At(1, 1, on(5)),
                At(1, 2, on(6)),
                At(1, 3, Place::Moved),
                Free(&[3, 7]),
                Clock(10000),
            ]
            .as_slice(),
        ),
        (
            "a moved thread retires",
            GRACE,
            &[
                At(1, 3, Place::Moved),
                Gives(1, 3, Order::Retire, Reply::Done),
                At(1, 3, Place::Unmanaged),
                At(1, 0, Place::Moved),
            ],
        ),
        (
            "free cores stay free until they are due",
            GRACE,
            &[
                Gives(1, 0, Order::Block, WAITS),
                Free(&[3, 7]),
                Gives(1, 0, Order::Block, refused(Refusal::AlreadyWaiting)),
                Gives(2, 0, ask(0), Reply::Due(0)),
                Dues(&[(0, 2), (1, 4), (2, 0)]),
                Holds(1, 0, 7),
                Free(&[3]),
            ],
        ),
        (
            "the first moment is past the grace",
            THIRD,
            &[Ticks(10000, Reply::Moved(2), TWO_MOVED)],
        ),
        (
            "a thread gives the moment",
            THIRD,
            &[Gives(0, 0, Order::Tick(5000), Reply::Moved(0)), Clock(5000)],
        ),
        (
            "a renewed ask has a new moment",
            THIRD,
            &[
                Ticks(4000, Reply::Moved(0), &[]),
                Gives(2, 0, ask(0), Reply::Due(0)),
                Gives(2, 0, ask(6), Reply::Due(2)),
                At(1, 0, asked_on(3)),
                At(1, 3, asked_on(7)),
                Ticks(13999, Reply::Moved(0), &[]),
                Ticks(14000, Reply::Moved(2), TWO_MOVED),
            ],
        ),
        (
            "cores that are asked back for a cap are kept as long",
            SECOND,
            &[
                Posts(1, 0, Order::Cap(2), Reply::Due(2), TWO_ASKED),
                Ticks(9999, Reply::Moved(0), &[]),
                Ticks(10000, Reply::Moved(2), TWO_MOVED),
            ],
        ),
    ] {
        let mut core = after(&rt, rt.alloc(), start)?;
        plays(&rt, name, &mut core, lines);
    }
    Ok(())
}
