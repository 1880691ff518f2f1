//! A server that is dropped before it serves. Its clients' pasts aren't whole, and are empty.

use crate::tests::course::{Course, Fate, ONE_CLIENT, follow};
use crate::tests::opening::EIGHT_ORDERS;
use crate::tests::steps::Row;
use crate::tests::steps::Step::{
    Call, Collect, HasNothing, Is, Learn, Mine, Open, Place, Post, Wait, WaitToTheEnd,
};
use arb_house::{CallFault, CollectFault, PostFault, WaitFault};
use arb_model::Place as At;
use std::test::*;
use test_parts::Gives::{Join, Status};

const GONE: CallFault = CallFault::Post(PostFault::Gone);

const JOIN: &[Row] = &[(0, 1, Post(Join, Ok(())))];

const COLLECTS_FIRST: &[Row] = &[
    (0, 1, Collect(Err(CollectFault::Gone))),
    (0, 1, Post(Join, Err(PostFault::Gone))),
    (0, 1, Open(0)),
    (0, 1, Collect(Err(CollectFault::NothingOut))),
];

/// One client, whose server is dropped.
const DROPPED: Course = Course {
    server: Fate::Dropped,
    ..ONE_CLIENT
};

/// A client posts these orders, and one more after the end, when so many are open.
macro_rules! post_after_the_end {
    ($before:expr, $open:expr) => {
        Course {
            before: $before,
            beside: &[
                (0, 1, Post(Status, Err(PostFault::Gone))),
                (0, 1, Open($open)),
                (0, 1, Collect(Err(CollectFault::Gone))),
                (0, 1, Open(0)),
            ],
            ..DROPPED
        }
    };
}

const COURSES: &[Course] = &[
    // an open order is gone with the server
    Course {
        before: JOIN,
        beside: COLLECTS_FIRST,
        ..DROPPED
    },
    // an order after the end is not posted
    post_after_the_end!(JOIN, 1),
    // also where as many are open as may be
    post_after_the_end!(EIGHT_ORDERS, 8),
    // nor is one to block, and no core is waited for
    Course {
        beside: &[
            (0, 1, Wait(Err(WaitFault::Call(GONE)))),
            (0, 1, Open(0)),
            (0, 1, Call(Join, Err(GONE))),
            (0, 1, Place(At::Unmanaged)),
        ],
        ..DROPPED
    },
    // a client without open orders closes
    DROPPED,
    // each thread is unmanaged, and no core of its application is asked back, whatever clients tell each other
    Course {
        clients: &[(0, 0), (0, 1)],
        before: JOIN,
        beside: &[
            (0, 1, Collect(Err(CollectFault::Gone))),
            (0, 1, HasNothing),
            (1, 1, Learn(0)),
            (1, 1, HasNothing),
            (0, 1, Learn(1)),
            (0, 1, HasNothing),
            (0, 1, Is((0, 0))),
            (0, 1, Mine(&[])),
        ],
        ..DROPPED
    },
    // a client waits for a reply, or for a core, while the server ends
    Course {
        before: JOIN,
        server: Fate::DroppedBeside,
        beside: COLLECTS_FIRST,
        ..DROPPED
    },
    Course {
        server: Fate::DroppedBeside,
        beside: &[
            (0, 1, WaitToTheEnd),
            (0, 1, Post(Join, Err(PostFault::Gone))),
            (0, 1, Open(0)),
            (0, 1, Place(At::Unmanaged)),
        ],
        ..DROPPED
    },
];

#[test]
fn clients_of_a_server_that_is_dropped(rt: HostRuntime) -> Result<(), Fail> {
    follow(&rt, COURSES)
}
