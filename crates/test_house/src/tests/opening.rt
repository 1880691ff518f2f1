//! Houses that are opened, one that is refused, and clients that close, with open orders and without.

use crate::tests::course::{COURSE, Course, ONE_CLIENT, follow};
use crate::tests::steps::Step::{Call, Collect, Open, Post};
use crate::tests::steps::{Answered, Row};
use arb_house::{CollectFault, PostFault};
use arb_model::Reply;
use std::test::*;
use test_parts::Gives::{Join, Status};
use test_parts::{CLOCK, NO_COUNTS};

const HOUSES: &[Course] = &[
    Course {
        clients: &[(0, 0), (0, 0)],
        twice: Some((0, 0)),
        ..COURSE
    },
    Course {
        clients: &[(0, 1), (0, 0), (0, 0), (0, 1)],
        twice: Some((0, 0)),
        ..COURSE
    },
    Course {
        clients: &[(1, 0), CLOCK, (0, 31)],
        ..COURSE
    },
    COURSE,
    Course {
        crowd: 16,
        clients: &[CLOCK],
        ..COURSE
    },
];

/// The first client that equals an earlier one is named. Else the clients come in the order of the list. A house may have
/// none, and all that there are.
#[test]
fn a_client_is_named_once(rt: HostRuntime) -> Result<(), Fail> {
    follow(&rt, HOUSES)
}

const ONE_ORDER: &[Course] = &[Course {
    before: &[(0, 1, Post(Join, Ok(())))],
    entries: Some(1),
    begins: &[((0, 0), 0, 1, Join, Reply::Joined)],
    left: &[(0, &[(1, Join, Reply::Joined)])],
    ..ONE_CLIENT
}];

/// One client joins and closes.
#[test]
fn one_client_joins_and_closes(rt: HostRuntime) -> Result<(), Fail> {
    follow(&rt, ONE_ORDER)
}

/// What a client was answered that joined and asked for its counts seven times.
const JOIN_AND_SEVEN: &[Answered] = &[(1, Join, Reply::Joined), (7, Status, NO_COUNTS)];

const OPEN_ORDERS: &[Course] = &[
    Course {
        before: &[
            (0, 1, Post(Join, Ok(()))),
            (0, 7, Post(Status, Ok(()))),
            (0, 1, Post(Status, Err(PostFault::TooManyOut))),
            (0, 1, Open(8)),
        ],
        entries: Some(8),
        left: &[(0, JOIN_AND_SEVEN)],
        ..ONE_CLIENT
    },
    Course {
        beside: &[
            (0, 1, Call(Join, Ok(Reply::Joined))),
            (0, 7, Post(Status, Ok(()))),
            (0, 1, Open(7)),
        ],
        entries: Some(8),
        left: &[(0, JOIN_AND_SEVEN)],
        ..ONE_CLIENT
    },
];

/// A client may have eight open orders, and it may close while seven or eight are open.
#[test]
fn a_client_may_have_eight_open_orders(rt: HostRuntime) -> Result<(), Fail> {
    follow(&rt, OPEN_ORDERS)
}

/// A client posts as many orders as may be open: it joins, and asks for its counts seven times.
pub const EIGHT_ORDERS: &[Row] = &[(0, 1, Post(Join, Ok(()))), (0, 7, Post(Status, Ok(())))];

const LATE_COLLECTS: &[Course] = &[Course {
    clients: &[(0, 0), (1, 0)],
    before: EIGHT_ORDERS,
    beside: &[
        (1, 1, Call(Join, Ok(Reply::Joined))),
        (1, 20, Call(Status, Ok(NO_COUNTS))),
        (0, 1, Open(8)),
        (0, 1, Collect(Ok(Reply::Joined))),
        (0, 7, Collect(Ok(NO_COUNTS))),
        (0, 1, Collect(Err(CollectFault::NothingOut))),
    ],
    entries: Some(29),
    begins: &[
        ((0, 0), 0, 1, Join, Reply::Joined),
        ((0, 0), 1, 8, Status, NO_COUNTS),
    ],
    left: &[(0, JOIN_AND_SEVEN)],
    ..COURSE
}];

/// The other client is answered again and again while the first one's eight answers lie in their places. Then that one
/// collects.
#[test]
fn a_client_collects_eight_replies_late(rt: HostRuntime) -> Result<(), Fail> {
    follow(&rt, LATE_COLLECTS)
}
