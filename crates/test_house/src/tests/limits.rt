//! A queue that is full, and the limit on orders, which is three.

use crate::tests::course::{COURSE, Course, Fate, ONE_CLIENT, Run, THREE_ENTERED, follow};
use crate::tests::steps::Step::{Call, Collect, Eight, Open, Post, PostAtLast, Wait};
use crate::tests::steps::{Answered, Row, Step, came_to, now_on};
use arb_house::{CallFault, CollectFault, PostFault};
use arb_model::{Refusal, Reply};
use std::test::*;
use test_parts::Gives::{Ask, Block, Join, Status};
use test_parts::Named;

/// One of the orders that fill the queue.
const FILL: Step = Post(Status, Ok(()));

/// The first one fills no queue.
const NINE: &[Named] = &[
    (8, 0),
    (0, 0),
    (1, 0),
    (2, 0),
    (3, 0),
    (4, 0),
    (5, 0),
    (6, 0),
    (7, 0),
];

const FILLED: &[Row] = &[
    (1, 8, FILL),
    (2, 8, FILL),
    (3, 8, FILL),
    (4, 8, FILL),
    (5, 8, FILL),
    (6, 8, FILL),
    (7, 8, FILL),
    (8, 8, FILL),
    (0, 2, Post(Join, Err(PostFault::Busy))),
    (0, 1, Open(0)),
];

const REFUSED: Reply = Reply::Refused(Refusal::NotJoined);

/// The entries of the orders that fill the queue, and those behind them.
macro_rules! filling {
    ($($behind:expr)?) => {
        &[
            ((0, 0), 0, 8, Status, REFUSED),
            ((1, 0), 0, 8, Status, REFUSED),
            ((2, 0), 0, 8, Status, REFUSED),
            ((3, 0), 0, 8, Status, REFUSED),
            ((4, 0), 0, 8, Status, REFUSED),
            ((5, 0), 0, 8, Status, REFUSED),
            ((6, 0), 0, 8, Status, REFUSED),
            ((7, 0), 0, 8, Status, REFUSED),
            $($behind,)?
        ]
    };
}

const FILLING: &[Run] = filling!();

const FILLING_AND_JOINING: &[Run] = filling!(((8, 0), 0, 1, Join, Reply::Joined));

/// Eight clients have filled the queue.
const FILLED_QUEUE: Course = Course {
    clients: NINE,
    before: FILLED,
    ..COURSE
};

const FULL_QUEUE: &[Course] = &[
    Course {
        beside: &[
            (0, 1, PostAtLast(Join)),
            (0, 1, Open(1)),
            (0, 1, Collect(Ok(Reply::Joined))),
        ],
        entries: Some(65),
        begins: FILLING_AND_JOINING,
        ..FILLED_QUEUE
    },
    Course {
        server: Fate::ServesLate,
        beside: &[(0, 1, Call(Join, Ok(Reply::Joined)))],
        entries: Some(65),
        begins: FILLING_AND_JOINING,
        ..FILLED_QUEUE
    },
    Course {
        server: Fate::ServesLate,
        entries: Some(64),
        begins: FILLING,
        ..FILLED_QUEUE
    },
    Course {
        server: Fate::Dropped,
        ..FILLED_QUEUE
    },
    Course {
        server: Fate::DroppedBeside,
        ..FILLED_QUEUE
    },
    Course {
        server: Fate::DroppedBeside,
        beside: &[(0, 1, Call(Join, Err(CallFault::Post(PostFault::Gone))))],
        ..FILLED_QUEUE
    },
];

/// Eight of nine clients post as many orders as may be open, which fills the queue. The other one's order is taken once the
/// server takes theirs. If it calls or closes before the server serves, it waits for room. If the server is dropped instead,
/// before it closes or while it does, all can close.
#[test]
fn a_full_queue(rt: HostRuntime) -> Result<(), Fail> {
    follow(&rt, FULL_QUEUE)
}

const THREE: &[Answered] = came_to!(2, 2, 1);

const FOUR: &[Row] = &[
    (0, 1, Post(Join, Ok(()))),
    (0, 1, Post(Ask(2), Ok(()))),
    (0, 1, Post(Block, Ok(()))),
    (0, 1, Post(Status, Ok(()))),
];

/// One client, which is answered these three.
const THREE_ANSWERED: Course = Course {
    left: &[(0, THREE)],
    ..THREE_ENTERED
};

const PAST_THE_LIMIT: &[Course] = &[
    Course {
        before: FOUR,
        beside: &[
            (0, 1, Collect(Ok(Reply::Joined))),
            (0, 1, Collect(Ok(Reply::Due(2)))),
            (0, 1, Collect(Ok(now_on!(1)))),
            (0, 1, Collect(Err(CollectFault::Full))),
            (0, 1, Open(0)),
            (0, 1, Post(Status, Err(PostFault::Full))),
            (0, 1, Post(Join, Err(PostFault::Full))),
        ],
        ..THREE_ANSWERED
    },
    // closing with the same orders open, it gets the same replies, and its past is whole
    Course {
        before: FOUR,
        ..THREE_ANSWERED
    },
    Course {
        clients: &[(0, 0), (1, 0)],
        before: &[
            (0, 1, Post(Join, Ok(()))),
            (0, 1, Post(Ask(2), Ok(()))),
            (0, 1, Post(Block, Ok(()))),
            (1, 1, Post(Join, Ok(()))),
            (1, 1, Post(Ask(1), Ok(()))),
        ],
        apart: &[
            (0, 2, Collect(Err(CollectFault::Full))),
            (0, 1, Collect(Err(CollectFault::NothingOut))),
            (0, 1, Post(Join, Err(PostFault::Full))),
        ],
        left: &[(0, THREE), (1, &[])],
        ..THREE_ENTERED
    },
];

/// Three orders are entered: the fourth of one client is past the limit, or both of another client.
#[test]
fn the_limit_in_the_middle_of_orders(rt: HostRuntime) -> Result<(), Fail> {
    follow(&rt, PAST_THE_LIMIT)
}

/// The three orders that are entered.
const ENTERED: &[Row] = &[
    (0, 1, Post(Join, Ok(()))),
    (0, 1, Post(Ask(2), Ok(()))),
    (0, 1, Post(Block, Ok(()))),
];

/// A client closes with orders open that are past the limit. The three before them are another client's, and it has collected so many
/// past the limit before; or they are its own, and it has collected these replies. It posts some of its orders before the server serves,
/// and some behind those replies.
macro_rules! close_past_the_limit {
    (behind_another $full:expr, $open:expr) => {
        Course {
            clients: &[(0, 0), (1, 0)],
            before: ENTERED,
            apart: &[
                (0, $full, Post(Join, Ok(()))),
                (0, $open, Post(Status, Ok(()))),
                (0, $full, Collect(Err(CollectFault::Full))),
            ],
            left: &[(0, THREE), (1, &[])],
            ..THREE_ENTERED
        }
    };
    (behind_its_own [$($reply:expr),*], $early:expr, $late:expr) => {
        Course {
            before: &[
                (0, 1, Post(Join, Ok(()))),
                (0, 1, Post(Ask(2), Ok(()))),
                (0, 1, Post(Block, Ok(()))),
                (0, $early, Post(Status, Ok(()))),
            ],
            beside: &[
                $((0, 1, Collect(Ok($reply))),)*
                (0, $late, Post(Status, Ok(()))),
            ],
            ..THREE_ANSWERED
        }
    };
}

const CLOSES_BEHIND_ANOTHER: &[Course] = &[
    close_past_the_limit!(behind_another 0, 1),
    close_past_the_limit!(behind_another 0, 2),
    close_past_the_limit!(behind_another 0, 3),
    close_past_the_limit!(behind_another 0, 4),
    close_past_the_limit!(behind_another 0, 5),
    close_past_the_limit!(behind_another 0, 6),
    close_past_the_limit!(behind_another 0, 7),
    close_past_the_limit!(behind_another 0, 8),
    close_past_the_limit!(behind_another 1, 1),
    close_past_the_limit!(behind_another 1, 2),
    close_past_the_limit!(behind_another 1, 3),
    close_past_the_limit!(behind_another 1, 4),
    close_past_the_limit!(behind_another 1, 5),
    close_past_the_limit!(behind_another 1, 6),
    close_past_the_limit!(behind_another 1, 7),
    close_past_the_limit!(behind_another 2, 1),
    close_past_the_limit!(behind_another 2, 2),
    close_past_the_limit!(behind_another 2, 3),
    close_past_the_limit!(behind_another 2, 6),
];

/// Up to eight orders of a client meet the limit in its close, and none, one or two before: its past is whole.
#[test]
fn a_client_closes_past_the_limit(rt: HostRuntime) -> Result<(), Fail> {
    follow(&rt, CLOSES_BEHIND_ANOTHER)
}

const CLOSES_BEHIND_ITS_OWN: &[Course] = &[
    close_past_the_limit!(behind_its_own [], 1, 0),
    close_past_the_limit!(behind_its_own [], 2, 0),
    close_past_the_limit!(behind_its_own [], 3, 0),
    close_past_the_limit!(behind_its_own [], 4, 0),
    close_past_the_limit!(behind_its_own [], 5, 0),
    close_past_the_limit!(behind_its_own[Reply::Joined], 1, 0),
    close_past_the_limit!(behind_its_own[Reply::Joined], 3, 0),
    close_past_the_limit!(behind_its_own[Reply::Joined], 5, 0),
    close_past_the_limit!(behind_its_own [Reply::Joined, Reply::Due(2)], 1, 0),
    close_past_the_limit!(behind_its_own [Reply::Joined, Reply::Due(2)], 2, 0),
    close_past_the_limit!(behind_its_own [Reply::Joined, Reply::Due(2)], 3, 0),
    close_past_the_limit!(behind_its_own [Reply::Joined, Reply::Due(2)], 5, 0),
    close_past_the_limit!(behind_its_own [Reply::Joined, Reply::Due(2), now_on!(1)], 0, 1),
    close_past_the_limit!(behind_its_own [Reply::Joined, Reply::Due(2), now_on!(1)], 0, 2),
    close_past_the_limit!(behind_its_own [Reply::Joined, Reply::Due(2), now_on!(1)], 0, 3),
    close_past_the_limit!(behind_its_own [Reply::Joined, Reply::Due(2), now_on!(1)], 0, 4),
    close_past_the_limit!(behind_its_own [Reply::Joined, Reply::Due(2), now_on!(1)], 0, 5),
    close_past_the_limit!(behind_its_own [Reply::Joined, Reply::Due(2), now_on!(1)], 0, 6),
    close_past_the_limit!(behind_its_own [Reply::Joined, Reply::Due(2), now_on!(1)], 0, 7),
    close_past_the_limit!(behind_its_own [Reply::Joined, Reply::Due(2), now_on!(1)], 0, 8),
];

/// So it is where the orders that were entered are its own, whether it has all their replies, some or none.
#[test]
fn a_client_closes_past_its_own_orders(rt: HostRuntime) -> Result<(), Fail> {
    follow(&rt, CLOSES_BEHIND_ITS_OWN)
}

const NO_CORE_YET: Reply = Reply::Counts {
    due: 1,
    owned: 0,
    asked: 0,
    waiting: 0,
};

const MANY_ORDERS: &[Course] = &[Course {
    beside: &[
        (0, 1, Call(Join, Ok(Reply::Joined))),
        (0, 1, Call(Ask(1), Ok(Reply::Due(1)))),
        (0, 16_384, Eight(Status, NO_CORE_YET)),
        (0, 1, Wait(Ok(1))),
        (
            0,
            1,
            Call(
                Status,
                Ok(Reply::Counts {
                    due: 1,
                    owned: 1,
                    asked: 0,
                    waiting: 0,
                }),
            ),
        ),
    ],
    entries: Some(131_076),
    ..ONE_CLIENT
}];

/// A client gives more than 2^17 orders, eight at a time, and then waits for a core and calls. None of this is out of memory.
#[test]
fn a_client_of_many_orders(rt: HostRuntime) -> Result<(), Fail> {
    follow(&rt, MANY_ORDERS)
}
