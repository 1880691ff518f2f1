//! Waiting for a core, and what a told client reads of cores that are asked back.

use crate::tests::course::{COURSE, Course, ONE_CLIENT, THREE_ENTERED, follow};
use crate::tests::steps::Step::{
    AllBlock, Asked, Call, Collect, HasNothing, Is, Learn, Mine, Place, Post, Release,
    UntilOneWaits, Wait,
};
use crate::tests::steps::{Answered, came_to, now_on, on};
use arb_house::{CallFault, CollectFault, PostFault, WaitFault};
use arb_model::{Half, Place as At, Refusal, Reply};
use std::test::*;
use test_parts::Gives::{Ask, Block, Join, Leave};
use test_parts::{CLOCK, WIDE};

const REFUSED_FIRST: &[Course] = &[Course {
    beside: &[
        (0, 1, Wait(Err(WaitFault::Refused(Refusal::NotJoined)))),
        (0, 1, Call(Join, Ok(Reply::Joined))),
        (0, 1, Call(Ask(1), Ok(Reply::Due(1)))),
        (0, 1, Wait(Ok(1))),
        (0, 1, Place(on!(1))),
    ],
    entries: Some(4),
    left: &[(
        0,
        &[
            (1, Block, Reply::Refused(Refusal::NotJoined)),
            (1, Join, Reply::Joined),
            (1, Ask(1), Reply::Due(1)),
            (1, Block, now_on!(1)),
        ],
    )],
    ..ONE_CLIENT
}];

/// It isn't joined yet; then it joins, asks for a core, and gets one.
#[test]
fn a_core_is_waited_for(rt: HostRuntime) -> Result<(), Fail> {
    follow(&rt, REFUSED_FIRST)
}

const LEAVES_BESIDE: &[Course] = &[Course {
    clients: &[(0, 0), (0, 1)],
    before: &[(0, 1, Post(Join, Ok(())))],
    beside: &[
        (0, 1, Collect(Ok(Reply::Joined))),
        (0, 1, UntilOneWaits),
        (0, 1, Call(Leave, Ok(Reply::Done))),
    ],
    apart: &[(0, 1, Wait(Err(WaitFault::Lost(At::Unmanaged))))],
    entries: None,
    left: &[(1, &[(1, Block, Reply::Now(At::Waiting))])],
    ..COURSE
}];

/// One thread joins its application, and leaves it while the other waits. How often it asks whether that one waits isn't said.
#[test]
fn a_waiting_thread_whose_application_leaves(rt: HostRuntime) -> Result<(), Fail> {
    follow(&rt, LEAVES_BESIDE)
}

const PAST_THE_LIMIT: &[Course] = &[Course {
    beside: &[
        (0, 1, Call(Join, Ok(Reply::Joined))),
        (0, 1, Call(Ask(1), Ok(Reply::Due(1)))),
        (0, 1, Call(Ask(2), Ok(Reply::Due(2)))),
        (
            0,
            1,
            Wait(Err(WaitFault::Call(CallFault::Collect(CollectFault::Full)))),
        ),
        (
            0,
            1,
            Wait(Err(WaitFault::Call(CallFault::Post(PostFault::Full)))),
        ),
        (0, 1, Place(At::Unmanaged)),
    ],
    ..THREE_ENTERED
}];

/// Three orders are entered. The order to block is past the limit, and no order is posted after it.
#[test]
fn a_wait_for_a_core_past_the_limit(rt: HostRuntime) -> Result<(), Fail> {
    follow(&rt, PAST_THE_LIMIT)
}

const ANSWERED: &[Answered] = came_to!(6, 4, 3);

const ASKED_BACK: &[Course] = &[Course {
    clients: &[
        (0, 0),
        (0, 1),
        (1, 0),
        (1, 1),
        (1, 2),
        (1, 3),
        (2, 0),
        CLOCK,
    ],
    beside: &[
        (0, 1, Call(Join, Ok(Reply::Joined))),
        (0, 1, Call(Ask(2), Ok(Reply::Due(2)))),
        (0, 1, Call(Block, Ok(now_on!(1)))),
        (1, 1, Call(Block, Ok(now_on!(2)))),
        (2, 1, Call(Join, Ok(Reply::Joined))),
        (2, 1, Call(Ask(6), Ok(Reply::Due(4)))),
        (2, 1, Call(Block, Ok(now_on!(3)))),
        (3, 1, Call(Block, Ok(now_on!(5)))),
        (4, 1, Call(Block, Ok(now_on!(6)))),
        (5, 1, Call(Block, Ok(now_on!(7)))),
        (6, 1, Call(Join, Ok(Reply::Joined))),
        (6, 1, Call(Ask(6), Ok(Reply::Due(2)))),
        (2, 1, Learn(6)),
        (2, 1, Release(Some(true))),
        (
            2,
            1,
            Place(At::On {
                core: 3,
                asked: true,
            }),
        ),
        (2, 1, Asked(Half::Low, 36)),
        (2, 1, Asked(Half::High, 0)),
        (7, 1, Learn(2)),
        (7, 1, HasNothing),
        // these two are still who they were, and remember their orders
        (2, 1, Is((1, 0))),
        (2, 1, Mine(ANSWERED)),
        (7, 1, Is(CLOCK)),
        (7, 1, Mine(&[])),
    ],
    entries: Some(12),
    left: &[(2, ANSWERED), (7, &[])],
    ..COURSE
}];

/// Two applications' clients have the cores that they ask for, as far as there are. Then a third one asks for as many. Its
/// client tells, and the others learn and read.
#[test]
fn a_told_client_sees_its_core_asked_back(rt: HostRuntime) -> Result<(), Fail> {
    follow(&rt, ASKED_BACK)
}

const WIDE_MACHINE: &[Course] = &[Course {
    machine: WIDE,
    // all threads of the applications 0 and 1, and the first two of application 2
    crowd: 2,
    clients: &[(2, 0), (2, 1)],
    beside: &[
        (0, 1, Call(Join, Ok(Reply::Joined))),
        (0, 1, Call(Ask(32), Ok(Reply::Due(32)))),
        (32, 1, Call(Join, Ok(Reply::Joined))),
        (32, 1, Call(Ask(32), Ok(Reply::Due(32)))),
        (64, 1, Call(Join, Ok(Reply::Joined))),
        (64, 1, Call(Ask(32), Ok(Reply::Due(32)))),
        (0, 1, AllBlock),
        (64, 1, Call(Ask(1), Ok(Reply::Due(1)))),
        (64, 1, Asked(Half::Low, 0)),
        (64, 1, Asked(Half::High, 2)),
        (64, 1, Release(Some(false))),
        (65, 1, Learn(64)),
        (65, 1, Asked(Half::Low, 0)),
        (65, 1, Asked(Half::High, 2)),
        (65, 1, Release(Some(true))),
    ],
    entries: Some(73),
    ..COURSE
}];

/// Clients of a machine with more cores than a release word has bits. Each application joins and asks for 32 cores. Each thread
/// blocks, and is on the next core. Then application 2 asks for one core instead: the other of its two is asked back, and its
/// thread, once told, reads so.
#[test]
fn a_core_of_the_high_half_is_asked_back(rt: HostRuntime) -> Result<(), Fail> {
    follow(&rt, WIDE_MACHINE)
}
