//! An answer that comes late: what it tells is no longer so.

use crate::tests::woken::{Case, Meanwhile, Waits, wait};
use arb_house::WaitFault;
use arb_model::{Place, Reply};
use std::test::*;
use test_parts::Gives::{Ask, Block, Join, Tick};
use test_parts::{CLOCK, Named};

/// The other thread of the application.
const OTHER: Named = (0, 1);

/// That one joins and asks for a core. Then the order to block is entered. The application gives its core back, and the thread
/// is moved. Only then is the order answered.
const MOVED_FIRST: &[Case] = &[Case {
    waits: Waits::ForACore(Err(WaitFault::Lost(Place::Moved))),
    before: &[(OTHER, Join), (OTHER, Ask(1))],
    with: &[(OTHER, Ask(0)), (CLOCK, Tick(10_000))],
    after: &[],
    left: Some((
        Block,
        Reply::Now(Place::On {
            core: 1,
            asked: false,
        }),
    )),
}];

/// A thread gets a core, and is moved from it before its client hears of that. So its client finds it moved.
#[test]
fn a_thread_that_is_moved_before_it_looks(rt: HostRuntime) -> Result<(), Fail> {
    wait(&rt, MOVED_FIRST, Meanwhile::Wakes)
}
