//! The words that orders post, one by one.

use crate::tests::setting::Line::{Posts, Ticks};
use crate::tests::setting::{THIRD, WAITS, after, arbiter_of, gives, opening, plays, step};
use arb_core::layout::{FIRST_PLACE, WORDS};
use arb_core::{Core, Order, Reply};
use std::test::Fail;
use test_parts::{TWO_SOCKETS, thread};

/// How many posted place words name the core at a position.
fn named(core: &Core, position: u8) -> usize {
    let mut total = 0;
    for w in FIRST_PLACE..WORDS {
        if core.posted(w) / 2 == 2 + position as u64 {
            total += 1;
        }
    }
    total
}

#[test]
fn no_post_of_a_hand_over_names_the_core_twice(rt: HostRuntime) -> Result<(), Fail> {
    let mut core = after(&rt, rt.alloc(), THIRD)?;
    gives(&rt, &mut core, 2, 0, Order::Block);
    step(&rt, &mut core, thread(1, 0), Order::Block);
    assert_eq!(rt; named(&core, 2), 1);
    for names in [0, 0, 1] {
        let Some(next) = core.next_stale() else {
            return Err(Fail::from("no word is stale"));
        };
        core.post(next);
        assert_eq!(rt; named(&core, 2), names);
    }
    assert_eq!(rt; core.next_stale(), None);
    Ok(())
}

/// All words begin at 0. The run is the opening without its refused orders, up to the clock, and then a core is handed
/// over and the clock moves a thread.
#[test]
fn whole_run_is_posted(rt: HostRuntime) -> Result<(), Fail> {
    let mut core = arbiter_of(rt.alloc(), TWO_SOCKETS)?;
    for w in 0..WORDS {
        assert!(rt; core.word(w) == 0 && core.posted(w) == 0, "word {w}");
    }
    assert_eq!(rt; core.next_stale(), None);
    let opening = opening();
    let lines = &opening[..];
    for k in 0..THIRD {
        if !matches!(&lines[k], Posts(_, _, _, Reply::Refused(_), _)) {
            plays(&rt, "opening", &mut core, &lines[k..k + 1]);
        }
    }
    let counts = Reply::Counts {
        due: 2,
        owned: 2,
        asked: 0,
        waiting: 1,
    };
    let rest = [
        Posts(2, 0, Order::Block, WAITS, &[(97, 1)]),
        Posts(1, 0, Order::Block, WAITS, &[(65, 1), (3, 32), (97, 8)]),
        Ticks(10000, Reply::Moved(1), &[(68, 2), (3, 0)]),
        Posts(1, 0, Order::Status, counts, &[]),
    ];
    plays(&rt, "after the opening", &mut core, &rest);
    assert_eq!(rt; core.posted(0), 16);
    Ok(())
}

/// A core is handed over, and both threads' words are posted with the release word, all at once.
#[test]
fn settling_posts_a_hand_over_at_once(rt: HostRuntime) -> Result<(), Fail> {
    let mut core = after(&rt, rt.alloc(), THIRD)?;
    gives(&rt, &mut core, 2, 0, Order::Block);
    step(&rt, &mut core, thread(1, 0), Order::Block);
    assert!(rt; core.next_stale().is_some());
    core.settle();
    assert_eq!(rt; core.next_stale(), None);
    let words = (core.posted(65), core.posted(3), core.posted(97));
    assert_eq!(rt; words, (1, 32, 8));
    for w in 0..WORDS {
        assert!(rt; core.posted(w) == core.word(w), "word {w}");
    }
    Ok(())
}
