//! A machine with so many cores that its positions fill both halves: which release word shows which of them.

use crate::tests::setting::Line::{At, Gives, Posts};
use crate::tests::setting::{arbiter_of, asked_on, on, plays, takes};
use arb_config::{ConfigFault, Topology};
use arb_core::layout::{FIRST_PLACE, HALF_SIZE, HALVES, WORDS, place_in_word, release_index};
use arb_core::{Core, Half, Order, Reply};
use std::alloc::Global;
use std::process::Abort;
use std::test::Fail;
use test_parts::{WIDE, ask};

/// The words at the end of the example below, up to the second thread of application 2. All later words are 0.
///
/// There were 73 orders. Of the release words only one has a bit: that of application 2 for the high half.
const AT_THE_END: [u64; 99] = [
    73, 0, 0, 0, 0, 0, 2, 0, 0, 0, 0, 0, 0, 0, 0, 0, 0, 0, 0, 0, 0, 0, 0, 0, 0, 0, 0, 0, 0, 0, 0,
    0, 0, 4, 6, 8, 10, 12, 14, 16, 18, 20, 22, 24, 26, 28, 30, 32, 34, 36, 38, 40, 42, 44, 46, 48,
    50, 52, 54, 56, 58, 60, 62, 64, 66, 68, 70, 72, 74, 76, 78, 80, 82, 84, 86, 88, 90, 92, 94, 96,
    98, 100, 102, 104, 106, 108, 110, 112, 114, 116, 118, 120, 122, 124, 126, 128, 130, 132, 135,
];

/// So many applications join and ask for 32 cores each. Then so many threads take a core in turn: those of application
/// 0, then those of application 1, and so on.
fn taken(rt: &impl Abort, alloc: Global, apps: u8, threads: u8) -> Result<Core, ConfigFault> {
    let mut core = arbiter_of(alloc, WIDE)?;
    for app in 0..apps {
        let joins = Gives(app, 0, Order::Join, Reply::Joined);
        let asks = Gives(app, 0, ask(32), Reply::Due(32));
        plays(rt, "joining", &mut core, &[joins, asks]);
    }
    for position in 0..threads {
        let (app, number) = (position / 32, position % 32);
        let words = [(33 + position as usize, 4 + 2 * u64::from(position))];
        let takes = takes(1 + u16::from(position));
        let line = Posts(app, number, Order::Block, takes, &words);
        plays(rt, "taking", &mut core, &[line]);
    }
    Ok(core)
}

/// Two threads of application 2 have the first two cores of the high half, and one of them is asked back.
#[test]
fn high_half_is_asked_back(rt: HostRuntime) -> Result<(), Fail> {
    let mut core = taken(&rt, rt.alloc(), 3, 64)?;
    let lines = [
        Posts(2, 0, Order::Block, takes(65), &[(97, 132)]),
        Posts(2, 1, Order::Block, takes(66), &[(98, 134)]),
        Posts(2, 0, ask(1), Reply::Due(1), &[(98, 135), (6, 2)]),
        At(2, 0, on(65)),
        At(2, 1, asked_on(66)),
    ];
    plays(&rt, "the high half", &mut core, &lines);
    let low = core.posted(release_index(2, Half::Low));
    let high = core.posted(release_index(2, Half::High));
    assert_eq!(rt; (low, high), (0, 2));
    for w in 0..545 {
        let word = AT_THE_END.get(w).copied().unwrap_or(0);
        assert!(rt; core.word(w) == word && core.posted(w) == word, "word {w}");
    }
    Ok(())
}

/// An application with the last core of the low half and the first of the high one has a bit in both its words.
#[test]
fn one_application_in_both_halves(rt: HostRuntime) -> Result<(), Fail> {
    let mut core = taken(&rt, rt.alloc(), 3, 63)?;
    let words = [(97, 131), (98, 133), (5, 9_223_372_036_854_775_808), (6, 1)];
    let lines = [
        Posts(2, 0, Order::Block, takes(64), &[(97, 130)]),
        Posts(2, 1, Order::Block, takes(65), &[(98, 132)]),
        Posts(2, 0, ask(0), Reply::Due(0), &words),
    ];
    plays(&rt, "both halves", &mut core, &lines);
    Ok(())
}

/// Four applications have a core at each position, and then all are asked back: 32 bits in one word of each.
#[test]
fn all_cores_are_asked_back(rt: HostRuntime) -> Result<(), Fail> {
    let mut core = taken(&rt, rt.alloc(), 4, 128)?;
    let last = [(160, 259), (8, 9_223_372_036_854_775_808)];
    let lines = [
        Posts(3, 0, ask(31), Reply::Due(31), &last),
        Gives(0, 0, ask(0), Reply::Due(0)),
        Gives(1, 0, ask(0), Reply::Due(0)),
        Gives(2, 0, ask(0), Reply::Due(0)),
        Gives(3, 0, ask(0), Reply::Due(0)),
    ];
    plays(&rt, "all cores", &mut core, &lines);
    let (first, second) = (4_294_967_295, 18_446_744_069_414_584_320);
    let words = [first, 0, second, 0, 0, first, 0, second, 0, 0];
    for place in 0..10 {
        assert_eq!(rt; core.posted(place + 1), words[place], "at {place}");
    }
    Ok(())
}

#[test]
fn words_are_numbered(rt: HostRuntime) -> Result<(), Fail> {
    assert_eq!(rt; (HALVES, HALF_SIZE), (2, 64));
    assert_eq!(rt; (Half::Low.number(), Half::High.number()), (0, 1));
    for (app, low, high) in [(0, 1, 2), (1, 3, 4), (2, 5, 6), (15, 31, 32)] {
        assert!(rt; app < 16);
        let indices = (
            release_index(app, Half::Low),
            release_index(app, Half::High),
        );
        assert_eq!(rt; indices, (low, high));
    }
    assert_eq!(rt; (FIRST_PLACE, WORDS), (33, 545));
    let topology = Topology::from_text(rt.alloc(), WIDE)?;
    for (word, named) in [
        (130, Some(on(64))),
        (133, Some(asked_on(65))),
        (258, Some(on(128))),
        (259, Some(asked_on(128))),
        (260, None),
    ] {
        assert_eq!(rt; place_in_word(&topology, word), named, "word {word}");
    }
    Ok(())
}
