//! The even division, and due numbers.

use arb_share::{due, even};
use test_parts::request;

/// The numbers of the first applications, the others having 0.
macro_rules! first {
    ($first:expr, $second:expr, $third:expr) => {
        [$first, $second, $third, 0, 0, 0, 0, 0, 0, 0, 0, 0, 0, 0, 0, 0]
    };
}

const GROWING: [u8; 16] = [1, 2, 3, 4, 5, 6, 7, 8, 9, 10, 11, 12, 13, 14, 15, 16];

/// Demands, a supply, and the shares.
const DIVIDED: &[([u8; 16], u8, [u8; 16])] = &[
    (first!(4, 1, 5), 8, first!(4, 1, 3)),
    (first!(4, 1, 5), 7, first!(3, 1, 3)),
    // demands that are too large share all
    (
        [255; 16],
        255,
        [
            16, 16, 16, 16, 16, 16, 16, 16, 16, 16, 16, 16, 16, 16, 16, 15,
        ],
    ),
    // of demands that grow eight are met at first, and the others get 8 or 9
    (
        GROWING,
        103,
        [1, 2, 3, 4, 5, 6, 7, 8, 9, 9, 9, 8, 8, 8, 8, 8],
    ),
    (
        GROWING,
        135,
        [1, 2, 3, 4, 5, 6, 7, 8, 9, 10, 11, 12, 13, 14, 15, 15],
    ),
    (GROWING, 136, GROWING),
    // one large demand takes what the others leave
    (first!(1, 255, 2), 255, first!(1, 252, 2)),
    (first!(1, 255, 2), 5, first!(1, 2, 2)),
    (first!(1, 255, 2), 2, first!(1, 1, 0)),
    // no supply, and no demand
    ([255; 16], 0, [0; 16]),
    ([0; 16], 255, [0; 16]),
];

/// What cannot be divided evenly goes to the applications with smaller numbers.
#[test]
fn even_shares(rt: HostRuntime) {
    for (demands, supply, shares) in DIVIDED {
        assert_eq!(rt; even(demands, *supply), *shares, "{demands:?} of {supply}");
    }
}

/// The first levels come first, and each is shared evenly.
#[test]
fn due_numbers(rt: HostRuntime) {
    let five = request([5, 0, 0, 0, 0, 0, 0, 0]);
    let later = request([0, 3, 0, 0, 0, 0, 0, 0]);
    let mut three = [None; 16];
    three[0] = Some(later);
    three[1] = Some(five);
    three[2] = Some(five);
    let found = (due(&three, 4), due(&three, 12), due(&[None; 16], 128));
    assert_eq!(rt; found, (first!(0, 2, 2), first!(2, 5, 5), [0; 16]));
    // sixteen applications that each want all
    for (cores, share) in [(64, 4), (128, 8)] {
        let all = Some(request([cores, 0, 0, 0, 0, 0, 0, 0]));
        assert_eq!(rt; due(&[all; 16], cores), [share; 16]);
    }
}
