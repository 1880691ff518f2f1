//! Requests: their entries, and their cuts at a cap.

use arb_share::{Request, TooMany};
use std::test::Fail;
use test_parts::request;

#[test]
fn entries_up_to_the_limit(rt: HostRuntime) -> Result<(), Fail> {
    for most in [64, 65, 128] {
        let request = Request::new([most; 8]).ok().ok_or("128 is the limit")?;
        for level in 0..8 {
            assert_eq!(rt; request.entry(level), most, "at level {level}");
        }
    }
    assert_eq!(rt; Ok(Request::default()), Request::new([0; 8]));
    let value = 129;
    let last = TooMany { level: 7, value };
    let first_of_two = TooMany { level: 2, value };
    for (entries, fault) in [
        ([0, 0, 0, 0, 0, 0, 0, 129], last),
        ([1, 128, 129, 0, 255, 0, 0, 0], first_of_two),
    ] {
        assert_eq!(rt; Request::new(entries), Err(fault));
    }
    let line = last.to_string(rt.alloc())?;
    assert_eq!(rt; line.as_str(), "entry 7 is 129, above 128");
    Ok(())
}

/// The entries of a request, a cap, and the entries that it leaves.
const CUT: &[([u8; 8], u8, [u8; 8])] = &[
    ([1, 4, 0, 0, 0, 0, 0, 0], 2, [1, 1, 0, 0, 0, 0, 0, 0]),
    ([3, 0, 5, 0, 0, 0, 0, 0], 3, [3, 0, 0, 0, 0, 0, 0, 0]),
    // the largest cap of an application
    ([128; 8], 128, [128, 0, 0, 0, 0, 0, 0, 0]),
    ([64; 8], 128, [64, 64, 0, 0, 0, 0, 0, 0]),
    (
        [0, 127, 0, 2, 128, 0, 0, 0],
        128,
        [0, 127, 0, 1, 0, 0, 0, 0],
    ),
    // the greatest cap that there is
    ([128; 8], 255, [128, 127, 0, 0, 0, 0, 0, 0]),
    // no cap leaves anything at 0
    ([0; 8], 0, [0; 8]),
    ([128; 8], 0, [0; 8]),
    ([0, 0, 0, 0, 0, 0, 0, 1], 0, [0; 8]),
    ([3, 0, 5, 0, 0, 0, 0, 2], 0, [0; 8]),
    // a greater cap keeps more
    ([3, 0, 5, 0, 0, 0, 0, 2], 2, [2, 0, 0, 0, 0, 0, 0, 0]),
    ([3, 0, 5, 0, 0, 0, 0, 2], 4, [3, 0, 1, 0, 0, 0, 0, 0]),
    ([3, 0, 5, 0, 0, 0, 0, 2], 8, [3, 0, 5, 0, 0, 0, 0, 0]),
    ([3, 0, 5, 0, 0, 0, 0, 2], 9, [3, 0, 5, 0, 0, 0, 0, 1]),
    ([3, 0, 5, 0, 0, 0, 0, 2], 10, [3, 0, 5, 0, 0, 0, 0, 2]),
    ([3, 0, 5, 0, 0, 0, 0, 2], 255, [3, 0, 5, 0, 0, 0, 0, 2]),
];

/// Levels keep what the cap leaves, the first levels first. The full request is kept beside its cut, so a greater cap
/// lets more of it stand.
#[test]
fn cuts(rt: HostRuntime) {
    for (entries, cap, kept) in CUT {
        let cut = request(*entries).cut(*cap);
        assert_eq!(rt; Ok(cut), Request::new(*kept), "{entries:?} at {cap}");
    }
}
