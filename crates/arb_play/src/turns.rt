//! Numbers that come one after another.

use arb_page::{Bell, LONGEST_SLEEP};
use std::sync::Wait;
use std::sync::atomic::{AtomicUsize, Ordering};
use std::time::Duration;
use std::{array, hint};

/// How many bells there are: more than a play has threads, so that a ring mostly wakes one.
const BELLS: usize = 1024;

/// How many looks a thread makes for a number that comes soon, before it listens: some microseconds in all. More would keep the
/// processor from the thread whose turn it is.
const LOOKS: u32 = 200;

/// Lets numbers through in their order: each comes once as many were passed as stand before it.
///
/// A thread that waits for a number sleeps on the bell of its remainder. Who passes a number rings for the next one. It also
/// rings for the `soon` numbers behind that, if any: their threads wake while the next one goes, and look for their turn instead
/// of sleeping on. So the time that a thread takes to wake isn't waited for.
#[derive(Drop)]
pub(crate) struct Turns {
    passed: AtomicUsize,
    bells: [Bell; BELLS],
    /// For how many numbers behind the next one it rings.
    soon: usize,
}

impl Turns {
    /// So many numbers count as passed.
    pub(crate) fn new(passed: usize, soon: usize) -> Turns {
        Turns {
            passed: AtomicUsize::new(passed),
            bells: array::from_fn(|_| Bell::new()),
            soon,
        }
    }

    /// Waits until a number comes.
    pub(crate) fn wait<R: Wait>(&self, rt: &R, number: usize) {
        let bell = &self.bells[number % BELLS];
        for _ in rt.forever() {
            if self.comes_soon(number) {
                break;
            }
            let heard = bell.listen();
            if self.has_come(number) {
                break;
            }
            bell.sleep(rt, heard, Duration::from_secs(LONGEST_SLEEP));
        }
    }

    /// Whether a number has come.
    fn has_come(&self, number: usize) -> bool {
        number <= self.passed.load(Ordering::SeqCst)
    }

    /// Whether a number comes within some looks. For one that is still far off it looks once.
    fn comes_soon(&self, number: usize) -> bool {
        for _ in 0..LOOKS {
            let passed = self.passed.load(Ordering::SeqCst);
            if number <= passed {
                return true;
            }
            if number - passed > self.soon {
                return false;
            }
            hint::spin_loop();
        }
        false
    }

    /// Counts one number more, and wakes those that come then and soon.
    pub(crate) fn pass(&self) {
        let passed = self.passed.fetch_add(1, Ordering::SeqCst).wrapping_add(1);
        for behind in 0..=self.soon {
            self.bells[passed.wrapping_add(behind) % BELLS].ring();
        }
    }
}
