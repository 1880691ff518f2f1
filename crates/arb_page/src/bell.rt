//! What a change rings and a sleeper hears.

use std::sync::Wait;
use std::sync::atomic::{AtomicU64, Ordering};
use std::time::Duration;

/// A count of the changes that somebody slept for: odd while somebody may sleep, even while nobody does.
///
/// A sleeper listens, looks once more, and only then sleeps. Who changes what it looks at changes it first and rings then.
/// All four steps are sequentially consistent. So either the look comes after the change and sees it, or the ring comes
/// after the listening and finds the count odd: no change is missed. Where two ring at once, one of them wakes all that
/// listened before it, and both changes were made by then.
#[derive(Drop)]
pub struct Bell {
    count: AtomicU64,
}

impl Bell {
    /// Nobody listens.
    pub fn new() -> Bell {
        Bell {
            count: AtomicU64::new(0),
        }
    }

    /// Says that this thread listens, and answers the count at which it may sleep once it has looked again.
    pub fn listen(&self) -> u32 {
        let count = self.count.fetch_or(1, Ordering::SeqCst) | 1;
        (count % (1 << 32)) as u32
    }

    /// Sleeps until the bell rings, if it hasn't since `heard` was answered, but no longer than `limit`. It may come back
    /// for no reason.
    pub fn sleep<R: Wait>(&self, rt: &R, heard: u32, limit: Duration) {
        self.count.park_timeout(rt, heard, limit);
    }

    /// Wakes all that listen. It is called after the change that they look for. One load where nobody listens.
    pub fn ring(&self) {
        let count = self.count.load(Ordering::SeqCst);
        if count & 1 == 0 {
            return;
        }
        let next = count.wrapping_add(1);
        if self
            .count
            .compare_exchange(count, next, Ordering::SeqCst, Ordering::SeqCst)
            .is_ok()
        {
            self.count.wake_all();
        }
    }
}
