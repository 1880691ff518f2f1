//! Many that wait for what one of them can have at a time.

use std::sync::Wait;
use std::sync::atomic::{AtomicU64, Ordering};
use std::time::Duration;

/// Threads that sleep until something changes, where each change serves one of them: it wakes one, not all.
///
/// A sleeper joins, looks once more, only then sleeps, and leaves. Who changes what it looks at changes it first and wakes
/// one then. All steps are sequentially consistent. So either the look comes after the change and sees it; or who woke came
/// after the joining, found somebody there, and counted the change, at which the sleeper doesn't fall asleep, or one of those
/// that sleep wakes.
#[derive(Drop)]
pub struct Waiters {
    /// How many have joined and not left.
    count: AtomicU64,
    /// How many changes were made while somebody was there.
    changes: AtomicU64,
}

impl Waiters {
    /// Nobody waits.
    pub fn new() -> Waiters {
        Waiters {
            count: AtomicU64::new(0),
            changes: AtomicU64::new(0),
        }
    }

    /// Says that this thread waits. Answers up to which change it may sleep once it has looked again.
    pub fn join(&self) -> u32 {
        self.count.fetch_add(1, Ordering::SeqCst);
        (self.changes.load(Ordering::SeqCst) % (1 << 32)) as u32
    }

    /// Sleeps until it is woken, if nothing has changed since `heard` was answered, but no longer than `limit`. It may come
    /// back for no reason.
    pub fn sleep<R: Wait>(&self, rt: &R, heard: u32, limit: Duration) {
        self.changes.park_timeout(rt, heard, limit);
    }

    /// Says that a thread that joined doesn't wait any more.
    pub fn leave(&self) {
        self.count.fetch_sub(1, Ordering::SeqCst);
    }

    /// Wakes one that sleeps. It is called after a change that serves one. One load where nobody waits.
    pub fn wake_one(&self) {
        if self.count.load(Ordering::SeqCst) != 0 {
            self.changes.fetch_add(1, Ordering::SeqCst);
            self.changes.wake_one();
        }
    }

    /// Wakes all that sleep. It is called after a change that all look for. One load where nobody waits.
    pub fn wake_all(&self) {
        if self.count.load(Ordering::SeqCst) != 0 {
            self.changes.fetch_add(1, Ordering::SeqCst);
            self.changes.wake_all();
        }
    }
}
