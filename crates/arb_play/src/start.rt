//! The start of all threads, or of none.

ghost use Rattle.std.specs.Prelude.{◌≡◌, map};
ghost use Rattle.arb_play.specs.Scripts.{clients_in};

use crate::gate::Gate;
use crate::walking::{Walk, Walks};
use arb_house::{Ended, LeavesEnded};
use arb_page::Set;
use arb_script::Script;
use std::sync::{Condvar, Mutex, Wait};
use std::thread::PromisedHandle;

/// What the threads are told.
#[derive(Clone, Copy)]
enum Sign {
    /// Nothing yet.
    Hold,
    /// All threads are there: begin.
    Go,
    /// A thread is missing: end.
    Stop,
}

/// That all threads are there. Nothing else lets them begin.
#[derive(Drop)]
pub(crate) struct AllThere(());

impl AllThere {
    /// The threads of all clients of a script, and the server's.
    pub(crate) fn from_handles<'a, G: Gate, K: Set>(
        _script: &Script,
        _walking: &[PromisedHandle<Walk, Walks<'a, G, K>>],
        _serving: &PromisedHandle<Ended<K>, LeavesEnded<K>>,
    ) -> AllThere
        requires all { map (λ h. h.promise.2) _walking.now ≡ clients_in _script.now }
    {
        AllThere(())
    }
}

/// That a thread was told to begin. Without it none gives its orders.
#[derive(Drop)]
pub(crate) struct Begun(());

/// Where the threads wait for their start.
#[derive(Drop)]
pub(crate) struct Start {
    sign: Mutex<Sign>,
    changed: Condvar,
}

impl Start {
    /// All threads are held.
    pub(crate) fn new() -> Start {
        Start {
            sign: Mutex::new(Sign::Hold),
            changed: Condvar::new(),
        }
    }

    /// Lets all threads begin.
    pub(crate) fn go<R: Wait>(&self, rt: &R, _all: AllThere) {
        self.give(rt, Sign::Go);
    }

    /// Lets all threads end, since one is missing.
    pub(crate) fn stop<R: Wait>(&self, rt: &R) {
        self.give(rt, Sign::Stop);
    }

    /// Gives a sign to all threads.
    fn give<R: Wait>(&self, rt: &R, sign: Sign) {
        let mut now = self.sign.lock(rt);
        *now = sign;
        self.changed.notify_all();
    }

    /// Waits for the sign. `None` where a thread is missing.
    pub(crate) fn wait<R: Wait>(&self, rt: &R) -> Option<Begun> {
        let now = self.changed.wait_while(rt, self.sign.lock(rt), |sign| {
            matches!(sign, Sign::Hold)
        });
        matches!(*now, Sign::Go).then_some(Begun(()))
    }
}
