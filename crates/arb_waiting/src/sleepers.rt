//! What the members of an arbiter sleep on.

ghost use Rattle.std.specs.Prelude.{◌≡◌, ◌<◌};
ghost use Rattle.arb_model.specs.Limits.{all_threads};

use arb_config::Topology;
use arb_model::layout::{FIRST_PLACE, WAITING};
use arb_model::{ALL_THREADS, ClientId};
use arb_page::{Bell, Waiters};
use std::array;

/// What all members of an arbiter share beside its table: what they sleep on, and the machine.
#[derive(Drop)]
pub struct Sleepers {
    pub(crate) topology: Topology,
    /// Those that wait for the lock.
    pub(crate) lock: Waiters,
    /// Each thread's bell, by its number: for its place word.
    bells: [Bell; ALL_THREADS],
}

impl Sleepers {
    /// Nobody sleeps.
    pub(crate) fn new(topology: &Topology) -> Sleepers
        ensures { result.topology ≡ topology.now }
    {
        Sleepers {
            topology: topology.copied(),
            lock: Waiters::new(),
            bells: array::from_fn(|_| Bell::new()),
        }
    }

    /// The bell of a thread.
    pub(crate) fn bell(&self, thread: ClientId) -> &Bell
        requires { thread < all_threads }
    {
        &self.bells[thread.index()]
    }

    /// Wakes who sleeps on a place word that was stored, unless it says waiting.
    pub(crate) fn ring(&self, word: usize, value: u64) {
        if word >= FIRST_PLACE
            && value != WAITING
            && let Some(bell) = self.bells.get(word - FIRST_PLACE)
        {
            bell.ring();
        }
    }
}
