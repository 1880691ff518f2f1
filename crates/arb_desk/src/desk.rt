//! What all threads share.

ghost use Rattle.std.specs.Prelude.{◌≡◌};

use crate::Orders;
use arb_config::Topology;
use arb_page::{Bell, Pages, Set, Waiters};
use crossbeam_utils::CachePadded;
use std::sync::atomic::{AtomicBool, AtomicUsize, Ordering};

/// What a server and its clients share.
#[derive(Drop)]
pub struct Desk<K: Set> {
    /// The page words.
    pub pages: Pages<K>,
    /// The queue of orders.
    pub orders: Orders,
    /// The machine.
    pub topology: Topology,
    /// On which an idle server sleeps: rung after each message that was put.
    pub messages: CachePadded<Bell>,
    /// The clients that found the queue full and sleep: one is woken after each message that was taken.
    pub room: CachePadded<Waiters>,
    /// Whether the server has ended.
    ended: CachePadded<AtomicBool>,
    /// How many clients close: each has its answers, and puts no order any more.
    closing: CachePadded<AtomicUsize>,
    ghost machine: { topology ≡ K.machine },
}

impl<K: Set> Desk<K> {
    /// A desk whose server hasn't ended.
    pub fn new(pages: Pages<K>, orders: Orders, topology: Topology) -> Desk<K>
        requires machine { topology ≡ K.machine }
        ensures { result.orders ≡ orders }
    {
        Desk {
            pages,
            orders,
            topology,
            messages: CachePadded::new(Bell::new()),
            room: CachePadded::new(Waiters::new()),
            ended: CachePadded::new(AtomicBool::new(false)),
            closing: CachePadded::new(AtomicUsize::new(0)),
        }
    }

    /// Tells all threads that the server has ended, and wakes those that sleep.
    pub fn end(&self) {
        self.ended.store(true, Ordering::SeqCst);
        self.room.wake_all();
        self.pages.ring_all();
    }

    /// Whether the server has ended.
    pub fn has_ended(&self) -> bool {
        self.ended.load(Ordering::SeqCst)
    }

    /// Tells the server that one client more puts no order: it has the answers to all, and its close mark comes next.
    pub fn puts_no_more(&self) {
        self.closing.fetch_add(1, Ordering::SeqCst);
    }

    /// How many clients have said so. Where that is all of them, nothing comes but their close marks.
    pub fn closing(&self) -> usize {
        self.closing.load(Ordering::SeqCst)
    }
}
