//! What other threads do while one thread reads.

use crate::page::read_words;
use crate::roles::ask;
use crate::words::{BareTable, BareWriter, PageWords};
use arb_core::layout::{FIRST_CORE, FIRST_PLACE};
use arb_core::{ClientId, Order};
use arb_house::{Admission, Publisher};
use arb_page::{Pages, Set};
use std::sync::atomic::Ordering::SeqCst;
use std::sync::atomic::{AtomicBool, AtomicU64};

/// How many words a reader reads between two looks at the signal.
const BATCH: u64 = 1000;

/// When the others have begun, and when they may end.
#[derive(Drop)]
pub struct Signal {
    /// How many others have begun.
    pub begun: AtomicU64,
    /// Whether they may end.
    pub over: AtomicBool,
}

impl Signal {
    /// None has begun.
    pub fn new() -> Signal {
        Signal {
            begun: AtomicU64::new(0),
            over: AtomicBool::new(false),
        }
    }
}

/// Places the first thread on the first core.
pub fn place<K: Set>(
    pages: &Pages<K>,
    publisher: &mut Publisher<K>,
    writer: &mut BareWriter,
    thread: ClientId,
) {
    for order in [Order::Join, ask(1), Order::Block] {
        publisher.publish(pages, thread, &order);
    }
    writer.store(FIRST_PLACE, FIRST_CORE);
}

/// Asks the first thread's core back and leaves it again and again, until the reading is over, and stores each time the
/// thread's word in the table without a rule too. Says whether the limit on orders was not reached before that.
pub fn store_on<K: Set>(
    pages: &Pages<K>,
    mut publisher: Publisher<K>,
    mut writer: BareWriter,
    thread: ClientId,
    signal: &Signal,
) -> bool {
    signal.begun.fetch_add(1, SeqCst);
    for _ in 0..u64::MAX {
        if signal.over.load(SeqCst) {
            return true;
        }
        publisher.publish(pages, thread, &ask(0));
        writer.store(FIRST_PLACE, FIRST_CORE | 1);
        if let Admission::Full(..) = publisher.publish(pages, thread, &ask(1)) {
            return false;
        }
        writer.store(FIRST_PLACE, FIRST_CORE);
    }
    false
}

/// Reads words of the pages and of the table without a rule, until the reading is over. Gives 0 where each was as it was
/// stored.
pub fn read_until<K: Set>(mut pages: PageWords<K>, mut bare: &BareTable, signal: &Signal) -> u64 {
    signal.begun.fetch_add(1, SeqCst);
    let mut strange = 0;
    for _ in 0..u64::MAX {
        if signal.over.load(SeqCst) {
            break;
        }
        strange |= read_words(&mut pages, BATCH);
        strange |= read_words(&mut bare, BATCH);
    }
    strange
}
