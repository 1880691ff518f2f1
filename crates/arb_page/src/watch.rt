//! How a server waits for one message after another.

use crate::bell::Bell;
use crate::patience::Patience;
use std::sync::Wait;

/// How many looks a short wait makes: a few microseconds in all.
const FEW_LOOKS: u32 = 100;

/// How many looks a long wait makes: some fifty microseconds in all. A client that slept until its answer came wakes and puts
/// its next order within them.
const MANY_LOOKS: u32 = 1000;

/// A message came soon where a wait found it within so many looks, half of a long wait. To sleep until it came would have taken
/// longer.
const SOON_LOOKS: u32 = 500;

/// The pauses between two looks: few, so that a message is found soon.
const PAUSES: u32 = 1;

/// How many waits are short after a long one that was of no use.
const SHORT_WAITS: u32 = 2;

/// The waits of a server, one after another: each makes some looks, and then sleeps.
///
/// A client that calls puts its next order right after its answer. Where it fell asleep meanwhile, it has to wake first. A
/// server that sleeps by then has to be woken in its turn, and the client again, order after order. So a wait is long: with
/// the server awake, the client's next answer comes before it sleeps again. Where messages come seldom a long wait only uses
/// the processor. So after a long wait in which nothing came soon, two are short, unless a message comes soon again.
#[derive(Drop)]
pub struct Watch {
    patience: Patience,
    /// How many waits are short from this one on.
    short_waits: u32,
}

impl Watch {
    /// The first wait begins.
    pub fn new() -> Watch {
        Watch {
            patience: Patience::of_looks(MANY_LOOKS, PAUSES),
            short_waits: 0,
        }
    }

    /// Rests after a look that found nothing.
    pub fn rest<R: Wait>(&mut self, rt: &R, bell: &Bell) {
        self.patience.rest(rt, bell);
    }

    /// Whether this wait has slept.
    pub fn has_slept(&self) -> bool {
        self.patience.has_slept()
    }

    /// A look found a message: the next wait begins.
    pub fn found(&mut self) {
        let made = self.looks().saturating_sub(self.patience.looks_left());
        let came_soon = made < self.looks().min(SOON_LOOKS);
        self.short_waits = if came_soon {
            0
        } else if self.short_waits == 0 {
            SHORT_WAITS
        } else {
            self.short_waits - 1
        };
        self.patience = Patience::of_looks(self.looks(), PAUSES);
    }

    /// How many looks this wait makes before it sleeps.
    fn looks(&self) -> u32 {
        if self.short_waits == 0 {
            MANY_LOOKS
        } else {
            FEW_LOOKS
        }
    }
}
