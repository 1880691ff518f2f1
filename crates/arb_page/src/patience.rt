//! How a waiting loop looks.

use crate::bell::Bell;
use crate::waiters::Waiters;
use std::hint;
use std::sync::Wait;
use std::time::Duration;

/// The longest sleep of a wait, in seconds. A sleeper looks again after it, though no bell rang: a net, not how a wait ends.
pub const LONGEST_SLEEP: u64 = 1;

/// How many looks a wait makes before it listens: a few microseconds in all.
const LOOKS: u32 = 30;

/// The pauses between two of these looks.
const PAUSES: u32 = 10;

/// One wait: some looks with a pause between them, and then sleeps.
#[derive(Drop)]
pub struct Patience {
    looks: u32,
    pauses: u32,
    heard: Option<u32>,
    slept: bool,
}

impl Patience {
    /// A wait that begins.
    pub fn new() -> Patience {
        Patience::of_looks(LOOKS, PAUSES)
    }

    /// A wait that makes so many looks, with so many pauses between two, before it listens.
    pub(crate) fn of_looks(looks: u32, pauses: u32) -> Patience {
        Patience {
            looks,
            pauses,
            heard: None,
            slept: false,
        }
    }

    /// Rests after a look that found nothing. The first times it pauses; then it listens, for one look more; then it sleeps.
    pub fn rest<R: Wait>(&mut self, rt: &R, bell: &Bell) {
        if self.pause() {
            return;
        }
        match self.heard.take() {
            None => self.heard = Some(bell.listen()),
            Some(heard) => {
                bell.sleep(rt, heard, Duration::from_secs(LONGEST_SLEEP));
                self.slept = true;
            }
        }
    }

    /// The same among others of whom each change wakes one. The last rest is followed by [`Patience::leave`].
    pub fn rest_among<R: Wait>(&mut self, rt: &R, waiters: &Waiters) {
        if self.pause() {
            return;
        }
        match self.heard.take() {
            None => self.heard = Some(waiters.join()),
            Some(heard) => {
                waiters.sleep(rt, heard, Duration::from_secs(LONGEST_SLEEP));
                waiters.leave();
                self.slept = true;
            }
        }
    }

    /// Ends a wait among others.
    pub fn leave(&mut self, waiters: &Waiters) {
        if self.heard.take().is_some() {
            waiters.leave();
        }
    }

    /// Pauses, and gives whether it did: the first times it does.
    fn pause(&mut self) -> bool {
        if self.looks == 0 {
            return false;
        }
        self.looks -= 1;
        for _ in 0..self.pauses {
            hint::spin_loop();
        }
        true
    }

    /// Whether it has slept.
    pub fn has_slept(&self) -> bool {
        self.slept
    }

    /// How many looks it makes yet before it listens.
    pub(crate) fn looks_left(&self) -> u32 {
        self.looks
    }
}
