//! The page words of the plain arbiter, and which it posts next.

use crate::tests::arbiter::{ALL_THREADS, FIRST_PLACE, Plain, Spot, THREADS, WORDS};

impl Plain {
    /// The value of a page word: the count of orders, then two words for each application and one for each thread.
    pub fn word(&self, w: usize) -> u64 {
        if w == 0 {
            self.orders()
        } else if w < FIRST_PLACE {
            let number = w.saturating_sub(1);
            self.release_word(number / 2, number % 2)
        } else {
            self.place_word(w.saturating_sub(FIRST_PLACE))
        }
    }

    fn orders(&self) -> u64 {
        let mut total: u64 = 0;
        for count in &self.counts {
            total = total.wrapping_add(*count);
        }
        total
    }

    /// A bit for each core that is asked back from an application, of the first 64 positions or of the next 64.
    fn release_word(&self, app: usize, half: usize) -> u64 {
        let mut bits: u64 = 0;
        for thread in 0..ALL_THREADS {
            if let Spot::On(position, Some(_)) = self.spots[thread] {
                if thread / THREADS == app && position as usize / 64 == half {
                    bits |= 1 << (position % 64);
                }
            }
        }
        bits
    }

    fn place_word(&self, thread: usize) -> u64 {
        match self.spot(thread) {
            Spot::Unmanaged => 0,
            Spot::Waiting(_) => 1,
            Spot::Moved => 2,
            Spot::On(position, None) => 4 + 2 * u64::from(position),
            Spot::On(position, Some(_)) => 5 + 2 * u64::from(position),
        }
    }

    /// The first stale word of a thread that is posted on a core; where there is none, the first stale word.
    pub fn next_stale(&self) -> Option<usize> {
        let mut first = None;
        for w in 0..WORDS {
            if self.posted[w] != self.word(w) {
                if w >= FIRST_PLACE && self.posted[w] >= 4 {
                    return Some(w);
                }
                first = first.or(Some(w));
            }
        }
        first
    }

    /// Posts a word.
    pub fn post(&mut self, w: usize) {
        let value = self.word(w);
        if let Some(posted) = self.posted.get_mut(w) {
            *posted = value;
        }
    }
}
