//! Sets of marks, of which each page word has two.

ghost use Rattle.std.specs.Prelude.{◌≡◌, ◌==◌, ◌<◌, ℕ, MatchOption, false, if◌then◌else◌, replicate};
ghost use Rattle.arb_seats.specs.Bits.{has_mark, mark_count, row_count};
ghost use Rattle.arb_model.specs.Posting.{first_below};

use crate::bits::{WORD_SIZE, first_place, put};
use arb_model::layout::WORDS;
use std::marker::Model;

/// How many rows a set has: there are two places for each page word.
const ROWS: usize = (2 * WORDS + WORD_SIZE - 1) / WORD_SIZE;

/// A set of places, of which the first is found at once.
#[derive(Drop)]
pub struct WordSet {
    /// A bit for each place.
    rows: [u64; ROWS],
    /// The rows that hold any place, a bit for each.
    filled: u64,
}

impl Model for WordSet {
    ghost use Rattle.std.specs.Prelude.{ℕ, List};
    ghost use Rattle.arb_seats.specs.PageMarks.{AreFilled};

    ghost Value = { List ℕ };

    ghost view = { λ s. s.rows };

    ghost invariant = { λ s. AreFilled s.rows s.filled };
}

impl WordSet {
    /// The set of no place.
    pub fn new() -> WordSet
        ensures { result ≡ replicate row_count 0 }
    {
        WordSet {
            rows: [0; ROWS],
            filled: 0,
        }
    }

    /// Puts a place into the set, or takes it out.
    pub fn mark(&mut self, w: usize, on: bool)
        requires { w < mark_count }
        ensures { (v : ℕ) → v < mark_count → has_mark self.new v ≡ (if v == w then on else has_mark self.old v) }
    {
        let index = w / WORD_SIZE;
        if on {
            self.rows[index] = put(self.rows[index], w % WORD_SIZE, true);
            self.filled = put(self.filled, index, true);
        } else {
            let row = put(self.rows[index], w % WORD_SIZE, false);
            self.rows[index] = row;
            self.filled = put(self.filled, index, row != 0);
        }
    }

    /// The first place of the set.
    pub fn first(&self) -> Option<usize>
        ensures { result ≡ first_below (has_mark self.now) mark_count }
    {
        let row = first_place(self.filled)?;
        let place = first_place(self.rows[row])?;
        Some(WORD_SIZE * row + place)
    }

    /// Takes the first place out.
    pub fn take_first(&mut self) -> Option<usize>
        ensures first { result ≡ first_below (has_mark self.old) mark_count }
        ensures rest { MatchOption result (self.new ≡ self.old)
            (λ w. (v : ℕ) → v < mark_count → has_mark self.new v ≡ (if v == w then false else has_mark self.old v)) }
    {
        let place = self.first()?;
        self.mark(place, false);
        Some(place)
    }
}
