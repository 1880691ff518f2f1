//! A table of the page words of a standing: their values, what was posted of them, and which are stale.

ghost use Rattle.std.specs.Prelude.{◌≡◌, ◌<◌, ◌-◌, ◌*◌, ℕ, MatchOption, None, Some, false, if◌then◌else◌, length, nat_lt, replicate, slice_index, slice_set};
ghost use Rattle.arb_seats.specs.PageMarks.{mark_at};
ghost use Rattle.arb_seats.specs.PageWords.{next_stale_in};
ghost use Rattle.arb_model.specs.Layout.{is_place_index, word_count};

use crate::word_set::WordSet;
use arb_model::layout::{FIRST_CORE, FIRST_PLACE, WORDS};
use std::marker::Model;

/// Where the mark of a word stands. Those of the place words whose posted value names a core stand first, and so are posted
/// first.
fn mark_at(w: usize, posted: u64) -> usize
    requires { w < word_count }
    ensures { result ≡ mark_at w posted }
{
    if FIRST_PLACE <= w && FIRST_CORE <= posted {
        w
    } else {
        WORDS + w
    }
}

/// Whose mark stands at a place.
fn marked_at(mark: usize) -> usize
    requires { mark < 2 * word_count }
    ensures word { result ≡ (if nat_lt mark word_count then mark else mark - word_count) }
    ensures within { result < word_count }
{
    if mark < WORDS { mark } else { mark - WORDS }
}

/// The page words of a standing, what was posted of them, and which are stale.
#[derive(Drop)]
pub struct WordTable {
    words: [u64; WORDS],
    posted: [u64; WORDS],
    /// The marks of the stale words.
    stale: WordSet,
}

impl Model for WordTable {
    ghost use Rattle.arb_seats.specs.PageWords.{PageWords};
    ghost use Rattle.arb_seats.specs.PageMarks.{AreMarked};

    ghost Value = { PageWords };

    ghost view = { λ p. record { words = p.words; posted = p.posted } };

    ghost invariant = { λ p. AreMarked (record { words = p.words; posted = p.posted }) p.stale };
}

impl WordTable {
    /// All words are 0, and none is stale.
    pub fn new() -> WordTable
        ensures { result ≡ record { words = replicate word_count 0; posted = replicate word_count 0 } }
    {
        WordTable {
            words: [0; WORDS],
            posted: [0; WORDS],
            stale: WordSet::new(),
        }
    }

    /// A word of the standing.
    pub fn word(&self, w: usize) -> u64
        requires { w < word_count }
        ensures { result ≡ slice_index self.now.words w }
    {
        self.words[w]
    }

    /// What was posted of a word.
    pub fn posted(&self, w: usize) -> u64
        requires { w < word_count }
        ensures { result ≡ slice_index self.now.posted w }
    {
        self.posted[w]
    }

    /// A word of the standing becomes another, and is stale where that differs from what was posted.
    pub fn set(&mut self, w: usize, value: u64)
        requires some { 0 < w }
        requires within { w < word_count }
        ensures { self.new ≡ record self.old { words = slice_set self.old.words w value } }
    {
        let posted = self.posted[w];
        self.words[w] = value;
        self.stale.mark(mark_at(w, posted), posted != value);
    }

    /// A release word of the standing becomes another. It never names a core.
    pub fn set_release(&mut self, w: usize, value: u64)
        requires some { 0 < w }
        requires within { w < word_count }
        requires release { is_place_index w ≡ false }
        ensures { self.new ≡ record self.old { words = slice_set self.old.words w value } }
    {
        self.words[w] = value;
        self.stale.mark(WORDS + w, self.posted[w] != value);
    }

    /// Word 0 becomes another, and is posted with it.
    pub fn post_count(&mut self, value: u64)
        ensures { self.new
            ≡ record { words = slice_set self.old.words 0 value; posted = slice_set self.old.posted 0 value } }
    {
        self.words[0] = value;
        self.posted[0] = value;
    }

    /// A word is posted: what was posted of it becomes the standing's.
    pub fn post(&mut self, w: usize)
        requires { w < word_count }
        ensures { self.new
            ≡ record self.old { posted = slice_set self.old.posted w (slice_index self.old.words w) } }
    {
        let mark = mark_at(w, self.posted[w]);
        self.posted[w] = self.words[w];
        self.stale.mark(mark, false);
    }

    /// The stale word that is to be posted next is posted, if any is stale. Gives the word and its value.
    pub fn post_next(&mut self) -> Option<(usize, u64)>
        ensures words { length self.old.words ≡ word_count }
        ensures posted { length self.old.posted ≡ word_count }
        ensures next { MatchOption result ((next_stale_in self.old ≡ None) × (self.new ≡ self.old))
            (λ post. (post.0 < word_count)
            × ((next_stale_in self.old ≡ Some post.0)
            × ((post.1 ≡ slice_index self.old.words post.0)
            × (self.new ≡ record self.old { posted = slice_set self.old.posted post.0 post.1 })))) }
    {
        let mark = self.stale.take_first()?;
        let w = marked_at(mark);
        let value = self.words[w];
        self.posted[w] = value;
        Some((w, value))
    }

    /// All stale words are posted.
    pub fn settle(&mut self)
        ensures { self.new ≡ record self.old { posted = self.old.words } }
    {
        while let Some(_post) = self.post_next() {}
    }

    /// The stale word that is posted next, if any is stale.
    pub fn next_stale(&self) -> Option<usize>
        ensures { result ≡ next_stale_in self.now }
    {
        let mark = self.stale.first()?;
        Some(marked_at(mark))
    }
}
