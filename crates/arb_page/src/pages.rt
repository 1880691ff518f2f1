//! The words that all threads share.

ghost use Rattle.std.specs.Prelude.{◌≡◌};
ghost use Rattle.arb_model.specs.Layout.{word_count};

use crate::bell::Bell;
use crate::set::Set;
use crate::table::Words;
use arb_model::layout::{FIRST_PLACE, WAITING};
use arb_model::{CLIENTS, ClientId};
use std::array;
use std::marker::PhantomData;

/// The page words of one table, which all threads share: by a `&`, or in an `Arc`.
#[derive(Drop)]
pub struct Pages<K: Set> {
    pub(crate) words: Words,
    /// Each client's bell, by its number.
    pub(crate) bells: [Bell; CLIENTS],
    pub(crate) of: PhantomData<K>,
    ghost count: { words.shared.table_id.words ≡ word_count },
    ghost table: { words.shared.table_id ≡ K.table },
    ghost machine: { words.shared.key ≡ K.machine },
}

impl<K: Set> Pages<K> {
    /// The bell of a client. It is rung after its place word changed to another value than waiting, and by
    /// [`Pages::ring_all`].
    pub fn bell(&self, client: ClientId) -> &Bell {
        &self.bells[client.index()]
    }

    /// Wakes all that sleep on the bells: something that they look for besides their words has changed.
    pub fn ring_all(&self) {
        for k in 0..CLIENTS {
            self.bells[k].ring();
        }
    }

    /// Rings the bell of the thread of a place word that was stored, unless it says waiting.
    pub(crate) fn ring_thread(&self, word: usize, value: u64) {
        if word >= FIRST_PLACE
            && value != WAITING
            && let Some(bell) = self.bells.get(word - FIRST_PLACE)
        {
            bell.ring();
        }
    }
}

/// Bells on which nobody sleeps.
pub(crate) fn new_bells() -> [Bell; CLIENTS] {
    array::from_fn(|_| Bell::new())
}
