//! Readers: any number of threads that load words.

ghost use Rattle.std.specs.Prelude.{◌≡◌, ◌+◌, ◌<◌};
ghost use mathlib.Core.List.{IsPrefix};
ghost use Rattle.arb_model.specs.Layout.{word_count};
ghost use Rattle.arb_model.specs.History.{IsLegal};
ghost use Rattle.arb_model.specs.Reading.{reading};

use crate::note::Note;
use crate::pages::Pages;
use crate::set::Set;
use crate::table::{Look, TableSeat};
use std::marker::{Model, PhantomData};

/// Reads page words, each by one load. It has no bytes.
///
/// Contracts see the history that it has seen, a point of the one history, and how many steps it has made.
#[derive(Drop)]
pub struct Reader<K: Set> {
    pub(crate) seat: TableSeat,
    pub(crate) of: PhantomData<K>,
}

impl<K: Set> Model for Reader<K> {
    ghost use Rattle.arb_page.specs.Seats.{IsReaderSeat};
    ghost use Rattle.arb_page.specs.Seen.{Observer};
    ghost use Rattle.arb_page.specs.Views.{observer_of};

    ghost Value = { Observer };

    ghost view = { λ r. observer_of r.seat.me.0 };

    ghost invariant = { λ r. IsReaderSeat K.table K.machine (observer_of r.seat.me.0) r.seat.table_id r.seat.me };
}

impl<K: Set> Reader<K> {
    /// The value that a word, which is below `layout::WORDS`, has at a point of the history, at or after all that was
    /// seen before. One load: no lock, no wait, and no call of the arbiter.
    pub fn read(&mut self, pages: &Pages<K>, word: usize) -> u64
        requires { word < word_count }
        ensures value { result ≡ reading self.new.seen word }
        ensures later { IsPrefix self.old.seen self.new.seen }
        ensures legal { IsLegal K.machine self.new.seen }
        ensures one_load { self.new.steps ≡ self.old.steps + 1 }
    {
        pages.words.shared.load::<Look<K>>(&mut self.seat, word)
    }

    /// A note that carries what the reader has seen. One load, of word 0.
    pub fn tell(&mut self, pages: &Pages<K>) -> Note<K>
        ensures note { result ≡ self.old.seen }
        ensures same { self.new.seen ≡ self.old.seen }
        ensures one_load { self.new.steps ≡ self.old.steps + 1 }
    {
        Note::of_seat(pages, &mut self.seat)
    }

    /// The reader has seen what the note carries, and what it had seen. Two loads, both of word 0.
    pub fn learn(&mut self, pages: &Pages<K>, note: Note<K>)
        ensures told { IsPrefix note self.new.seen }
        ensures later { IsPrefix self.old.seen self.new.seen }
        ensures legal { IsLegal K.machine self.new.seen }
        ensures two_loads { self.new.steps ≡ self.old.steps + 2 }
    {
        note.tell_seat(pages, &mut self.seat);
        pages.words.shared.load::<Look<K>>(&mut self.seat, 0);
    }
}
