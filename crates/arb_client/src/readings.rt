//! What a client reads off its page words: one load each, without a wait.

ghost use Rattle.std.specs.Prelude.{◌≡◌, ◌+◌, ◌<◌, Some, None, IfSome};
ghost use Rattle.arb_config.specs.Machine.{IsMachine};
ghost use Rattle.arb_model.specs.History.{IsLegal};
ghost use Rattle.arb_model.specs.Decoding.{asked_in_word, place_in_word};
ghost use Rattle.arb_model.specs.Layout.{half_number, place_index, release_index};
ghost use Rattle.arb_model.specs.Limits.{all_threads};
ghost use Rattle.arb_model.specs.Reading.{reading};
ghost use Rattle.arb_model.specs.Standing.{app_of, the_clock};
ghost use Rattle.arb_client.specs.Readings.{WasPlaced};
ghost use Rattle.arb_client.specs.Sides.{SeesOn};

use crate::client::Client;
use arb_model::Place;
use arb_model::layout::{
    Half, asked_in_word, place_in_word, place_index, release_index, words_are_read_as_written,
};
use arb_page::Set;

impl<K: Set> Client<K> {
    /// Whether the thread's core is asked back, or `None` where the thread is on no managed core. One load of its place
    /// word. The clock gets `None`, without a load.
    pub fn must_release(&mut self) -> Option<bool>
        ensures thread { self.old.id < all_threads → result ≡ asked_in_word (reading self.new.seen (place_index self.old.id)) }
        ensures clock { self.old.id ≡ the_clock → (result ≡ None) × (self.new ≡ self.old) }
        ensures one_load { self.old.id < all_threads → self.new.steps ≡ self.old.steps + 1 }
        ensures legal { IsLegal K.machine self.new.seen }
        ensures same { SeesOn self.old self.new }
    {
        let word = self.place_word()?;
        asked_in_word(word)
    }

    /// Where the thread is. One load of its place word. The clock is unmanaged, without a load.
    pub fn place(&mut self) -> Place
        ensures thread { self.old.id < all_threads → place_in_word K.machine (reading self.new.seen (place_index self.old.id)) ≡ Some result }
        ensures was { self.old.id < all_threads → WasPlaced K.machine self.new.seen self.old.id result }
        ensures clock { self.old.id ≡ the_clock → (result ≡ Place.Unmanaged) × (self.new ≡ self.old) }
        ensures one_load { self.old.id < all_threads → self.new.steps ≡ self.old.steps + 1 }
        ensures legal { IsLegal K.machine self.new.seen }
        ensures same { SeesOn self.old self.new }
    {
        // a place word is read as the place for which it was made
        words_are_read_as_written();
        let Some(word) = self.place_word() else {
            return Place::Unmanaged;
        };
        place_in_word(&self.desk.topology, word).unwrap_or(Place::Unmanaged)
    }

    /// The application's cores in a half that are asked back. Bit c is position c in the low half, and position 64 + c in the
    /// high one. One load of that release word. The clock gets 0, without a load.
    pub fn asked_cores(&mut self, half: Half) -> u64
        ensures thread { self.old.id < all_threads → result ≡ reading self.new.seen (release_index (app_of self.old.id) (half_number half)) }
        ensures clock { self.old.id ≡ the_clock → (result ≡ 0) × (self.new ≡ self.old) }
        ensures one_load { self.old.id < all_threads → self.new.steps ≡ self.old.steps + 1 }
        ensures legal { IsLegal K.machine self.new.seen }
        ensures same { SeesOn self.old self.new }
    {
        let Some(app) = self.id.app_no() else {
            return 0;
        };
        self.reader.read(&self.desk.pages, release_index(app, half))
    }

    /// The thread's place word, `None` for the clock.
    fn place_word(&mut self) -> Option<u64>
        ensures thread { self.old.id < all_threads → result ≡ Some (reading self.new.seen (place_index self.old.id)) }
        ensures clock { self.old.id ≡ the_clock → (result ≡ None) × (self.new ≡ self.old) }
        ensures one_load { self.old.id < all_threads → self.new.steps ≡ self.old.steps + 1 }
        ensures legal { IsLegal K.machine self.new.seen }
        ensures machine { IsMachine K.machine }
        ensures same { SeesOn self.old self.new }
    {
        if self.id.is_clock() {
            return None;
        }
        Some(self.reader.read(&self.desk.pages, place_index(self.id)))
    }
}
