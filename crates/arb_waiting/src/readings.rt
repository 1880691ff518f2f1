//! What a member reads of a thread's place, by one load, or until the thread no longer waits.

ghost use Rattle.std.specs.Prelude.{◌≡◌, ◌≢◌, ◌+◌, ◌<◌, Some};
ghost use mathlib.Core.List.{IsPrefix};
ghost use Rattle.arb_model.specs.Decoding.{asked_in_word, place_in_word};
ghost use Rattle.arb_model.specs.History.{IsLegal};
ghost use Rattle.arb_model.specs.HistoryLaws.{WasAt};
ghost use Rattle.arb_model.specs.Layout.{place_index};
ghost use Rattle.arb_model.specs.Limits.{all_threads};
ghost use Rattle.arb_model.specs.Reading.{reading};

use crate::member::WaitingMember;
use arb_model::layout::{asked_in_word, place_in_word, place_index, words_are_read_as_written};
use arb_model::{ClientId, Place};
use arb_page::Patience;
use std::sync::Wait;

impl WaitingMember {
    /// Whether the thread's core is asked back, or `None` where the thread is on no managed core. One load of its place
    /// word. Not of the clock.
    pub fn must_release(&mut self, thread: ClientId) -> Option<bool>
        requires { thread < all_threads }
        ensures value { result ≡ asked_in_word (reading self.new.seen (place_index thread)) }
        ensures later { IsPrefix self.old.seen self.new.seen }
        ensures legal { IsLegal self.new.machine self.new.seen }
        ensures one_load { self.new ≡ record self.old { seen = self.new.seen; steps = self.old.steps + 1 } }
    {
        asked_in_word(self.read(place_index(thread)))
    }

    /// Where the thread is. One load of its place word, which was the thread's at a point of the history. Not of the clock.
    pub fn place(&mut self, thread: ClientId) -> Place
        requires { thread < all_threads }
        ensures value { place_in_word self.new.machine (reading self.new.seen (place_index thread)) ≡ Some result }
        ensures was { WasAt self.new.machine self.new.seen thread (reading self.new.seen (place_index thread)) }
        ensures later { IsPrefix self.old.seen self.new.seen }
        ensures legal { IsLegal self.new.machine self.new.seen }
        ensures one_load { self.new ≡ record self.old { seen = self.new.seen; steps = self.old.steps + 1 } }
    {
        // a place word is read as the place for which it was made
        words_are_read_as_written();
        let topology = &self.sleepers.topology;
        // its clause says that the topology's machine is one
        let _managed = topology.managed();
        let word = self.member.read(place_index(thread));
        place_in_word(topology, word).unwrap_or(Place::Unmanaged)
    }

    /// Reads the thread's place until it no longer waits: some times at once, and then asleep until the place changes. It
    /// gives that place: the core that the thread is then on and whether it is asked back, or that it was moved or is
    /// unmanaged. Not of the clock. It gives no order: [`Order::Block`](arb_model::Order::Block) is the caller's, before it.
    pub fn wait_for_core<R: Wait>(&mut self, rt: &R, thread: ClientId) -> Place
        requires { thread < all_threads }
        ensures ended { result ≢ Place.Waiting }
        ensures value { place_in_word self.new.machine (reading self.new.seen (place_index thread)) ≡ Some result }
        ensures was { WasAt self.new.machine self.new.seen thread (reading self.new.seen (place_index thread)) }
        ensures later { IsPrefix self.old.seen self.new.seen }
        ensures legal { IsLegal self.new.machine self.new.seen }
        ensures loads { (self.new ≡ record self.old { seen = self.new.seen; steps = self.new.steps })
            × (self.old.steps < self.new.steps) }
    {
        let mut patience = Patience::new();
        for _ in rt.forever() {
            let place = self.place(thread);
            if place != Place::Waiting {
                return place;
            }
            patience.rest(rt, self.sleepers.bell(thread));
        }
        unreachable!()
    }
}
