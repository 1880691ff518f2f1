//! A recorder: it takes orders, and keeps what was entered.

ghost use Rattle.std.specs.Prelude.{◌≡◌, ◌+◌, ◌-◌, [], IfErr, IfOk, IsFalse, IsTrue, vec_capacity, vec_len};
ghost use mathlib.Core.List.{IsPrefix};
ghost use Rattle.arb_config.specs.Machine.{IsMachine};
ghost use Rattle.arb_model.specs.History.{IsLegal, IsSettled, entries_of, orders_in};
ghost use Rattle.arb_house.specs.Recording.{Admits, IsReady, StandsAt, WantsRoom};

use crate::looks::OnlyMarks;
use crate::publisher::Publisher;
use arb_config::Topology;
use arb_core::Core;
use arb_desk::{Admission, Answer};
use arb_model::{ClientId, Entry, Order};
use arb_page::{Memory, Pages, Set, Writer};
use std::alloc::Global;
use std::marker::Model;
use std::sync::Wait;
use std::thread;

/// A publisher, and the entries of all orders that it took.
///
/// Contracts see the history so far, after which no word is stale, and for how many entries there is room.
#[derive(Drop)]
pub struct Recorder<K: Set> {
    publisher: Publisher<K>,
    journal: Vec<Entry>,
}

impl<K: Set> Model for Recorder<K> {
    ghost use Rattle.std.specs.Prelude.{◌≡◌, ◌-◌, vec_len, vec_capacity};
    ghost use Rattle.arb_model.specs.History.{entries_of};
    ghost use Rattle.arb_house.specs.Recording.{Record};

    ghost Value = { Record };

    ghost view = { λ r. record { seen = r.publisher; room = vec_capacity r.journal - vec_len r.journal } };

    ghost invariant = { λ r. r.journal.items ≡ entries_of r.publisher };
}

impl<K: Set> Recorder<K> {
    /// The arbiter of the pages' machine, before all orders. It takes no memory yet.
    pub fn new(alloc: Global, topology: &Topology, writer: Writer<K>) -> Recorder<K>
        requires topology { topology.now ≡ K.machine }
        requires writer { writer.seen ≡ [] }
        ensures { result ≡ record { seen = []; room = 0 } }
    {
        Recorder {
            publisher: Publisher::new(topology, writer),
            journal: Vec::new(alloc),
        }
    }

    /// Makes room for one entry, if there is none and the limit isn't reached. Else all is as before.
    ///
    /// # Errors
    /// [`Memory`] where an allocation failed; then all is as before.
    pub fn reserve(&mut self) -> Result<(), Memory>
        ensures ready { IfOk result (λ _. IsReady K.machine self.new) }
        ensures wants { IfErr result (λ _. WantsRoom K.machine self.old) }
        ensures unchanged { IfErr result (λ _. self.new ≡ self.old) }
        ensures kept { ¬ WantsRoom K.machine self.old → self.new ≡ self.old }
        ensures same { self.new.seen ≡ self.old.seen }
    {
        if !self.has_room() {
            self.journal.reserve(1)?;
        }
        Ok(())
    }

    /// Whether there is room for the next entry, or the limit is reached, so that none comes.
    pub(crate) fn has_room(&self) -> bool
        ensures ready { IsTrue result → IsReady K.machine self.now }
        ensures wants { IsFalse result → WantsRoom K.machine self.now }
    {
        self.journal.len() < self.journal.capacity() || self.publisher.is_full()
    }

    /// Makes room as [`Recorder::reserve`] does, again and again until an allocation succeeds. Where there is room it does
    /// nothing. It is for a server that has seen that only close marks come.
    pub(crate) fn reserve_at_last<R: Wait>(&mut self, rt: &R, _seen: OnlyMarks)
        ensures ready { IsReady K.machine self.new }
        ensures kept { ¬ WantsRoom K.machine self.old → self.new ≡ self.old }
        ensures same { self.new.seen ≡ self.old.seen }
    {
        for _ in rt.forever() {
            if self.reserve().is_ok() {
                return;
            }
            thread::yield_now();
        }
        unreachable!()
    }

    /// Takes an order: enters it and posts what it leaves stale, or, where the limit is reached, does nothing. It answers
    /// what came of it, with a note of the history so far. There must be room for the entry, unless the limit is reached.
    /// The entry takes that room, and no memory.
    pub fn record(&mut self, pages: &Pages<K>, client: ClientId, order: &Order) -> Answer<K>
        requires { IsReady K.machine self.old }
        ensures admits { Admits K.machine self.old.seen client order.now result.admission self.new.seen }
        ensures told { result.seen ≡ self.new.seen }
        ensures room { self.new.room + orders_in self.new.seen ≡ self.old.room + orders_in self.old.seen }
        ensures later { IsPrefix self.old.seen self.new.seen }
        ensures legal { IsLegal K.machine self.new.seen }
        ensures settled { IsSettled K.machine self.new.seen }
        ensures machine { IsMachine K.machine }
    {
        let admission = self.publisher.publish(pages, client, order);
        let note = self.publisher.tell(pages);
        if let Admission::Entered(entry, _) = &admission {
            self.journal.push_reserved(*entry);
        }
        Answer::new(admission, note)
    }

    /// The entries, the arbiter, and the writer.
    pub fn into_parts(self) -> (Vec<Entry>, Core, Writer<K>)
        ensures seen { result.2.seen ≡ self.seen }
        ensures journal { result.0.items ≡ entries_of self.seen }
        ensures room { vec_capacity result.0 - vec_len result.0 ≡ self.room }
        ensures stands { StandsAt K.machine self.seen result.1 }
        ensures settled { IsSettled K.machine self.seen }
    {
        let (core, writer) = self.publisher.into_parts();
        (self.journal, core, writer)
    }
}
