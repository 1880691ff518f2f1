//! The one writer.

ghost use Rattle.std.specs.Prelude.{◌≡◌, ◌+◌, ◌<◌, ◌++◌, ◌∷◌, []};
ghost use mathlib.Core.List.{IsPrefix};
ghost use Rattle.arb_model.specs.declared.orders.Event.TheVariants.{Entered, Posted};
ghost use Rattle.arb_model.specs.Layout.{word_count};
ghost use Rattle.arb_model.specs.History.{IsLegal, MayFollow, entry_after};
ghost use Rattle.arb_model.specs.Reading.{reading, word_written};
ghost use Rattle.arb_page.specs.Seats.{IsWriterSeat};
ghost use Rattle.arb_page.specs.Views.{observer_of};

use crate::note::Note;
use crate::pages::Pages;
use crate::set::Set;
use crate::table::{Append, Check, Happening, TableSeat};
use arb_model::{ClientId, Order, Reply};
use std::marker::{Brand, Model, PhantomData};

/// Stores page words, each event of the history by one store. There is one for each table.
///
/// Contracts see the history that it has seen, which is the one history, and how many steps it has made.
#[derive(Drop)]
pub struct Writer<K: Set> {
    /// How many orders were entered.
    pub(crate) orders: u64,
    pub(crate) seat: TableSeat,
    pub(crate) of: PhantomData<K>,
}

impl<K: Set> Model for Writer<K> {
    ghost use Rattle.std.specs.Prelude.{◌≡◌};
    ghost use Rattle.arb_config.specs.Machine.{IsMachine};
    ghost use Rattle.arb_model.specs.Reading.{reading};
    ghost use Rattle.arb_page.specs.Seats.{IsWriterSeat};
    ghost use Rattle.arb_page.specs.Seen.{Observer};
    ghost use Rattle.arb_page.specs.Views.{observer_of};

    ghost Value = { Observer };

    ghost view = { λ w. observer_of w.seat.me.0 };

    ghost invariant = { λ w. IsWriterSeat K.table K.machine (observer_of w.seat.me.0) w.seat.table_id w.seat.me
        × (w.orders ≡ reading w.seat.me.0.seen 0) × IsMachine K.machine };
}

impl<K: Set> Writer<K> {
    /// Enters an order of a client with its reply; word 0, the count of orders, grows by one. One store.
    ///
    /// The entry must be one that may follow the history: no word is stale, the limit on orders isn't reached, and the
    /// reply is the arbiter's.
    pub fn enter(&mut self, pages: &Pages<K>, client: ClientId, order: &Order, reply: &Reply)
        requires { MayFollow K.machine self.old.seen (Entered (entry_after self.old.seen client order.now reply.now)) }
        ensures entered { self.new.seen
            ≡ self.old.seen ++ Entered (entry_after self.old.seen client order.now reply.now) ∷ [] }
        ensures legal { IsLegal K.machine self.new.seen }
        ensures one_store { self.new.steps ≡ self.old.steps + 1 }
    {
        self.enter_as::<Brand>(pages, client, order, reply);
    }

    /// Posts a word. One store. It wakes the thread whose place word it is, unless the word says waiting.
    ///
    /// The post must be one that may follow the history: the word is the next stale one, and the value is the standing's.
    pub fn post(&mut self, pages: &Pages<K>, word: usize, value: u64)
        requires { MayFollow K.machine self.old.seen (Posted word value) }
        ensures posted { self.new.seen ≡ self.old.seen ++ Posted word value ∷ [] }
        ensures legal { IsLegal K.machine self.new.seen }
        ensures one_store { self.new.steps ≡ self.old.steps + 1 }
    {
        append::<K, Brand>(pages, &mut self.seat, word, value);
        pages.ring_thread(word, value);
    }

    /// A note that carries the history so far. One load, of word 0.
    pub fn tell(&mut self, pages: &Pages<K>) -> Note<K>
        ensures note { result ≡ self.old.seen }
        ensures same { self.new.seen ≡ self.old.seen }
        ensures one_load { self.new.steps ≡ self.old.steps + 1 }
    {
        Note::of_seat(pages, &mut self.seat)
    }

    /// The writer had seen what the note carries. Two loads, both of word 0.
    pub fn learn(&mut self, pages: &Pages<K>, note: Note<K>)
        ensures told { IsPrefix note self.new.seen }
        ensures same { self.new.seen ≡ self.old.seen }
        ensures legal { IsLegal K.machine self.new.seen }
        ensures two_loads { self.new.steps ≡ self.old.steps + 2 }
    {
        note.tell_seat(pages, &mut self.seat);
        pages.words.shared.load::<Check>(&mut self.seat, 0);
    }

    /// Enters the order, whose event `E` names.
    fn enter_as<E: Happening>(
        &mut self,
        pages: &Pages<K>,
        client: ClientId,
        order: &Order,
        reply: &Reply,
    )
        requires event { E.event ≡ Entered (entry_after self.old.seen client order.now reply.now) }
        requires follows { MayFollow K.machine self.old.seen E.event }
        ensures entered { self.new.seen ≡ self.old.seen ++ E.event ∷ [] }
        ensures legal { IsLegal K.machine self.new.seen }
        ensures one_store { self.new.steps ≡ self.old.steps + 1 }
    {
        append::<K, E>(pages, &mut self.seat, 0, self.orders + 1);
        self.orders += 1;
    }
}

/// One store, with which the event that `E` names happens.
#[tactic(auto, using(arb_model::proofs::LegalLaws::legal_next))]
fn append<K: Set, E: Happening>(pages: &Pages<K>, seat: &mut TableSeat, word: usize, value: u64)
    requires seat { IsWriterSeat K.table K.machine (observer_of seat.old.me.0) seat.old.table_id seat.old.me }
    requires follows { MayFollow K.machine seat.old.me.0.seen E.event }
    requires word { (word < word_count) × (word ≡ word_written E.event) }
    requires value { value ≡ reading (seat.old.me.0.seen ++ E.event ∷ []) word }
    ensures seat { IsWriterSeat K.table K.machine (observer_of seat.new.me.0) seat.new.table_id seat.new.me }
    ensures seen { seat.new.me.0.seen ≡ seat.old.me.0.seen ++ E.event ∷ [] }
    ensures one_store { seat.new.me.0.steps ≡ seat.old.me.0.steps + 1 }
{
    pages.words.shared.store::<Append<E>>(seat, word, value);
}
