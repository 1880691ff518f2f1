//! A member: one thread's side of the table.

ghost use Rattle.std.specs.Prelude.{◌≡◌, ◌+◌, ◌<◌, [], IfErr, IfOk};
ghost use mathlib.Core.List.{IsPrefix};
ghost use Rattle.arb_model.specs.Layout.{word_count};
ghost use Rattle.arb_model.specs.History.{IsLegal, orders_in};
ghost use Rattle.arb_model.specs.Reading.{reading};
ghost use Rattle.arb_common.specs.Giving.{Gives};
ghost use Rattle.arb_common.specs.Lawful.{IsLawfulThroughout};
ghost use Rattle.arb_common.specs.Limits.{IsMachineOfAnyLimit, with_limit};
ghost use Rattle.arb_common.specs.Places.{Rises};

use crate::giving::{Given, enter_and_post};
use crate::note::Note;
use crate::seats::{copy_seat, load_word, take_in, take_lock};
use crate::table::{Limited, TABLE_WORDS, TableSeat, TableWords};
use arb_config::Topology;
use arb_core::Core;
use arb_model::{ClientId, Order};
use atomic_table::{Refused, Table};
use std::alloc::{AllocError, Global};
use std::marker::Model;
use std::sync::Arc;

/// What all members of a table share.
#[derive(Drop)]
pub struct Common {
    pub(crate) table: TableWords,
    /// The limit on orders.
    pub(crate) limit: u64,
    ghost words: { table.shared.table_id.words ≡ word_count + 1 },
    ghost slots: { table.shared.table_id.slots ≡ 1 },
    ghost machine: { IsMachineOfAnyLimit table.shared.key },
    ghost orders: { limit ≡ table.shared.key.orders },
}

/// One thread's side: it gives orders, and reads page words.
///
/// Contracts see which table it is, its machine, the history that the member has seen, the places of its own entries, how many
/// steps it has made, and how often it found the lock taken.
#[derive(Drop)]
pub struct Member {
    pub(crate) common: Arc<Common, Global>,
    pub(crate) seat: TableSeat,
}

impl Model for Member {
    ghost use Rattle.std.specs.Prelude.{◌≡◌};
    ghost use Rattle.std.specs.Arc.{arc_value};
    ghost use Rattle.arb_model.specs.History.{IsLegal, orders_in};
    ghost use Rattle.arb_common.specs.Places.{Rises};
    ghost use Rattle.arb_common.specs.Sides.{Side};
    ghost use Rattle.arb_common.specs.Views.{free_seat, side_of};

    ghost Value = { Side };

    ghost view = { λ m. side_of m.seat.table_id (arc_value m.common).table.shared.key m.seat.me.0 };

    ghost invariant = { λ m. (m.seat.table_id ≡ (arc_value m.common).table.shared.table_id)
        × (m.seat.me ≡ free_seat (arc_value m.common).table.shared.key m.seat.me.0.seen m.seat.me.0.own)
        × IsLegal (arc_value m.common).table.shared.key m.seat.me.0.seen
        × Rises 0 m.seat.me.0.own.mine (orders_in m.seat.me.0.seen) };
}

impl Member {
    /// A new history of a machine, with no order. At most `limit` orders are entered; `u64::MAX` is no limit. The limit of the
    /// topology itself doesn't count.
    pub fn open(alloc: Global, topology: &Topology, limit: u64) -> Result<Member, AllocError>
        ensures machine { IfOk result (λ m. m.machine ≡ with_limit topology.now limit) }
        ensures empty { IfOk result (λ m. (m.seen ≡ []) × (m.mine ≡ []) × (m.steps ≡ 0) × (m.busy ≡ 0)) }
    {
        // its clause says that the topology's machine is one
        let _managed = topology.managed();
        let key = Limited::of(topology, limit);
        let mut slots = Vec::with_capacity(alloc, 1)?;
        slots.push_reserved(Core::new(topology));
        match Table::new(alloc, &[0; TABLE_WORDS], slots, &key) {
            Ok((table, seat)) => match Arc::new(alloc, Common { table, limit }) {
                Ok(common) => Ok(Member { common, seat }),
                Err(_) => Err(AllocError),
            },
            Err(Refused { slots: _ }) => Err(AllocError),
        }
    }

    /// Another thread's side, which has seen as much. One load, of word 0.
    pub fn another(&mut self) -> Result<Member, AllocError>
        ensures other { IfOk result (λ m. m ≡ record self.old { mine = []; steps = 0; busy = 0 }) }
        ensures one_load { IfOk result (λ _. self.new ≡ record self.old { steps = self.old.steps + 1 }) }
        ensures none { IfErr result (λ _. self.new ≡ self.old) }
    {
        let common = Arc::try_clone(&self.common)?;
        let seat = copy_seat(&self.common, &mut self.seat);
        Ok(Member { common, seat })
    }

    /// The value that a word, which is below `layout::WORDS`, has at a point of the history, at or after all that was
    /// seen before. One load: no lock, no wait, and no call of the arbiter.
    pub fn read(&mut self, word: usize) -> u64
        requires { word < word_count }
        ensures value { result ≡ reading self.new.seen word }
        ensures later { IsPrefix self.old.seen self.new.seen }
        ensures legal { IsLegal self.new.machine self.new.seen }
        ensures one_load { self.new ≡ record self.old { seen = self.new.seen; steps = self.old.steps + 1 } }
    {
        load_word(&self.common, &mut self.seat, word)
    }

    /// The places of the orders that this member was answered, among the entries of what it has seen: they rise, so each
    /// answered order stands at one place, and no two at the same. It does nothing: its clause says so.
    pub fn own_entries_stand(&self)
        ensures rises { Rises 0 self.now.mine (orders_in self.now.seen) }
        ensures legal { IsLegal self.now.machine self.now.seen }
    {
        // what is read has the facts of its type
        let _seat = &self.seat;
    }

    /// Each point of the history that this member has seen is lawful: at none is a core placed, published or read twice; each
    /// word reads what was posted; each entry has its step's reply, and its number among its client's entries; and orders are
    /// within the limit. It does nothing: its clause says so.
    pub fn history_is_lawful(&self)
        ensures lawful { IsLawfulThroughout self.now.machine self.now.seen }
        ensures legal { IsLegal self.now.machine self.now.seen }
        ensures machine { IsMachineOfAnyLimit self.now.machine }
    {
        // what is read has the facts of its type
        let _common = &self.common;
        let _seat = &self.seat;
    }

    /// A note of what the member has seen. One load, of word 0.
    pub fn tell(&mut self) -> Note
        ensures note { (result.table ≡ self.old.table) × (result.seen ≡ self.old.seen) }
        ensures one_load { self.new ≡ record self.old { steps = self.old.steps + 1 } }
    {
        let seat = copy_seat(&self.common, &mut self.seat);
        Note { seat }
    }

    /// The member has seen what the note carries, which must be of the same table. Two loads, of word 0.
    pub fn learn(&mut self, note: Note)
        requires { note.table ≡ self.old.table }
        ensures told { IsPrefix note.seen self.new.seen }
        ensures later { IsPrefix self.old.seen self.new.seen }
        ensures legal { IsLegal self.new.machine self.new.seen }
        ensures two_loads { self.new ≡ record self.old { seen = self.new.seen; steps = self.old.steps + 2 } }
    {
        let Note { seat } = note;
        take_in(&self.common, &mut self.seat, seat);
    }

    /// Enters an order of a client, and posts all words that it leaves stale; or does nothing, where the lock was found taken or
    /// the limit on orders is reached. It never waits.
    pub fn give(&mut self, client: ClientId, order: &Order) -> Given
        ensures gives { Gives self.old client order.now result self.new }
        ensures legal { IsLegal self.new.machine self.new.seen }
        ensures table { (self.new.table ≡ self.old.table) × (self.new.machine ≡ self.old.machine) }
    {
        if !take_lock(&self.common, &mut self.seat) {
            return Given::Busy;
        }
        enter_and_post(&self.common, &mut self.seat, client, order)
    }
}
