//! Turns: a member that has the lock enters orders and posts words one by one.

ghost use Rattle.std.specs.Prelude.{◌≡◌, ◌+◌, ◌<◌, IfErr, IfNone, IfOk, IfSome};
ghost use Rattle.std.specs.Fn.{FnOnceReturnsAt};
ghost use Rattle.arb_model.specs.Arbiter.{Arbiter};
ghost use Rattle.arb_model.specs.History.{IsLegal, IsSettled, orders_in};
ghost use Rattle.arb_model.specs.Layout.{word_count};
ghost use Rattle.arb_model.specs.Reading.{reading};
ghost use Rattle.arb_common.specs.Giving.{Begins, EntersOne, PostsOne, busier};
ghost use Rattle.arb_common.specs.Limits.{StandsAt};

use crate::giving::{enter, look_at, post_core, store_post};
use crate::member::{Common, Member};
use crate::seats::{check_word, leave_lock, take_lock};
use crate::table::TableSeat;
use arb_core::Core;
use arb_model::{ClientId, Order, Reply};
use std::alloc::Global;
use std::marker::Model;
use std::sync::Arc;

/// A member that has the lock, for a caller that has something to do between two posts, as to pin a thread. No other member
/// enters an order before it ends; each may read.
///
/// It can't be dropped, since the lock would stay taken: [`Turn::end`] gives it back.
///
/// ```
/// if let Ok(mut turn) = member.begin() {
///     let reply = turn.step(client, &Order::Block);
///     while let Some((word, value)) = turn.post() {
///         // here
///     }
///     member = turn.end();
/// }
/// ```
pub struct Turn {
    common: Arc<Common, Global>,
    seat: TableSeat,
}

impl Model for Turn {
    ghost use Rattle.std.specs.Prelude.{◌≡◌};
    ghost use Rattle.std.specs.Arc.{arc_value};
    ghost use Rattle.arb_model.specs.History.{IsLegal, orders_in};
    ghost use Rattle.arb_common.specs.Places.{Rises};
    ghost use Rattle.arb_common.specs.Sides.{Side};
    ghost use Rattle.arb_common.specs.Views.{HasLock, side_of};

    ghost Value = { Side };

    ghost view = { λ t. side_of t.seat.table_id (arc_value t.common).table.shared.key t.seat.me.0 };

    ghost invariant = { λ t. (t.seat.table_id ≡ (arc_value t.common).table.shared.table_id)
        × HasLock (arc_value t.common).table.shared.key t.seat.me.0.seen t.seat.me
        × IsLegal (arc_value t.common).table.shared.key t.seat.me.0.seen
        × Rises 0 t.seat.me.0.own.mine (orders_in t.seat.me.0.seen) };
}

impl Member {
    /// Takes the lock by one compare-exchange, or gives the member back where it found the lock taken. It never waits.
    pub fn begin(self) -> Result<Turn, Member>
        ensures begins { IfOk result (λ turn. Begins self turn) }
        ensures busy { IfErr result (λ member. member ≡ busier self) }
    {
        let Member { common, mut seat } = self;
        if !take_lock(&common, &mut seat) {
            return Err(Member { common, seat });
        }
        Ok(Turn { common, seat })
    }
}

impl Turn {
    /// Enters an order of a client, or does nothing where the limit on orders is reached. One load, of word 0, and one store. May
    /// be called only where no word is stale: at the start of the turn, or after [`Turn::post`] has given `None`.
    pub fn step(&mut self, client: ClientId, order: &Order) -> Option<Reply>
        requires settled { IsSettled self.old.machine self.old.seen }
        ensures entered { IfSome result (λ reply. EntersOne self.old client order.now reply self.new) }
        ensures full { IfNone result ((self.new ≡ record self.old { steps = self.old.steps + 1 })
            × (orders_in self.old.seen ≡ self.old.machine.orders)) }
        ensures legal { IsLegal self.new.machine self.new.seen }
    {
        enter(&self.common, &mut self.seat, client, order)
    }

    /// The value of a word, which is below `layout::WORDS`. One load. Nobody else changes one meanwhile.
    pub fn read(&mut self, word: usize) -> u64
        requires { word < word_count }
        ensures value { result ≡ reading self.old.seen word }
        ensures one_load { self.new ≡ record self.old { steps = self.old.steps + 1 } }
    {
        check_word(&self.common, &mut self.seat, word)
    }

    /// What a look at the arbiter tells. The arbiter stands where the history leads, but for its counts of orders: it may have
    /// been renewed.
    pub fn look<T, F: FnOnce(&Core) -> T>(&mut self, look: F) -> T
        requires looks { F.IsAlwaysCallable look }
        ensures same { self.new ≡ self.old }
        ensures told { (a : Arbiter) × StandsAt self.old.machine self.old.seen a × FnOnceReturnsAt F.FnOnce look a result }
    {
        look_at(&self.common.table.shared, &mut self.seat, look)
    }

    /// Posts the next stale word by one store: gives the word and its value, or `None` where no word is stale.
    pub fn post(&mut self) -> Option<(usize, u64)>
        ensures posted { IfSome result (λ p. PostsOne self.old p.0 p.1 self.new) }
        ensures word { IfSome result (λ p. p.0 < word_count) }
        ensures settled { IfNone result ((self.new ≡ self.old)
            × IsSettled self.old.machine self.old.seen) }
        ensures legal { IsLegal self.new.machine self.new.seen }
    {
        let (word, value) = post_core(&self.common.table.shared, &mut self.seat)?;
        store_post(&self.common, &mut self.seat, word, value);
        Some((word, value))
    }

    /// Gives the lock back by one store. May be called only where no word is stale.
    pub fn end(self) -> Member
        requires settled { IsSettled self.machine self.seen }
        ensures one_store { result ≡ record self { steps = self.steps + 1 } }
    {
        let Turn { common, mut seat } = self;
        leave_lock(&common, &mut seat);
        Member { common, seat }
    }
}
