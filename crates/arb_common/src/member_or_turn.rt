//! A member that may be in a turn, for a caller whose types can't tell.

ghost use Rattle.std.specs.Prelude.{◌≡◌, ◌↔◌, ◌+◌, ◌<◌, [], ⊤, false, true, IfErr, IfNone, IfOk, IfSome, IsTrue, MatchBool};
ghost use mathlib.Core.List.{IsPrefix};
ghost use Rattle.std.specs.Fn.{FnOnceReturnsAt};
ghost use Rattle.arb_model.specs.Arbiter.{Arbiter};
ghost use Rattle.arb_model.specs.Layout.{word_count};
ghost use Rattle.arb_model.specs.History.{IsLegal, IsSettled, orders_in};
ghost use Rattle.arb_model.specs.Reading.{reading};
ghost use Rattle.arb_common.specs.Giving.{Begins, EntersOne, Gives, PostsOne, busier};
ghost use Rattle.arb_common.specs.Limits.{StandsAt};
ghost use Rattle.arb_common.specs.Sides.{out_of_turn};

use crate::giving::{Given, enter, enter_and_post, is_settled, look_at, post_core, store_post};
use crate::member::{Common, Member};
use crate::seats::{check_word, copy_seat, leave_lock, load_word, take_lock};
use crate::table::TableSeat;
use arb_core::Core;
use arb_model::{ClientId, Order, Reply};
use std::alloc::{AllocError, Global};
use std::marker::Model;
use std::sync::Arc;

/// A member, in a turn or not: for a caller whose types can't tell which, as C's can't. Others have [`Member`] and
/// [`Turn`](crate::Turn).
///
/// Contracts see the member's side, and whether it is in a turn. One that is dropped in a turn leaves the lock taken for ever.
#[derive(Drop)]
pub struct MemberOrTurn {
    common: Arc<Common, Global>,
    seat: TableSeat,
    in_turn: bool,
}

impl Model for MemberOrTurn {
    ghost use Rattle.std.specs.Prelude.{◌≡◌, MatchBool};
    ghost use Rattle.std.specs.Arc.{arc_value};
    ghost use Rattle.arb_model.specs.History.{IsLegal, orders_in};
    ghost use Rattle.arb_common.specs.Places.{Rises};
    ghost use Rattle.arb_common.specs.Sides.{Stance};
    ghost use Rattle.arb_common.specs.Views.{HasLock, free_seat, side_of};

    ghost Value = { Stance };

    ghost view = { λ m. record { side = side_of m.seat.table_id (arc_value m.common).table.shared.key m.seat.me.0; in_turn = m.in_turn } };

    ghost invariant = { λ m. (m.seat.table_id ≡ (arc_value m.common).table.shared.table_id)
        × MatchBool m.in_turn (HasLock (arc_value m.common).table.shared.key m.seat.me.0.seen m.seat.me)
        (m.seat.me ≡ free_seat (arc_value m.common).table.shared.key m.seat.me.0.seen m.seat.me.0.own)
        × IsLegal (arc_value m.common).table.shared.key m.seat.me.0.seen
        × Rises 0 m.seat.me.0.own.mine (orders_in m.seat.me.0.seen) };
}

impl MemberOrTurn {
    /// A member that is in no turn.
    pub fn new(member: Member) -> MemberOrTurn
        ensures { result ≡ out_of_turn member }
    {
        let Member { common, seat } = member;
        MemberOrTurn {
            common,
            seat,
            in_turn: false,
        }
    }

    /// Whether it is in a turn.
    pub fn is_in_turn(&self) -> bool
        ensures { result ≡ self.now.in_turn }
    {
        self.in_turn
    }

    /// [`Member::another`]. Not in a turn.
    pub fn another(&mut self) -> Result<MemberOrTurn, AllocError>
        requires free { self.old.in_turn ≡ false }
        ensures other { IfOk result (λ m. m ≡ out_of_turn (record self.old.side { mine = []; steps = 0; busy = 0 })) }
        ensures one_load { IfOk result (λ _. self.new ≡ out_of_turn (record self.old.side { steps = self.old.side.steps + 1 })) }
        ensures none { IfErr result (λ _. self.new ≡ self.old) }
    {
        let common = Arc::try_clone(&self.common)?;
        let seat = copy_seat(&self.common, &mut self.seat);
        Ok(MemberOrTurn {
            common,
            seat,
            in_turn: false,
        })
    }

    /// [`Member::read`], or [`Turn::read`](crate::Turn::read).
    pub fn read(&mut self, word: usize) -> u64
        requires { word < word_count }
        ensures value { result ≡ reading self.new.side.seen word }
        ensures later { IsPrefix self.old.side.seen self.new.side.seen }
        ensures legal { IsLegal self.new.side.machine self.new.side.seen }
        ensures one_load { self.new ≡ record self.old {
          side = record self.old.side { seen = self.new.side.seen; steps = self.old.side.steps + 1 };
        } }
        ensures turn { MatchBool self.old.in_turn (self.new.side.seen ≡ self.old.side.seen) ⊤ }
    {
        if self.in_turn {
            check_word(&self.common, &mut self.seat, word)
        } else {
            load_word(&self.common, &mut self.seat, word)
        }
    }

    /// [`Member::give`]. Not in a turn.
    pub fn give(&mut self, client: ClientId, order: &Order) -> Given
        requires free { self.old.in_turn ≡ false }
        ensures gives { Gives self.old.side client order.now result self.new.side }
        ensures legal { IsLegal self.new.side.machine self.new.side.seen }
        ensures table { (self.new.side.table ≡ self.old.side.table) × (self.new.side.machine ≡ self.old.side.machine) }
        ensures free { self.new.in_turn ≡ false }
    {
        if !take_lock(&self.common, &mut self.seat) {
            return Given::Busy;
        }
        enter_and_post(&self.common, &mut self.seat, client, order)
    }

    /// [`Member::begin`]: whether it is in a turn now. Not in a turn.
    pub fn begin(&mut self) -> bool
        requires free { self.old.in_turn ≡ false }
        ensures begins { MatchBool result (Begins self.old.side self.new.side) (self.new.side ≡ busier self.old.side) }
        ensures turn { self.new.in_turn ≡ result }
    {
        self.in_turn = take_lock(&self.common, &mut self.seat);
        self.in_turn
    }

    /// Whether no word is stale. In a turn.
    pub fn is_settled(&mut self) -> bool
        requires turn { self.old.in_turn ≡ true }
        ensures settled { IsTrue result ↔ IsSettled self.old.side.machine self.old.side.seen }
        ensures same { self.new ≡ self.old }
    {
        is_settled(&self.common.table.shared, &mut self.seat)
    }

    /// [`Turn::step`](crate::Turn::step). In a turn.
    pub fn step(&mut self, client: ClientId, order: &Order) -> Option<Reply>
        requires turn { self.old.in_turn ≡ true }
        requires settled { IsSettled self.old.side.machine self.old.side.seen }
        ensures entered { IfSome result (λ reply. EntersOne self.old.side client order.now reply self.new.side) }
        ensures full { IfNone result ((self.new.side ≡ record self.old.side { steps = self.old.side.steps + 1 })
            × (orders_in self.old.side.seen ≡ self.old.side.machine.orders)) }
        ensures legal { IsLegal self.new.side.machine self.new.side.seen }
        ensures turn { self.new.in_turn ≡ true }
    {
        enter(&self.common, &mut self.seat, client, order)
    }

    /// [`Turn::post`](crate::Turn::post). In a turn.
    pub fn post(&mut self) -> Option<(usize, u64)>
        requires turn { self.old.in_turn ≡ true }
        ensures posted { IfSome result (λ p. PostsOne self.old.side p.0 p.1 self.new.side) }
        ensures word { IfSome result (λ p. p.0 < word_count) }
        ensures settled { IfNone result ((self.new ≡ self.old)
            × IsSettled self.old.side.machine self.old.side.seen) }
        ensures legal { IsLegal self.new.side.machine self.new.side.seen }
        ensures turn { self.new.in_turn ≡ true }
    {
        let (word, value) = post_core(&self.common.table.shared, &mut self.seat)?;
        store_post(&self.common, &mut self.seat, word, value);
        Some((word, value))
    }

    /// [`Turn::end`](crate::Turn::end). In a turn.
    pub fn end(&mut self)
        requires turn { self.old.in_turn ≡ true }
        requires settled { IsSettled self.old.side.machine self.old.side.seen }
        ensures one_store { self.new ≡ out_of_turn (record self.old.side { steps = self.old.side.steps + 1 }) }
    {
        leave_lock(&self.common, &mut self.seat);
        self.in_turn = false;
    }

    /// [`Turn::look`](crate::Turn::look). In a turn.
    pub fn look<T, F: FnOnce(&Core) -> T>(&mut self, look: F) -> T
        requires turn { self.old.in_turn ≡ true }
        requires looks { F.IsAlwaysCallable look }
        ensures same { self.new ≡ self.old }
        ensures told { (a : Arbiter) × StandsAt self.old.side.machine self.old.side.seen a
            × FnOnceReturnsAt F.FnOnce look a result }
    {
        look_at(&self.common.table.shared, &mut self.seat, look)
    }
}
