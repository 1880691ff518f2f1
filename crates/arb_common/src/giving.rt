//! Giving an order: it is entered, all words that it leaves stale are posted, and the lock is given back.

ghost use Rattle.std.specs.Prelude.{◌≡◌, ◌↔◌, ◌+◌, ◌<◌, ◌++◌, ◌∷◌, [], IfNone, IfSome, IsTrue, None, length, sum};
ghost use Rattle.arb_config.specs.Machine.{Machine};
ghost use Rattle.arb_model.specs.declared.orders.Event.TheVariants.{Posted};
ghost use Rattle.std.specs.Fn.{FnOnceReturnsAt};
ghost use Rattle.arb_model.specs.Arbiter.{Arbiter, IsArbiter};
ghost use Rattle.arb_model.specs.Layout.{word_count};
ghost use Rattle.arb_model.specs.History.{History, IsLegal, IsSettled, MayFollow, orders_in, settled_from};
ghost use Rattle.arb_model.specs.Posting.{next_stale_of};
ghost use Rattle.arb_model.specs.Reading.{reading};
ghost use Rattle.arb_common.specs.Giving.{Enters, GivesAt, PostsNext, StepsNext, entered_at, entering};
ghost use Rattle.arb_common.specs.Limits.{StandsAt};
ghost use Rattle.arb_common.specs.Views.{HasLock, free_seat, one_step, own_with};

use crate::member::Common;
use crate::seats::{check_word, leave_lock, store_event};
use crate::table::{Happening, TableSeat, TableShared};
use arb_core::Core;
use arb_model::{ClientId, Order, Reply};
use std::marker::Brand;

/// What comes of an order.
#[derive(Clone, Copy, Debug, PartialEq, Eq)]
pub enum Given {
    /// It was entered, with this reply.
    Answered(Reply),
    /// Another member has the lock.
    Busy,
    /// The limit on orders is reached.
    Full,
}

/// Enters an order and posts what follows, and gives the lock up.
pub(crate) fn enter_and_post(
    common: &Common,
    seat: &mut TableSeat,
    client: ClientId,
    order: &Order,
) -> Given
    requires table { seat.old.table_id ≡ common.now.table.shared.table_id }
    requires lock { HasLock common.now.table.shared.key seat.old.me.0.seen seat.old.me }
    requires legal { IsLegal common.now.table.shared.key seat.old.me.0.seen }
    requires settled { IsSettled common.now.table.shared.key seat.old.me.0.seen }
    ensures table { seat.new.table_id ≡ seat.old.table_id }
    ensures view { seat.new.me ≡ free_seat common.now.table.shared.key seat.new.me.0.seen seat.new.me.0.own }
    ensures legal { IsLegal common.now.table.shared.key seat.new.me.0.seen }
    ensures gives { GivesAt common.now.table.shared.key seat.old.me.0.seen seat.old.me.0.own client order.now result
        seat.new.me.0 }
{
    let Some(reply) = enter(common, seat, client, order) else {
        leave_lock(common, seat);
        return Given::Full;
    };
    post_all(common, seat);
    leave_lock(common, seat);
    Given::Answered(reply)
}

/// Enters an order, where the limit isn't reached: gives the reply.
pub(crate) fn enter(
    common: &Common,
    seat: &mut TableSeat,
    client: ClientId,
    order: &Order,
) -> Option<Reply>
    requires table { seat.old.table_id ≡ common.now.table.shared.table_id }
    requires lock { HasLock common.now.table.shared.key seat.old.me.0.seen seat.old.me }
    requires legal { IsLegal common.now.table.shared.key seat.old.me.0.seen }
    requires settled { IsSettled common.now.table.shared.key seat.old.me.0.seen }
    ensures table { seat.new.table_id ≡ seat.old.table_id }
    ensures lock { HasLock common.now.table.shared.key seat.new.me.0.seen seat.new.me }
    ensures legal { IsLegal common.now.table.shared.key seat.new.me.0.seen }
    ensures enters { IfSome result (λ reply. Enters common.now.table.shared.key seat.old.me.0.seen client order.now reply seat.new.me.0.seen
        × (seat.new.me.0.own ≡ entering seat.old.me.0.own seat.old.me.0.seen)) }
    ensures full { IfNone result ((seat.new.me.0.seen ≡ seat.old.me.0.seen)
        × (seat.new.me.0.own ≡ one_step seat.old.me.0.own)
        × (orders_in seat.old.me.0.seen ≡ common.now.table.shared.key.orders)) }
{
    let count = check_word(common, seat, 0);
    if count >= common.limit {
        return None;
    }
    let reply = step_core(&common.table.shared, seat, client, order);
    store_entry(common, seat, client, order, count + 1, &reply);
    Some(reply)
}

/// Posts the stale words one after another, each in the arbiter and then in the table, until none is stale.
pub(crate) fn post_all(common: &Common, seat: &mut TableSeat)
    requires table { seat.old.table_id ≡ common.now.table.shared.table_id }
    requires lock { HasLock common.now.table.shared.key seat.old.me.0.seen seat.old.me }
    requires legal { IsLegal common.now.table.shared.key seat.old.me.0.seen }
    ensures table { seat.new.table_id ≡ seat.old.table_id }
    ensures lock { HasLock common.now.table.shared.key seat.new.me.0.seen seat.new.me }
    ensures legal { IsLegal common.now.table.shared.key seat.new.me.0.seen }
    ensures settled { IsSettled common.now.table.shared.key seat.new.me.0.seen }
    ensures mine { seat.new.me.0.own.mine ≡ seat.old.me.0.own.mine }
    ensures busy { seat.new.me.0.own.busy ≡ seat.old.me.0.own.busy }
    ensures steps { seat.new.me.0.own.steps + length seat.old.me.0.seen
        ≡ seat.old.me.0.own.steps + length seat.new.me.0.seen }
    ensures seen { seat.new.me.0.seen ≡ settled_from common.now.table.shared.key seat.old.me.0.seen }
{
    while let Some((w, value)) = post_core(&common.table.shared, seat) {
        store_post(common, seat, w, value);
    }
}

/// The arbiter of the seat takes an order. Where it takes no further one, it is renewed first.
fn step_core(shared: &TableShared, seat: &mut TableSeat, client: ClientId, order: &Order) -> Reply
    requires table { seat.old.table_id ≡ shared.now.table_id }
    requires lock { HasLock shared.now.key seat.old.me.0.seen seat.old.me }
    requires legal { IsLegal shared.now.key seat.old.me.0.seen }
    requires settled { IsSettled shared.now.key seat.old.me.0.seen }
    requires room { orders_in seat.old.me.0.seen < shared.now.key.orders }
    ensures table { seat.new.table_id ≡ seat.old.table_id }
    ensures steps { StepsNext shared.now.key seat.old.me.0.seen client order.now result seat.old.me.0 seat.new.me }
{
    let core = seat.slot_mut(shared, 0);
    make_room(core);
    core.step(client, order)
}

/// Renews the arbiter, where it takes no further order. It stands where it stood.
fn make_room(core: &mut Core)
    requires arbiter { IsArbiter core.old }
    requires settled { next_stale_of core.old.standing core.old.posted ≡ None }
    ensures room { sum core.new.standing.counts < core.new.machine.orders }
    ensures settled { next_stale_of core.new.standing core.new.posted ≡ None }
    ensures stands { (m : Machine) → (h : History) → StandsAt m h core.old → StandsAt m h core.new }
{
    if core.is_full() {
        core.renew();
    }
}

/// The arbiter of the seat posts its next stale word, if any: gives the word and its value.
pub(crate) fn post_core(shared: &TableShared, seat: &mut TableSeat) -> Option<(usize, u64)>
    requires table { seat.old.table_id ≡ shared.now.table_id }
    requires lock { HasLock shared.now.key seat.old.me.0.seen seat.old.me }
    requires legal { IsLegal shared.now.key seat.old.me.0.seen }
    ensures table { seat.new.table_id ≡ seat.old.table_id }
    ensures posts { IfSome result (λ p. PostsNext shared.now.key seat.old.me.0.seen p.0 p.1 seat.old.me.0 seat.new.me) }
    ensures settled { IfNone result ((seat.new.me ≡ seat.old.me)
        × IsSettled shared.now.key seat.old.me.0.seen) }
{
    let core = seat.slot_mut(shared, 0);
    match core.next_stale() {
        None => None,
        Some(w) => {
            let value = core.word(w);
            core.post(w);
            Some((w, value))
        }
    }
}

/// What a look at the arbiter of the seat tells.
pub(crate) fn look_at<T, F: FnOnce(&Core) -> T>(
    shared: &TableShared,
    seat: &mut TableSeat,
    look: F,
) -> T
    requires table { seat.old.table_id ≡ shared.now.table_id }
    requires lock { HasLock shared.now.key seat.old.me.0.seen seat.old.me }
    requires looks { F.IsAlwaysCallable look }
    ensures table { seat.new.table_id ≡ seat.old.table_id }
    ensures same { seat.new.me ≡ seat.old.me }
    ensures told { (a : Arbiter) × StandsAt shared.now.key seat.old.me.0.seen a × FnOnceReturnsAt F.FnOnce look a result }
{
    let core = seat.slot_mut(shared, 0);
    look(core)
}

/// Whether no word is stale after what the seat has seen.
pub(crate) fn is_settled(shared: &TableShared, seat: &mut TableSeat) -> bool
    requires table { seat.old.table_id ≡ shared.now.table_id }
    requires lock { HasLock shared.now.key seat.old.me.0.seen seat.old.me }
    requires legal { IsLegal shared.now.key seat.old.me.0.seen }
    ensures table { seat.new.table_id ≡ seat.old.table_id }
    ensures same { seat.new.me ≡ seat.old.me }
    ensures settled { IsTrue result ↔ IsSettled shared.now.key seat.old.me.0.seen }
{
    let core = seat.slot_mut(shared, 0);
    core.next_stale().is_none()
}

/// Stores the event of an order that the arbiter took.
fn store_entry(
    common: &Common,
    seat: &mut TableSeat,
    client: ClientId,
    order: &Order,
    count: u64,
    reply: &Reply,
)
    requires table { seat.old.table_id ≡ common.now.table.shared.table_id }
    requires lock { HasLock common.now.table.shared.key (seat.old.me.0.seen ++ entered_at seat.old.me.0.seen client order.now reply.now ∷ []) seat.old.me }
    requires legal { IsLegal common.now.table.shared.key seat.old.me.0.seen }
    requires follows { MayFollow common.now.table.shared.key seat.old.me.0.seen (entered_at seat.old.me.0.seen client order.now reply.now) }
    requires value { count ≡ reading (seat.old.me.0.seen ++ entered_at seat.old.me.0.seen client order.now reply.now ∷ []) 0 }
    ensures table { seat.new.table_id ≡ seat.old.table_id }
    ensures seen { seat.new.me.0.seen ≡ seat.old.me.0.seen ++ entered_at seat.old.me.0.seen client order.now reply.now ∷ [] }
    ensures own { seat.new.me.0.own ≡ own_with seat.old.me.0.own seat.old.me.0.seen (entered_at seat.old.me.0.seen client order.now reply.now) }
    ensures lock { HasLock common.now.table.shared.key seat.new.me.0.seen seat.new.me }
    ensures legal { IsLegal common.now.table.shared.key seat.new.me.0.seen }
{
    store_entry_as::<Brand>(common, seat, client, order, count, reply);
}

/// Stores the event of an order that the arbiter took, which `E` names.
fn store_entry_as<E: Happening>(
    common: &Common,
    seat: &mut TableSeat,
    client: ClientId,
    order: &Order,
    count: u64,
    reply: &Reply,
)
    requires event { E.event ≡ entered_at seat.old.me.0.seen client order.now reply.now }
    requires table { seat.old.table_id ≡ common.now.table.shared.table_id }
    requires lock { HasLock common.now.table.shared.key (seat.old.me.0.seen ++ E.event ∷ []) seat.old.me }
    requires legal { IsLegal common.now.table.shared.key seat.old.me.0.seen }
    requires follows { MayFollow common.now.table.shared.key seat.old.me.0.seen E.event }
    requires value { count ≡ reading (seat.old.me.0.seen ++ E.event ∷ []) 0 }
    ensures table { seat.new.table_id ≡ seat.old.table_id }
    ensures seen { seat.new.me.0.seen ≡ seat.old.me.0.seen ++ E.event ∷ [] }
    ensures own { seat.new.me.0.own ≡ own_with seat.old.me.0.own seat.old.me.0.seen E.event }
    ensures lock { HasLock common.now.table.shared.key seat.new.me.0.seen seat.new.me }
    ensures legal { IsLegal common.now.table.shared.key seat.new.me.0.seen }
{
    store_event::<E>(common, seat, 0, count);
}

/// Stores the event of a post that the arbiter made.
pub(crate) fn store_post(common: &Common, seat: &mut TableSeat, word: usize, value: u64)
    requires table { seat.old.table_id ≡ common.now.table.shared.table_id }
    requires lock { HasLock common.now.table.shared.key (seat.old.me.0.seen ++ Posted word value ∷ []) seat.old.me }
    requires legal { IsLegal common.now.table.shared.key seat.old.me.0.seen }
    requires follows { MayFollow common.now.table.shared.key seat.old.me.0.seen (Posted word value) }
    requires word { word < word_count }
    requires value { value ≡ reading (seat.old.me.0.seen ++ Posted word value ∷ []) word }
    ensures table { seat.new.table_id ≡ seat.old.table_id }
    ensures seen { seat.new.me.0.seen ≡ seat.old.me.0.seen ++ Posted word value ∷ [] }
    ensures own { seat.new.me.0.own ≡ one_step seat.old.me.0.own }
    ensures lock { HasLock common.now.table.shared.key seat.new.me.0.seen seat.new.me }
    ensures legal { IsLegal common.now.table.shared.key seat.new.me.0.seen }
{
    store_event::<Brand>(common, seat, word, value);
}
