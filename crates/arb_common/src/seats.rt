//! The steps of a seat at the table.

ghost use Rattle.std.specs.Prelude.{◌≡◌, ◌<◌, ◌++◌, ◌∷◌, [], MatchBool};
ghost use mathlib.Core.List.{IsPrefix};
ghost use Rattle.arb_model.specs.Layout.{word_count};
ghost use Rattle.arb_model.specs.History.{IsLegal, IsSettled, MayFollow};
ghost use Rattle.arb_model.specs.Reading.{reading, word_written};
ghost use Rattle.arb_common.specs.Steps.{Taken};
ghost use Rattle.arb_common.specs.Views.{HasLock, found_busy, free_seat, newcomer, one_step, own_with};

use crate::member::Common;
use crate::table::{
    Append, Check, Copying, GiveUp, Happening, LOCK, Look, TableSeat, Take, Telling,
};

/// A copy of a seat.
pub(crate) fn copy_seat(common: &Common, seat: &mut TableSeat) -> TableSeat
    requires table { seat.old.table_id ≡ common.now.table.shared.table_id }
    requires view { seat.old.me ≡ free_seat common.now.table.shared.key seat.old.me.0.seen seat.old.me.0.own }
    ensures table { seat.new.table_id ≡ seat.old.table_id }
    ensures view { seat.new.me ≡ free_seat common.now.table.shared.key seat.old.me.0.seen (one_step seat.old.me.0.own) }
    ensures other { (result.table_id ≡ seat.old.table_id)
        × (result.me ≡ free_seat common.now.table.shared.key seat.old.me.0.seen newcomer) }
{
    common.table.shared.split_seat::<Copying>(seat)
}

/// One load of a page word.
pub(crate) fn load_word(common: &Common, seat: &mut TableSeat, word: usize) -> u64
    requires table { seat.old.table_id ≡ common.now.table.shared.table_id }
    requires view { seat.old.me ≡ free_seat common.now.table.shared.key seat.old.me.0.seen seat.old.me.0.own }
    requires word { word < word_count }
    ensures table { seat.new.table_id ≡ seat.old.table_id }
    ensures view { seat.new.me ≡ free_seat common.now.table.shared.key seat.new.me.0.seen seat.new.me.0.own }
    ensures value { result ≡ reading seat.new.me.0.seen word }
    ensures own { seat.new.me.0.own ≡ one_step seat.old.me.0.own }
    ensures later { IsPrefix seat.old.me.0.seen seat.new.me.0.seen }
    ensures legal { IsLegal common.now.table.shared.key seat.new.me.0.seen }
{
    common.table.shared.load::<Look>(seat, word)
}

/// Two loads of word 0: the seat takes in a note's, and sees the history.
pub(crate) fn take_in(common: &Common, seat: &mut TableSeat, other: TableSeat)
    requires table { seat.old.table_id ≡ common.now.table.shared.table_id }
    requires view { seat.old.me ≡ free_seat common.now.table.shared.key seat.old.me.0.seen seat.old.me.0.own }
    requires other { (other.table_id ≡ common.now.table.shared.table_id)
        × (other.me ≡ free_seat other.me.0.machine other.me.0.seen newcomer) }
    ensures table { seat.new.table_id ≡ seat.old.table_id }
    ensures view { seat.new.me ≡ free_seat common.now.table.shared.key seat.new.me.0.seen seat.new.me.0.own }
    ensures own { seat.new.me.0.own ≡ one_step (one_step seat.old.me.0.own) }
    ensures told { IsPrefix other.me.0.seen seat.new.me.0.seen }
    ensures later { IsPrefix seat.old.me.0.seen seat.new.me.0.seen }
    ensures legal { IsLegal common.now.table.shared.key seat.new.me.0.seen }
{
    common.table.shared.join_seat::<Telling>(seat, other);
    common.table.shared.load::<Look>(seat, 0);
}

/// Takes the lock and the arbiter, or does nothing.
pub(crate) fn take_lock(common: &Common, seat: &mut TableSeat) -> bool
    requires table { seat.old.table_id ≡ common.now.table.shared.table_id }
    requires view { seat.old.me ≡ free_seat common.now.table.shared.key seat.old.me.0.seen seat.old.me.0.own }
    ensures table { seat.new.table_id ≡ seat.old.table_id }
    ensures view { MatchBool result (Taken common.now.table.shared.key seat.old.me.0.seen seat.old.me.0.own seat.new.me)
        (seat.new.me ≡ free_seat common.now.table.shared.key seat.old.me.0.seen (found_busy seat.old.me.0.own)) }
{
    common
        .table
        .shared
        .compare_exchange::<Take>(seat, LOCK, 0, 1)
        == 0
}

/// Gives the arbiter back, and the lock up.
pub(crate) fn leave_lock(common: &Common, seat: &mut TableSeat)
    requires table { seat.old.table_id ≡ common.now.table.shared.table_id }
    requires lock { HasLock common.now.table.shared.key seat.old.me.0.seen seat.old.me }
    requires settled { IsSettled common.now.table.shared.key seat.old.me.0.seen }
    ensures table { seat.new.table_id ≡ seat.old.table_id }
    ensures view { seat.new.me ≡ free_seat common.now.table.shared.key seat.old.me.0.seen (one_step seat.old.me.0.own) }
{
    common.table.shared.store::<GiveUp>(seat, LOCK, 0);
}

/// One load of a page word by the seat that has the lock.
pub(crate) fn check_word(common: &Common, seat: &mut TableSeat, word: usize) -> u64
    requires table { seat.old.table_id ≡ common.now.table.shared.table_id }
    requires lock { HasLock common.now.table.shared.key seat.old.me.0.seen seat.old.me }
    requires word { word < word_count }
    ensures table { seat.new.table_id ≡ seat.old.table_id }
    ensures lock { HasLock common.now.table.shared.key seat.new.me.0.seen seat.new.me }
    ensures seen { seat.new.me.0.seen ≡ seat.old.me.0.seen }
    ensures own { seat.new.me.0.own ≡ one_step seat.old.me.0.own }
    ensures value { result ≡ reading seat.old.me.0.seen word }
{
    common.table.shared.load::<Check>(seat, word)
}

/// One store, with which the event that `E` names happens.
#[tactic(auto, using(arb_model::proofs::LegalLaws::legal_next))]
pub(crate) fn store_event<E: Happening>(
    common: &Common,
    seat: &mut TableSeat,
    word: usize,
    value: u64,
)
    requires table { seat.old.table_id ≡ common.now.table.shared.table_id }
    requires lock { HasLock common.now.table.shared.key (seat.old.me.0.seen ++ E.event ∷ []) seat.old.me }
    requires legal { IsLegal common.now.table.shared.key seat.old.me.0.seen }
    requires follows { MayFollow common.now.table.shared.key seat.old.me.0.seen E.event }
    requires word { (word < word_count) × (word ≡ word_written E.event) }
    requires value { value ≡ reading (seat.old.me.0.seen ++ E.event ∷ []) word }
    ensures table { seat.new.table_id ≡ seat.old.table_id }
    ensures seen { seat.new.me.0.seen ≡ seat.old.me.0.seen ++ E.event ∷ [] }
    ensures own { seat.new.me.0.own ≡ own_with seat.old.me.0.own seat.old.me.0.seen E.event }
    ensures lock { HasLock common.now.table.shared.key seat.new.me.0.seen seat.new.me }
    ensures legal { IsLegal common.now.table.shared.key seat.new.me.0.seen }
{
    common.table.shared.store::<Append<E>>(seat, word, value);
}
