//! Notes: what one thread has seen, to be told to another.

ghost use Rattle.std.specs.Prelude.{◌≡◌, []};
ghost use Rattle.arb_model.specs.History.{IsLegal};
ghost use Rattle.arb_page.specs.Seen.{newcomer};
ghost use Rattle.arb_page.specs.Views.{reader_view, stepped, told_by};

use crate::pages::Pages;
use crate::point::Point;
use crate::reader::Reader;
use crate::set::Set;
use crate::table::{Copying, TableSeat, Telling};
use std::marker::{Model, PhantomData};

/// What its teller has seen. It has no bytes, and may be sent to another thread.
///
/// Contracts see it as that history.
#[derive(Drop)]
pub struct Note<K: Set> {
    seat: TableSeat,
    of: PhantomData<K>,
}

impl<K: Set> Model for Note<K> {
    ghost use Rattle.arb_model.specs.History.{History};
    ghost use Rattle.arb_page.specs.Seats.{IsReaderSeat};
    ghost use Rattle.arb_page.specs.Seen.{newcomer};

    ghost Value = { History };

    ghost view = { λ n. n.seat.me.0.seen };

    ghost invariant = { λ n. IsReaderSeat K.table K.machine (newcomer n.seat.me.0.seen) n.seat.table_id n.seat.me };
}

impl<K: Set> Note<K> {
    /// A reader that has seen what the note carries. It takes no step.
    pub fn into_reader(self) -> Reader<K>
        ensures reader { result ≡ newcomer self }
        ensures legal { IsLegal K.machine self }
    {
        let Note { seat, of } = self;
        Reader { seat, of }
    }

    /// The note as a point, whose type doesn't name the pages. It takes no step.
    pub fn into_point(self) -> Point
        ensures point { result ≡ record { table = K.table; seen = self } }
        ensures legal { IsLegal K.machine self }
    {
        let Note { seat, of: _ } = self;
        Point { seat }
    }

    /// A note of what a seat has seen. One load.
    pub(crate) fn of_seat(pages: &Pages<K>, seat: &mut TableSeat) -> Note<K>
        requires table { seat.old.table_id ≡ K.table }
        requires legal { IsLegal K.machine seat.old.me.0.seen }
        ensures table { seat.new.table_id ≡ seat.old.table_id }
        ensures seat { seat.new.me ≡ (stepped seat.old.me.0, seat.old.me.1) }
        ensures note { result ≡ seat.old.me.0.seen }
    {
        let seat = pages.words.shared.split_seat::<Copying>(seat);
        Note {
            seat,
            of: PhantomData,
        }
    }

    /// A seat is told what the note carries: it learns it by its next load. One load.
    pub(crate) fn tell_seat(self, pages: &Pages<K>, seat: &mut TableSeat)
        requires table { seat.old.table_id ≡ K.table }
        ensures table { seat.new.table_id ≡ seat.old.table_id }
        ensures seat { seat.new.me ≡ (told_by seat.old.me.0 (reader_view self 0), seat.old.me.1) }
    {
        let Note { seat: other, of: _ } = self;
        pages.words.shared.join_seat::<Telling>(seat, other);
    }
}
