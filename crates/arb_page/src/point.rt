//! Points: what was seen, for values whose type names no table.

ghost use Rattle.std.specs.Prelude.{◌≡◌};
ghost use mathlib.Core.List.{IsPrefix};
ghost use Rattle.arb_model.specs.History.{IsLegal};

use crate::pages::Pages;
use crate::reader::Reader;
use crate::set::Set;
use crate::table::{Look, TableSeat};
use std::marker::{Model, PhantomData};

/// What the teller of a note has seen, and at which table. It is a note whose type doesn't name the table, so that a value
/// without the name can keep it. It has no bytes.
///
/// Contracts see which table it is, and that history.
#[derive(Drop)]
pub struct Point {
    pub(crate) seat: TableSeat,
}

impl Model for Point {
    ghost use Rattle.std.specs.Prelude.{◌≡◌, []};
    ghost use Rattle.arb_page.specs.Names.{Standpoint};
    ghost use Rattle.arb_page.specs.Views.{reader_view};

    ghost Value = { Standpoint };

    ghost view = { λ p. record { table = p.seat.table_id; seen = p.seat.me.0.seen } };

    ghost invariant = { λ p. p.seat.me ≡ (reader_view p.seat.me.0.seen 0, []) };
}

impl Point {
    /// A reader that has seen what the point carries. The pages must be those of the point's table. One load, of word 0.
    pub fn into_reader<K: Set>(self, pages: &Pages<K>) -> Reader<K>
        requires { self.table ≡ K.table }
        ensures seen { IsPrefix self.seen result.seen }
        ensures legal { IsLegal K.machine result.seen }
        ensures one_load { result.steps ≡ 1 }
    {
        let Point { mut seat } = self;
        pages.words.shared.load::<Look<K>>(&mut seat, 0);
        Reader {
            seat,
            of: PhantomData,
        }
    }
}
