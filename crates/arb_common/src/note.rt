//! Notes: what one member has seen, to be told to another.

use crate::table::TableSeat;
use std::marker::Model;

/// What its teller has seen. It has no bytes, and may be sent to another thread.
///
/// Contracts see which table it is of, and that history.
#[derive(Drop)]
pub struct Note {
    pub(crate) seat: TableSeat,
}

impl Model for Note {
    ghost use Rattle.std.specs.Prelude.{◌≡◌};
    ghost use Rattle.arb_common.specs.Sides.{Standpoint};
    ghost use Rattle.arb_common.specs.Views.{free_seat, newcomer};

    ghost Value = { Standpoint };

    ghost view = { λ n. record { table = n.seat.table_id; seen = n.seat.me.0.seen } };

    ghost invariant = { λ n. n.seat.me ≡ free_seat n.seat.me.0.machine n.seat.me.0.seen newcomer };
}
