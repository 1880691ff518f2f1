//! The name of one table of page words.

use std::marker::Brand;

/// Names one table of page words, and its machine.
///
/// The types of this crate keep the name that they belong to, so a note of one table can't be told to a reader of
/// another: it doesn't compile. A [`Point`](crate::Point) alone keeps none. A caller names a table as it does with std's `Ledger`: it passes the blank to a function
/// generic in `K`, and calls that at [`Brand`]. The caller's proof then picks what `K` names: the table and the machine of
/// the blank. Where threads start, write `K: Set + Send + Sync`.
pub trait Set {
    ghost use Rattle.atomic_table.specs.Seated.{TableId};
    ghost use Rattle.arb_config.specs.Machine.{Machine};

    ghost table: { TableId };

    ghost machine: { Machine };
}

impl Set for Brand {
    ghost use Rattle.arb_page.specs.Names.{no_machine, no_table};

    ghost table = { no_table };

    ghost machine = { no_machine };
}
