//! Making a table of page words, and naming it.

ghost use Rattle.std.specs.Prelude.{◌≡◌, ℕ, [], IfOk};
ghost use Rattle.arb_config.specs.Machine.{IsMachine};
ghost use Rattle.arb_model.specs.Reading.{reading};
ghost use Rattle.arb_page.specs.Seen.{newcomer};

use crate::pages::{Pages, new_bells};
use crate::set::Set;
use crate::table::{TableSeat, Words};
use crate::writer::Writer;
use arb_config::Topology;
use arb_model::layout::WORDS;
use std::alloc::{AllocError, Global};
use std::error::Error;
use std::fmt;
use std::marker::{Brand, Model, PhantomData};

/// There was not enough memory.
#[derive(Clone, Copy, Debug, PartialEq, Eq)]
pub struct Memory;

impl fmt::Display for Memory {
    ghost use Rattle.std.specs.Prelude.{Some, codes};

    ghost output = { λ _. Some (codes "out of memory") };

    fn fmt<W: fmt::Write>(&self, f: &mut fmt::Formatter<W>) -> fmt::Result {
        write!(f, "out of memory")
    }
}

impl Error for Memory {}

impl From<AllocError> for Memory {
    fn from(_: AllocError) -> Memory {
        Memory
    }
}

/// Pages that have no name yet: all words are 0, and the history is empty.
#[derive(Drop)]
pub struct Blank {
    words: Words,
    seat: TableSeat,
}

impl Model for Blank {
    ghost use Rattle.std.specs.Prelude.{◌≡◌, []};
    ghost use Rattle.arb_config.specs.Machine.{IsMachine};
    ghost use Rattle.arb_model.specs.Layout.{word_count};
    ghost use Rattle.arb_page.specs.Names.{Unnamed};
    ghost use Rattle.arb_page.specs.Views.{writer_view};

    ghost Value = { Unnamed };

    ghost view = { λ b. record {
      table = b.words.shared.table_id;
      machine = b.words.shared.key;
      seen = b.seat.me.0.seen;
    } };

    ghost invariant = { λ b. (b.words.shared.table_id.words ≡ word_count) × IsMachine b.words.shared.key
        × (b.seat.table_id ≡ b.words.shared.table_id) × (b.seat.me ≡ (writer_view [] 0, [])) };
}

impl Pages<Brand> {
    /// Makes the page words of a machine, all of them 0, before all events.
    ///
    /// # Errors
    /// [`Memory`] where an allocation failed.
    pub fn open(alloc: Global, topology: &Topology) -> Result<Blank, Memory>
        ensures machine { IfOk result (λ blank. blank.machine ≡ topology.now) }
        ensures empty { IfOk result (λ blank. blank.seen ≡ []) }
        ensures zero { IfOk result (λ blank. (w : ℕ) → reading blank.seen w ≡ 0) }
    {
        // its clause says that the topology's machine is one
        let _managed = topology.managed();
        let (words, seat) = Words::of_words(alloc, &[0; WORDS], topology)?;
        Ok(Blank { words, seat })
    }
}

impl Blank {
    /// Names the pages by `K`, which must name this very table and its machine, and gives their one writer.
    pub fn name<K: Set>(self) -> (Pages<K>, Writer<K>)
        requires { (self.table ≡ K.table) × (self.machine ≡ K.machine) }
        ensures writer { result.1 ≡ newcomer [] }
        ensures machine { IsMachine K.machine }
    {
        let Blank { words, seat } = self;
        let pages = Pages {
            words,
            bells: new_bells(),
            of: PhantomData,
        };
        let writer = Writer {
            orders: 0,
            seat,
            of: PhantomData,
        };
        (pages, writer)
    }
}
