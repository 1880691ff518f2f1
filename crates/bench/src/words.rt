//! Words as one thread reads them: page words by a reader, or the words of a table without a rule by bare loads.

ghost use Rattle.std.specs.Prelude.{◌<◌, ◌≡◌, IfOk};
ghost use Rattle.arb_model.specs.Layout.{word_count};

use arb_core::layout::WORDS;
use arb_page::{Pages, Reader, Set};
use atomic_table::{Play, Seat, Table, TableRule};
use std::alloc::{AllocError, Global};

/// As many words as pages have.
pub trait Words {
    /// A word, by one load.
    fn word(&mut self, w: usize) -> u64
        requires { w < word_count };
}

/// The words of pages, with a reader of them.
#[derive(Drop)]
pub struct PageWords<'a, K: Set> {
    /// The pages.
    pub pages: &'a Pages<K>,
    /// Their reader.
    pub reader: Reader<K>,
}

impl<'a, K: Set> Words for PageWords<'a, K> {
    fn word(&mut self, w: usize) -> u64 {
        self.reader.read(self.pages, w)
    }
}

/// No rule: each word may be each number.
pub struct NoRule;

impl TableRule<(), (), ()> for NoRule {
    ghost holds = { λ _ _. Unit {0} };

    ghost first = { λ _. tt };
}

impl Play<(), ()> for NoRule {
    ghost then = { λ _ _ _ _. Unit {0} };
}

/// A table without a rule, of as many words as pages have.
#[derive(Drop)]
pub struct BareTable {
    table: Table<(), (), (), NoRule, Global>,
    ghost count: { table.shared.table_id.words ≡ word_count },
}

impl BareTable {
    /// All words are 0. With the table comes the seat at which one thread stores.
    pub fn open(alloc: Global) -> Result<(BareTable, Seat<(), ()>), AllocError>
        ensures { IfOk result (λ opened. opened.1.table_id ≡ opened.0.table.shared.table_id) }
    {
        let (table, seat) = Table::of_words(alloc, &[0; WORDS], &())?;
        Ok((BareTable { table }, seat))
    }
}

impl<'a> Words for &'a BareTable {
    fn word(&mut self, w: usize) -> u64 {
        self.table.shared.peek(w)
    }
}

/// Stores words of a table without a rule.
#[derive(Drop)]
pub struct BareWriter<'a> {
    bare: &'a BareTable,
    seat: Seat<(), ()>,
    ghost fits: { seat.table_id ≡ bare.now.table.shared.table_id },
}

impl<'a> BareWriter<'a> {
    /// A writer of the table that came with the seat.
    pub fn new(bare: &'a BareTable, seat: Seat<(), ()>) -> BareWriter<'a>
        requires { seat.table_id ≡ bare.now.table.shared.table_id }
    {
        BareWriter { bare, seat }
    }

    /// Stores a word, by one store.
    pub fn store(&mut self, w: usize, value: u64)
        requires { w < word_count }
    {
        self.bare
            .table
            .shared
            .store::<NoRule>(&mut self.seat, w, value);
    }
}
