//! What the server answers.

ghost use Rattle.std.specs.Prelude.{◌≡◌};
ghost use Rattle.arb_desk.specs.Answers.{StandsIn};

use arb_model::{ClientId, Entry};
use arb_page::{Note, Set};
use std::marker::Model;

/// What came of an order.
#[derive(Clone, Copy, Debug, PartialEq, Eq)]
pub enum Admission {
    /// It was entered: its entry, and how many orders were entered before it, which is its index in the journal.
    Entered(Entry, u64),
    /// It wasn't entered, nor will it be: the limit on orders is reached. Whose order it was, and how many orders of that
    /// client were entered, which would have been its number.
    Full(ClientId, u32),
}

/// What came of an order, and a note of the history where it stands.
///
/// Contracts see it as these two.
#[derive(Drop)]
pub struct Answer<K: Set> {
    admission: Admission,
    note: Note<K>,
}

impl<K: Set> Model for Answer<K> {
    ghost use Rattle.arb_desk.specs.Answers.{StandsIn, Told};

    ghost Value = { Told };

    ghost view = { λ a. record { admission = a.admission; seen = a.note } };

    ghost invariant = { λ a. StandsIn K.machine a.admission a.note };
}

impl<K: Set> Answer<K> {
    /// An answer that stands in the history of the note.
    pub fn new(admission: Admission, note: Note<K>) -> Answer<K>
        requires { StandsIn K.machine admission note }
        ensures { result ≡ record { admission = admission; seen = note } }
    {
        Answer { admission, note }
    }

    /// What came of the order, and the note.
    pub fn into_parts(self) -> (Admission, Note<K>)
        ensures parts { (result.0 ≡ self.admission) × (result.1 ≡ self.seen) }
        ensures stands { StandsIn K.machine result.0 result.1 }
    {
        let Answer { admission, note } = self;
        (admission, note)
    }
}
