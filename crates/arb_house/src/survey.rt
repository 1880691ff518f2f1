//! What a walk over the pasts finds.

ghost use Rattle.std.specs.Prelude.{◌≡◌, ℕ, ◌<◌, IfSome, IfNone, None, length, not, slice_index, slice_index_or};
ghost use Rattle.std.specs.List.{list_any};
ghost use Rattle.arb_model.specs.Limits.{clients as client_count};
ghost use Rattle.arb_house.specs.FirstClient.{IsFirst, NoClient};
ghost use Rattle.arb_house.specs.Pasts.{IsMissing, IsTwice, pasts_of, recalled};
ghost use Rattle.arb_house.specs.Walks.{Marks, list_at};

use crate::marks::{client_of, first_marked};
use arb_desk::Past;
use arb_model::{CLIENTS, ClientId, Order, Reply};

/// What is known of each client, by its number, after a walk over the pasts.
#[derive(Drop)]
pub struct Survey<'a> {
    /// The pasts.
    pub pasts: &'a [Past],
    /// Whether a past isn't whole.
    pub cut: bool,
    /// How many pasts the client left.
    counts: [usize; CLIENTS],
    /// Where its first past stands.
    indexes: [Option<usize>; CLIENTS],
    ghost cut_if: { cut ≡ list_any (λ past. not past.whole) pasts.now },
    ghost counted: { (c : ℕ) → c < client_count → slice_index counts c ≡ length (pasts_of c pasts.now) },
    ghost placed: { (c : ℕ) → c < client_count → list_at pasts.now (slice_index_or indexes c None) ≡ recalled c pasts.now },
}

impl<'a> Survey<'a> {
    /// Walks over the pasts.
    pub fn of(pasts: &'a [Past]) -> Survey<'a>
        ensures pasts { result.pasts.now ≡ pasts.now }
        ensures cut { result.cut ≡ list_any (λ past. not past.whole) pasts.now }
    {
        let mut cut = false;
        let mut counts = [0; CLIENTS];
        let mut indexes = [None; CLIENTS];
        for index in 0..pasts.len() {
            let past = &pasts[index];
            let number = past.client.index();
            cut |= !past.whole;
            counts[number] += 1;
            if indexes[number].is_none() {
                indexes[number] = Some(index);
            }
        }
        Survey {
            pasts,
            cut,
            counts,
            indexes,
        }
    }

    /// The clients of the house that left no past.
    fn missing(&self, clients: &[ClientId]) -> [bool; CLIENTS]
        ensures { Marks (IsMissing clients.now self.now.pasts.now) result }
    {
        let mut marks = [false; CLIENTS];
        for client in clients {
            let number = client.index();
            if self.counts[number] == 0 {
                marks[number] = true;
            }
        }
        marks
    }

    /// The first client of the house that left no past.
    pub fn first_missing(&self, clients: &[ClientId]) -> Option<ClientId>
        ensures found { IfSome result (IsFirst (IsMissing clients.now self.now.pasts.now)) }
        ensures none { IfNone result (NoClient (IsMissing clients.now self.now.pasts.now)) }
    {
        first_marked(&self.missing(clients))
    }

    /// The first client that left more than one past.
    pub fn first_twice(&self) -> Option<ClientId>
        ensures found { IfSome result (IsFirst (IsTwice self.now.pasts.now)) }
        ensures none { IfNone result (NoClient (IsTwice self.now.pasts.now)) }
    {
        for number in 0..CLIENTS {
            if self.counts[number] > 1 {
                return Some(client_of(number));
            }
        }
        None
    }

    /// What a client recalls: the list of its first past; the empty list where it left none.
    pub fn recalled(&self, client: usize) -> &'a [(Order, Reply)]
        requires { client < client_count }
        ensures { result.now ≡ recalled client self.now.pasts.now }
    {
        list_at(self.pasts, self.indexes[client])
    }
}

/// The list of the past at an index; the empty list where there is none.
fn list_at(pasts: &[Past], index: Option<usize>) -> &[(Order, Reply)]
    ensures { result.now ≡ list_at pasts.now index }
{
    match index {
        Some(index) if index < pasts.len() => pasts[index].mine.as_slice(),
        _ => &[],
    }
}
