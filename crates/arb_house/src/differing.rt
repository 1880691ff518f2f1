//! Which clients' entries aren't their pasts' lists.

ghost use Rattle.std.specs.Prelude.{◌≡◌, ◌↔◌, ℕ, ◌<◌, Some, IsTrue, slice_get, IfSome, IfNone};
ghost use Rattle.arb_model.specs.Limits.{clients};
ghost use Rattle.arb_house.specs.FirstClient.{IsFirst, NoClient};
ghost use Rattle.arb_house.specs.Pasts.{Differs};
ghost use Rattle.arb_house.specs.Walks.{IsProgress, Marks};

use crate::marks::first_marked;
use crate::survey::Survey;
use arb_model::{CLIENTS, ClientId, Entry, Order, Reply};

/// Whether an order and a reply are those of an entry.
fn is_of(own: &(Order, Reply), entry: &Entry) -> bool
    ensures { IsTrue result ↔ own.now ≡ (entry.now.order, entry.now.reply) }
{
    if own.0 != entry.order {
        return false;
    }
    own.1 == entry.reply
}

/// Whether an entry is the one at an index of a list.
fn is_at(entry: &Entry, index: usize, list: &[(Order, Reply)]) -> bool
    ensures { IsTrue result ↔ slice_get list.now index ≡ Some (entry.now.order, entry.now.reply) }
{
    if index >= list.len() {
        return false;
    }
    is_of(&list[index], entry)
}

/// How far the journal follows what the clients recall.
struct Progress {
    /// How many entries of each client were the next ones of its list.
    followed: [usize; CLIENTS],
    /// The clients of which an entry wasn't the next one.
    strayed: [bool; CLIENTS],
}

/// Goes over the journal, and compares each entry with the next one that its client recalls.
fn follow(journal: &[Entry], survey: &Survey) -> Progress
    ensures { (c : ℕ) → c < clients → IsProgress journal.now survey.now.pasts.now result.followed result.strayed c }
{
    let mut followed = [0; CLIENTS];
    let mut strayed = [false; CLIENTS];
    for entry in journal {
        let number = entry.client.index();
        if is_at(entry, followed[number], survey.recalled(number)) {
            followed[number] += 1;
        } else {
            strayed[number] = true;
        }
    }
    Progress { followed, strayed }
}

/// The clients whose entries in the journal aren't what they recall.
fn differing(journal: &[Entry], survey: &Survey) -> [bool; CLIENTS]
    ensures { Marks (Differs journal.now survey.now.pasts.now) result }
{
    let Progress {
        followed,
        strayed: mut marks,
    } = follow(journal, survey);
    for number in 0..CLIENTS {
        if followed[number] < survey.recalled(number).len() {
            marks[number] = true;
        }
    }
    marks
}

/// The first client whose entries in the journal aren't what it recalls.
pub fn first_differing(journal: &[Entry], survey: &Survey) -> Option<ClientId>
    ensures found { IfSome result (IsFirst (Differs journal.now survey.now.pasts.now)) }
    ensures none { IfNone result (NoClient (Differs journal.now survey.now.pasts.now)) }
{
    first_marked(&differing(journal, survey))
}
