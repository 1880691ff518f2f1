//! Marks of clients: a flag for each client number.

ghost use Rattle.std.specs.Prelude.{◌≡◌, ℕ, ◌<◌, IfSome, IfNone};
ghost use Rattle.arb_model.specs.Limits.{clients};
ghost use Rattle.arb_house.specs.FirstClient.{IsFirst, NoClient};
ghost use Rattle.arb_house.specs.Walks.{IsMarked};

use arb_model::{ALL_THREADS, CLIENTS, ClientId};

/// The client of a number.
pub fn client_of(number: usize) -> ClientId
    requires { number < clients }
    ensures { result ≡ number }
{
    if number < ALL_THREADS {
        ClientId::of_thread(number as u16)
    } else {
        ClientId::clock()
    }
}

/// The first client that is marked.
pub fn first_marked(marks: &[bool; CLIENTS]) -> Option<ClientId>
    ensures found { IfSome result (IsFirst (IsMarked marks.now)) }
    ensures none { IfNone result (NoClient (IsMarked marks.now)) }
{
    for number in 0..CLIENTS {
        if marks[number] {
            return Some(client_of(number));
        }
    }
    None
}
