//! Where the orders of each client stand in a script.

ghost use Rattle.std.specs.Prelude.{◌≡◌, ◌+◌, ◌<◌, Some, IfOk, List, length, slice_get};
ghost use Rattle.arb_script.specs.declared.given.ClientOrder.{ClientOrder};
ghost use Rattle.arb_play.specs.OwnOrders.{IsIndexOf, IsNextOwn};

use arb_model::{CLIENTS, ClientId};
use arb_script::Script;
use std::alloc::{AllocError, Global};

/// Where the orders of each client stand in a script. With it a client's thread goes over its own orders alone, not over
/// those of all clients.
#[derive(Drop)]
pub(crate) struct OwnOrders {
    /// The index of each client's first order, by the client's number; the script's length where it gives none.
    pub first: [usize; CLIENTS],
    /// Of the order at each index, the index of the next one of its client; the script's length where none follows.
    pub next: Vec<usize>,
}

impl OwnOrders {
    /// Goes once over a script, from its end.
    ///
    /// # Errors
    /// [`AllocError`] where an allocation failed.
    pub(crate) fn of(alloc: Global, script: &Script) -> Result<OwnOrders, AllocError>
        ensures { IfOk result (IsIndexOf script.now) }
    {
        let orders = script.len();
        let mut first = [orders; CLIENTS];
        let mut next = vec![in alloc; 0; orders]?;
        let mut index = orders;
        while index > 0 {
            index -= 1;
            let client = script.client(index).index();
            next[index] = first[client];
            first[client] = index;
        }
        Ok(OwnOrders { first, next })
    }

    /// The index of a client's first order; the script's length where it gives none.
    pub(crate) fn first(&self, client: ClientId) -> usize
        ensures { (script : List ClientOrder) → IsIndexOf script self.now → IsNextOwn script client 0 result }
    {
        self.first[client.index()]
    }

    /// The index of the next order of the client that gives the order at an index; the script's length where none follows.
    pub(crate) fn after(&self, index: usize) -> usize
        requires { index < length self.now.next.items }
        ensures { (script : List ClientOrder) (given : ClientOrder) → IsIndexOf script self.now → slice_get script index ≡ Some given
            → IsNextOwn script given.client (index + 1) result }
    {
        self.next[index]
    }
}
