//! The clients of a server, each with an index in its list.

ghost use Rattle.std.specs.Prelude.{◌≡◌, ◌↔◌, ◌<◌, Some, true, IfOk, IsTrue, length};
ghost use Rattle.arb_desk.specs.Passes.{has};
ghost use Rattle.arb_house.specs.Clients.{HaveClosed, all_open, closing, index_in};

use arb_model::{CLIENTS, ClientId};
use std::alloc::{AllocError, Global};
use std::marker::Model;

/// The clients of a server. To look one up costs the same however many there are.
///
/// Contracts see the list, and which of the clients in it have closed.
#[derive(Drop)]
pub struct Roster {
    list: Vec<ClientId>,
    /// Where each client stands in the list, by the client's number.
    indexes: [Option<usize>; CLIENTS],
    /// Whether the client at each index has closed.
    closed: Vec<bool>,
    /// How many indexes have a client that hasn't closed.
    unclosed: usize,
}

impl Model for Roster {
    ghost use Rattle.std.specs.Prelude.{◌≡◌, length, not};
    ghost use Rattle.std.specs.List.{count_by};
    ghost use Rattle.arb_house.specs.Clients.{IsTable, Roll};

    ghost Value = { Roll };

    ghost view = { λ r. record { list = r.list.items; closed = r.closed.items } };

    // the table has the index of each client, there is a flag for each index, and those that aren't set are counted
    ghost invariant = { λ r. IsTable r.indexes r.list.items × (length r.closed.items ≡ length r.list.items)
        × (r.unclosed ≡ count_by not r.closed.items) };
}

impl Roster {
    /// The clients of a list, none of whom has closed.
    ///
    /// # Errors
    /// [`AllocError`] where an allocation failed.
    pub fn new(alloc: Global, list: &[ClientId]) -> Result<Roster, AllocError>
        ensures { IfOk result (λ r. r ≡ all_open list.now) }
    {
        let mut indexes = [None; CLIENTS];
        for k in 0..list.len() {
            let client = list[k].index();
            if indexes[client].is_none() {
                indexes[client] = Some(k);
            }
        }
        Ok(Roster {
            list: Vec::from_slice(alloc, list)?,
            indexes,
            closed: Vec::from_elem(alloc, false, list.len())?,
            unclosed: list.len(),
        })
    }

    /// Where a client of the list stands in it: its first index there.
    pub fn index_of(&self, client: ClientId) -> usize
        requires listed { has client self.now.list ≡ true }
        ensures index { index_in self.now.list client ≡ Some result }
        ensures within { result < length self.now.list }
    {
        let Some(k) = self.indexes[client.index()] else {
            unreachable!()
        };
        k
    }

    /// Notes that a client of the list has closed.
    pub fn close(&mut self, client: ClientId)
        requires listed { has client self.old.list ≡ true }
        ensures { self.new ≡ closing self.old client }
    {
        let k = self.index_of(client);
        if !self.closed[k] {
            self.closed[k] = true;
            self.unclosed -= 1;
        }
    }

    /// Whether all clients have closed.
    pub fn all_closed(&self) -> bool
        ensures { IsTrue result ↔ HaveClosed self.now }
    {
        self.unclosed == 0
    }

    /// The list.
    pub fn into_list(self) -> Vec<ClientId>
        ensures { result.items ≡ self.list }
    {
        let Roster {
            list,
            indexes: _,
            closed: _,
            unclosed: _,
        } = self;
        list
    }
}
