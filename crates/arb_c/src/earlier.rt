//! How many orders each client gave before the last renewal.

ghost use Rattle.std.specs.Prelude.{◌≡◌, ◌+◌, ◌<◌, ◌^◌, length, replicate, slice_index, sum};
ghost use Rattle.arb_model.specs.Limits.{clients};
ghost use Rattle.arb_c.specs.Holding.{sums_of};

use arb_core::{ClientId, Core};
use arb_model::CLIENTS;
use std::marker::Model;

/// The number of orders of each client before the last renewal, and of all clients together.
#[derive(Drop)]
pub struct Earlier {
    counts: [u64; CLIENTS],
    total: u64,
}

impl Model for Earlier {
    ghost use Rattle.std.specs.Prelude.{List, ℕ, ◌≡◌, sum};

    ghost Value = { List ℕ };

    ghost view = { λ e. e.counts };

    ghost invariant = { λ e. e.total ≡ sum e.counts };
}

/// Adds to each count the one at its index.
fn add_each(earlier: &mut [u64], counts: &[u32])
    requires long { length earlier.old ≡ length counts.now }
    requires fits { sum earlier.old + sum counts.now < 2 ^ 64 }
    ensures { earlier.new ≡ sums_of earlier.old counts.now }
{
    for client in 0..earlier.len() {
        earlier[client] += u64::from(counts[client]);
    }
}

impl Earlier {
    /// No order: there was no renewal.
    pub fn new() -> Earlier
        ensures { result ≡ replicate clients 0 }
    {
        Earlier {
            counts: [0; CLIENTS],
            total: 0,
        }
    }

    /// Adds the orders that an arbiter has counted.
    pub fn add(&mut self, core: &Core)
        requires { sum self.old + sum core.now.standing.counts < 2 ^ 64 }
        ensures added { self.new ≡ sums_of self.old core.now.standing.counts }
        ensures total { sum self.new ≡ sum self.old + sum core.now.standing.counts }
    {
        self.total += core.orders();
        add_each(&mut self.counts, core.counts());
    }

    /// How many orders a client gave.
    pub fn count_of(&self, client: ClientId) -> u64
        ensures { result ≡ slice_index self.now client }
    {
        self.counts[client.index()]
    }

    /// How many orders all clients gave.
    pub fn total(&self) -> u64
        ensures { result ≡ sum self.now }
    {
        self.total
    }
}
