//! How many orders each client gave.

ghost use Rattle.std.specs.Prelude.{◌≡◌, ◌+◌, ◌<◌, replicate, slice_index, slice_set, sum};
ghost use Rattle.arb_model.specs.Limits.{clients};
ghost use Rattle.arb_config.specs.Limits.{max_orders};

use arb_model::{CLIENTS, ClientId};
use std::marker::Model;

/// The number of orders of each client, and of all clients together.
#[derive(Drop)]
pub struct Tally {
    counts: [u32; CLIENTS],
    total: u32,
}

impl Model for Tally {
    ghost use Rattle.std.specs.Prelude.{List, ℕ, ◌≡◌, sum};

    ghost Value = { List ℕ };

    ghost view = { λ t. t.counts };

    ghost invariant = { λ t. t.total ≡ sum t.counts };
}

impl Tally {
    /// Nobody gave an order.
    pub fn new() -> Tally
        ensures { result ≡ replicate clients 0 }
    {
        Tally {
            counts: [0; CLIENTS],
            total: 0,
        }
    }

    /// Nobody gave an order, from now on.
    pub fn clear(&mut self)
        ensures { self.new ≡ replicate clients 0 }
    {
        *self = Tally::new();
    }

    /// Counts one order more of a client.
    pub fn count(&mut self, client: ClientId)
        requires { sum self.old < max_orders }
        ensures { self.new ≡ slice_set self.old client (slice_index self.old client + 1) }
    {
        self.counts[client.index()] += 1;
        self.total += 1;
    }

    /// How many orders a client gave.
    pub fn count_of(&self, client: ClientId) -> u32
        ensures { result ≡ slice_index self.now client }
    {
        self.counts[client.index()]
    }

    /// How many orders each client gave.
    pub fn counts(&self) -> &[u32]
        ensures { result.now ≡ self.now }
    {
        &self.counts
    }

    /// How many orders all clients gave.
    pub fn total(&self) -> u32
        ensures { result ≡ sum self.now }
    {
        self.total
    }
}
