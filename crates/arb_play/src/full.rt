//! From which index of a script on the orders of each client are full.

ghost use Rattle.std.specs.Prelude.{◌≡◌, ◌≢◌, ◌<◌, ◌≤◌, [], ℕ, IsFalse, IsTrue, slice_index, sum};
ghost use Rattle.arb_model.specs.Arbiter.{IsArbiter};
ghost use Rattle.arb_model.specs.Limits.{clients};
ghost use Rattle.arb_play.specs.Joining.{full_from_of};
ghost use Rattle.arb_play.specs.Outcomes.{full_orders};

use arb_core::Core;
use arb_model::{CLIENTS, ClientId};
use arb_script::Script;

/// From which index on the orders of each client are full, by its number: the first of its indexes, and 0 where it has
/// none.
pub(crate) fn full_from_table(pairs: &[(ClientId, usize)]) -> [usize; CLIENTS]
    ensures { (client : ℕ) → client < clients → slice_index result client ≡ full_from_of client pairs.now }
{
    let mut table = [0; CLIENTS];
    let mut left = pairs.len();
    while left > 0 {
        left -= 1;
        let (client, index) = pairs[left];
        table[client.index()] = index;
    }
    table
}

/// Whether an order of the script is full.
fn any_full(script: &Script, full_from: &[usize; CLIENTS]) -> bool
    ensures { IsFalse result → full_orders full_from.now script.now ≡ [] }
{
    for index in 0..script.len() {
        if full_from[script.client(index).index()] <= index {
            return true;
        }
    }
    false
}

/// Whether there may be these full orders: there are none, or the limit is reached.
pub(crate) fn may_be_full(script: &Script, full_from: &[usize; CLIENTS], core: &Core) -> bool
    ensures arbiter { IsArbiter core.now }
    ensures limit { IsTrue result → full_orders full_from.now script.now ≢ []
        → core.now.machine.orders ≤ sum core.now.standing.counts }
{
    // its clause says what holds of every arbiter
    let _orders = core.orders();
    core.is_full() || !any_full(script, full_from)
}
