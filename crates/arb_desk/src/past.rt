//! What a client leaves.

ghost use Rattle.std.specs.Prelude.{◌≡◌, true, []};
ghost use Rattle.crossbeam_queue.specs.Passes.{view};

use crate::OrderPass;
use arb_model::{ClientId, Order, Reply};
use arb_page::Point;

/// What a client leaves when it closes.
#[derive(Drop)]
pub struct Past {
    /// Who it was.
    pub client: ClientId,
    /// Its answered orders with their replies, refused ones included, in the order in which it gave them.
    pub mine: Vec<(Order, Reply)>,
    /// Whether it closed in order: it was never closed by `Gone` or `Stranger`, and the server wasn't seen to have ended
    /// while it closed.
    pub whole: bool,
    /// Its pass to the queue, which knows all that it put.
    pub pass: OrderPass,
    /// What it had seen of the history.
    pub point: Point,
    // the pass is this client's
    ghost own: { ((view pass).is_client ≡ true) × ((view pass).client ≡ client) },
    // it has no place of the queue out
    ghost back: { pass.me.1 ≡ [] },
}
