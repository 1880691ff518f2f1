//! The leave to give an order.

ghost use Rattle.std.specs.Prelude.{IfNone, IfSome};

use crate::gate::Gate;
use crate::start::Begun;
use std::sync::Wait;

/// That a gate let an order through, of a thread that was told to begin. Without it none is posted.
#[derive(Drop)]
pub(crate) struct LetThrough(());

impl LetThrough {
    /// Asks a gate for an order. `None` where it gives the order up.
    pub(crate) fn by<G: Gate, R: Wait>(
        rt: &R,
        _begun: &Begun,
        gate: &G,
        order: usize,
    ) -> Option<LetThrough>
        ensures given_up { IfNone result (G.may_give_up gate.now order) }
        ensures let_through { IfSome result (λ _. G.may_let_through gate.now order) }
    {
        gate.before(rt, order).then_some(LetThrough(()))
    }
}
