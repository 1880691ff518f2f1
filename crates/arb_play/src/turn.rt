//! One order after another.

use crate::gate::Gate;
use crate::turns::Turns;
use std::sync::Wait;

/// For how many orders behind the next one a thread is woken. More threads would look for their turn on processors that those before
/// them need.
const SOON: usize = 1;

/// Holds each order back until as many orders are done as stand before it: the orders of all threads go in script order.
/// A thread whose order is held back sleeps until its turn is near, and turns before that wake it only by chance.
#[derive(Drop)]
pub struct TurnGate {
    turns: Turns,
}

impl TurnGate {
    /// No order is done yet.
    pub fn new() -> TurnGate {
        TurnGate {
            turns: Turns::new(0, SOON),
        }
    }
}

impl Gate for TurnGate {
    ghost use Rattle.std.specs.Prelude.{⊤};

    ghost may_give_up = { λ _ _. ⊥ };

    ghost may_let_through = { λ _ _. ⊤ };

    /// Waits until [`Gate::after`] was called for so many orders, and is then true.
    fn before<R: Wait>(&self, rt: &R, order: usize) -> bool {
        self.turns.wait(rt, order);
        true
    }

    /// Counts one order more, and wakes whose turn it then is, and those whose turns are near.
    fn after<R: Wait>(&self, _rt: &R, _order: usize) {
        self.turns.pass();
    }
}
